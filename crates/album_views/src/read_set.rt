//! The items that a ruling looks at.
ghost use Rattle.std.specs.Prelude.{◌≡◌, ◌==◌, ◌++◌, [], ◌∷◌, Some, None, option_to_list, IfOk, OnOk, IsOkUnless, MatchOption};
ghost use Rattle.std.specs.List.{flat_map};
ghost use Rattle.std.specs.Option.{option_copied};
ghost use Rattle.indexmap.specs.IndexSet.{insert_all};
ghost use Rattle.album_items.specs.Values.{head_of, home_of, children_of, list_of, group_of_who, group_of_member, groups_in_list, groups_in_group};
ghost use Rattle.album_items.specs.declared.values.Value.TheVariants.{Missing};
ghost use Rattle.album_views.specs.Asks.{once};
ghost use Rattle.album_views.specs.ReadSets.{relatives_of, subjects_of, named_by_head, named_by_list, first_names, names_of, looker_of, is_groupless, is_owned_by};
ghost use Rattle.album_views.specs.Seen.{seen};

use crate::asks::Ask;
use crate::deeds::Relatives;
use album_eval::{Policy, Principal};
use album_items::{Head, ItemId, Kind, Value};
use album_lists::{Ace, Member, Who};
use album_reader::Snapshot;
use album_stamps::Refusal;
use indexmap::IndexSet;
use std::alloc::{AllocError, Global};

/// The items that a ruling on the ask looks at, each once, as far as the snapshot shows them: the
/// objects, the home of a picture that is deleted or moved, the children of an album that is listed; of
/// each of these the list and the head group; the groups that the entries of each such list name; and
/// the groups among the members of each group. Where the owner's way is gone to an object, no group is
/// among them for it.
///
/// # Errors
///
/// `OutOfMemory`.
pub fn names(
    alloc: Global,
    snapshot: &Snapshot,
    looker: &Option<Principal>,
    ask: &Ask,
) -> Result<Vec<ItemId>, Refusal>
    ensures names { IfOk result (λ names. names.items ≡ names_of snapshot.now looker.now ask.now) }
    ensures memory { IsOkUnless result Refusal.OutOfMemory }
{
    let mut names = first_names(alloc, snapshot, looker, ask)?;
    // The names are their own worklist: each is looked at once, in order, also one that is added here. (A `for`,
    // since it wants no measure of what is left; no set is that long.)
    for index in 0..usize::MAX {
        let Some(item) = names.get_index(index) else {
            break;
        };
        let item = *item;
        add_groups_in_group(&mut names, snapshot, item)?;
    }
    Ok(Vec::from_slice(alloc, names.as_slice())?)
}

/// The names but for the groups among the members of groups.
#[tactic(auto, unfolding(crate::specs::ReadSets::first_names))]
fn first_names(
    alloc: Global,
    snapshot: &Snapshot,
    looker: &Option<Principal>,
    ask: &Ask,
) -> Result<IndexSet<ItemId>, AllocError>
    ensures { IfOk result (λ names. names.keys ≡ once (first_names (seen snapshot.now) looker.now ask.now)) }
{
    let subjects = subjects(alloc, snapshot, ask)?;
    let mut names: IndexSet<ItemId> = subjects.iter().copied().collect(alloc)?;
    add_heads(&mut names, snapshot, looker, ask, &subjects)?;
    add_groups_in_lists(&mut names, snapshot, looker, ask, &subjects)?;
    Ok(names)
}

/// What is ruled on: the objects of the ask, and the home or the children that it looks at.
pub(crate) fn subjects(
    alloc: Global,
    snapshot: &Snapshot,
    ask: &Ask,
) -> Result<Vec<ItemId>, AllocError>
    ensures { IfOk result (λ subjects. subjects.items ≡ subjects_of (seen snapshot.now) ask.now) }
{
    let mut subjects = ask.objects(alloc)?;
    add_relatives(&mut subjects, snapshot, ask)?;
    Ok(subjects)
}

fn add_relatives(
    subjects: &mut Vec<ItemId>,
    snapshot: &Snapshot,
    ask: &Ask,
) -> Result<(), AllocError>
    ensures { OnOk result (subjects.new.items ≡ subjects.old.items ++ relatives_of (seen snapshot.now) ask.now) }
{
    match ask.relatives() {
        Relatives::None => Ok(()),
        Relatives::HomeOf(picture) => add_home(subjects, snapshot, picture),
        Relatives::ChildrenOf(album) => add_children(subjects, snapshot, album),
    }
}

fn add_home(
    subjects: &mut Vec<ItemId>,
    snapshot: &Snapshot,
    picture: ItemId,
) -> Result<(), AllocError>
    ensures { OnOk result (subjects.new.items ≡ subjects.old.items ++ home_of (seen snapshot.now picture)) }
{
    if let Some(value) = seen(snapshot, picture) {
        if let Some(home) = value.home() {
            subjects.push(home)?;
        }
    }
    Ok(())
}

fn add_children(
    subjects: &mut Vec<ItemId>,
    snapshot: &Snapshot,
    album: ItemId,
) -> Result<(), AllocError>
    ensures { OnOk result (subjects.new.items ≡ subjects.old.items ++ children_of (seen snapshot.now album)) }
{
    if let Some(value) = seen(snapshot, album) {
        subjects.extend_from_slice(value.children())?;
    }
    Ok(())
}

/// Adds of each subject the list and the group that its head names.
fn add_heads(
    names: &mut IndexSet<ItemId>,
    snapshot: &Snapshot,
    looker: &Option<Principal>,
    ask: &Ask,
    subjects: &[ItemId],
) -> Result<(), AllocError>
    ensures { OnOk result (names.new.keys
        ≡ insert_all ◌==◌ names.old.keys
        (flat_map (named_by_head (seen snapshot.now) looker.now ask.now) subjects.now)) }
{
    for subject in subjects {
        if let Some(head) = head(snapshot, *subject) {
            names.insert(ItemId::new(Kind::List, head.list))?;
            if !is_groupless(snapshot, looker, ask, *subject) {
                names.insert(ItemId::new(Kind::Group, head.group))?;
            }
        }
    }
    Ok(())
}

/// Adds of each subject the groups that its list's entries name.
fn add_groups_in_lists(
    names: &mut IndexSet<ItemId>,
    snapshot: &Snapshot,
    looker: &Option<Principal>,
    ask: &Ask,
    subjects: &[ItemId],
) -> Result<(), AllocError>
    ensures { OnOk result (names.new.keys
        ≡ insert_all ◌==◌ names.old.keys
        (flat_map (named_by_list (seen snapshot.now) looker.now ask.now) subjects.now)) }
{
    for subject in subjects {
        if !is_groupless(snapshot, looker, ask, *subject) {
            add_groups_in_list_of(names, snapshot, *subject)?;
        }
    }
    Ok(())
}

/// Adds the groups that the entries of the subject's list name.
fn add_groups_in_list_of(
    names: &mut IndexSet<ItemId>,
    snapshot: &Snapshot,
    subject: ItemId,
) -> Result<(), AllocError>
    ensures { OnOk result (names.new.keys ≡ insert_all ◌==◌ names.old.keys
        (flat_map (λ list. groups_in_list (seen snapshot.now list)) (list_of (seen snapshot.now subject)))) }
{
    if let Some(head) = head(snapshot, subject) {
        if let Some(list) = seen(snapshot, ItemId::new(Kind::List, head.list)) {
            add_groups_in_entries(names, list.entries())?;
        }
    }
    Ok(())
}

/// Who looks: the principal who asks, where the policy has the owner's way.
///
/// # Errors
///
/// `OutOfMemory`.
pub fn looker(policy: Policy, principal: &Principal) -> Result<Option<Principal>, Refusal>
    ensures looker { IfOk result (λ looker. looker ≡ looker_of policy principal.now) }
    ensures memory { IsOkUnless result Refusal.OutOfMemory }
{
    if policy.has_owners_way() {
        Ok(Some(principal.copy()?))
    } else {
        Ok(None)
    }
}

/// Whether the owner's way is gone to the subject, so that no group is looked at for it.
pub(crate) fn is_groupless(
    snapshot: &Snapshot,
    looker: &Option<Principal>,
    ask: &Ask,
    subject: ItemId,
) -> bool
    ensures { result ≡ is_groupless (seen snapshot.now) looker.now ask.now subject }
{
    match looker {
        Some(principal) => {
            is_owned_by(snapshot, principal, subject) && ask.needs_list_alone(subject)
        }
        None => false,
    }
}

/// Whether the principal is the owner of the item, if it is there, or root.
fn is_owned_by(snapshot: &Snapshot, principal: &Principal, item: ItemId) -> bool
    ensures { result ≡ is_owned_by principal.now (seen snapshot.now item) }
{
    match head(snapshot, item) {
        Some(head) => principal.owns(&head.owner),
        None => false,
    }
}

/// Adds the groups that the entries name.
fn add_groups_in_entries(names: &mut IndexSet<ItemId>, entries: &[Ace]) -> Result<(), AllocError>
    ensures { OnOk result (names.new.keys
        ≡ insert_all ◌==◌ names.old.keys (flat_map (λ entry. group_of_who entry.who) entries.now)) }
{
    for entry in entries {
        if let Who::Group(number) = &entry.who {
            names.insert(ItemId::new(Kind::Group, *number))?;
        }
    }
    Ok(())
}

/// Adds the groups among the members of the item.
fn add_groups_in_group(
    names: &mut IndexSet<ItemId>,
    snapshot: &Snapshot,
    item: ItemId,
) -> Result<(), AllocError>
    ensures { OnOk result (names.new.keys
        ≡ insert_all ◌==◌ names.old.keys (groups_in_group (seen snapshot.now item))) }
{
    match seen(snapshot, item) {
        Some(value) => add_groups_in_members(names, value.members()),
        None => Ok(()),
    }
}

fn add_groups_in_members(names: &mut IndexSet<ItemId>, members: &[Member]) -> Result<(), AllocError>
    ensures { OnOk result (names.new.keys
        ≡ insert_all ◌==◌ names.old.keys (flat_map group_of_member members.now)) }
{
    for member in members {
        if let Member::Group(number) = member {
            names.insert(ItemId::new(Kind::Group, *number))?;
        }
    }
    Ok(())
}

/// The head of the item, if it is there and has one.
pub(crate) fn head(snapshot: &Snapshot, item: ItemId) -> Option<&Head>
    ensures { option_copied result ≡ head_of (seen snapshot.now item) }
{
    match seen(snapshot, item) {
        Some(value) => value.head(),
        None => None,
    }
}

/// The value of the item, if it was read.
#[tactic(auto, unfolding(crate::specs::Seen::seen))]
pub(crate) fn seen(snapshot: &Snapshot, item: ItemId) -> Option<&Value>
    ensures { MatchOption result
        (seen snapshot.now item ≡ Missing)
        (λ value. value.now ≡ seen snapshot.now item) }
{
    // (a `?` on an option that holds a reference isn't covered)
    match snapshot.at(item) {
        Some((_, value)) => Some(value),
        None => None,
    }
}
