//! A quick test whether a snapshot has all that a ruling looks at. Mostly it has, and then no set of names is made.
ghost use Rattle.std.specs.Prelude.{◌≡◌, IsTrue, IfOk};
ghost use Rattle.std.specs.List.{list_all};
ghost use Rattle.album_items.specs.Values.{list_of, head_group_of, group_of_who, group_of_member};
ghost use Rattle.album_views.specs.Covering.{has_groups, has_groups_of_group, has_groups_of_list, has_subject};
ghost use Rattle.album_views.specs.Seen.{is_read, seen};
ghost use Rattle.album_views.specs.Views.{IsClosed};

use crate::asks::Ask;
use crate::read_set::{head, is_groupless, seen, subjects};
use album_eval::Principal;
use album_items::{ItemId, Kind};
use album_lists::{Ace, Member, Who};
use album_reader::Snapshot;
use std::alloc::{AllocError, Global};

/// Whether the snapshot is seen to have the read set, by a look at all of its groups. Where it has a group beside
/// the read set, this may say no of one that has it.
pub fn covers(
    alloc: Global,
    snapshot: &Snapshot,
    looker: &Option<Principal>,
    ask: &Ask,
) -> Result<bool, AllocError>
    ensures { IfOk result (λ covers. IsTrue covers → IsClosed looker.now ask.now snapshot.now) }
{
    let subjects = subjects(alloc, snapshot, ask)?;
    Ok(has_subjects(snapshot, looker, ask, &subjects) && has_groups_of_groups(snapshot))
}

/// Whether each of the subjects was read, with all that it names.
fn has_subjects(
    snapshot: &Snapshot,
    looker: &Option<Principal>,
    ask: &Ask,
    subjects: &[ItemId],
) -> bool
    ensures { result ≡ list_all (has_subject snapshot.now looker.now ask.now) subjects.now }
{
    subjects
        .iter()
        .all(|subject| has_subject(snapshot, looker, ask, *subject))
}

/// Whether the subject was read, its list, and where the owner's way isn't gone its groups.
fn has_subject(snapshot: &Snapshot, looker: &Option<Principal>, ask: &Ask, subject: ItemId) -> bool
    ensures { result ≡ has_subject snapshot.now looker.now ask.now subject }
{
    has(snapshot, subject)
        && has_list(snapshot, subject)
        && (is_groupless(snapshot, looker, ask, subject) || has_groups(snapshot, subject))
}

/// Whether the item was read.
fn has(snapshot: &Snapshot, item: ItemId) -> bool
    ensures { result ≡ is_read snapshot.now item }
{
    snapshot.at(item).is_some()
}

/// Whether the subject's list was read, if it has one.
fn has_list(snapshot: &Snapshot, subject: ItemId) -> bool
    ensures { result ≡ list_all (is_read snapshot.now) (list_of (seen snapshot.now subject)) }
{
    match head(snapshot, subject) {
        Some(head) => has(snapshot, ItemId::new(Kind::List, head.list)),
        None => true,
    }
}

/// Whether the groups were read that the subject's head names, and its list.
fn has_groups(snapshot: &Snapshot, subject: ItemId) -> bool
    ensures { result ≡ has_groups snapshot.now subject }
{
    match head(snapshot, subject) {
        Some(head) => {
            has(snapshot, ItemId::new(Kind::Group, head.group))
                && has_groups_of_list(snapshot, ItemId::new(Kind::List, head.list))
        }
        None => true,
    }
}

/// Whether the groups were read that the entries of the list name.
fn has_groups_of_list(snapshot: &Snapshot, list: ItemId) -> bool
    ensures { result ≡ has_groups_of_list snapshot.now (seen snapshot.now list) }
{
    match seen(snapshot, list) {
        Some(value) => value
            .entries()
            .iter()
            .all(|entry| has_group_of_entry(snapshot, entry)),
        None => true,
    }
}

fn has_group_of_entry(snapshot: &Snapshot, entry: &Ace) -> bool
    ensures { result ≡ list_all (is_read snapshot.now) (group_of_who entry.now.who) }
{
    match &entry.who {
        Who::Group(number) => has(snapshot, ItemId::new(Kind::Group, *number)),
        Who::User(_) | Who::Owner | Who::OwnerGroup => true,
        Who::Everyone | Who::Anonymous | Who::Authenticated => true,
    }
}

/// Whether of each item that was read the groups among its members were read.
fn has_groups_of_groups(snapshot: &Snapshot) -> bool
    ensures { result ≡ list_all (λ row. has_groups_of_group snapshot.now row.value) snapshot.now }
{
    snapshot.answers().iter().all(|answer| has_groups_of_members(
        snapshot,
        answer.value.value().members(),
    ))
}

fn has_groups_of_members(snapshot: &Snapshot, members: &[Member]) -> bool
    ensures { result ≡ list_all (λ member. list_all (is_read snapshot.now) (group_of_member member)) members.now }
{
    members
        .iter()
        .all(|member| has_group_of_member(snapshot, member))
}

fn has_group_of_member(snapshot: &Snapshot, member: &Member) -> bool
    ensures { result ≡ list_all (is_read snapshot.now) (group_of_member member.now) }
{
    match member {
        Member::Group(number) => has(snapshot, ItemId::new(Kind::Group, *number)),
        Member::User(_) => true,
    }
}
