//! The groups that a principal is in, by the groups that a view shows.
ghost use Rattle.std.specs.Prelude.{◌≡◌, ◌==◌, ℕ, filter, IfOk, OnOk, IsOkUnless, if◌then◌else◌};
ghost use Rattle.album_eval.specs.Groups.{listed_in};
ghost use Rattle.album_items.specs.Values.{members_of};
ghost use Rattle.album_views.specs.Seen.{seen};
ghost use Rattle.album_listing.specs.Basis.{members_seen};
ghost use Rattle.album_listing.specs.GroupsFound.{may_bring_in};
ghost use Rattle.album_listing.specs.RulingContexts.{IsSetOfGroups};

use album_eval::{Principal, members};
use album_items::{ItemId, Kind};
use album_lists::Member;
use album_stamps::Refusal;
use album_views::View;
use std::alloc::{AllocError, Global};
use std::collections::{BTreeMap, BTreeSet};

/// The numbers of the groups that the principal is in. They are the same for all that is ruled on one view.
///
/// # Errors
///
/// `OutOfMemory`.
pub fn groups_in(
    alloc: Global,
    view: &View,
    principal: &Principal,
) -> Result<BTreeSet<u64>, Refusal>
    ensures groups { IfOk result (IsSetOfGroups view.now.rows principal.now) }
    ensures memory { IsOkUnless result Refusal.OutOfMemory }
{
    let listed = listed_in(alloc, view, principal)?;
    let groups = members(alloc, &listed, principal)?;
    Ok(groups)
}

/// The members of each group that the view shows, as far as they may bring the principal in.
fn listed_in(
    alloc: Global,
    view: &View,
    principal: &Principal,
) -> Result<BTreeMap<u64, Vec<Member>>, AllocError>
    ensures { IfOk result (λ groups. (number : ℕ) → listed_in groups number
        ≡ filter (may_bring_in principal.now) (members_seen (seen view.now.rows) number)) }
{
    let mut groups = BTreeMap::new(alloc);
    for item in view.items() {
        match item.kind() {
            Kind::Group => {
                let members = copies(alloc, members_at(view, *item), principal)?;
                add_group(&mut groups, item.number(), members)?;
            }
            Kind::Picture | Kind::Album | Kind::List => {}
        }
    }
    Ok(groups)
}

/// The members of a group that was read.
#[tactic(auto, unfolding(album_views::specs::Seen::seen))]
fn members_at(view: &View, group: ItemId) -> &[Member]
    ensures { result.now ≡ members_of (seen view.now.rows group) }
{
    match view.at(group) {
        Some((_, value)) => value.members(),
        None => &[],
    }
}

/// Lets the group have these members.
fn add_group(
    groups: &mut BTreeMap<u64, Vec<Member>>,
    number: u64,
    members: Vec<Member>,
) -> Result<(), AllocError>
    ensures { OnOk result ((other : ℕ)
        → listed_in groups.new other ≡ (if number == other then members.items else listed_in groups.old other)) }
{
    groups.insert(number, members)?;
    Ok(())
}

/// Those of the members once more that may bring the principal in. Of a group's users most are others, and a copy of
/// each would cost more than the ruling.
fn copies(
    alloc: Global,
    members: &[Member],
    principal: &Principal,
) -> Result<Vec<Member>, AllocError>
    ensures { IfOk result (λ copies. copies.items ≡ filter (may_bring_in principal.now) members.now) }
{
    let mut copies = Vec::new(alloc);
    for member in members {
        if may_bring_in(member, principal) {
            copies.push(member.clone()?)?;
        }
    }
    Ok(copies)
}

/// Whether the member is the principal, or a group.
fn may_bring_in(member: &Member, principal: &Principal) -> bool
    ensures { result ≡ may_bring_in principal.now member.now }
{
    match member {
        Member::User(name) => principal.is_user(name),
        Member::Group(_) => true,
    }
}
