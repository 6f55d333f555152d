//! The groups that a principal is in.
ghost use Rattle.std.specs.Prelude.{◌≡◌, ◌↔◌, ◌==◌, ◌++◌, [], ◌∷◌, ℕ, IsTrue, IfOk, IsOkUnless, Contains, if◌then◌else◌};
ghost use Rattle.std.specs.List.{list_any};
ghost use Rattle.std.specs.Ordering.{nat_cmp};
ghost use Rattle.std.specs.BTreeSet as set;
ghost use Rattle.album_lists.specs.declared.whos.Member.TheVariants as member;
ghost use Rattle.album_eval.specs.Groups.{IsIn, IsMember, listed_in, outer_in, names_user};

use crate::facts::Principal;
use album_lists::{Member, Name};
use album_stamps::Refusal;
use std::alloc::{AllocError, Global};
use std::collections::{BTreeMap, BTreeSet};

/// The groups that the principal is in, by name or through groups in groups. A group that is
/// missing lists nobody.
///
/// # Errors
///
/// `OutOfMemory`.
pub fn members(
    alloc: Global,
    groups: &BTreeMap<u64, Vec<Member>>,
    principal: &Principal,
) -> Result<BTreeSet<u64>, Refusal>
    ensures exact { IfOk result (λ found. (group : ℕ)
        → IsTrue (set.contains nat_cmp found group) ↔ IsMember (listed_in groups.now) principal.now group) }
    ensures memory { IsOkUnless result Refusal.OutOfMemory }
{
    match principal {
        Principal::Anonymous => Ok(BTreeSet::new(alloc)),
        Principal::User(user) | Principal::Root(user) => Ok(groups_of(alloc, groups, user)?),
    }
}

/// The groups that the user is in. Each is put on the worklist once, when it is found.
fn groups_of(
    alloc: Global,
    groups: &BTreeMap<u64, Vec<Member>>,
    user: &Name,
) -> Result<BTreeSet<u64>, AllocError>
    ensures { IfOk result (λ found. (group : ℕ)
        → IsTrue (set.contains nat_cmp found group) ↔ IsIn (listed_in groups.now) user.now group) }
{
    let mut worklist = groups_by_name(alloc, groups, user)?;
    let mut found = BTreeSet::new(alloc);
    for number in &worklist {
        found.insert(*number)?;
    }
    if worklist.is_empty() {
        return Ok(found);
    }
    let outer = outer_groups(alloc, groups)?;
    while let Some(inner) = worklist.pop() {
        for other in outer_of(&outer, inner) {
            if found.insert(*other)? {
                worklist.push(*other)?;
            }
        }
    }
    Ok(found)
}

/// The groups that list the user by name.
fn groups_by_name(
    alloc: Global,
    groups: &BTreeMap<u64, Vec<Member>>,
    user: &Name,
) -> Result<Vec<u64>, AllocError>
    ensures { IfOk result (λ numbers. (group : ℕ)
        → Contains numbers.items group ↔ Contains (listed_in groups.now group) (member.User user.now)) }
{
    groups
        .iter()
        .filter(|(_, members)| has_user(members, user))
        .map(|(number, _)| *number)
        .collect(alloc)
}

/// Whether the user is one of the members.
fn has_user(members: &Vec<Member>, user: &Name) -> bool
    ensures { result ≡ list_any (names_user user.now) members.now.items }
{
    members
        .as_slice()
        .iter()
        .any(|member| names_user(member, user))
}

fn names_user(member: &Member, user: &Name) -> bool
    ensures { result ≡ names_user user.now member.now }
{
    match member {
        Member::User(name) => name.as_str() == user.as_str(),
        Member::Group(_) => false,
    }
}

/// For each group that is listed in another, the groups that list it.
fn outer_groups(
    alloc: Global,
    groups: &BTreeMap<u64, Vec<Member>>,
) -> Result<BTreeMap<u64, Vec<u64>>, AllocError>
    ensures { IfOk result (λ outer. (inner group : ℕ)
        → Contains (outer_in outer inner) group ↔ Contains (listed_in groups.now group) (member.Group inner)) }
{
    let mut outer = BTreeMap::new(alloc);
    for (number, members) in groups {
        for member in members.as_slice() {
            match member {
                Member::User(_) => {}
                Member::Group(inner) => add_outer(alloc, &mut outer, *inner, *number)?,
            }
        }
    }
    Ok(outer)
}

/// Adds a group that lists the inner one.
fn add_outer(
    alloc: Global,
    outer: &mut BTreeMap<u64, Vec<u64>>,
    inner: u64,
    number: u64,
) -> Result<(), AllocError>
    ensures { IfOk result (λ _. (group : ℕ) → outer_in outer.new group
        ≡ (if inner == group then outer_in outer.old group ++ number ∷ [] else outer_in outer.old group)) }
{
    outer.entry(inner)?.or_insert(Vec::new(alloc)).push(number)?;
    Ok(())
}

/// The groups that list this one.
fn outer_of(outer: &BTreeMap<u64, Vec<u64>>, number: u64) -> &[u64]
    ensures { result.now ≡ outer_in outer.now number }
{
    match outer.get(&number) {
        Some(numbers) => numbers.as_slice(),
        None => &[],
    }
}
