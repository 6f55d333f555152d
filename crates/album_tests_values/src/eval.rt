//! Groups, verdicts under the second policy, and who takes note of a request (docs/FORMATS.md, "Whos" and "Flags").
use crate::lists::{Rows, list_of};
use album_access::{AceType, Mask};
use album_eval::{Facts, Policy, Principal, Verdict, audits, evaluate, members};
use album_lists::{AccessList, Member, Name};
use album_stamps::Refusal;
use std::alloc::Global;
use std::collections::{BTreeMap, BTreeSet};

/// Groups, each with its one member.
const GROUPS: &[(u64, &str)] = &[(7, "8@groups"), (8, "amy@users"), (9, "bo@users")];

/// A list of one member.
fn one(alloc: Global, member: Member) -> Result<Vec<Member>, Refusal> {
    let mut members = Vec::new(alloc);
    members.push(member)?;
    Ok(members)
}

fn groups(alloc: Global) -> Result<BTreeMap<u64, Vec<Member>>, Refusal> {
    let mut groups = BTreeMap::new(alloc);
    for (number, member) in GROUPS {
        groups.insert(*number, one(alloc, Member::read(member)?)?)?;
    }
    Ok(groups)
}

/// Whether the groups 7, 8 and 9 have the principal in them.
fn have(alloc: Global, principal: &Principal) -> Result<(bool, bool, bool), Refusal> {
    let groups = groups(alloc)?;
    let found = members(alloc, &groups, principal)?;
    Ok((found.contains(&7), found.contains(&8), found.contains(&9)))
}

/// Whether they have a copy of the user in them.
fn have_user(alloc: Global, user: &str) -> Result<(bool, bool, bool), Refusal> {
    let principal = Principal::read(user)?;
    let copy = principal.copy()?;
    let have = have(alloc, &copy);
    drop(copy);
    have
}

/// Each user, and which of the groups have the user in them.
const USERS: &[(&str, (bool, bool, bool))] = &[
    ("amy@users", (true, true, false)),
    ("ANONYMOUS@", (false, false, false)),
];

#[test]
fn groups_in_groups(rt: HostRuntime) {
    for (user, have) in USERS {
        assert_eq!(rt; have_user(rt.alloc(), user), Ok(*have));
    }
}

/// What the last group of a circle lists: amy and the first.
fn last_members(alloc: Global) -> Result<Vec<Member>, Refusal> {
    let mut members = one(alloc, Member::User(Name::of("amy")?))?;
    members.push(Member::Group(1))?;
    Ok(members)
}

/// So many groups. Each lists the next one, and the last lists amy and the first.
fn circle(alloc: Global, len: u64) -> Result<BTreeMap<u64, Vec<Member>>, Refusal> {
    let mut groups = BTreeMap::new(alloc);
    for number in 1..len {
        groups.insert(number, one(alloc, Member::Group(number + 1))?)?;
    }
    groups.insert(len, last_members(alloc)?)?;
    Ok(groups)
}

/// How many groups of a circle have amy in them.
fn found_in_a_circle(alloc: Global, len: u64) -> Result<usize, Refusal> {
    let amy = Principal::read("amy@users")?;
    let found = members(alloc, &circle(alloc, len)?, &amy)?;
    Ok(found.len())
}

#[test]
fn many_groups(rt: HostRuntime) {
    assert_eq!(rt; found_in_a_circle(rt.alloc(), 2600), Ok(2600));
}

/// A list that denies its owner reading it, and READ_DATA.
const DENYING: Rows = &[(AceType::Denied, "OWNER@", 131_073, 0)];

/// What amy asks of her own object: the policy, the list, the mask, and the verdict.
const OWN: &[(u64, Rows, u32, Verdict)] = &[
    (2, &[], 131_072, Verdict::Granted),
    (1, &[], 131_072, Verdict::DeniedAtEnd),
    (2, &[], 131_073, Verdict::DeniedAtEnd),
    (2, DENYING, 131_073, Verdict::DeniedBy(0)),
    (2, DENYING, 131_072, Verdict::Granted),
    (3, &[], 131_072, Verdict::Granted),
    (3, DENYING, 131_073, Verdict::DeniedBy(0)),
    (3, DENYING, 131_072, Verdict::Granted),
];

/// What is asked of an object of amy's.
fn facts<'a>(
    policy: Policy,
    principal: &'a Principal,
    owner: &'a Name,
    groups: &'a BTreeSet<u64>,
) -> Facts<'a> {
    Facts {
        policy,
        principal,
        owner,
        head_group: 0,
        groups,
    }
}

/// The verdict of the list on amy's request for her own object.
fn verdict(
    alloc: Global,
    policy: Policy,
    list: &AccessList,
    mask: Mask,
) -> Result<Verdict, Refusal> {
    let owner = Name::of("amy")?;
    let who = Principal::read("amy@users")?;
    let groups = BTreeSet::new(alloc);
    let verdict = evaluate(list, &facts(policy, &who, &owner, &groups), mask);
    drop(who);
    Ok(verdict)
}

/// The same, of the list of these entries.
fn own_verdict(alloc: Global, policy: Policy, rows: Rows, mask: u32) -> Result<Verdict, Refusal> {
    let mask = Mask::of(mask)?;
    let list = list_of(alloc, rows)?;
    let verdict = verdict(alloc, policy, &list, mask);
    drop(list);
    verdict
}

#[test]
fn owner_is_given_her_list(rt: HostRuntime) {
    for (number, rows, mask, verdict) in OWN {
        let policy = Policy::of(*number).unwrap_or(Policy::One);
        assert_eq!(rt; own_verdict(rt.alloc(), policy, *rows, *mask), Ok(*verdict));
    }
}

#[test]
fn three_policies(rt: HostRuntime) {
    let others = (Policy::of(0), Policy::of(4));
    assert_eq!(rt; others, (None, None));
}

const NOTING: Rows = &[
    (AceType::Alarm, "EVERYONE@", 65536, 32),
    (AceType::Audit, "bo@users", 1, 48),
    (AceType::Allowed, "EVERYONE@", 1, 0),
];

/// The index, where there is one alone.
fn single(indexes: &[usize]) -> Option<usize> {
    match indexes {
        [index] => Some(*index),
        _ => None,
    }
}

/// A request, and whether it was granted.
#[derive(Clone, Copy)]
struct Request {
    mask: Mask,
    success: bool,
}

/// The index of the one entry of the list that takes note of the request.
fn noted_by(
    alloc: Global,
    list: &AccessList,
    facts: &Facts,
    request: Request,
) -> Result<Option<usize>, Refusal> {
    let indexes = audits(alloc, list, facts, request.mask, request.success)?;
    Ok(single(&indexes))
}

/// The same, where bo asks for an object of amy's.
fn noted_of_bo(
    alloc: Global,
    list: &AccessList,
    request: Request,
) -> Result<Option<usize>, Refusal> {
    let amy = Name::of("amy")?;
    let bo = Principal::read("bo@users")?;
    let groups = BTreeSet::new(alloc);
    let noted = noted_by(
        alloc,
        list,
        &facts(Policy::One, &bo, &amy, &groups),
        request,
    );
    drop(bo);
    noted
}

/// The same, of the list that takes note.
fn noted(alloc: Global, mask: Mask, success: bool) -> Result<Option<usize>, Refusal> {
    let list = list_of(alloc, NOTING)?;
    let noted = noted_of_bo(alloc, &list, Request { mask, success });
    drop(list);
    noted
}

/// What is asked, whether it was granted, and the index of the entry that takes note of it.
const NOTED: &[(Mask, bool, usize)] = &[(Mask::READ_DATA, true, 1), (Mask::DELETE, false, 0)];

#[test]
fn alarm_and_audit(rt: HostRuntime) {
    for (mask, success, index) in NOTED {
        assert_eq!(rt; noted(rt.alloc(), *mask, *success), Ok(Some(*index)));
    }
}
