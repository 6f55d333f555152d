//! What root has on what others own (docs/PROTOCOL.md, "Rulings").
use crate::asks::{Verb, ask_of};
use crate::ruling::permit_on;
use crate::store::{ALLOW, Is, Store, item_of, snapshot};
use crate::viewing::view_of;
use album_access::AceType;
use album_eval::{Policy, Principal};
use album_items::Items;
use album_lists::Name;
use album_permits::Permit;
use album_reader::Snapshot;
use album_stamps::Refusal;
use album_views::{Ask, names};
use std::alloc::Global;

const DENY: AceType = AceType::Denied;

/// The flag of an entry for a group.
const GROUP: u32 = 64;

/// Pictures of amy's. The list of picture/0 is for its owner, that of picture/1 for all but its owner, that of
/// picture/2 for eight groups.
const STORE: Store = &[
    ("picture/0", Is::Picture(0)),
    ("list/0", Is::List(&[(ALLOW, "OWNER@", 1, 0)])),
    ("picture/1", Is::Picture(1)),
    (
        "list/1",
        Is::List(&[(DENY, "OWNER@", 1, 0), (ALLOW, "EVERYONE@", 1, 0)]),
    ),
    ("picture/2", Is::Picture(2)),
    (
        "list/2",
        Is::List(&[
            (ALLOW, "1@groups", 1, GROUP),
            (ALLOW, "2@groups", 1, GROUP),
            (DENY, "3@groups", 1, GROUP),
            (DENY, "4@groups", 1, GROUP),
            (ALLOW, "5@groups", 1, GROUP),
            (ALLOW, "6@groups", 1, GROUP),
            (ALLOW, "7@groups", 1, GROUP),
            (ALLOW, "8@groups", 1, GROUP),
        ]),
    ),
];

/// zed, as it acts where this user is root.
fn zed(root: &str) -> Result<Principal, Refusal> {
    let root = Some(Name::of(root)?);
    let user = Principal::read("zed@users")?;
    Ok(user.acting(&root))
}

/// The permit for zed's ask of the item.
fn permit(alloc: Global, root: &str, verb: Verb, text: &str) -> Result<Permit, Refusal> {
    let zed = zed(root)?;
    let ask = ask_of(alloc, verb, text)?;
    let view = view_of(alloc, STORE, ask, &zed)?;
    permit_on(alloc, view, &zed, Policy::One)
}

/// Whether zed may read the picture: `Clash`, if not.
fn reads(alloc: Global, root: &str, text: &str) -> Result<(), Refusal> {
    let permit = permit(alloc, root, Verb::Read, text)?;
    drop(permit.give_back());
    Ok(())
}

/// Who is root, the picture, and whether zed may read it.
const READ: &[(&str, &str, Result<(), Refusal>)] = &[
    ("zed", "picture/0", Ok(())),
    ("bo", "picture/0", Err(Refusal::Clash)),
    ("zed", "picture/1", Err(Refusal::Clash)),
    ("bo", "picture/1", Ok(())),
];

/// What a list says of its owner, it says of root.
#[test]
fn owners_entries_are_roots(rt: HostRuntime) {
    for (root, text, may) in READ {
        assert_eq!(rt; reads(rt.alloc(), root, text), *may);
    }
}

/// A snapshot of picture/2 and its list.
fn shown(alloc: Global) -> Result<Snapshot, Refusal> {
    let mut items = Vec::new(alloc);
    items.push(item_of("picture/2")?)?;
    items.push(item_of("list/2")?)?;
    let items = Items::of(items);
    let shown = snapshot(alloc, STORE, &items);
    drop(items);
    shown
}

/// How many items a ruling by policy 3 on zed's ask looks at, by that snapshot.
fn count(alloc: Global, root: &str, ask: &Ask) -> Result<usize, Refusal> {
    let looker = Some(zed(root)?);
    let shown = shown(alloc)?;
    let names = names(alloc, &shown, &looker, ask);
    drop(shown);
    drop(looker);
    let names = names?;
    Ok(names.len())
}

/// The same, where it asks this of picture/2.
fn looked_at(alloc: Global, root: &str, verb: Verb) -> Result<usize, Refusal> {
    let ask = ask_of(alloc, verb, "picture/2")?;
    let count = count(alloc, root, &ask);
    drop(ask);
    count
}

/// Of a list that names eight groups, root reads and sets it without a look at them, nor at the head group.
#[test]
fn root_looks_at_no_group_for_a_list(rt: HostRuntime) {
    assert_eq!(rt; looked_at(rt.alloc(), "zed", Verb::GetList), Ok(2));
    assert_eq!(rt; looked_at(rt.alloc(), "zed", Verb::SetLists), Ok(2));
    assert_eq!(rt; looked_at(rt.alloc(), "bo", Verb::SetLists), Ok(11));
}

/// For what it reads of the picture itself it looks at them, as its owner does.
#[test]
fn root_looks_at_groups_for_a_picture(rt: HostRuntime) {
    assert_eq!(rt; looked_at(rt.alloc(), "zed", Verb::Read), Ok(11));
}
