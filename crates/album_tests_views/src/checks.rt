//! Calls of `Ask::check` that no line reaches, and copies of asks (docs/PROTOCOL.md, "Asks"). Which kinds of objects
//! each ask allows is shown by lines, in `rows/replay/kinds_of_objects.jsonl`: add such a test there.
use crate::asks::{Verb, add_group, ask_of, set_members, share};
use album_eval::Principal;
use album_items::{ItemId, Kind};
use album_stamps::Refusal;
use album_views::Ask;
use std::alloc::Global;

fn members_checked(alloc: Global, len: u64) -> Result<(), Refusal> {
    let ask = set_members(alloc, ItemId::new(Kind::Group, 1), len)?;
    let checked = ask.check(&Principal::Anonymous);
    drop(ask);
    checked
}

/// 129 members in a line are refused as it is read: only a call reaches this test.
#[test]
fn a_group_has_128_members_at_most(rt: HostRuntime) {
    assert_eq!(rt; members_checked(rt.alloc(), 129), Err(Refusal::ListFull));
}

fn group_checked(alloc: Global, len: u64) -> Result<(), Refusal> {
    let ask = add_group(alloc, ItemId::new(Kind::Album, 1), len)?;
    let checked = ask.check(&Principal::Anonymous);
    drop(ask);
    checked
}

/// So has a new group. Whether somebody without a name may make one is tested after that.
#[test]
fn a_new_group_has_128_members_at_most(rt: HostRuntime) {
    assert_eq!(rt; group_checked(rt.alloc(), 128), Err(Refusal::NoOwner));
    assert_eq!(rt; group_checked(rt.alloc(), 129), Err(Refusal::ListFull));
}

fn share_checked(alloc: Global, len: u64) -> Result<(), Refusal> {
    let ask = share(alloc, ItemId::new(Kind::Group, 1), len)?;
    let checked = ask.check(&Principal::Anonymous);
    drop(ask);
    checked
}

/// So has a group of a share. Its own list is set too: it is named twice, and may be.
#[test]
fn a_group_of_a_share_has_128_members_at_most(rt: HostRuntime) {
    assert_eq!(rt; share_checked(rt.alloc(), 128), Ok(()));
    assert_eq!(rt; share_checked(rt.alloc(), 129), Err(Refusal::ListFull));
}

/// What is asked of one item.
const VERBS: &[Verb] = &[
    Verb::Read,
    Verb::List,
    Verb::GetList,
    Verb::Head,
    Verb::Children,
    Verb::AddPicture,
    Verb::AddAlbum,
    Verb::AddGroup,
    Verb::Retitle,
    Verb::Replace,
    Verb::Delete,
    Verb::Move,
    Verb::MoveTo,
    Verb::SetLists,
    Verb::SetOwner,
    Verb::SetMembers,
    Verb::Share,
];

/// The text of the whole ask.
fn text_of(alloc: Global, ask: &Ask) -> Result<String, Refusal> {
    Ok(format!(in alloc; "{ask:?}")?)
}

/// Whether the texts of the two are the same.
fn are_same(alloc: Global, ask: &Ask, other: &Ask) -> Result<bool, Refusal> {
    let text_of_ask = text_of(alloc, ask)?;
    let text_of_other = text_of(alloc, other)?;
    Ok(text_of_ask == text_of_other)
}

/// Whether a copy of the ask has the same text as the ask.
fn copies(alloc: Global, ask: &Ask) -> Result<bool, Refusal> {
    let copy = ask.copy()?;
    let are_same = are_same(alloc, ask, &copy);
    drop(copy);
    are_same
}

/// The same, of the ask of this item.
fn copies_of(alloc: Global, verb: Verb, text: &str) -> Result<bool, Refusal> {
    let ask = ask_of(alloc, verb, text)?;
    let copies = copies(alloc, &ask);
    drop(ask);
    copies
}

/// A copy is the same ask.
#[test]
fn copies_of_asks(rt: HostRuntime) {
    for verb in VERBS {
        assert_eq!(rt; copies_of(rt.alloc(), *verb, "album/3"), Ok(true));
    }
}
