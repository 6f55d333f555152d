//! Calls that are refused for want of memory (docs/PROTOCOL.md, "Rulings"): what they hand back is what they were
//! given, and a call that is made with it once more does what one does that is not refused. doubt/memory refuses each
//! allocation of these tests in turn; where none is, they show the answers alone.
ghost use Rattle.std.specs.Prelude.{◌≡◌, false};
ghost use Rattle.album_views.specs.Asks.{is_write};

use crate::asks::Verb;
use crate::ruling::permit_of;
use crate::store::{ALLOW, AMY, Is, Store};
use album_permits::{Attributes, Permit, Served};
use album_stamps::{Refusal, Refused};
use std::alloc::Global;
use std::fmt::Debug;

/// The text of the whole value, or that there was no memory for it.
pub fn whole_text<T: Debug>(alloc: Global, value: &T) -> Result<String, Refusal> {
    Ok(format!(in alloc; "{value:?}")?)
}

/// Whether the value is what it was when this text was made of it.
pub fn is_as_before<T: Debug>(alloc: Global, value: &T, before: &Result<String, Refusal>) -> bool {
    match (before, whole_text(alloc, value)) {
        (Ok(before), Ok(now)) => now == *before,
        _ => false,
    }
}

/// amy's picture, whose list lets her do anything, and others read; and an album of hers, with all the children that it
/// may have.
const STORE: Store = &[
    ("picture/0", Is::Picture(0)),
    (
        "list/0",
        Is::List(&[
            (ALLOW, "OWNER@", 2_032_127, 0),
            (ALLOW, "EVERYONE@", 129, 0),
        ]),
    ),
    ("album/0", Is::Album(1)),
    ("list/1", Is::List(&[(ALLOW, "OWNER@", 1, 0)])),
];

/// The refusal; the permit is given back.
pub fn given_back(permit: Permit, refusal: Refusal) -> Refusal {
    drop(permit.give_back());
    refusal
}

/// What the permit's ask is served; once more, where that was refused.
fn serve(alloc: Global, permit: Permit) -> Result<Served, Refusal>
    requires { is_write permit.view.ask ≡ false }
{
    let before = whole_text(alloc, &permit);
    match permit.serve(alloc) {
        Ok(served) => Ok(served),
        Err(Refused { refusal: _, given }) => serve_again(alloc, given, &before),
    }
}

fn serve_again(
    alloc: Global,
    permit: Permit,
    before: &Result<String, Refusal>,
) -> Result<Served, Refusal>
    requires { is_write permit.view.ask ≡ false }
{
    if !is_as_before(alloc, &permit, before) {
        return Err(given_back(permit, Refusal::Clash));
    }
    match permit.serve(alloc) {
        Ok(served) => Ok(served),
        Err(Refused { refusal, given }) => Err(given_back(given, refusal)),
    }
}

fn served_by(alloc: Global, permit: Permit) -> Result<Served, Refusal> {
    if permit.writes() {
        return Err(given_back(permit, Refusal::Clash));
    }
    serve(alloc, permit)
}

/// How much is served: the bytes of a title, the members of a group, the entries of a list, or the rows or the children
/// of an album.
fn amount(served: &Served) -> usize {
    match served {
        Served::Picture { title, .. } => title.as_str().len(),
        Served::Group { members, .. } => members.as_slice().len(),
        Served::Entries { list, .. } => list.entries().len(),
        Served::Listed { rows, .. } => rows.as_slice().len(),
        Served::Head { attributes, .. } => amount_of(attributes),
        Served::Children { children, .. } => children.as_slice().len(),
    }
}

fn amount_of(attributes: &Attributes) -> usize {
    match attributes {
        Attributes::Nothing => 0,
        Attributes::Picture { title, .. } => title.as_str().len(),
        Attributes::Album { title, .. } => title.as_str().len(),
        Attributes::Group { count, .. } => *count,
    }
}

/// How much amy is served of what she asks of the item.
fn served(alloc: Global, verb: Verb, item: &'static str) -> Result<usize, Refusal> {
    let permit = permit_of(alloc, (STORE, AMY, verb, item))?;
    let served = served_by(alloc, permit)?;
    let amount = amount(&served);
    drop(served);
    Ok(amount)
}

/// The title "Sea", and two entries; and the title in the head.
#[test]
fn a_refused_permit_is_served_again(rt: HostRuntime) {
    assert_eq!(rt; served(rt.alloc(), Verb::Read, "picture/0"), Ok(3));
    assert_eq!(rt; served(rt.alloc(), Verb::GetList, "picture/0"), Ok(2));
    assert_eq!(rt; served(rt.alloc(), Verb::Head, "picture/0"), Ok(3));
    assert_eq!(rt; served(rt.alloc(), Verb::Children, "album/0"), Ok(128));
}
