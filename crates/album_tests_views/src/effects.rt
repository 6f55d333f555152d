//! What the writes of a granted ask keep (docs/PROTOCOL.md, "Rulings").
ghost use Rattle.std.specs.Prelude.{IsTrue};
ghost use Rattle.album_views.specs.Asks.{is_write};

use crate::asks::Verb;
use crate::refused::{given_back, is_as_before, whole_text};
use crate::ruling::{Asked, permit_of};
use crate::store::{ALLOW, AMY, Is, Store};
use album_eval::Principal;
use album_permits::{Permit, Writes};
use album_stamps::{ClientNo, Refusal, Refused, Stamp};
use std::alloc::Global;

/// The stamp at which is written: counter 11 of client 2, 720898.
fn stamp() -> Result<Stamp, Refusal> {
    let client = ClientNo::of(2).ok_or(Refusal::BadRequest)?;
    Stamp::of(11, client).ok_or(Refusal::BadRequest)
}

/// What the permit's ask writes; once more, where it was refused.
fn write(alloc: Global, permit: Permit, stamp: Stamp) -> Result<Writes, Refusal> {
    if !permit.writes() {
        return Err(given_back(permit, Refusal::Clash));
    }
    let before = whole_text(alloc, &permit);
    match permit.effect(alloc, stamp) {
        Ok(writes) => Ok(writes),
        Err(Refused { refusal: _, given }) => write_again(alloc, given, stamp, &before),
    }
}

fn write_again(
    alloc: Global,
    permit: Permit,
    stamp: Stamp,
    before: &Result<String, Refusal>,
) -> Result<Writes, Refusal>
    requires { IsTrue (is_write permit.view.ask) }
{
    if !is_as_before(alloc, &permit, before) {
        return Err(given_back(permit, Refusal::Clash));
    }
    match permit.effect(alloc, stamp) {
        Ok(writes) => Ok(writes),
        Err(Refused { refusal, given }) => Err(given_back(given, refusal)),
    }
}

fn writes_of(alloc: Global, asked: Asked) -> Result<Writes, Refusal> {
    let stamp = stamp()?;
    let permit = permit_of(alloc, asked)?;
    write(alloc, permit, stamp)
}

/// A picture and an album that their owner may do anything to, with their lists.
const STORE: Store = &[
    ("picture/0", Is::Picture(0)),
    ("list/0", Is::List(&[(ALLOW, "OWNER@", 2_032_127, 0)])),
    ("album/0", Is::Album(1)),
    ("list/1", Is::List(&[(ALLOW, "OWNER@", 2_032_127, 0)])),
];

fn is_amy(principal: &Principal) -> bool {
    match principal {
        Principal::User(name) | Principal::Root(name) => name.as_str() == "amy",
        Principal::Anonymous => false,
    }
}

/// The stamp of the writes, whether their permit is amy's for an ask that writes, and how many items its view has.
fn spent(alloc: Global, asked: Asked) -> Result<(u64, bool, usize), Refusal> {
    let writes = writes_of(alloc, asked)?;
    let stamp = writes.stamp().value();
    let permit = writes.back();
    let is_whose = permit.view().ask().is_write() && is_amy(permit.principal());
    let view = permit.give_back();
    let items = view.items().len();
    drop(view);
    Ok((stamp, is_whose, items))
}

/// Writes keep their stamp and their permit, and this its view.
#[test]
fn writes_keep_their_permit(rt: HostRuntime) {
    let asked: Asked = (STORE, AMY, Verb::Retitle, "picture/0");
    assert_eq!(rt; spent(rt.alloc(), asked), Ok((720_898, true, 3)));
    let asked: Asked = (STORE, AMY, Verb::AddGroup, "album/0");
    assert_eq!(rt; spent(rt.alloc(), asked), Ok((720_898, true, 3)));
}
