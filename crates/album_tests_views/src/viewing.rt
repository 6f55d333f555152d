//! The reads that are made for an ask over a store, and the view that they lead to. A call that is refused is made
//! once more with what it hands back.
ghost use Rattle.std.specs.Prelude.{◌≡◌, None, IfOk};
ghost use Rattle.album_views.specs.Checks.{flaw_of};
ghost use Rattle.album_tests_views.specs.Looking.{IsNobodys};

use crate::refused::{is_as_before, whole_text};
use crate::store::{Store, snapshot};
use album_eval::Principal;
use album_items::Items;
use album_reader::Snapshot;
use album_stamps::Refusal;
use album_views::{Ask, View, ViewStep, Viewing};
use std::alloc::Global;

/// The first read for the ask of the principal.
fn started(alloc: Global, ask: Ask, principal: &Principal) -> Result<(Viewing, Items), Refusal> {
    if let Err(refusal) = ask.check(principal) {
        drop(ask);
        return Err(refusal);
    }
    let before = whole_text(alloc, &ask);
    match Viewing::start(alloc, ask) {
        Ok(started) => Ok(started),
        Err(refused) => started_again(alloc, refused.given, &before),
    }
}

fn started_again(
    alloc: Global,
    ask: Ask,
    before: &Result<String, Refusal>,
) -> Result<(Viewing, Items), Refusal>
    requires { flaw_of ask ≡ None }
{
    if !is_as_before(alloc, &ask, before) {
        drop(ask);
        return Err(Refusal::Clash);
    }
    Ok(Viewing::start(alloc, ask)?)
}

/// The step that the snapshot leads to, for a copy of the viewing.
fn seen(alloc: Global, viewing: &Viewing, snapshot: Snapshot) -> Result<ViewStep, Refusal>
    ensures { IfOk result IsNobodys }
{
    match viewing.copy() {
        Ok(copy) => seen_by(alloc, viewing, copy, snapshot),
        Err(refusal) => {
            drop(snapshot);
            Err(refusal)
        }
    }
}

#[tactic(auto, using(crate::proofs::LookingLemmas::nobodys))]
fn seen_by(
    alloc: Global,
    viewing: &Viewing,
    copy: Viewing,
    snapshot: Snapshot,
) -> Result<ViewStep, Refusal>
    ensures { IfOk result IsNobodys }
{
    let before = whole_text(alloc, &snapshot);
    match copy.on_snapshot(alloc, None, snapshot) {
        Ok(step) => Ok(step),
        Err(refused) => seen_again(alloc, viewing, refused.given, &before),
    }
}

#[tactic(auto, using(crate::proofs::LookingLemmas::nobodys))]
fn seen_again(
    alloc: Global,
    viewing: &Viewing,
    given: (Viewing, Snapshot),
    before: &Result<String, Refusal>,
) -> Result<ViewStep, Refusal>
    ensures { IfOk result IsNobodys }
{
    let (copy, snapshot) = given;
    let is_same = is_as_before(alloc, &copy, &whole_text(alloc, viewing));
    if !is_same || !is_as_before(alloc, &snapshot, before) {
        drop(copy);
        drop(snapshot);
        return Err(Refusal::Clash);
    }
    Ok(copy.on_snapshot(alloc, None, snapshot)?)
}

/// The step that a read of the items leads to.
fn read(alloc: Global, store: Store, viewing: Viewing, items: Items) -> Result<ViewStep, Refusal>
    ensures { IfOk result IsNobodys }
{
    let step = match snapshot(alloc, store, &items) {
        Ok(snapshot) => seen(alloc, &viewing, snapshot),
        Err(refusal) => Err(refusal),
    };
    drop(viewing);
    drop(items);
    step
}

/// One more read, where one is wanted.
fn next(alloc: Global, store: Store, step: ViewStep) -> Result<ViewStep, Refusal>
    requires { IsNobodys step }
    ensures { IfOk result IsNobodys }
{
    match step {
        ViewStep::Again(viewing, items) => read(alloc, store, viewing, items),
        ViewStep::Closed(view) => Ok(ViewStep::Closed(view)),
        ViewStep::Busy(why) => Ok(ViewStep::Busy(why)),
    }
}

fn closed(step: ViewStep) -> Result<View, Refusal>
    requires { IsNobodys step }
    ensures { IfOk result (λ view. view.looker ≡ None) }
{
    match step {
        ViewStep::Closed(view) => Ok(view),
        other @ (ViewStep::Again(_, _) | ViewStep::Busy(_)) => {
            drop(other);
            Err(Refusal::Clash)
        }
    }
}

/// The view for the ask of the principal.
pub fn view_of(
    alloc: Global,
    store: Store,
    ask: Ask,
    principal: &Principal,
) -> Result<View, Refusal>
    ensures { IfOk result (λ view. view.looker ≡ None) }
{
    let (viewing, items) = started(alloc, ask, principal)?;
    let mut step = ViewStep::Again(viewing, items);
    for _read in 0..8 {
        step = next(alloc, store, step)?;
    }
    closed(step)
}
