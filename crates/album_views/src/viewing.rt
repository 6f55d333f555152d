//! Reads until one is a view.
ghost use Rattle.std.specs.Prelude.{◌≡◌, ◌≢◌, ◌≤◌, None, IfOk, IfErr, IsTrue, IsOkUnless, length, nat_lt, Contains};
ghost use Rattle.std.specs.List.{list_all};
ghost use Rattle.album_stamps.specs.Distinct.{are_distinct};
ghost use Rattle.album_reader.specs.Snapshots.{items_read};
ghost use Rattle.album_views.specs.Asks.{objects_of};
ghost use Rattle.album_views.specs.Checks.{flaw_of};
ghost use Rattle.album_views.specs.ReadSets.{names_of};
ghost use Rattle.album_views.specs.Seen.{is_read};
ghost use Rattle.album_views.specs.Views.{IsClosed};
ghost use Rattle.album_views.specs.Steps.{again, unclosed, stepped, AreReadable, AsksReadable};

use crate::asks::Ask;
use crate::covering::covers;
use crate::read_set::names;
use crate::view::View;
use album_eval::Principal;
use album_items::{ItemId, Items};
use album_reader::Snapshot;
use album_stamps::{MAX_READ_ITEMS, MAX_READS, Refusal, Refused};
use std::alloc::Global;
use std::marker::Model;

/// An ask that has no view yet. Contracts see the ask, and how many reads were made for it before the one under way.
#[derive(Clone, Debug)]
pub struct Viewing {
    ask: Ask,
    reads: u8,
}

impl Model for Viewing {
    ghost use Rattle.album_views.specs.Views.{ViewingState, IsViewing};

    ghost Value = { ViewingState };

    ghost view = { λ v. record { ask = v.ask; reads = v.reads } };

    ghost invariant = { λ v. IsViewing (record { ask = v.ask; reads = v.reads }) };
}

// By hand, so that what lets it go is proved here, and not again in each crate above.
impl Drop for Viewing {
    fn drop(self) {
        let Viewing { ask, reads: _ } = self;
        drop(ask);
    }
}

/// Why an ask has no view.
#[derive(Clone, Copy, Debug, PartialEq, Eq)]
pub enum Why {
    /// `MAX_READS` reads were made.
    Rounds,
    /// The ruling looks at more than `MAX_READ_ITEMS` items.
    Wide,
}

/// The viewing after a read.
#[derive(Debug, Drop)]
pub enum ViewStep {
    /// These items are to be read, all of them afresh.
    Again(Viewing, Items),
    /// The snapshot has all that the ruling looks at.
    Closed(View),
    /// The ask is given up without a view.
    Busy(Why),
}

impl Viewing {
    /// Begins with the objects of the ask, which are to be read first.
    ///
    /// # Errors
    ///
    /// `OutOfMemory`, with the ask handed back.
    pub fn start(alloc: Global, ask: Ask) -> Result<(Viewing, Items), Refused<Ask>>
        requires sound { flaw_of ask ≡ None }
        ensures viewing { IfOk result (λ r. r.0 ≡ record { ask = ask; reads = 0 }) }
        ensures items { IfOk result (λ r. r.1 ≡ objects_of ask) }
        ensures readable { IfOk result (λ r. AreReadable r.1) }
        ensures memory { IfErr result (λ e. e.refusal ≡ Refusal.OutOfMemory) }
        ensures given { IfErr result (λ e. e.given ≡ ask) }
    {
        match ask.objects(alloc) {
            Ok(objects) => Ok((Viewing { ask, reads: 0 }, Items::of(objects))),
            Err(_) => Err(Refused {
                refusal: Refusal::OutOfMemory,
                given: ask,
            }),
        }
    }

    /// Takes the snapshot of a read. Of one that is no view nothing is kept. `looker` is who asks, where the policy has
    /// the owner's way, and nobody where it hasn't.
    ///
    /// # Errors
    ///
    /// `OutOfMemory`, with the viewing and the snapshot handed back unchanged.
    pub fn on_snapshot(
        self,
        alloc: Global,
        looker: Option<Principal>,
        snapshot: Snapshot,
    ) -> Result<ViewStep, Refused<(Viewing, Snapshot)>>
        ensures step { IfOk result (λ step. step ≡ stepped looker self snapshot) }
        ensures readable { IfOk result AsksReadable }
        ensures memory { IfErr result (λ e. e.refusal ≡ Refusal.OutOfMemory) }
        ensures given { IfErr result (λ e. e.given ≡ (self, snapshot)) }
    {
        if let Ok(true) = covers(alloc, &snapshot, &looker, &self.ask) {
            return Ok(self.closed(looker, snapshot));
        }
        match names(alloc, &snapshot, &looker, &self.ask) {
            Ok(names) => Ok(self.on_names(looker, snapshot, names)),
            Err(refusal) => Err(Refused {
                refusal,
                given: (self, snapshot),
            }),
        }
    }

    /// The step by the snapshot, whose read set these are.
    fn on_names(self, looker: Option<Principal>, snapshot: Snapshot, names: Vec<ItemId>) -> ViewStep
        requires { names.items ≡ names_of snapshot looker self.ask }
        ensures step { result ≡ stepped looker self snapshot }
        ensures readable { AsksReadable result }
    {
        if has_all(&snapshot, &names) {
            let Viewing { ask, reads: _ } = self;
            return ViewStep::Closed(View::of(looker, ask, snapshot));
        }
        self.unclosed(names)
    }

    /// The step by a snapshot that is closed, as the quick test has found.
    fn closed(self, looker: Option<Principal>, snapshot: Snapshot) -> ViewStep
        requires { IsClosed looker self.ask snapshot }
        ensures step { result ≡ stepped looker self snapshot }
        ensures readable { AsksReadable result }
    {
        let Viewing { ask, reads: _ } = self;
        ViewStep::Closed(View::of(looker, ask, snapshot))
    }

    /// The step by a snapshot that lacks one of its read set.
    fn unclosed(self, names: Vec<ItemId>) -> ViewStep
        ensures { result ≡ unclosed self names.items }
    {
        if is_wide(&names) {
            return ViewStep::Busy(Why::Wide);
        }
        self.again(Items::of(names))
    }

    /// Takes a read that ended since one of its items was gone; `items` are those of the read. They are to
    /// be read once more. It takes no memory.
    pub fn on_gone(self, items: Items) -> ViewStep
        ensures { result ≡ again self items }
    {
        self.again(items)
    }

    /// One read more, of these items, unless the last one was made.
    fn again(self, items: Items) -> ViewStep
        ensures { result ≡ again self items }
    {
        if self.reads + 1 >= MAX_READS {
            return ViewStep::Busy(Why::Rounds);
        }
        let Viewing { ask, reads } = self;
        let next = Viewing {
            ask,
            reads: reads + 1,
        };
        ViewStep::Again(next, items)
    }

    /// The same viewing once more.
    ///
    /// # Errors
    ///
    /// `OutOfMemory`.
    pub fn copy(&self) -> Result<Viewing, Refusal>
        ensures copy { IfOk result (λ viewing. viewing ≡ self.now) }
        ensures memory { IsOkUnless result Refusal.OutOfMemory }
    {
        Ok(self.clone()?)
    }
}

/// Whether they are more than a read may have.
fn is_wide(names: &[ItemId]) -> bool
    ensures { result ≡ nat_lt MAX_READ_ITEMS (length names.now) }
{
    names.len() > MAX_READ_ITEMS
}

/// Whether each of the items was read.
fn has_all(snapshot: &Snapshot, items: &[ItemId]) -> bool
    ensures { result ≡ list_all (is_read snapshot.now) items.now }
{
    items.iter().all(|item| snapshot.at(*item).is_some())
}
