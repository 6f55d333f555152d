//! The marks of a partition, and the versions that they make.
ghost use Rattle.std.specs.Prelude.{◌≡◌, ◌<◌, ◌≤◌, ◌⊎◌, ◌++◌, ◌∷◌, [], ℕ, true, is_some, option_to_list, length, None, Some, IsSome, IfSome, IfOk, OnOk, OnErr, All};
ghost use Rattle.std.specs.Option.{option_copied};
ghost use Rattle.album_stamps.specs.declared.limits.TheConstants.{MAX_MARKS};
ghost use Rattle.album_items.specs.Openings.{has_single_rows};
ghost use Rattle.album_versions.specs.Versions.{version_at, floor_of, SameVersions, Adds, Drops};
ghost use Rattle.album_partition.specs.Bases.{has_pending, is_base, are_bases, is_chained};
ghost use Rattle.album_partition.specs.History.{kept_mark};
ghost use Rattle.album_partition.specs.Marks.{ArePending, mark_writes, mark_items, state_of, is_legal, load, pending_stamps, value_in, version, latest, floor};
ghost use Rattle.album_partition.specs.Partition.{read_at};
ghost use Rattle.album_partition.specs.Stored.{CanFollow, HasAdded, HasCommitted, HasVersions};

use crate::first_values::shared_copy;
use crate::history::History;
use crate::marks::Mark;
use album_items::{ItemId, ItemValues, Items, SharedValue, Value};
use album_stamps::{Refusal, Stamp};
use album_terminate::StampState;
use album_versions::Versions;
use std::alloc::{AllocError, Global};
use std::marker::Model;

/// The marks, and the versions that they make. Contracts see the marks.
#[derive(Debug, Drop)]
pub struct Stored {
    alloc: Global,
    history: History,
    versions: Versions,
}

impl Model for Stored {
    ghost use Rattle.std.specs.Prelude.{List};
    ghost use Rattle.album_partition.specs.declared.marks.Mark.{Mark};
    ghost use Rattle.album_partition.specs.Stored.{IsStored};

    ghost Value = { List Mark };

    ghost view = { λ s. s.history };

    ghost invariant = { λ s. IsStored s.history s.versions };
}

impl Stored {
    /// No mark.
    pub fn new(alloc: Global) -> Stored
        ensures { result ≡ [] }
    {
        Stored {
            alloc,
            history: History::new(alloc),
            versions: Versions::new(alloc),
        }
    }

    /// The marks, in order. Each may follow those before it.
    pub fn marks(&self) -> &[Mark]
        ensures marks { result.now ≡ self.now }
        ensures legal { is_legal self.now ≡ true }
    {
        self.history.marks()
    }

    /// The state of the stamp.
    pub fn state(&self, stamp: Stamp) -> StampState
        ensures { result ≡ state_of self.now stamp }
    {
        self.history.state(stamp)
    }

    /// What is prepared at a stamp that is pending or committed.
    pub fn writes(&self, stamp: Stamp) -> &[(ItemId, Value)]
        ensures { result.now ≡ mark_writes (kept_mark self.now stamp) }
    {
        self.history.writes(stamp)
    }

    /// The items of the transaction of a stamp that is pending or committed.
    pub fn items(&self, stamp: Stamp) -> &[ItemId]
        ensures { result.now ≡ mark_items (kept_mark self.now stamp) }
    {
        self.history.items(stamp)
    }

    /// The mark that prepared the stamp, where it is pending or committed.
    pub fn prepared(&self, stamp: Stamp) -> Option<&Mark>
        ensures { option_copied result ≡ kept_mark self.now stamp }
    {
        self.history.prepared(stamp)
    }

    /// The stamps that are pending, rising.
    pub fn pending(&self, alloc: Global) -> Result<Vec<Stamp>, AllocError>
        ensures { IfOk result (λ stamps. ArePending self.now stamps.items) }
    {
        self.history.pending(alloc)
    }

    /// Whether each row is made on its base, which is the latest version, while no other is pending.
    pub fn are_bases(&self, stamp: Stamp, rows: &[(ItemId, Value)], bases: &[Stamp]) -> bool
        requires { is_chained self.now ≡ true }
        ensures { result ≡ are_bases self.now stamp rows.now bases.now }
    {
        if rows.len() != bases.len() {
            return false;
        }
        for index in 0..rows.len() {
            if !self.is_base(stamp, rows[index].0, bases[index]) {
                return false;
            }
        }
        true
    }

    fn is_base(&self, stamp: Stamp, item: ItemId, base: Stamp) -> bool
        requires { is_chained self.now ≡ true }
        ensures { result ≡ is_base self.now stamp item base }
    {
        self.latest(item) == base && !self.has_pending(item) && base < stamp
    }

    /// Whether a pending stamp has a version of the item. Such a one is above the latest, and so the newest that
    /// is kept.
    fn has_pending(&self, item: ItemId) -> bool
        requires { is_chained self.now ≡ true }
        ensures { result ≡ has_pending self.now item }
    {
        self.latest(item).value() < self.versions.newest(item).value()
    }

    /// How many marks there are, and one more for each stamp that is pending.
    #[tactic(auto, using(crate::proofs::LoadLemmas::pending_few))]
    pub fn load(&self) -> u64
        requires { length self.now ≤ MAX_MARKS }
        ensures { result ≡ load self.now }
    {
        self.history.marks().len() as u64 + self.history.pending_count() as u64
    }

    /// How many stamps are pending.
    pub fn pending_count(&self) -> usize
        ensures { result ≡ length (pending_stamps self.now) }
    {
        self.history.pending_count()
    }

    /// How many versions are kept, of all items.
    pub fn version_count(&self) -> u64
        ensures { HasVersions self.now result }
    {
        self.versions.count()
    }

    /// The latest committed stamp of the item.
    pub fn latest(&self, item: ItemId) -> Stamp
        ensures { result ≡ latest self.now item }
    {
        self.versions.latest(item)
    }

    /// The item's floor, below which no version is kept.
    pub fn floor(&self, item: ItemId) -> Stamp
        ensures { result ≡ floor self.now item }
    {
        self.versions.floor(item)
    }

    /// At which stamp the item is read, unless it is gone: the latest, or the greatest of the stamps
    /// at which it has a version.
    pub fn read_at(&self, item: ItemId, stamps: &[Stamp]) -> Option<Stamp>
        ensures { result ≡ read_at self.now item stamps.now }
    {
        if stamps.is_empty() {
            Some(self.latest(item))
        } else {
            self.versions.best(item, stamps)
        }
    }

    /// The value of the item's version at the stamp.
    pub fn value(&self, item: ItemId, stamp: Stamp) -> Option<&SharedValue>
        requires { floor self.now item ≤ stamp }
        ensures { option_copied result ≡ version self.now item stamp }
    {
        self.versions.value(item, stamp)
    }

    /// Makes the mark, if there is one.
    pub fn add(&mut self, mark: Option<Mark>) -> Result<(), AllocError>
        requires { IfSome mark (CanFollow self.old) }
        ensures ok { OnOk result (self.new ≡ self.old ++ option_to_list mark) }
        ensures err { OnErr result (self.new ≡ self.old) }
        ensures wanted { OnErr result (is_some mark ≡ true) }
    {
        match mark {
            None => Ok(()),
            Some(mark) => self.make(mark),
        }
    }

    /// Makes a mark, which may follow those before it. What it prepares, it prepares once.
    fn make(&mut self, mark: Mark) -> Result<(), AllocError>
        requires { CanFollow self.old mark }
        ensures ok { OnOk result (self.new ≡ self.old ++ mark ∷ []) }
        ensures err { OnErr result (self.new ≡ self.old) }
    {
        match mark {
            Mark::Prepared(stamp, writes, items) => self.prepare(stamp, writes, items),
            Mark::Committed(stamp) => self.commit(stamp),
            Mark::Discarded(stamp) => self.discard(stamp),
            Mark::Trimmed(item) => self.trim(item),
        }
    }

    fn prepare(&mut self, stamp: Stamp, writes: ItemValues, items: Items) -> Result<(), AllocError>
        requires { CanFollow self.old (Mark.Prepared stamp writes items) }
        ensures ok { OnOk result (self.new ≡ self.old ++ Mark.Prepared stamp writes items ∷ []) }
        ensures err { OnErr result (self.new ≡ self.old) }
    {
        // Before the mark, which takes the writes: the stamp is unknown, so its versions can go again.
        add_rows(self.alloc, &mut self.versions, stamp, writes.as_slice())?;
        if let Err(failed) = self.history.add(Mark::Prepared(stamp, writes, items)) {
            drop_rows(&mut self.versions, stamp, failed.value.writes());
            return Err(AllocError);
        }
        Ok(())
    }

    fn commit(&mut self, stamp: Stamp) -> Result<(), AllocError>
        requires { CanFollow self.old (Mark.Committed stamp) }
        ensures ok { OnOk result (self.new ≡ self.old ++ Mark.Committed stamp ∷ []) }
        ensures err { OnErr result (self.new ≡ self.old) }
    {
        // First what may fail: to raise a latest stamp takes no memory.
        self.history.add(Mark::Committed(stamp))?;
        commit_rows(&mut self.versions, stamp, self.history.writes(stamp));
        Ok(())
    }

    fn discard(&mut self, stamp: Stamp) -> Result<(), AllocError>
        requires { CanFollow self.old (Mark.Discarded stamp) }
        ensures ok { OnOk result (self.new ≡ self.old ++ Mark.Discarded stamp ∷ []) }
        ensures err { OnErr result (self.new ≡ self.old) }
    {
        // Where it was prepared, before the mark: of a stamp that is discarded that isn't kept.
        let prepared = self.history.prepared_at(stamp);
        self.history.add(Mark::Discarded(stamp))?;
        // A stamp that was unknown has no version.
        if let Some(index) = prepared {
            drop_rows(&mut self.versions, stamp, self.history.writes_at(index));
        }
        Ok(())
    }

    fn trim(&mut self, item: ItemId) -> Result<(), AllocError>
        requires { CanFollow self.old (Mark.Trimmed item) }
        ensures ok { OnOk result (self.new ≡ self.old ++ Mark.Trimmed item ∷ []) }
        ensures err { OnErr result (self.new ≡ self.old) }
    {
        // First what may fail: to trim versions takes no memory.
        self.history.add(Mark::Trimmed(item))?;
        self.versions.trim(item);
        Ok(())
    }
}

/// Adds the rows as versions at a stamp, or none of them.
fn add_rows(
    alloc: Global,
    versions: &mut Versions,
    stamp: Stamp,
    rows: &[(ItemId, Value)],
) -> Result<(), AllocError>
    requires fresh { (i : ℕ) → version_at versions.old i stamp ≡ None }
    requires once { has_single_rows rows.now ≡ true }
    ensures ok { OnOk result (HasAdded versions.old versions.new stamp rows.now) }
    ensures err { OnErr result (SameVersions versions.old versions.new) }
{
    for row in rows {
        if let Err(error) = add_row(alloc, versions, stamp, row) {
            drop_rows(versions, stamp, rows);
            return Err(error);
        }
    }
    Ok(())
}

fn add_row(
    alloc: Global,
    versions: &mut Versions,
    stamp: Stamp,
    row: &(ItemId, Value),
) -> Result<(), AllocError>
    requires { version_at versions.old row.now.0 stamp ≡ None }
    ensures ok { OnOk result (Adds versions.old versions.new row.now.0 stamp row.now.1) }
    ensures err { OnErr result (SameVersions versions.old versions.new) }
{
    let value = shared_copy(alloc, &row.1)?;
    match versions.add(row.0, stamp, value) {
        Ok(()) => Ok(()),
        Err(_) => Err(AllocError),
    }
}

/// Drops the versions at a stamp, which are of no other items than the rows.
fn drop_rows(versions: &mut Versions, stamp: Stamp, rows: &[(ItemId, Value)])
    requires { (i : ℕ) → IsSome (version_at versions.old i stamp) → IsSome (value_in rows.now i) }
    ensures { Drops versions.old versions.new stamp }
{
    for row in rows {
        versions.drop_stamp(row.0, stamp);
    }
}

/// Commits the versions of the rows at a stamp.
fn commit_rows(versions: &mut Versions, stamp: Stamp, rows: &[(ItemId, Value)])
    requires { All (λ row. IsSome (version_at versions.old row.0 stamp)
        ⊎ (stamp < floor_of versions.old row.0)) rows.now }
    ensures { HasCommitted versions.old versions.new stamp rows.now }
{
    for row in rows {
        versions.commit(row.0, stamp);
    }
}
