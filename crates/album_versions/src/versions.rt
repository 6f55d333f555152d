//! The versions of items, and of each item the latest committed stamp and the floor.
ghost use Rattle.std.specs.Prelude.{◌≡◌, ◌≢◌, ◌<◌, ◌≤◌, ◌↔◌, ◌⊎◌, ◌-◌, ◌^◌, ℕ, min, Bool, List, is_some, IsTrue, IsSome, IsNone, IfSome, IfErr, OnOk, OnErr, All, Contains};
ghost use Rattle.std.specs.Option.{option_copied};
ghost use Rattle.album_items.specs.declared.values.Value.{Value as ItemValue};
ghost use Rattle.album_versions.specs.Best.{best_of, unless_gone};
ghost use Rattle.album_versions.specs.Rows.{empty_row};
ghost use Rattle.album_versions.specs.Versions.{VersionsState, version_at, latest_of, floor_of, version_count, SameVersions, Adds, DropsOne, Drops, Commits, Trims};

use crate::rows::Row;
use album_items::{ItemId, SharedValue};
use album_stamps::{Refusal, Refused, Stamp};
use std::alloc::Global;
use std::collections::BTreeMap;
use std::marker::Model;

/// The versions of items, each with its stamp and its value, and of each item the latest committed
/// stamp and the floor, below which no version is kept. Contracts see, of an item, the value at
/// each stamp, the latest stamp and the floor.
#[derive(Debug, Drop)]
pub struct Versions {
    alloc: Global,
    rows: BTreeMap<ItemId, Row>,
}

impl Model for Versions {
    ghost use Rattle.album_versions.specs.Versions.{VersionsState};

    ghost Value = { VersionsState };

    ghost view = { λ v. record { rows = v.rows.entries } };
}

impl Versions {
    /// No version of any item, nothing committed, and each floor at the zero stamp.
    pub fn new(alloc: Global) -> Versions
        ensures versions { (i t : ℕ) → version_at result i t ≡ None }
        ensures latest { (i : ℕ) → latest_of result i ≡ 0 }
        ensures floor { (i : ℕ) → floor_of result i ≡ 0 }
    {
        Versions {
            alloc,
            rows: BTreeMap::new(alloc),
        }
    }

    /// Adds a version of the item, which is not committed yet. Ask it only where the item has no
    /// version at the stamp. Below the item's floor nothing is kept of it.
    ///
    /// # Errors
    ///
    /// `OutOfMemory`, with the value handed back. Nothing changes then.
    pub fn add(
        &mut self,
        item: ItemId,
        stamp: Stamp,
        value: SharedValue,
    ) -> Result<(), Refused<SharedValue>>
        requires { version_at self.old item stamp ≡ None }
        ensures added { OnOk result (Adds self.old self.new item stamp value) }
        ensures unchanged { OnErr result (SameVersions self.old self.new) }
        ensures given { IfErr result (λ e. e.given ≡ value) }
        ensures memory { IfErr result (λ e. e.refusal ≡ Refusal.OutOfMemory) }
    {
        add_in(&mut self.rows, Row::new(self.alloc), item, stamp, value)
    }

    /// The item's version at the stamp goes, if there is one. What was committed stays the latest.
    pub fn drop_stamp(&mut self, item: ItemId, stamp: Stamp)
        ensures { DropsOne self.old self.new item stamp }
    {
        if let Some(row) = self.rows.get_mut(&item) {
            row.drop_stamp(stamp);
        }
    }

    /// The item's version at the stamp is committed: the item's latest stamp is raised to the
    /// stamp, and is never lowered. Ask it only where the version is there or below the floor.
    pub fn commit(&mut self, item: ItemId, stamp: Stamp)
        requires { IsSome (version_at self.old item stamp) ⊎ (stamp < floor_of self.old item) }
        ensures { Commits self.old self.new item stamp }
    {
        if let Some(row) = self.rows.get_mut(&item) {
            row.commit(stamp);
        }
    }

    /// The item's floor is raised to its latest stamp, and its versions below that go.
    pub fn trim(&mut self, item: ItemId)
        ensures { Trims self.old self.new item }
    {
        if let Some(row) = self.rows.get_mut(&item) {
            row.trim();
        }
    }

    /// The item's latest committed stamp, and the zero stamp where nothing was committed.
    #[tactic(auto, unfolding(crate::specs::Versions::latest_of))]
    pub fn latest(&self, item: ItemId) -> Stamp
        ensures { result ≡ latest_of self.now item }
    {
        match self.rows.get(&item) {
            None => Stamp::zero(),
            Some(row) => row.latest(),
        }
    }

    /// The item's floor: the latest stamp that it had as it was last trimmed, and the zero stamp
    /// before. Below it no version is kept.
    #[tactic(auto, unfolding(crate::specs::Versions::latest_of, crate::specs::Versions::floor_of))]
    pub fn floor(&self, item: ItemId) -> Stamp
        ensures floor { result ≡ floor_of self.now item }
        ensures below { result ≤ latest_of self.now item }
        ensures kept { (t : ℕ) → IsSome (version_at self.now item t) → result ≤ t }
    {
        match self.rows.get(&item) {
            None => Stamp::zero(),
            Some(row) => row.floor(),
        }
    }

    /// How many versions there are, of all items. That is 2^64 - 1 at most, which no memory holds.
    pub fn count(&self) -> u64
        ensures { result ≡ min (version_count self.now) (2 ^ 64 - 1) }
    {
        let mut count: u64 = 0;
        for row in self.rows.values() {
            count = count.saturating_add(row.count() as u64);
        }
        count
    }

    /// The greatest stamp at which the item has a version, committed or not, and the zero stamp where it has none.
    #[tactic(auto, unfolding(crate::specs::Versions::version_at))]
    pub fn newest(&self, item: ItemId) -> Stamp
        ensures there { result ≢ 0 → IsSome (version_at self.now item result) }
        ensures greatest { (t : ℕ) → IsSome (version_at self.now item t) → t ≤ result }
    {
        match self.rows.get(&item) {
            None => Stamp::zero(),
            Some(row) => row.newest(),
        }
    }

    /// The greatest of the stamps at which the item has a version. Where it has none at any of
    /// them, that is the zero stamp as long as the floor is, and the answer is gone, `None`, from
    /// then on.
    #[tactic(auto, unfolding(crate::specs::Versions::version_at, crate::specs::Versions::floor_of))]
    pub fn best(&self, item: ItemId, stamps: &[Stamp]) -> Option<Stamp>
        ensures best { result
            ≡ unless_gone (best_of (λ t. is_some (version_at self.now item t)) stamps.now) (floor_of self.now item) }
        ensures given { IfSome result (λ best. best ≢ 0 → Contains stamps.now best) }
        ensures has_version { IfSome result (λ best. best ≢ 0 → IsSome (version_at self.now item best)) }
        ensures greatest { IfSome result
            (λ best. All (λ t. IsSome (version_at self.now item t) → t ≤ best) stamps.now) }
        ensures gone { IsNone result
            ↔ ((0 < floor_of self.now item) × All (λ t. version_at self.now item t ≡ None) stamps.now) }
    {
        match self.rows.get(&item) {
            None => Some(Stamp::zero()),
            Some(row) => row.best(stamps),
        }
    }

    /// The value of the item's version at the stamp.
    #[tactic(auto, unfolding(crate::specs::Versions::version_at))]
    pub fn value(&self, item: ItemId, stamp: Stamp) -> Option<&SharedValue>
        ensures { option_copied result ≡ version_at self.now item stamp }
    {
        match self.rows.get(&item) {
            None => None,
            Some(row) => row.value(stamp),
        }
    }
}

/// Adds a version to the item's row, which is this one where the item has none.
fn add_in(
    rows: &mut BTreeMap<ItemId, Row>,
    row: Row,
    item: ItemId,
    stamp: Stamp,
    value: SharedValue,
) -> Result<(), Refused<SharedValue>>
    requires empty { row ≡ empty_row }
    requires new { version_at (record { rows = rows.old.entries }) item stamp ≡ None }
    ensures added { OnOk result
        (Adds (record { rows = rows.old.entries }) (record { rows = rows.new.entries }) item stamp value) }
    ensures unchanged { OnErr result
        (SameVersions (record { rows = rows.old.entries }) (record { rows = rows.new.entries })) }
    ensures given { IfErr result (λ e. e.given ≡ value) }
    ensures memory { IfErr result (λ e. e.refusal ≡ Refusal.OutOfMemory) }
{
    match rows.entry(item) {
        Ok(entry) => entry.or_insert(row).add(stamp, value),
        Err(_) => Err(Refused {
            refusal: Refusal::OutOfMemory,
            given: value,
        }),
    }
}

/// A law: three facts determine what `best` finds. Unless it is 0 it is one of the given stamps
/// and has a version, and no given stamp that has a version is greater. So neither the order of
/// the stamps nor repeats among them matter.
pub fn best_is_the_greatest()
    ensures unique { (passes : ℕ → Bool) (stamps : List ℕ) (best : ℕ)
        → (best ≢ 0 → Contains stamps best) → (best ≢ 0 → IsTrue (passes best))
        → All (λ t. IsTrue (passes t) → t ≤ best) stamps
        → best_of passes stamps ≡ best }
    ensures order { (passes : ℕ → Bool) (stamps others : List ℕ)
        → ((t : ℕ) → Contains stamps t → Contains others t)
        → ((t : ℕ) → Contains others t → Contains stamps t)
        → best_of passes stamps ≡ best_of passes others }
{}

/// A law: a commit lowers no latest stamp, and the item's is at least the committed one from then
/// on. Two commits leave the same, whichever comes first.
pub fn latest_never_falls()
    ensures risen { (old new : VersionsState) (item stamp i : ℕ) → Commits old new item stamp
        → latest_of old i ≤ latest_of new i }
    ensures committed { (old new : VersionsState) (item stamp : ℕ) → Commits old new item stamp
        → stamp ≤ latest_of new item }
    ensures order { (kept a b c d : VersionsState) (i s j t : ℕ)
        → Commits kept a i s → Commits a b j t → Commits kept c j t → Commits c d i s
        → SameVersions b d }
{}

/// A law: what was added is found, unless it is below the floor, where nothing changes. What was
/// dropped is not found. Where the item had no version at the stamp, to add one and to drop it leaves
/// what there was. Where no item had one, so does to drop the whole stamp.
pub fn dropped_as_if_never_added()
    ensures found { (old new : VersionsState) (item stamp : ℕ) (value : ItemValue)
        → floor_of old item ≤ stamp → Adds old new item stamp value → version_at new item stamp ≡ Some value }
    ensures not_kept { (old new : VersionsState) (item stamp : ℕ) (value : ItemValue)
        → stamp < floor_of old item → Adds old new item stamp value → SameVersions old new }
    ensures one_gone { (old new : VersionsState) (item stamp : ℕ) → DropsOne old new item stamp
        → version_at new item stamp ≡ None }
    ensures one_undone { (old mid new : VersionsState) (item stamp : ℕ) (value : ItemValue)
        → version_at old item stamp ≡ None
        → Adds old mid item stamp value → DropsOne mid new item stamp → SameVersions old new }
    ensures gone { (old new : VersionsState) (stamp i : ℕ) → Drops old new stamp
        → version_at new i stamp ≡ None }
    ensures undone { (old mid new : VersionsState) (item stamp : ℕ) (value : ItemValue)
        → ((i : ℕ) → version_at old i stamp ≡ None)
        → Adds old mid item stamp value → Drops mid new stamp → SameVersions old new }
{}

/// A law: a trim raises the item's floor to its latest stamp, which stays, and no version below
/// that is there. The version at the latest stamp stays, and so does all of every other item. A
/// second trim changes nothing.
pub fn trims_raise_the_floor()
    ensures floor { (old new : VersionsState) (item : ℕ) → Trims old new item
        → floor_of new item ≡ latest_of new item }
    ensures latest { (old new : VersionsState) (item i : ℕ) → Trims old new item
        → latest_of new i ≡ latest_of old i }
    ensures gone { (old new : VersionsState) (item t : ℕ) → Trims old new item
        → t < floor_of new item → version_at new item t ≡ None }
    ensures stays { (old new : VersionsState) (item : ℕ) → Trims old new item
        → version_at new item (latest_of new item) ≡ version_at old item (latest_of old item) }
    ensures others { (old new : VersionsState) (item i t : ℕ) → Trims old new item → i ≢ item
        → (version_at new i t ≡ version_at old i t) × (floor_of new i ≡ floor_of old i) }
    ensures twice { (old mid new : VersionsState) (item : ℕ) → Trims old mid item → Trims mid new item
        → SameVersions mid new }
{}

/// A law: a floor that is not above the latest stamp stays so, and is never lowered, whatever is
/// done.
pub fn floor_stays_low()
    ensures same { (old new : VersionsState) (i : ℕ) → floor_of old i ≤ latest_of old i
        → SameVersions old new → (floor_of new i ≤ latest_of new i) × (floor_of old i ≤ floor_of new i) }
    ensures add { (old new : VersionsState) (item stamp i : ℕ) (value : ItemValue) → floor_of old i ≤ latest_of old i
        → Adds old new item stamp value
        → (floor_of new i ≤ latest_of new i) × (floor_of old i ≤ floor_of new i) }
    ensures drop_one { (old new : VersionsState) (item stamp i : ℕ) → floor_of old i ≤ latest_of old i
        → DropsOne old new item stamp → (floor_of new i ≤ latest_of new i) × (floor_of old i ≤ floor_of new i) }
    ensures drop { (old new : VersionsState) (stamp i : ℕ) → floor_of old i ≤ latest_of old i
        → Drops old new stamp → (floor_of new i ≤ latest_of new i) × (floor_of old i ≤ floor_of new i) }
    ensures commit { (old new : VersionsState) (item stamp i : ℕ) → floor_of old i ≤ latest_of old i
        → Commits old new item stamp → (floor_of new i ≤ latest_of new i) × (floor_of old i ≤ floor_of new i) }
    ensures trim { (old new : VersionsState) (item i : ℕ) → floor_of old i ≤ latest_of old i
        → Trims old new item → (floor_of new i ≤ latest_of new i) × (floor_of old i ≤ floor_of new i) }
{}
