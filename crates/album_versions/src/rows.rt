//! What is kept of one item: its versions, its latest committed stamp and its floor.
ghost use Rattle.std.specs.Prelude.{◌≡◌, ◌≢◌, IsSome, ◌≤◌, ◌<◌, ◌↔◌, ◌==◌, ◌&&◌, ℕ, nat_le, not, max, filter, length, is_some, Some, None, IsNone, IfOk, IfErr, OnOk, OnErr, All, if◌then◌else◌};
ghost use Rattle.std.specs.List.{remove};
ghost use Rattle.std.specs.Option.{option_copied};
ghost use Rattle.album_versions.specs.Best.{best_of, unless_gone};
ghost use Rattle.album_versions.specs.Rows.{empty_row, version_in, IsAt, IsGapFor};

use album_items::SharedValue;
use album_stamps::{Refusal, Refused, Stamp};
use std::alloc::Global;
use std::marker::Model;

/// A value, and the stamp at which it was written.
#[derive(Debug, Drop)]
pub struct Version {
    pub stamp: Stamp,
    pub value: SharedValue,
}

/// What is kept of an item: its versions, rising by stamp, its latest committed stamp, and its
/// floor, below which no version is kept.
#[derive(Debug, Drop)]
pub struct Row {
    latest: Stamp,
    /// A low watermark: below it no version is kept.
    floor: Stamp,
    versions: Vec<Version>,
}

impl Model for Row {
    ghost use Rattle.album_versions.specs.Rows.{RowState, IsRow};

    ghost Value = { RowState };

    ghost view = { λ r. record { latest = r.latest; floor = r.floor; versions = r.versions.items } };

    ghost invariant = { λ r. IsRow (record { latest = r.latest; floor = r.floor; versions = r.versions.items }) };
}

impl Row {
    /// The row of an item that was never written.
    pub fn new(alloc: Global) -> Row
        ensures { result ≡ empty_row }
    {
        Row {
            latest: Stamp::zero(),
            floor: Stamp::zero(),
            versions: Vec::new(alloc),
        }
    }

    /// The latest committed stamp.
    pub fn latest(&self) -> Stamp
        ensures { result ≡ self.now.latest }
    {
        self.latest
    }

    /// The floor.
    pub fn floor(&self) -> Stamp
        ensures floor { result ≡ self.now.floor }
        ensures below { result ≤ self.now.latest }
        ensures kept { All (λ version. result ≤ version.stamp) self.now.versions }
    {
        self.floor
    }

    /// How many versions there are.
    pub fn count(&self) -> usize
        ensures { result ≡ length self.now.versions }
    {
        self.versions.len()
    }

    /// The greatest stamp of a version, and the zero stamp where there is none.
    pub fn newest(&self) -> Stamp
        ensures there { result ≢ 0 → IsSome (version_in self.now.versions result) }
        ensures greatest { (t : ℕ) → IsSome (version_in self.now.versions t) → t ≤ result }
    {
        match self.versions.last() {
            None => Stamp::zero(),
            Some(version) => version.stamp,
        }
    }

    /// The value of the version at the stamp.
    pub fn value(&self, stamp: Stamp) -> Option<&SharedValue>
        ensures { option_copied result ≡ version_in self.now.versions stamp }
    {
        match self.search(stamp) {
            Ok(index) => Some(&self.versions[index].value),
            Err(_) => None,
        }
    }

    /// The greatest of the stamps at which there is a version, unless it is gone.
    pub fn best(&self, stamps: &[Stamp]) -> Option<Stamp>
        ensures best { result
            ≡ unless_gone (best_of (λ t. is_some (version_in self.now.versions t)) stamps.now) self.now.floor }
        ensures gone { IsNone result
            ↔ ((0 < self.now.floor) × All (λ t. version_in self.now.versions t ≡ None) stamps.now) }
    {
        let mut best = Stamp::zero();
        for stamp in stamps {
            if best.value() < stamp.value() && self.value(*stamp).is_some() {
                best = *stamp;
            }
        }
        unless_gone(best, self.floor)
    }

    /// Adds a version, where there is none at the stamp, unless it is below the floor.
    pub fn add(&mut self, stamp: Stamp, value: SharedValue) -> Result<(), Refused<SharedValue>>
        requires { version_in self.old.versions stamp ≡ None }
        ensures added { OnOk result ((t : ℕ) → version_in self.new.versions t
            ≡ (if t == stamp && nat_le self.old.floor t then Some value else version_in self.old.versions t)) }
        ensures latest { self.new.latest ≡ self.old.latest }
        ensures floor { self.new.floor ≡ self.old.floor }
        ensures unchanged { OnErr result (self.new ≡ self.old) }
        ensures given { IfErr result (λ e. e.given ≡ value) }
        ensures memory { IfErr result (λ e. e.refusal ≡ Refusal.OutOfMemory) }
    {
        if stamp.value() < self.floor.value() {
            return Ok(());
        }
        // None is at the stamp yet.
        let Err(index) = self.search(stamp) else {
            return Ok(());
        };
        match self.versions.insert(index, Version { stamp, value }) {
            Ok(()) => Ok(()),
            Err(failed) => Err(Refused {
                refusal: Refusal::OutOfMemory,
                given: failed.value.value,
            }),
        }
    }

    /// The version at the stamp goes, if there is one.
    pub fn drop_stamp(&mut self, stamp: Stamp)
        ensures { self.new
            ≡ record self.old { versions = filter (λ version. not (version.stamp == stamp)) self.old.versions } }
    {
        if let Ok(index) = self.search(stamp) {
            remove_at(&mut self.versions, index);
        }
    }

    /// Raises the latest stamp to the stamp, unless it is greater already.
    pub fn commit(&mut self, stamp: Stamp)
        ensures { self.new ≡ record self.old { latest = max self.old.latest stamp } }
    {
        if self.latest.value() < stamp.value() {
            self.latest = stamp;
        }
    }

    /// Raises the floor to the latest stamp. The versions below it go.
    pub fn trim(&mut self)
        ensures { self.new
            ≡ record self.old {
              floor = self.old.latest;
              versions = filter (λ version. nat_le self.old.latest version.stamp) self.old.versions;
            } }
    {
        self.floor = self.latest;
        drop_below(&mut self.versions, self.floor);
    }

    /// The index of the version at the stamp; or else, as the error, the index that it would have.
    fn search(&self, stamp: Stamp) -> Result<usize, usize>
        ensures found { IfOk result (IsAt self.now.versions stamp) }
        ensures absent { IfErr result (IsGapFor self.now.versions stamp) }
    {
        self.versions
            .binary_search_by_key(&stamp, |version| version.stamp)
    }
}

/// The result of `best`: the best, and where that is the zero stamp, nothing once the floor is above it.
fn unless_gone(best: Stamp, floor: Stamp) -> Option<Stamp>
    ensures { result ≡ unless_gone best floor }
{
    if best.value() == 0 && floor.value() != 0 {
        return None;
    }
    Some(best)
}

/// The version at the index goes.
fn remove_at(versions: &mut Vec<Version>, index: usize)
    requires { index < length versions.old.items }
    ensures { versions.new.items ≡ remove versions.old.items index }
{
    versions.remove(index);
}

/// The versions below the floor go.
fn drop_below(versions: &mut Vec<Version>, floor: Stamp)
    ensures { versions.new.items ≡ filter (λ version. nat_le floor version.stamp) versions.old.items }
{
    versions.retain(|version| version.stamp.value() >= floor.value());
}
