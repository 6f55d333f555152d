//! The stamps at which first values were written, in the epochs before.
ghost use Rattle.std.specs.Prelude.{◌≡◌, ◌==◌, [], ℕ, OnOk, if◌then◌else◌};
ghost use Rattle.album_items.specs.FirstStamps.{first_stamp, shown, noted, are_early};

use crate::item_ids::ItemId;
use album_stamps::Stamp;
use std::alloc::{AllocError, Global};
use std::collections::BTreeMap;
use std::marker::Model;

/// The stamps at which first values were written, in the epochs before. Inside an epoch a first value is at stamp 0,
/// and this is what is shown in its place. An item that isn't noted here is shown at 0. Contracts see items, rising,
/// each with its stamp.
#[derive(Debug)]
pub struct FirstStamps {
    by_item: BTreeMap<ItemId, Stamp>,
}

impl Model for FirstStamps {
    ghost use Rattle.album_items.specs.FirstStamps.{Stamps};

    ghost Value = { Stamps };

    ghost view = { λ s. s.by_item.entries };
}

// By hand, so that what lets it go is proved here, and not again in each crate above.
impl Drop for FirstStamps {
    fn drop(self) {
        let FirstStamps { by_item } = self;
        drop(by_item);
    }
}

impl FirstStamps {
    /// No first value was written in an epoch before.
    pub fn new(alloc: Global) -> FirstStamps
        ensures none { result ≡ [] }
    {
        FirstStamps {
            by_item: BTreeMap::new(alloc),
        }
    }

    /// Notes at which stamp the item's first value was written. The zero stamp says nothing.
    ///
    /// # Errors
    ///
    /// `AllocError`.
    pub fn note(&mut self, item: ItemId, stamp: Stamp) -> Result<(), AllocError>
        ensures noted { OnOk result (self.new ≡ noted self.old item stamp) }
        ensures item { OnOk result ((other : ℕ) → first_stamp self.new other
            ≡ (if item == other then shown self.old item stamp else first_stamp self.old other)) }
    {
        if stamp != Stamp::zero() {
            let _earlier = self.by_item.insert(item, stamp)?;
        }
        Ok(())
    }

    /// The stamp to show with the item's version at this stamp: that, or of its first value the one at which that was
    /// written.
    pub fn shown(&self, item: ItemId, stamp: Stamp) -> Stamp
        ensures { result ≡ shown self.now item stamp }
    {
        if stamp != Stamp::zero() {
            return stamp;
        }
        match self.by_item.get(&item) {
            Some(first) => *first,
            None => stamp,
        }
    }

    /// Whether none is above this number.
    pub(crate) fn are_early(&self, greatest: u64) -> bool
        ensures { result ≡ are_early greatest self.now }
    {
        self.by_item
            .iter()
            .all(|(_, stamp)| stamp.value() <= greatest)
    }
}
