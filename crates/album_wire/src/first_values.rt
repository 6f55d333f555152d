//! What the lines of an opening have said of its items, and the opening that this makes.
ghost use Rattle.std.specs.Prelude.{◌≡◌, OnOk};
ghost use Rattle.album_wire.specs.FirstValues.{no_values, with_value, opening_of};

use crate::opening_shape::Header;
use album_items::{FirstStamps, ItemId, ItemValues, Opening, Value};
use album_stamps::Stamp;
use std::alloc::{AllocError, Global};
use std::marker::Model;

/// Items with their first values, and the stamps of these, as the lines of an opening say them.
pub struct FirstValues {
    rows: Vec<(ItemId, Value)>,
    stamps: FirstStamps,
}

impl Model for FirstValues {
    ghost use Rattle.album_wire.specs.FirstValues.{ValuesSaid};

    ghost Value = { ValuesSaid };

    ghost view = { λ v. record { rows = v.rows.items; stamps = v.stamps } };
}

// By hand, so that what lets it go is proved here, and not again in each crate above.
impl Drop for FirstValues {
    fn drop(self) {
        let FirstValues { rows, stamps } = self;
        drop(rows);
        drop(stamps);
    }
}

impl FirstValues {
    /// No item is said yet.
    pub fn new(alloc: Global) -> FirstValues
        ensures { result ≡ no_values }
    {
        FirstValues {
            rows: Vec::new(alloc),
            stamps: FirstStamps::new(alloc),
        }
    }

    /// One more item, with its first value and the stamp of that.
    ///
    /// # Errors
    ///
    /// `AllocError`.
    pub fn add(&mut self, item: ItemId, stamp: Stamp, value: Value) -> Result<(), AllocError>
        ensures { OnOk result (self.new ≡ with_value self.old item stamp value) }
    {
        self.stamps.note(item, stamp)?;
        self.rows.push((item, value))?;
        Ok(())
    }

    /// The opening that they make behind this header.
    pub fn into_opening(self, header: Header) -> Opening
        ensures { result ≡ opening_of header self }
    {
        let FirstValues { rows, stamps } = self;
        Opening {
            parts: header.parts,
            limit: header.limit,
            policy: header.policy,
            checked: header.checked,
            root: header.root,
            first: header.first,
            items: ItemValues::of(rows),
            stamps,
        }
    }
}
