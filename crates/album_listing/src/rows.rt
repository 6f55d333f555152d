//! The rows of a listing.
ghost use Rattle.std.specs.Prelude.{◌≡◌};

use album_items::{ItemId, Title};
use std::marker::Model;

/// A child that is listed, and its title.
#[derive(Debug, Drop)]
pub struct Row {
    pub item: ItemId,
    pub title: Title,
}

/// Children that are listed, with their titles. Contracts see them in order.
#[derive(Debug)]
pub struct Rows {
    rows: Vec<Row>,
}

impl Model for Rows {
    ghost use Rattle.std.specs.Prelude.{List};
    ghost use Rattle.album_listing.specs.declared.rows.Row.{Row};

    ghost Value = { List Row };

    ghost view = { λ r. r.rows.items };
}

// By hand, so that what lets it go is proved here, and not again in each crate above.
impl Drop for Rows {
    fn drop(self) {
        let Rows { rows } = self;
        drop(rows);
    }
}

impl Rows {
    /// These rows.
    pub(crate) fn of(rows: Vec<Row>) -> Rows
        ensures { result ≡ rows.items }
    {
        Rows { rows }
    }

    /// The rows, in order.
    pub fn as_slice(&self) -> &[Row]
        ensures { result.now ≡ self.now }
    {
        self.rows.as_slice()
    }
}
