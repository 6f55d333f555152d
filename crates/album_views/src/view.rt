//! Views.
ghost use Rattle.std.specs.Prelude.{◌≡◌, option_map};
ghost use Rattle.album_reader.specs.Snapshots.{items_read, version_read};
ghost use Rattle.album_views.specs.Views.{IsView};

use crate::asks::Ask;
use album_eval::Principal;
use album_items::{ItemId, Value};
use album_reader::{ReadVersion, Snapshot};
use album_stamps::Stamp;
use std::marker::Model;

/// An ask, and the one snapshot on which it is ruled, which has every item that the ruling looks at; and who looks,
/// where the policy has the owner's way.
#[derive(Debug)]
pub struct View {
    looker: Option<Principal>,
    ask: Ask,
    snapshot: Snapshot,
}

impl Model for View {
    ghost use Rattle.album_views.specs.Views.{ViewState, IsView};

    ghost Value = { ViewState };

    ghost view = { λ v. record { looker = v.looker; ask = v.ask; rows = v.snapshot } };

    ghost invariant = { λ v. IsView (record { looker = v.looker; ask = v.ask; rows = v.snapshot }) };
}

// By hand, so that what lets it go is proved here, and not again in each crate above.
impl Drop for View {
    fn drop(self) {
        let View {
            looker,
            ask,
            snapshot,
        } = self;
        drop(looker);
        drop(ask);
        drop(snapshot);
    }
}

impl View {
    /// Who looks, the ask and its snapshot.
    pub(crate) fn of(looker: Option<Principal>, ask: Ask, snapshot: Snapshot) -> View
        requires { IsView (record { looker = looker; ask = ask; rows = snapshot }) }
        ensures { result ≡ record { looker = looker; ask = ask; rows = snapshot } }
    {
        View {
            looker,
            ask,
            snapshot,
        }
    }

    /// What is asked.
    pub fn ask(&self) -> &Ask
        ensures ask { result.now ≡ self.now.ask }
        ensures valid { IsView self.now }
    {
        &self.ask
    }

    /// What was read, in the order of the items.
    pub fn answers(&self) -> &[ReadVersion]
        ensures { result.now ≡ self.now.rows }
    {
        self.snapshot.answers()
    }

    /// The items that were read.
    pub fn items(&self) -> &[ItemId]
        ensures { result.now ≡ items_read self.now.rows }
    {
        self.snapshot.items()
    }

    /// The stamp and the value of the item, if it was read.
    pub fn at(&self, item: ItemId) -> Option<(Stamp, &Value)>
        ensures { option_map (λ row. (row.0, row.1.now)) result ≡ version_read self.now.rows item }
    {
        self.snapshot.at(item)
    }
}
