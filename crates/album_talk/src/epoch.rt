//! The epoch in which a connection talks.
ghost use Rattle.std.specs.Prelude.{◌≡◌};
ghost use Rattle.album_talk.specs.Talk.{unknown_epoch};

use album_items::{FirstStamps, ItemValues, Opening};
use std::alloc::Global;

/// What a talk goes by in an epoch.
#[derive(Drop)]
pub struct Epoch {
    /// What it opened on: the stamps that are shown of first values, and what a dump goes over.
    pub opening: Opening,
    /// Its number, where a service tells its epochs apart. The first one is 1.
    pub number: Option<u64>,
}

impl Epoch {
    /// Nothing is known of it: no first value has a stamp, and there is no dump.
    pub fn unknown(alloc: Global) -> Epoch
        ensures { result ≡ unknown_epoch }
    {
        let opening = Opening {
            parts: 0,
            limit: 0,
            policy: 0,
            checked: false,
            root: None,
            first: 0,
            items: ItemValues::of(Vec::new(alloc)),
            stamps: FirstStamps::new(alloc),
        };
        Epoch {
            opening,
            number: None,
        }
    }
}
