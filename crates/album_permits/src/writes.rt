//! What a granted ask writes, with its permit.
ghost use Rattle.std.specs.Prelude.{◌≡◌, false};
ghost use Rattle.album_permits.specs.Effects.{effect_of, is_full_for};
ghost use Rattle.album_permits.specs.Writes.{AreWrites};

use crate::permits::Permit;
use album_items::{ItemId, ItemValues, Value};
use album_stamps::Stamp;
use std::marker::Model;

/// A permit that is spent on a write, the stamp of this, and what is written. It must be spent too. Contracts
/// see the permit and the stamp, since these determine what is written.
#[derive(Debug)]
pub struct Writes {
    permit: Permit,
    stamp: Stamp,
    writes: ItemValues,
}

impl Model for Writes {
    ghost use Rattle.album_permits.specs.Writes.{WritesState, AreWrites};

    ghost Value = { WritesState };

    ghost view = { λ w. record { permit = w.permit; stamp = w.stamp } };

    ghost invariant = { λ w. AreWrites (record { permit = w.permit; stamp = w.stamp }) w.writes };
}

impl Writes {
    /// These writes of the permit's ask.
    pub(crate) fn of(permit: Permit, stamp: Stamp, writes: ItemValues) -> Writes
        requires { AreWrites (record { permit = permit; stamp = stamp }) writes }
        ensures { result ≡ record { permit = permit; stamp = stamp } }
    {
        Writes {
            permit,
            stamp,
            writes,
        }
    }

    /// The items and the values that they are to have, in order.
    pub fn list(&self) -> &[(ItemId, Value)]
        ensures writes { result.now ≡ effect_of self.now.permit self.now.stamp }
        ensures room { is_full_for self.now.permit self.now.stamp ≡ false }
    {
        self.writes.as_slice()
    }

    /// The stamp at which it is written.
    pub fn stamp(&self) -> Stamp
        ensures { result ≡ self.now.stamp }
    {
        self.stamp
    }

    /// The permit.
    pub fn permit(&self) -> &Permit
        ensures { result.now ≡ self.now.permit }
    {
        &self.permit
    }

    /// Gives the permit back, and is spent.
    pub fn back(self) -> Permit
        ensures { result ≡ self.permit }
    {
        let Writes {
            permit,
            stamp: _,
            writes,
        } = self;
        drop(writes);
        permit
    }
}
