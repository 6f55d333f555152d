//! The connections that haven't said who they are. Where files are short, the oldest of them gives way to a newcomer.
ghost use Rattle.std.specs.Prelude.{◌≡◌, ◌≢◌, ◌≤◌, ◌<◌, ◌*◌, ◌-◌, ℕ, None, Some, IfSome, IfNone, OnOk};
ghost use Rattle.std.specs.Ordering.{nat_cmp};
ghost use Rattle.std.specs.BTreeMap.{get, IsUnchanged};
ghost use Rattle.std.specs.Time.{instant_nanos};
ghost use Rattle.album_port.specs.Silent.{IsOldest, IsSameWithout};

use std::alloc::{AllocError, Global};
use std::collections::BTreeMap;
use std::time::{Duration, Instant};

/// How many milliseconds each of them has to say who it is, however many others come.
const LEAST: u64 = 100;

/// Their numbers, each with the moment in which it came. The least is that of the oldest.
#[derive(Drop)]
pub(crate) struct Silent {
    since: BTreeMap<u64, Instant>,
}

impl Silent {
    /// Nobody has come.
    pub(crate) fn new(alloc: Global) -> Silent
        ensures { (number : ℕ) → get nat_cmp result.since number ≡ None }
    {
        Silent {
            since: BTreeMap::new(alloc),
        }
    }

    /// The connection of this number has come now, and said nothing yet.
    ///
    /// # Errors
    ///
    /// `AllocError`.
    pub(crate) fn add(&mut self, number: u64, now: Instant) -> Result<(), AllocError>
        ensures there { OnOk result (get nat_cmp self.new.since number ≡ Some now) }
        ensures others { (other : ℕ) → other ≢ number
            → get nat_cmp self.new.since other ≡ get nat_cmp self.old.since other }
    {
        match self.since.insert(number, now) {
            Ok(_) => Ok(()),
            Err(_) => Err(AllocError),
        }
    }

    /// The connection of this number has said who it is, or has ended.
    pub(crate) fn remove(&mut self, number: u64)
        ensures { IsSameWithout number self.old.since self.new.since }
    {
        let _ = self.since.remove(&number);
    }

    /// The oldest of them gives way, and is none of them any more; but none does where the oldest has had no time yet.
    pub(crate) fn give_way(&mut self, now: Instant) -> Option<u64>
        ensures oldest { IfSome result (λ number. IsOldest self.old.since number) }
        ensures gone { IfSome result (λ number. IsSameWithout number self.old.since self.new.since) }
        ensures waited { IfSome result (λ number. (since : Instant) → get nat_cmp self.old.since number ≡ Some since
            → 100 * 1000000 ≤ instant_nanos now - instant_nanos since) }
        ensures nobody { IfNone result ((number : ℕ) (since : Instant) → IsOldest self.old.since number
            → get nat_cmp self.old.since number ≡ Some since
            → instant_nanos now - instant_nanos since < 100 * 1000000) }
        ensures kept { IfNone result (IsUnchanged self.old.since self.new.since) }
    {
        let (_, since) = self.since.first_key_value()?;
        if now.saturating_duration_since(*since) < Duration::from_millis(LEAST) {
            return None;
        }
        let (number, _) = self.since.pop_first()?;
        Some(number)
    }
}
