//! When something is said.
use jiff::Timestamp;
use std::time::Clock;

/// The moment that the clock shows. Where it can't be read, that is the beginning of 1970.
pub(crate) fn now<T: Clock>(rt: &T) -> Timestamp {
    match Timestamp::now(rt) {
        Ok(now) => now,
        Err(_) => Timestamp::UNIX_EPOCH,
    }
}
