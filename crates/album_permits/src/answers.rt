//! The answer to an ask.

use crate::findings::Denial;
use crate::serving::Served;
use album_items::ItemId;
use album_stamps::{Refusal, Stamp};
use album_views::Why;

/// The answer to an ask.
#[derive(Debug, Drop)]
pub enum Answer {
    /// The ask is granted, writes nothing, and is served this.
    Served(Served),
    /// It is denied. The denial has the reason for each alternative.
    Denied(Denial),
    /// This object that it names is missing.
    Missing(ItemId),
    /// It has no view.
    Busy(Why),
    /// It is written at this stamp, at each participant.
    Committed(Stamp),
    /// It is never written: a participant has discarded this stamp for good.
    Aborted(Stamp),
    /// Its write began at this stamp and isn't settled: a participant had no room for it. In a running service the
    /// memory may also have run out, or the service may be closed. Then nobody knows yet how the write ends.
    Unsettled(Stamp, Refusal),
    /// It is granted, and can't be written: the album is full, or the client's stamps are spent.
    Refused(Refusal),
}
