//! What can happen to a world.
use album_eval::Principal;
use album_items::ItemId;
use album_stamps::{ClientNo, Stamp};
use album_views::Ask;

/// One event of a world.
#[derive(Debug, Drop)]
pub enum Event {
    /// The client asks for something, on behalf of a principal.
    Ask(ClientNo, Principal, Ask),
    /// The message of this number is delivered to its receiver, be it late, again or out of order. A message that is
    /// never delivered is lost.
    Deliver(u64),
    /// The partition, at which the stamp is pending, asks the other participants of its write for their votes.
    Sweep(u16, Stamp),
    /// The client stops for good.
    Stop(ClientNo),
    /// The partition drops the versions of the item below its latest stamp.
    Trim(u16, ItemId),
}
