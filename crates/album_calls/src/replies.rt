//! What a partition replies.
use crate::nodes::Vote;
use album_items::{ItemId, SharedValue};
use album_stamps::Stamp;

/// What a partition replies.
#[derive(Clone, Debug, Drop)]
pub enum Reply {
    /// The writes of the stamp are kept, pending.
    Prepared(Stamp),
    /// The writes of the stamp can be read.
    Committed(Stamp),
    /// The writes of the stamp are let go, and never will be read.
    Discarded(Stamp),
    /// The item's version: its stamp and its value.
    Version(ItemId, Stamp, SharedValue),
    /// The vote on the stamp: its state here.
    Status(Stamp, Vote),
    /// The stamp is not pending here.
    NotPrepared(Stamp),
    /// The request does not fit what is kept.
    Clash,
    /// There is no room for the writes of the stamp.
    Full(Stamp),
    /// What was asked of the item is no longer kept: it was trimmed.
    Gone(ItemId),
}
