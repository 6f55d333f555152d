//! A session's channel to the partitions: what it sends them, and which of the replies that come it takes.
//!
//! What comes in: the messages of a round, which go to the partitions together; and control requests, each to one of
//! them. What goes out: replies to these, each with what the channel's pass shows of it. A reply counts only where its
//! partition had by then all marks with which the round began.
//!
//! Read `channel` first, then `asked` and `round`. `reads` says how a read begins, `sightings` are what its first
//! round has shown, and `repeating` is what a session knows of the second by them. The session, with its client, is
//! `album_sessions`'.
#![tactic(auto)]

// The channel: its mailboxes, its pass, and control requests.
mod channel;

// What is asked in one round, and how a read begins.
mod asked;
mod reads;

// What a read's first round has shown, and what of the second is known by that.
mod repeating;
mod sightings;

// A round: its messages are sent, and replies to them are taken.
mod round;

pub use asked::{Asked, NoReply};
pub use channel::PartitionChannel;
pub use reads::begins_read;
