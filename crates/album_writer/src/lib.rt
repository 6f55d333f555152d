//! A write of a permit in two rounds, as in RAMP-Small (Bailis and others, SIGMOD 2014).
//!
//! What comes in: a permit whose ask writes, a stamp of its client, and then the messages that reach the client.
//! What goes out: a Prepare to each participant, a Commit to each once all have prepared, and how the write ended. The
//! participants are the partitions of the items that are written. In a checked store each Prepare names in addition on
//! which versions its writes are made: the bases.
//!
//! Read `preparing` first, then `committing`, which do their work on `writing`. specs/Rounds.antt defines what a
//! message does, over specs/Writing.antt and specs/WriteReplies.antt.
#![tactic(auto)]

// What a write is made of.
mod outcomes;
mod sending;
mod write_replies;
mod writing;

// The write.
mod beginning;
mod committing;
mod preparing;

// What holds of it.
mod laws;

pub use album_permits::Answer;
pub use committing::{CommitStep, Committing};
pub use laws::{
    a_message_counts_or_is_stray, a_write_depends_on_its_replies, a_write_ends_by_its_replies,
    checked_writes_name_their_bases, writes_go_to_their_places,
};
pub use outcomes::Outcome;
pub use preparing::{PrepareStep, Preparing};
