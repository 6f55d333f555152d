//! A read of items in two rounds, as in RAMP-Small (Bailis and others, SIGMOD 2014).
//!
//! What comes in: a client's items, and then the messages that reach it. What goes out: the first
//! round's messages, which ask each item's partition for its latest version. After the last answer
//! to these the second round's go out, which ask each again with the stamps of all the answers.
//! After the last answer to those what was read goes out. If one of the items is gone, the items
//! come back.
//!
//! Read `reading` first, then `round`, which does its work on what `asker`, `versions` and `answers` say.
//! What a message does is defined in specs/Rounds.antt, over specs/Answers.antt.
#![tactic(auto)]

// What a round is made of.
mod answers;
mod asker;
mod stamp_sets;
mod versions;

// The read.
mod reading;
mod round;
mod snapshot;

// What holds of it.
mod laws;

pub use answers::ReadVersion;
pub use laws::{
    a_message_counts_or_is_other, a_read_has_two_rounds, a_round_depends_on_its_replies,
    second_round_asks_with_each_stamp, what_was_read_is_the_first_answers,
};
pub use reading::{Reading, Step};
pub use snapshot::Snapshot;
