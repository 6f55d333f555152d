//! The board of a service: the passes with which answers were published, in a list that only grows.
//!
//! What comes in: the pass of a session, before it gives an answer. What goes out: to a request that listens before it
//! begins, a pass that has seen all that was published. So what an answer rests on is in each later request's cut.
//!
//! A board lies under a lock, and alone writes its list. When the program runs it is the lengths of its pass and a
//! number; the list is there for contracts alone.
//!
//! Read `board` first, with specs/Board.antt, then `locked`; then what they use, `writer` and the rule of its book in
//! `rule`; and `laws` last.
#![tactic(auto)]

// What callers see: a board, by itself and under its lock.
mod board;
mod locked;

// The list of a board, and its name.
mod names;
mod rule;
mod writer;

// What holds of publications.
mod laws;

pub use board::{Board, Listened, Published};
pub use laws::what_was_published_is_seen;
pub use locked::{listen, publish};
pub use names::BoardNames;
pub use writer::NewList;
