//! Passes: what was seen of the partitions' histories, in tokens that travel with messages.
//!
//! What comes in: an opening, and then the marks that partitions make and the writes that clients
//! announce. What goes out: passes, whose cuts are closed (consistent), and the clients' numbers.
//!
//! A `Desk` opens with an `Owner` for each partition and a first `Pass`. A partition's thread appends each mark that it
//! makes. A client draws its number, and announces each write with its values and its bases. Each splits a pass off for
//! every message that it sends, and joins the pass of every message that it takes. What a pass has seen is a cut: a
//! prefix of each history, and the writes that were announced.
//!
//! The cut is there for contracts alone. When the program runs, a pass is the lengths of its
//! prefixes: a version vector. What the threads share is then a word for each partition, and one
//! for the numbers.
//!
//! Read `pass` and `owner` first, together with specs/Cuts.antt; then `desk`. Then read what they
//! build on: `holding` with its `lengths`, and the rule of the shared counters in `rule`. `laws` comes last.
//!
//! `Append`, `Draw` and `Announce` of `rule` are the kinds of step at these counters, by specs/Steps.antt. `holding`
//! makes the steps; `Owner::append` and `Desk::draw` pass on to it. One `Append` is one mark, and drawn numbers rise:
//! contracts of crates above rest on both.
#![tactic(auto)]

// What callers have: the desk, a partition's owner, and passes.
mod desk;
mod owner;
mod pass;

// What these build on.
mod holding;
mod lengths;
mod rule;

// What holds of them.
mod laws;

pub use desk::Desk;
pub use laws::{
    cuts_are_causal, cuts_lose_no_update, cuts_only_grow, fresh_as_authors_saw, marks_are_backed,
    reads_are_atomic_and_fresh, versions_are_as_announced, what_closed_cuts_have,
    what_is_committed_is_there,
};
pub use owner::Owner;
pub use pass::{Pass, meet};
pub use rule::NamesWrites;
