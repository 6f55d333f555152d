//! How a stamp that was left pending is settled. Each partition at which it is prepared asks the others of its
//! partitions for the stamp's state there, and decides by their votes.
//!
//! What comes in: a stamp, the others of its partitions, and their votes. What goes out: a Check to each of these
//! (`checks`), a partition's own vote (`vote_of`), and what it does with the stamp at a vote (`decide`). Nothing is
//! kept here: `album_partition` keeps the states and the votes, and asks `decide` where a vote is Prepared. The two
//! votes that settle a stamp by themselves it carries out at once.
//!
//! Read `deciding` first, then `asking`.
#![tactic(auto)]

mod asking;
mod deciding;

pub use asking::checks;
pub use deciding::{Decision, StampState, decide, vote_of};
