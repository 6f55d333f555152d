//! Turns: what a running service leaves to its next epoch.
//!
//! What comes in: a session of the service, and the opening on which it opened. What goes out: the opening with which
//! the next epoch begins. All that was published on the service's board before is carried into it, and nothing is read
//! from a disk.
//!
//! Read specs/Left.antt first, then `leaving` and `laws`.
#![tactic(auto)]

// What the partitions have, and what comes of it.
mod leaving;

// What holds of that.
mod laws;

pub use laws::{nothing_acknowledged_is_lost_over_a_turn, what_was_published_is_left};
pub use leaving::{Left, leave};
