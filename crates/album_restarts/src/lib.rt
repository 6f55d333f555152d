//! Restarts: what a world leaves to the next epoch.
//!
//! What comes in: a world, and the opening on which it opened. What goes out: the opening with which the next epoch
//! begins. Each write that some partition has committed is carried into it, and no item is carried older than it was
//! ever read. Clients and messages are lost.
//!
//! Read specs/Worlds.antt and specs/Next.antt first, then `reopening` and `laws`.
#![tactic(auto)]

// The next opening, and its rows.
mod reopening;

// What holds of it.
mod laws;

pub use laws::{
    a_world_is_a_sound_cut, each_row_was_granted, no_read_goes_back_over_a_restart,
    no_stamp_is_drawn_twice, nothing_committed_is_lost_over_a_restart, the_next_opening_is_a_base,
};
pub use reopening::next_opening;
