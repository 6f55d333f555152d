//! Epochs: what a run of the store leaves to the next one.
//!
//! What comes in: the histories with which an epoch ends, and its opening. What goes out: the next opening.
//!
//! Read specs/Carried.antt first, then `folds`, `next_opening` and `laws`.
#![tactic(auto)]

// The rows of the next opening, above which stamps it draws, and the opening itself.
mod folds;
mod greatest;
mod next_opening;

// What holds of what is carried.
mod laws;

pub use folds::fold;
pub use greatest::greatest_stamp;
pub use laws::{
    an_epoch_opens_on_a_base, an_epoch_opens_read_atomic, no_carried_update_is_lost,
    no_view_goes_back, stamps_stay, sweeps_decide_so, what_is_carried, what_is_carried_stays,
    what_is_folded_is_carried,
};
pub use next_opening::{MARGIN, lend, opening_after};
