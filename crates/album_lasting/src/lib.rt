//! What lasts: in a running service an acknowledged write is undone by no request that doesn't ask for that. And a
//! crash loses none, where the log has each write that was committed.
//!
//! What comes in: a cut that the sessions of a checked service have come to, in which all that is announced was
//! granted. What goes out: of two versions of an item, what the later one has of the earlier. What it lacks, a request
//! in between has taken: a principal asked for that and was granted it. Of the entries that a crash leaves of a log, on
//! what each item opens. There is no code here: nothing is computed.
//!
//! Read specs/Staying.antt, then `laws`. Of a world, which is a list of events, `album_world` has the same laws. Then
//! read specs/Crashing.antt, and `crashes`.
#![tactic(auto)]

// What holds of the cuts of a service.
mod laws;

// What holds of what a crash leaves of it.
mod crashes;

pub use crashes::{nothing_acknowledged_is_lost_over_a_crash, what_a_log_keeps_is_logged};
pub use laws::{
    acknowledged_additions_stay, acknowledged_settings_stay,
    later_versions_are_made_from_earlier_ones, nothing_is_undone_unasked, sessions_know_a_service,
    what_was_answered_is_a_version,
};
