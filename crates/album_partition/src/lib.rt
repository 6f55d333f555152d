//! A partition: a state machine over messages. A message comes in; at most one mark and one vote are
//! kept, and at most one reply goes out, by one table of answers. A write that was left half way is
//! settled by asking the other partitions of its items.
//!
//! A `Partition` opens with the first values of its items. Then its caller gives it each message by
//! `receive`. What it keeps is its `history`: a list of marks that only grows. For a stamp of
//! `pending` the caller may send what `sweep` gives. Nobody does so unasked: in a world an event
//! asks for it, and in a service a session, as by a line of an admin.
//!
//! Read `marks` first, together with specs/Marks.antt; then `partition` and the table in
//! `partition/answers`. `proper` says which Prepares are well-formed, and `votes` holds the votes
//! noted on pending stamps. Then read `stored` and `history`, which these build on, and `laws` last.
//! `figures` says how much a partition holds.
#![tactic(auto)]

// The marks, the history that is a list of them, and all that is read off it.
mod first_values;
mod history;
mod marks;
mod standings;
mod stored;

// The table of answers: which Prepares are well-formed, and the votes on what is pending.
mod partition;
mod places;
mod proper;
mod votes;

// How much a partition holds.
mod figures;

// What holds of partitions.
mod laws;

pub use figures::Figures;
pub use laws::{
    full_has_its_cause, full_stays, gets_read_what_is_kept, gets_read_what_is_written,
    histories_are_orderly, histories_only_grow, marks_have_their_causes, no_update_is_lost,
    partitions_stay_partitions, promises_against_are_kept, proper_writes_are_those_placed_here,
    replies_are_true, replies_go_to_the_sender, requests_are_answered, trims_raise_the_floor,
};
pub use marks::Mark;
pub use partition::Partition;
