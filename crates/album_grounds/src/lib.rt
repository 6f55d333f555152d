//! What an answer rests on: what the replies of partitions show together, in the cut that has seen them.
//!
//! What comes in: replies, each with what its cut shows of the partition that gave it. What goes out: what was read is
//! read atomic, fresh and settled, or a trim has let go of what it asked for. The outcome of an ask's reads goes out
//! too, and that of a write. There is neither a client here nor a thread, and nothing is computed.
//!
//! Read specs/ in the order of specs/Lib.antt, then `laws`. The sessions, whose answers rest so, are `album_sessions`'.
#![tactic(auto)]

// What holds of the grounds.
mod laws;

pub use laws::{
    grounds_stay, kept_writes_lose_no_update, no_new_enemy, reads_are_stable, reads_go_on,
    what_is_kept_was_asked_for, what_was_acknowledged_is_known,
};
