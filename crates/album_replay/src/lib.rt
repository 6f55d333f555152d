//! The engine that replays a script, from a reader of lines to a writer of what its events bring about.
//!
//! What comes in: a reader and a writer, whatever they are. What goes out: the text that the lines read bring about; or
//! a fault, and before it a prefix of a text that they bring about. No thread is needed, and no connection.
//!
//! Read `engine` first: `Stage` takes a line (`engine/stages`), and a line's events run (`engine/events`).
//! specs/Replay.antt has the text of a replay, specs/Promise.antt what is promised of it, and `laws` what holds of
//! both. A service, too, needs what the lines of an opening say (`openings`).
#![tactic(auto)]

// What the lines of an opening say. Both a replay and a service begin with them.
mod openings;

// The engine.
mod engine;

// What holds of replays.
mod laws;

pub use engine::replay;
pub use laws::{
    a_replay_runs_what_its_lines_spell, replays_are_computed, replays_go_on, what_replay_prints,
    worked_replays,
};
pub use openings::{SoFar, first_line, later_line};
