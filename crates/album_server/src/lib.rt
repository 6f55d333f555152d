//! The one door to what a program of one's own needs: engines of lines, a service, and a port.
//!
//! Nothing is made here. The engine of judge lines is `album_judge`'s, that of scripts `album_replay`'s, and that of
//! connections `album_talk`'s. A service is `album_threads`', and a port `album_port`'s. `album_first` is a
//! program over it.
#![tactic(auto)]

// The engines: lines come in, and lines go out.
pub use album_judge::{Fault, judge, judge_buffered, one_judgement, with_buffers};
pub use album_replay::{
    a_replay_runs_what_its_lines_spell, replay, replays_are_computed, replays_go_on,
    what_replay_prints, worked_replays,
};
pub use album_stamps::Refusal;
pub use album_talk::{
    Admins, AskWord, Ending, Epoch, Journal, NoJournal, Outcome, converse, only_admins_are_heard,
    talk_on,
};

// A port.
pub use album_port::{
    AuditFile, Host, Served, Serving, opening_of_text, serve, serve_beside, serve_for, serve_until,
};

// What a program needs to open a store and ask.
pub use album_eval::Principal;
pub use album_items::{Opening, read_item};
pub use album_permits::{Answer, Out};
pub use album_threads::{OwnedSession, Service, ServiceNames, Session, Visit, with_service};
pub use album_views::Ask;
pub use album_wire::{write_answer, write_out, write_shown_answer, write_shown_out};
