//! The talk of a connection: what a session answers to its lines.
//!
//! What comes in: a reader and a writer, whatever they are, a session, who may send more than asks, the epoch, and a
//! journal. What goes out: for each line that is read, one line with the session's answer, or with the refusal; a dump
//! has its opening behind that. Where a fault goes out, a prefix of these lines was written before. What was noted for
//! an answer is in the journal before any byte of the answer is written, and so is how the request has ended
//! (`endings`).
//!
//! Read `talk` first, the engine: `talk_on` reads, and `answer_lines` writes. `answers` asks the session for each
//! line. specs/Talk.antt says what a talk is, in the order of the answers, their texts, a line and the whole. Who opens
//! the session and accepts the connection is not known here: `album_port` does both.
#![tactic(auto)]

// Who may say what over a connection.
mod admins;

// How a request has ended, and where that is written beside what was noted.
mod endings;
mod journal;

// The epoch in which it is talked.
mod epoch;

// What a line is answered, and the engine.
mod answers;
mod talk;

pub use admins::{Admins, only_admins_are_heard};
pub use endings::{AskWord, Ending, Outcome};
pub use epoch::Epoch;
pub use journal::{Journal, NoJournal};
pub use talk::{converse, talk_on};
