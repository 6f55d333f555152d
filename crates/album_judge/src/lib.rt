//! The engine that judges lines, from a reader of lines to a writer of answers.
//!
//! What comes in: a reader and a writer, whatever they are. What goes out: of each line that is read, the line of its
//! verdict or of its refusal; or a fault, before which a prefix of the answers was written. The crates of the store are
//! not needed.
//!
//! Read `engine` first: `judge` reads, `answer_line` answers a line, and `verdict` judges it. The programs call it by
//! `buffered`. Then specs/Judge.antt, which says what an answer is, and specs/Writes.antt, which says how
//! what was written goes with what was read. The other engines, in `album_replay`, `album_explain` and `album_talk`,
//! end by the same faults and write by the same `writing`.
#![tactic(auto)]

// The engine, the same with a buffer on both sides, and what either does before it reads.
mod buffered;
mod engine;
mod pace;

// What engines share: why one ended early, and how a text is written.
mod fault;
mod writing;

pub use buffered::{judge_buffered, with_buffers};
pub use engine::{PIECE, group_map, judge, one_judgement};
pub use fault::Fault;
pub use writing::{write_refused, write_text};
