//! The engine that explains lines, and the explanations of judge lines: where each refusal is, and what decided each
//! bit.
//!
//! What comes in: a reader and a writer, as for `album_judge`, and an `Explainer`, which explains a line. What goes
//! out: of each line that is read, a line with its number; or a fault, before which a prefix of these was written.
//! The refusals and the verdicts of judge lines are those of `album_judge`. Masks and flags come in as numbers and go
//! out as their bits' names, and the reverse. Other lines are explained by crates above, by the same engine.
//!
//! Read `explaining` first: `explain` reads, and an `explainer` explains one line. Then `judging`, the explanations of
//! judge lines; `decisions`, how each bit is decided, with the law `verdict_by_bits`; `places`, where a refused line
//! fails; `explanations`, the lines that are written; `names`. specs/Explain.antt says what an explanation is, and
//! specs/Judging.antt what that of a judge line is.
#![tactic(auto)]

// What bits are called.
mod names;

// How each bit of a question is decided.
mod decisions;

// Where a line is refused.
mod places;

// The lines that are written.
mod explanations;

// The engine, and the explanations of judge lines.
mod explainer;
mod explaining;
mod judging;

pub use decisions::{Decision, decide, verdict_by_bits};
pub use explainer::Explainer;
pub use explaining::{Progress, explain};
pub use explanations::{BitRow, write_refused};
pub use judging::JudgeLines;
pub use names::{bit_name, write_flags, write_mask};
pub use places::{Found, find_byte, find_entries_form, find_entries_value};
