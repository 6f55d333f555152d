//! The explanations of a store's lines, by the engine of `album_explain`: what each is, or where it is refused.
//!
//! What comes in: lines of openings with the events after them, of events alone, or of a connection. What goes out: of
//! each line that is read, a line with its number. It is refused, or taken, as the readers of `album_wire` do it.
//!
//! Read `events` first, then `talks`, where the first line says who talks. Then read `openings`, where lines have an
//! order and make an opening together, and `scripts`, which explains a script's end too. `explanations` has the lines
//! that are written. `places` finds where a refused line fails, by `places/tables`, which has the names of each line in
//! their order.
#![tactic(auto)]

// What a line is, and the line that says so.
mod explanations;

// Where a line is refused.
mod places;

// The explainers of each kind of lines, and of an ask in either.
mod asks;
mod events;
mod openings;
mod scripts;
mod talks;

pub use events::EventLines;
pub use explanations::{Kind, Lines, Taken};
pub use openings::{OpeningLines, SoFar};
pub use scripts::explain_script;
pub use talks::TalkLines;
