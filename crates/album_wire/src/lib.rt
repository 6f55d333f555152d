//! The lines of a store: read by their JSON, and written.
//!
//! What comes in: the bytes of a line of an opening, of an event, or of a connection. What goes out: what it says, or
//! the first test that it fails. A store's outputs come in too, and their lines go out.
//!
//! Read `opening_line` first: the shape of a line (`opening_shape`, `item_shapes`), then its values (`item_texts`).
//! `first_values` gathers them into an opening.
//! `event_line` goes the same way, by `event_shape`; `talk_line`, what a connection says, by `talk_shape`. What both
//! may ask is in `ask_shape` and `asks`. `laws` says that what is read is exactly what the bytes spell. What is written
//! is in `out_json`, with what is served in `served_json`, and in `talk_json`; these make a JSON value first, by
//! `value_json` and `message_json`. The most frequent answers, and the longest, are made without one (`object_text`).
//! For those who run a service, `record_json` has the lines of an audit file, and `figures_json` those of its figures.
//! For a log, `mark_line` has the line of what a partition has prepared, and `opening_text` writes the lines of an
//! opening. That both are read back is a law of the values that `spellable` tests. How lines are cut out of a text, and
//! how the parts of one are read, is in `album_lines`, whose public names are passed on here.
#![tactic(auto)]

// An opening: its items, and its lines.
mod first_values;
mod item_shapes;
mod item_texts;
mod opening_line;
mod opening_shape;
mod opening_text;

// The line of an event, whose ask a connection may have too.
mod ask_shape;
mod asks;
mod event_line;
mod event_shape;

// What a connection says.
mod talk_line;
mod talk_shape;

// The line of a mark in a log, read and written.
mod mark_line;
mod mark_shape;

// Which values have a line that is read back.
mod spellable;

// What holds of each line that is read.
mod laws;

// The lines that are written.
mod figures_json;
mod message_json;
mod object_text;
mod out_json;
mod record_json;
mod served_json;
mod talk_json;
mod value_json;
mod whole_opening;

pub use album_lines::{
    Group, JudgeLine, LineIn, Lines, any_pieces, joined_lines, questions_by_line, read_judge,
    refusal_texts, verdict_texts, write_refusal, write_verdict,
};
// (The names in `worked_` are laws: lines that were worked out by hand.)
pub use event_line::{read_event, worked_events};
pub use event_shape::{MAX_DELIVERIES, Spelled};
pub use figures_json::{ServiceFigures, worked_figures, write_figures};
pub use first_values::FirstValues;
pub use laws::{
    events_by_line, hellos_by_line, marks_by_line, marks_read_back, openings_by_line,
    openings_read_back, talks_by_line,
};
pub use mark_line::{PreparedMark, read_mark, worked_marks, write_mark};
pub use message_json::worked_messages;
pub use opening_line::{OpeningLine, read_opening_line, worked_openings};
pub use opening_shape::{DEFAULT_LIMIT, DEFAULT_POLICY, Header};
pub use opening_text::{worked_opening_texts, write_begin, write_first_value, write_header};
pub use out_json::{worked_outs, write_answer, write_out, write_shown_answer, write_shown_out};
pub use record_json::{worked_records, write_record};
pub use spellable::{
    headers_are_spellable, is_spellable, is_spellable_first_value, is_spellable_mark,
};
pub use talk_json::{Counted, TalkOut, worked_talk_outs, write_talk};
pub use talk_line::{TalkLine, read_hello, read_talk, worked_talks};
pub use whole_opening::text_of_opening;
