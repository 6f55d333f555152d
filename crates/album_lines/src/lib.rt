//! Lines: cut out of a text that comes in pieces, read by their JSON, and judge lines with their answers.
//!
//! What comes in: bytes, in pieces of any size. What goes out: the lines that end in them. Of a line there is its JSON
//! value, the parts of that, or the question of a judge line; or else the first test that it fails. A verdict or a
//! refusal comes in too, and its line goes out.
//!
//! Read `lines` first, then `judge_line`: a line's JSON value (`trees`), its shape (`judge_shape`, by `shapes` and
//! `fields`), and the values of that (`values`). A judge line of the usual form gets no tree: its shape is taken token
//! by token (`judge_tokens`, by `tokens`). The law `questions_by_line` says that a line is read as what it spells. The
//! lines of a store are read by the same parts, in `album_wire`. The JSON of lines that are written is made by
//! `json_values`.
#![tactic(auto)]

// A text in pieces, and its lines.
mod lines;

// The JSON value of a line, and its parts.
mod fields;
mod numbers;
mod tokens;
mod trees;

// Access lists and members, as a line has them.
mod shapes;
mod values;

// A judge line.
mod judge_line;
mod judge_shape;
mod judge_tokens;

// The lines that are written.
mod json_values;
mod output;

pub use fields::{
    field, has, is_list, is_nothing, item, list, list_under, member, only, sized_list, text,
    text_under, truth, whole, whole_under,
};
pub use json_values::{array_of, json_line, object_of, with_item, with_member};
pub use judge_line::{Group, JudgeLine, questions_by_line, read_judge};
pub use lines::{LineIn, Lines, any_pieces, joined_lines};
pub use output::{refusal_texts, verdict_texts, write_refusal, write_verdict};
pub use shapes::{EntryShape, entry_shapes, texts};
pub use trees::{MAX_DEPTH, data};
pub use values::{access_list, members};
