//! The command line of `album`, and its subcommands. Of `serve` and `check-data` it has the arguments alone.
//!
//! What comes in: the words of a command line, a reader and a writer. What goes out: lines, and the status that the
//! program ends with. Each file has a subcommand: its arguments, and what it does; `album` does what these two say.
//!
//! Read `command_line` first; `running` has what all of them share.
#![tactic(auto)]

mod command_line;

// The subcommands.
mod asking;
mod checking;
mod dumping;
mod explaining;
mod judging;
mod naming;
mod replaying;
mod serving;

// What they share.
mod running;
mod texts;

pub use command_line::{let_go, parse, refuse, refuse_words, run};
pub use running::{TURNS, open, status};
