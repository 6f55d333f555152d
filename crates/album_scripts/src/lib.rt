//! What is put around a replay's script: a reader that asks for a trace, and a watch for the first refused line.
//!
//! What comes in: a script's reader, and the writer of the outputs. What goes out, by `traced`: a reader of the same
//! script but for its header. What goes out, by `strict`: a reader and a writer that go together, and know which line
//! was refused, and which asks are not answered. Nothing is promised of what they give but that they are safe and end:
//! rows show the rest.
//!
//! Read `traced` first, then `strict`, which notes asks in `unanswered`. Both take the script line by line (`by_line`).
#![tactic(auto)]

mod by_line;
mod strict;
mod traced;
mod unanswered;

pub use strict::{Watch, WatchedReader, WatchedWriter};
pub use traced::Traced;
