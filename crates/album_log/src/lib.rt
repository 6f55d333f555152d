//! A log of lines of text in one file, which a crash leaves whole.
//!
//! The file is the text, and zeros behind it. No line has a zero, and a group of lines is written only over zeros that
//! an earlier sync made durable. So after a crash each byte of the group is its own or 0, where the disk is read as one
//! that mixes (`Disk::is_mixing`). A line is whole exactly if no byte up to its newline is 0.
//!
//! What comes in: an empty file, and groups of whole lines. What goes out: the same lines, after a crash too. Those of
//! an acknowledged group are all there, and of the last one that was not there is some front, none in part.
//!
//! Zeros past the file's end are not durable yet, and a crash may leave any byte there. They are synced before a group
//! is written over them, and a zero stays between the text and them.
//!
//! A log begins in an empty file. A crash before `Log::begin` has returned may leave any bytes there.
//!
//! Read `log` first, then `groups` and `zeros`. `reader` reads a file back, and `seals` gives a line a sum of its own.
#![tactic(auto)]

// What a log takes, and why it fails.
mod errors;
mod texts;

// The log, the group that is appended, and the zeros ahead.
mod groups;
mod log;
mod zeros;

// What is read back.
mod reader;
mod seals;

pub use errors::LogError;
pub use log::Log;
pub use reader::read_text;
pub use seals::{seal, unseal};
pub use texts::is_whole_text;
