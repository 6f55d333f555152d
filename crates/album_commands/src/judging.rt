//! The subcommand `judge`.

use crate::running::{TURNS, open};
use crate::texts::{JUDGE_ABOUT, JUDGE_HELP};
use album_judge::{Fault, judge_buffered, with_buffers};
use clap::{Arg, ArgMatches, Command};
use std::alloc::{AllocError, Global};
use std::io::{Read, Write};
use std::rt::Files;

/// The subcommand `judge`, with its arguments.
///
/// # Errors
///
/// `AllocError`, where there is no memory for it.
pub(crate) fn judge_command<'a>(alloc: Global) -> Result<Command<'a>, AllocError> {
    let questions = Arg::new(alloc, "FILE")
        .help("Files of questions, in the place of standard input")
        .num_args(0..);
    Command::new(alloc, "judge")
        .about(JUDGE_ABOUT)
        .after_help(JUDGE_HELP)
        .arg(questions)
}

/// Answers the lines of each file that is named, to its end, or else those of the reader.
pub(crate) fn judge_lines<T: Files + Eprint, R: Read, W: Write>(
    rt: &T,
    alloc: Global,
    reader: &mut R,
    writer: &mut W,
    matches: &ArgMatches<'_>,
) -> Result<(), Fault> {
    let named = matches.subcommand_matches("judge");
    match named.and_then(|m| m.get_strs("FILE")) {
        None => judge_reader(alloc, reader, writer),
        Some(paths) => {
            for path in paths {
                judge_reader(alloc, open(rt, path)?, &mut *writer)?;
            }
            Ok(())
        }
    }
}

/// Answers the lines of the reader, to its end.
fn judge_reader<R: Read + Drop, W: Write + Drop>(
    alloc: Global,
    reader: R,
    writer: W,
) -> Result<(), Fault> {
    let (mut reader, mut writer) = with_buffers(alloc, reader, writer)?;
    judge_buffered(alloc, &mut reader, &mut writer, TURNS)
}
