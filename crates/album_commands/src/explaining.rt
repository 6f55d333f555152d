//! The subcommand `explain`, with the lines that are.

use crate::running::{TURNS, open, status, with_subcommand};
use crate::texts::{
    EVENT_ABOUT, EXPLAIN_ABOUT, EXPLAIN_HELP, JUDGE_ABOUT, LINES_HELP, OPENING_ABOUT, TALK_ABOUT,
};
use album_explain::{JudgeLines, explain};
use album_explain_store::{EventLines, TalkLines, explain_script};
use album_judge::Fault;
use clap::{Arg, ArgMatches, Command};
use std::alloc::{AllocError, Global};
use std::io::{Read, Write};
use std::process::ExitCode;
use std::rt::Files;

/// The subcommand `explain`, with its arguments.
///
/// # Errors
///
/// `AllocError`, where there is no memory for it.
pub(crate) fn explain_command<'a>(alloc: Global) -> Result<Command<'a>, AllocError> {
    let command = Command::new(alloc, "explain")
        .about(EXPLAIN_ABOUT)
        .subcommand_required(true);
    let judge = lines_command(alloc, "judge", JUDGE_ABOUT, EXPLAIN_HELP);
    let command = with_subcommand(Ok(command), judge);
    let opening = lines_command(alloc, "opening", OPENING_ABOUT, LINES_HELP);
    let command = with_subcommand(command, opening);
    let event = lines_command(alloc, "event", EVENT_ABOUT, LINES_HELP);
    let command = with_subcommand(command, event);
    let talk = lines_command(alloc, "talk", TALK_ABOUT, LINES_HELP);
    with_subcommand(command, talk)
}

fn lines_command<'a>(
    alloc: Global,
    name: &'static str,
    about: &'static str,
    help: &'static str,
) -> Result<Command<'a>, AllocError> {
    let files = Arg::new(alloc, "FILE")
        .help("Files of lines, in the place of standard input")
        .num_args(0..);
    Command::new(alloc, name)
        .about(about)
        .after_help(help)
        .arg(files)
}

/// Explains the lines of each file that is named, or else those of the reader. The status is 1 where one is refused.
pub(crate) fn explain_lines<T: Files + Eprint, R: Read, W: Write>(
    rt: &T,
    alloc: Global,
    reader: &mut R,
    writer: &mut W,
    matches: &ArgMatches<'_>,
) -> ExitCode {
    match explained(rt, alloc, reader, writer, matches) {
        Ok(false) => ExitCode::SUCCESS,
        Ok(true) => ExitCode::from(1),
        Err(fault) => status(rt, Err(fault)),
    }
}

/// Whether a line was refused.
fn explained<T: Files + Eprint, R: Read, W: Write>(
    rt: &T,
    alloc: Global,
    reader: &mut R,
    writer: &mut W,
    matches: &ArgMatches<'_>,
) -> Result<bool, Fault> {
    let named = matches.subcommand_matches("explain");
    let lines = named.and_then(|m| m.subcommand_name()).unwrap_or("judge");
    let files = named
        .and_then(|m| m.subcommand_matches(lines))
        .and_then(|m| m.get_strs("FILE"));
    let mut has_refused = false;
    match files {
        None => has_refused = explain_each(alloc, lines, reader, writer)?,
        Some(paths) => {
            for path in paths {
                let refused = explain_each(alloc, lines, &mut open(rt, path)?, writer)?;
                has_refused = has_refused || refused;
            }
        }
    }
    writer.flush().map_err(|_| Fault::Writing)?;
    Ok(has_refused)
}

/// Explains lines of this name to the end of the reader, and returns whether one was refused.
fn explain_each<R: Read, W: Write>(
    alloc: Global,
    lines: &str,
    reader: &mut R,
    writer: &mut W,
) -> Result<bool, Fault> {
    match lines {
        "opening" => explain_script(alloc, reader, writer, TURNS),
        "event" => Ok(explain(alloc, reader, writer, EventLines, TURNS)?.has_refused),
        "talk" => Ok(explain(alloc, reader, writer, TalkLines::Stranger, TURNS)?.has_refused),
        _ => Ok(explain(alloc, reader, writer, JudgeLines, TURNS)?.has_refused),
    }
}
