//! The subcommand `replay`, and its options.

use crate::running::{TURNS, open, status};
use crate::texts::{REPLAY_ABOUT, REPLAY_HELP};
use album_judge::Fault;
use album_replay::replay;
use album_scripts::{Traced, Watch, WatchedReader, WatchedWriter};
use clap::{Arg, ArgAction, ArgMatches, Command};
use std::alloc::{AllocError, Global};
use std::io::{Read, Write};
use std::process::ExitCode;
use std::rt::Files;

/// The subcommand `replay`, with its arguments.
///
/// # Errors
///
/// `AllocError`, where there is no memory for it.
pub(crate) fn replay_command<'a>(alloc: Global) -> Result<Command<'a>, AllocError> {
    Command::new(alloc, "replay")
        .about(REPLAY_ABOUT)
        .after_help(REPLAY_HELP)
        .arg(trace_arg(alloc))?
        .arg(strict_arg(alloc))?
        .arg(script_arg(alloc))
}

fn trace_arg<'a>(alloc: Global) -> Arg<'a> {
    Arg::new(alloc, "trace")
        .long("trace")
        .help("Prints each message that is sent, as if the opening said so")
        .action(ArgAction::SetTrue)
}

fn strict_arg<'a>(alloc: Global) -> Arg<'a> {
    Arg::new(alloc, "strict")
        .long("strict")
        .help("Ends at the first line that is refused, with status 1")
        .action(ArgAction::SetTrue)
}

fn script_arg<'a>(alloc: Global) -> Arg<'a> {
    Arg::new(alloc, "FILE").help("A file with the script, in the place of standard input")
}

/// Replays the lines of the file that is named, or else those of the reader, to their end or to the refusal of their
/// opening.
pub(crate) fn replay_lines<T: Files + Eprint, R: Read, W: Write>(
    rt: &T,
    alloc: Global,
    reader: &mut R,
    writer: &mut W,
    matches: &ArgMatches<'_>,
) -> ExitCode {
    let named = matches.subcommand_matches("replay");
    let is_traced = named.is_some_and(|m| m.get_flag("trace"));
    let is_strict = named.is_some_and(|m| m.get_flag("strict"));
    match named.and_then(|m| m.get_str("FILE")) {
        None => replay_traced(rt, alloc, reader, writer, is_traced, is_strict),
        Some(path) => match open(rt, path) {
            Ok(mut file) => replay_traced(rt, alloc, &mut file, writer, is_traced, is_strict),
            Err(fault) => status(rt, Err(fault)),
        },
    }
}

fn replay_traced<R: Read, W: Write>(
    rt: &impl Eprint,
    alloc: Global,
    reader: &mut R,
    writer: &mut W,
    is_traced: bool,
    is_strict: bool,
) -> ExitCode {
    if is_traced {
        let mut traced = Traced::new(alloc, reader);
        return replay_watched(rt, alloc, &mut traced, writer, is_strict);
    }
    replay_watched(rt, alloc, reader, writer, is_strict)
}

fn replay_watched<R: Read, W: Write>(
    rt: &impl Eprint,
    alloc: Global,
    reader: &mut R,
    writer: &mut W,
    is_strict: bool,
) -> ExitCode {
    if !is_strict {
        return status(rt, replayed(alloc, reader, writer));
    }
    let watch = Watch::new(alloc);
    let mut reader = WatchedReader::new(&watch, reader);
    let mut writer = WatchedWriter::new(&watch, writer);
    let ended = replayed(alloc, &mut reader, &mut writer);
    if ended.is_err() {
        return status(rt, ended);
    }
    match watch.refused() {
        None => {
            name_unanswered(rt, alloc, &watch);
            ExitCode::SUCCESS
        }
        Some(line) => {
            let _ = eprintln!(rt; "album: line {line} is refused");
            ExitCode::from(1)
        }
    }
}

/// Names the asks that are not answered by the end. Without memory none is named.
fn name_unanswered(rt: &impl Eprint, alloc: Global, watch: &Watch) {
    if let Ok(unanswered) = watch.unanswered(alloc) {
        for (line, client) in &unanswered {
            let _ = eprintln!(rt; "album: line {line}: the ask of client {client} is not answered");
        }
    }
}

fn replayed<R: Read, W: Write>(alloc: Global, reader: &mut R, writer: &mut W) -> Result<(), Fault> {
    replay(alloc, reader, writer, TURNS)?;
    writer.flush().map_err(|_| Fault::Writing)
}
