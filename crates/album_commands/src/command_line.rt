//! The command line of `album`: its subcommands, how it is read, and what those do that need neither a running service
//! nor its folder.

use crate::asking::{ask_command, ask_service};
use crate::checking::check_data_command;
use crate::dumping::{dump_command, dump_service};
use crate::explaining::{explain_command, explain_lines};
use crate::judging::{judge_command, judge_lines};
use crate::naming::{flags_command, mask_command, print_bits};
use crate::replaying::{replay_command, replay_lines};
use crate::running::{status, with_subcommand};
use crate::serving::serve_command;
use crate::texts::{ABOUT, NO_TEXT};
use album_judge::Fault;
use clap::error::ErrorKind;
use clap::{ArgMatches, Command, Error};
use std::alloc::{AllocError, Global};
use std::io;
use std::io::{Read, Write};
use std::net::{Net, TcpListener, TcpStream};
use std::process::ExitCode;
use std::rt::Files;

/// The program's version. Which commit it was built of it doesn't know.
const VERSION: &str = "0.1.0";

/// Reads the words of the command line.
///
/// # Errors
///
/// clap's: help that was asked for, why the words are refused, or that there was no memory.
pub fn parse<'a>(alloc: Global, words: &'a [String]) -> Result<ArgMatches<'a>, Error> {
    let command: Command<'a> = album_command(alloc)?;
    command.try_get_matches_from(words)
}

fn album_command<'a>(alloc: Global) -> Result<Command<'a>, AllocError> {
    let command = Command::new(alloc, "album")
        .about(ABOUT)
        .version(VERSION)
        .subcommand_required(true);
    let command = with_subcommand(Ok(command), judge_command(alloc));
    let command = with_subcommand(command, replay_command(alloc));
    let command = with_subcommand(command, serve_command(alloc));
    let command = with_subcommand(command, check_data_command(alloc));
    let command = with_subcommand(command, ask_command(alloc));
    let command = with_subcommand(command, dump_command(alloc));
    let command = with_subcommand(command, explain_command(alloc));
    let command = with_subcommand(command, mask_command(alloc));
    with_subcommand(command, flags_command(alloc))
}

/// Does what the command line names, but for `serve` and `check-data`, and gives the status that the program ends with.
/// On a terminal `ask` has a prompt.
pub fn run<T, R: Read, W: Write>(
    rt: &T,
    alloc: Global,
    reader: &mut R,
    writer: &mut W,
    matches: &ArgMatches<'_>,
    has_prompt: bool,
) -> ExitCode
where
    T: Net<Listener = TcpListener, Stream = TcpStream> + Files + Eprint,
{
    match matches.subcommand_name() {
        Some("judge") => status(rt, judge_lines(rt, alloc, reader, writer, matches)),
        Some("replay") => replay_lines(rt, alloc, reader, writer, matches),
        Some("explain") => explain_lines(rt, alloc, reader, writer, matches),
        Some("ask") => ask_service(rt, alloc, reader, writer, matches, has_prompt),
        Some("dump") => dump_service(rt, alloc, writer, matches),
        Some("mask") => print_bits(rt, alloc, writer, matches, "mask"),
        Some("flags") => print_bits(rt, alloc, writer, matches, "flags"),
        // No other command line has matched.
        _ => ExitCode::from(2),
    }
}

/// Lets the matches go. Matches hold matches, so the prover looks at all of them at once. It does so here, and not in
/// the program, while other crates are proved.
pub fn let_go(matches: ArgMatches<'_>) {
    drop(matches);
}

/// Prints the help that was asked for, or why the command line is refused.
pub fn refuse<T: Print + Eprint>(rt: &T, error: &Error) -> ExitCode {
    if error.kind() == ErrorKind::OutOfMemory {
        return status(rt, Err(Fault::Memory));
    }
    let printed = error.print(rt);
    if error.use_stderr() {
        return ExitCode::from(2);
    }
    status(rt, printed.map_err(|_| Fault::Writing))
}

/// The words could not be read: there was no memory for them, or one is no text.
pub fn refuse_words(rt: &impl Eprint, error: &io::Error) -> ExitCode {
    if error.kind() == io::ErrorKind::OutOfMemory {
        return status(rt, Err(Fault::Memory));
    }
    let _ = eprintln!(rt; "{NO_TEXT}");
    ExitCode::from(2)
}
