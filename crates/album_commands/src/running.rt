//! What the subcommands share: how many reads they make, the files that they read, the status that they end with, and
//! how they are put together.

use album_judge::Fault;
use clap::{Arg, Command, value_parser};
use std::alloc::{AllocError, Global};
use std::fs;
use std::process::ExitCode;
use std::rt::Files;

/// How many reads a run may make.
pub const TURNS: u64 = 4_294_967_296;

/// The file at the path, to be read. Where it can't be opened, or is a folder, standard error says so.
///
/// # Errors
///
/// `Reading`, where there is no such file to be opened.
pub fn open<T: Files + Eprint>(rt: &T, path: &str) -> Result<T::File, Fault> {
    if matches!(fs::metadata(rt, path), Ok(found) if found.is_dir()) {
        let _ = eprintln!(rt; "album: {path}: a folder, and no file");
        return Err(Fault::Reading);
    }
    fs::open(rt, path).map_err(|error| {
        let _ = eprintln!(rt; "album: {path}: {error}");
        Fault::Reading
    })
}

/// The status of a run, with its fault on standard error. Nothing can be done where that fails too.
pub fn status(rt: &impl Eprint, outcome: Result<(), Fault>) -> ExitCode {
    match outcome {
        Ok(()) => ExitCode::SUCCESS,
        Err(fault) => {
            let _ = eprintln!(rt; "album: {fault}");
            ExitCode::from(1)
        }
    }
}

/// The argument that names a port.
pub(crate) fn port_arg<'a>(alloc: Global) -> Arg<'a> {
    Arg::new(alloc, "PORT")
        .help("The port of 127.0.0.1")
        .required(true)
        .value_parser(value_parser!(u16).range(1..))
}

/// The command with one more argument. A failure is passed on to the end. So a command is put together in as many calls
/// as it has parts, and its function has no `?` at which it would let the others go.
pub(crate) fn with_arg<'a>(
    command: Result<Command<'a>, AllocError>,
    arg: Arg<'a>,
) -> Result<Command<'a>, AllocError> {
    command?.arg(arg)
}

/// The command with one more subcommand, likewise.
pub(crate) fn with_subcommand<'a>(
    command: Result<Command<'a>, AllocError>,
    subcommand: Result<Command<'a>, AllocError>,
) -> Result<Command<'a>, AllocError> {
    command?.subcommand(subcommand?)
}
