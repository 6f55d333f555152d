//! The subcommand `serve`: its arguments. `album` runs the service.

use crate::running::{port_arg, with_arg};
use crate::texts::{SERVE_ABOUT, SERVE_HELP};
use clap::{Arg, ArgAction, Command, value_parser};
use std::alloc::{AllocError, Global};

/// The subcommand `serve`, with its arguments.
///
/// # Errors
///
/// `AllocError`, where there is no memory for it.
pub(crate) fn serve_command<'a>(alloc: Global) -> Result<Command<'a>, AllocError> {
    let command = Command::new(alloc, "serve")
        .about(SERVE_ABOUT)
        .after_help(SERVE_HELP);
    let command = with_arg(Ok(command), port_arg(alloc));
    let command = with_arg(command, conns_arg(alloc));
    let command = with_arg(command, per_address_arg(alloc));
    let command = with_arg(command, idle_arg(alloc));
    let command = with_arg(command, until_eof_arg(alloc));
    let command = with_arg(command, hello_arg(alloc));
    let command = with_arg(command, grace_arg(alloc));
    let command = with_arg(command, opening_arg(alloc));
    let command = with_arg(command, data_arg(alloc));
    let command = with_arg(command, epochs_arg(alloc));
    let command = with_arg(command, log_mb_arg(alloc));
    let command = with_arg(command, admin_arg(alloc));
    let command = with_arg(command, stats_arg(alloc));
    with_arg(command, audit_arg(alloc))
}

fn conns_arg<'a>(alloc: Global) -> Arg<'a> {
    Arg::new(alloc, "conns")
        .long("conns")
        .value_name("N")
        .help("How many connections are served")
        .value_parser(value_parser!(u16).range(1..))
        .default_value("65535")
}

fn per_address_arg<'a>(alloc: Global) -> Arg<'a> {
    Arg::new(alloc, "per-address")
        .long("per-address")
        .value_name("N")
        .help("How many connections one address may have at once; left out, any number")
        .value_parser(value_parser!(u32).range(1..))
}

fn idle_arg<'a>(alloc: Global) -> Arg<'a> {
    Arg::new(alloc, "idle")
        .long("idle")
        .value_name("SECONDS")
        .help("A connection that says nothing, or takes no answer, for so long ends")
        .value_parser(value_parser!(u32).range(1..))
}

fn until_eof_arg<'a>(alloc: Global) -> Arg<'a> {
    Arg::new(alloc, "until-eof")
        .long("until-eof")
        .help("Serves until standard input ends, and then lets what has begun be answered")
        .action(ArgAction::SetTrue)
}

fn hello_arg<'a>(alloc: Global) -> Arg<'a> {
    Arg::new(alloc, "hello")
        .long("hello")
        .value_name("SECONDS")
        .help("A connection that doesn't say who it is for so long ends; with --until-eof 10")
        .value_parser(value_parser!(u32).range(1..))
}

fn grace_arg<'a>(alloc: Global) -> Arg<'a> {
    Arg::new(alloc, "grace")
        .long("grace")
        .value_name("SECONDS")
        .help(
            "With --until-eof: how long what is open may go on once standard input has ended; else 10",
        )
        .value_parser(value_parser!(u32).range(1..))
}

fn opening_arg<'a>(alloc: Global) -> Arg<'a> {
    Arg::new(alloc, "opening")
        .long("opening")
        .value_name("FILE")
        .help("A file with the opening, in the place of standard input")
}

fn data_arg<'a>(alloc: Global) -> Arg<'a> {
    Arg::new(alloc, "data").long("data").value_name("DIR").help(
        "A folder that keeps what is written; the opening is read where it is empty",
    )
}

fn epochs_arg<'a>(alloc: Global) -> Arg<'a> {
    Arg::new(alloc, "epochs")
        .long("epochs")
        .help(
            "Without --data: nothing is kept on a disk, and epochs turn, so that the service goes on",
        )
        .action(ArgAction::SetTrue)
}

fn log_mb_arg<'a>(alloc: Global) -> Arg<'a> {
    Arg::new(alloc, "log-mb")
        .long("log-mb")
        .value_name("N")
        .help("Once the log, or what --epochs keeps, has so many megabytes, the epoch turns")
        .value_parser(value_parser!(u32).range(1..))
        .default_value("64")
}

fn admin_arg<'a>(alloc: Global) -> Arg<'a> {
    Arg::new(alloc, "admin")
        .long("admin")
        .value_name("WHO")
        .help(
            "Who may sweep, trim and ask what is pending, in the place of everyone; may be given again",
        )
        .action(ArgAction::Append)
}

fn stats_arg<'a>(alloc: Global) -> Arg<'a> {
    Arg::new(alloc, "stats")
        .long("stats")
        .value_name("SECONDS")
        .help("How often the figures of the service are printed on standard error")
        .value_parser(value_parser!(u32).range(1..))
}

fn audit_arg<'a>(alloc: Global) -> Arg<'a> {
    Arg::new(alloc, "audit")
        .long("audit")
        .value_name("FILE")
        .help(
            "A file to which each note is appended, before its request is answered; or -, standard error",
        )
}
