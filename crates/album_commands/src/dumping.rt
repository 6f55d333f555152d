//! The subcommand `dump`: all that a running service has, as an opening.

use crate::asking::{as_arg, asked, local};
use crate::running::{TURNS, port_arg};
use crate::texts::{DUMP_ABOUT, DUMP_HELP};
use album_ask::{Asking, dump};
use clap::{ArgMatches, Command};
use std::alloc::{AllocError, Global};
use std::io::Write;
use std::net::{Net, TcpListener, TcpStream};
use std::process::ExitCode;

/// The subcommand `dump`, with its arguments.
///
/// # Errors
///
/// `AllocError`, where there is no memory for it.
pub(crate) fn dump_command<'a>(alloc: Global) -> Result<Command<'a>, AllocError> {
    Command::new(alloc, "dump")
        .about(DUMP_ABOUT)
        .after_help(DUMP_HELP)
        .arg(port_arg(alloc))?
        .arg(as_arg(alloc))
}

/// Writes what the service at the port has. The status is 1 where it isn't there, refuses the principal or the dump, or
/// goes away before the end.
pub(crate) fn dump_service<T, W: Write>(
    rt: &T,
    alloc: Global,
    writer: &mut W,
    matches: &ArgMatches<'_>,
) -> ExitCode
where
    T: Net<Listener = TcpListener, Stream = TcpStream> + Eprint,
{
    let named = matches.subcommand_matches("dump");
    let port = named.and_then(|m| m.get_one::<u16>("PORT")).unwrap_or(0);
    let asking = Asking {
        who: named.and_then(|m| m.get_str("as")).unwrap_or(""),
        is_spelled: false,
        has_prompt: false,
        turns: TURNS,
    };
    match TcpStream::connect(rt, local(port)) {
        Err(error) => {
            let _ = eprintln!(rt; "album: port {port}: {error}");
            ExitCode::from(1)
        }
        Ok(mut service) => asked(rt, asking.who, dump(alloc, writer, &mut service, asking)),
    }
}
