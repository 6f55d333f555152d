//! The subcommand `ask`: a client of a service.

use crate::running::{TURNS, port_arg, status};
use crate::texts::{ASK_ABOUT, ASK_HELP};
use album_ask::{Asking, Ended, ask};
use album_judge::Fault;
use clap::{Arg, ArgAction, ArgMatches, Command};
use std::alloc::{AllocError, Global};
use std::io::{Read, Write};
use std::net::{IpAddr, Ipv4Addr, Net, SocketAddr, TcpListener, TcpStream};
use std::process::ExitCode;

/// The subcommand `ask`, with its arguments.
///
/// # Errors
///
/// `AllocError`, where there is no memory for it.
pub(crate) fn ask_command<'a>(alloc: Global) -> Result<Command<'a>, AllocError> {
    Command::new(alloc, "ask")
        .about(ASK_ABOUT)
        .after_help(ASK_HELP)
        .arg(port_arg(alloc))?
        .arg(as_arg(alloc))?
        .arg(text_arg(alloc))
}

pub(crate) fn as_arg<'a>(alloc: Global) -> Arg<'a> {
    Arg::new(alloc, "as")
        .long("as")
        .value_name("WHO")
        .help("The principal: name@users or ANONYMOUS@")
        .required(true)
}

fn text_arg<'a>(alloc: Global) -> Arg<'a> {
    Arg::new(alloc, "text")
        .long("text")
        .help(
            "Spells answers out: contents as text, masks and flags by name, and a new object by its name",
        )
        .action(ArgAction::SetTrue)
}

/// Asks the service at the port what the reader has, line by line. The status is 1 where it isn't there, refuses the
/// principal, or goes away before the end.
pub(crate) fn ask_service<T, R: Read, W: Write>(
    rt: &T,
    alloc: Global,
    requests: &mut R,
    writer: &mut W,
    matches: &ArgMatches<'_>,
    has_prompt: bool,
) -> ExitCode
where
    T: Net<Listener = TcpListener, Stream = TcpStream> + Eprint,
{
    let named = matches.subcommand_matches("ask");
    let port = named.and_then(|m| m.get_one::<u16>("PORT")).unwrap_or(0);
    let asking = Asking {
        who: named.and_then(|m| m.get_str("as")).unwrap_or(""),
        is_spelled: named.is_some_and(|m| m.get_flag("text")),
        has_prompt,
        turns: TURNS,
    };
    match TcpStream::connect(rt, local(port)) {
        Err(error) => {
            let _ = eprintln!(rt; "album: port {port}: {error}");
            ExitCode::from(1)
        }
        Ok(mut service) => {
            let outcome = ask(alloc, requests, writer, &mut service, asking);
            asked(rt, asking.who, outcome)
        }
    }
}

/// The status of a client of this principal, whose service has answered all, or hasn't.
pub(crate) fn asked(rt: &impl Eprint, who: &str, outcome: Result<Ended, Fault>) -> ExitCode {
    match outcome {
        Ok(Ended::Whole) => ExitCode::SUCCESS,
        Ok(Ended::Refused) => {
            let _ = eprintln!(rt;
                "album: the service doesn't talk to {who} (a principal is name@users or ANONYMOUS@)"
            );
            ExitCode::from(1)
        }
        Ok(Ended::Cut) => {
            let _ = eprintln!(rt; "album: the service has not answered to the end");
            ExitCode::from(1)
        }
        Err(fault) => status(rt, Err(fault)),
    }
}

/// The port of 127.0.0.1.
pub(crate) fn local(port: u16) -> SocketAddr {
    SocketAddr::new(IpAddr::V4(Ipv4Addr::new(127, 0, 0, 1)), port)
}
