//! The subcommand `serve`: a service of the port that the command line names.

use crate::data::{Begun, EpochLog, Unbegun, begin, begin_after, end_of, open_folder};
use album_commands::{TURNS, open, status};
use album_data::{FileLog, Folder};
use album_judge::Fault;
use album_port::{
    AuditFile, EpochBound, EpochEnd, Host, Port, Served, Serving, serve_beside, serve_until,
};
use album_stamps::Refusal;
use album_talk::Admins;
use clap::ArgMatches;
use sqlite_std_file::File as DiskFile;
use std::alloc::Global;
use std::fs::{File, metadata};
use std::io::{Read, Write};
use std::net::{Net, TcpListener, TcpStream};
use std::os::unix::fs::MetadataExt;
use std::process::ExitCode;
use std::rt::Files;
use std::sync::{Arc, Wait};
use std::thread::Threads;
use std::time;

/// How many seconds `--hello` and `--grace` are with `--until-eof`, `--data` and `--epochs`, where they aren't given.
const LIMIT: u32 = 10;

/// Runs the service that the command line names, to its end. The files of a folder are the host's. The bound has that
/// of `Host`, written out: the borrow checker wants the types that it names where `main` calls this.
pub(crate) fn serve<T, R: Read + Send + Drop + 'static, W: Write>(
    rt: T,
    host: &HostRuntime,
    alloc: Global,
    reader: R,
    writer: &mut W,
    matches: &ArgMatches<'_>,
) -> ExitCode
where
    T: Net<Listener = TcpListener, Stream = TcpStream>
        + Threads
        + Wait
        + time::Clock
        + Eprint
        + Files<File = File, Dir = <HostRuntime as Files>::Dir>
        + Copy
        + Send
        + Sync
        + 'static,
{
    let matches = matches.subcommand_matches("serve");
    let admins = match admins(alloc, matches) {
        Ok(admins) => admins,
        Err(why) => return refuse_admins(&rt, why),
    };
    let audit = match audit_file(&rt, alloc, matches) {
        Ok(audit) => audit,
        Err(fault) => return status(&rt, Err(fault)),
    };
    let path = matches.and_then(|m| m.get_str("data"));
    if path.is_none() && !matches.is_some_and(|m| m.get_flag("epochs")) {
        return served(
            &rt,
            serve_port(rt, alloc, reader, writer, matches, admins, audit),
        );
    }
    match serve_on(
        rt, host, alloc, path, reader, writer, matches, admins, audit,
    ) {
        Ok(outcome) => served(&rt, Ok(outcome)),
        Err(unbegun) => end_of(host, unbegun, ": nothing is served"),
    }
}

/// The audit file that the command line names, if it does: `-` is standard error.
///
/// # Errors
///
/// As `AuditFile::open`.
fn audit_file<T: Files<File = File> + Eprint>(
    rt: &T,
    alloc: Global,
    matches: Option<&ArgMatches<'_>>,
) -> Result<Option<AuditFile>, Fault> {
    let Some(path) = matches.and_then(|m| m.get_str("audit")) else {
        return Ok(None);
    };
    if let Some(folder) = matches.and_then(|m| m.get_str("data"))
        && path != "-"
        && lies_in(rt, path, folder)
    {
        let _ = eprintln!(rt; "album: {path}: an audit file is no part of the service's folder");
        return Err(Fault::Writing);
    }
    // Where no file is named, the opening is on standard input, which may be a file too.
    let opening = matches
        .and_then(|m| m.get_str("opening"))
        .unwrap_or("/dev/stdin");
    AuditFile::open(rt, alloc, path, Some(opening)).map(Some)
}

/// Whether the file at the path lies in the folder.
fn lies_in<T: Files>(rt: &T, path: &str, folder: &str) -> bool {
    let parent = match path.rsplit_once('/') {
        Some(("", _)) => "/",
        Some((parent, _)) => parent,
        None => ".",
    };
    match (metadata(rt, parent), metadata(rt, folder)) {
        (Ok(one), Ok(other)) => one.dev() == other.dev() && one.ino() == other.ino(),
        _ => false,
    }
}

/// Serves the port.
fn serve_port<T: Host, R: Read + Send + Drop + 'static, W: Write>(
    rt: T,
    alloc: Global,
    reader: R,
    writer: &mut W,
    matches: Option<&ArgMatches<'_>>,
    admins: Admins,
    audit: Option<AuditFile>,
) -> Result<Served, Fault> {
    let until_eof = is_until_eof(matches);
    let serving = serving_of(matches, admins, until_eof);
    match matches.and_then(|m| m.get_str("opening")) {
        None => serve_input(rt, alloc, reader, writer, serving, audit, until_eof),
        Some(path) => {
            let mut opening = open(&rt, path)?;
            let input = until_eof.then_some(reader);
            serve_beside(rt, alloc, &mut opening, input, writer, serving, audit)
        }
    }
}

/// Whether the service ends with its input.
fn is_until_eof(matches: Option<&ArgMatches<'_>>) -> bool {
    matches.is_some_and(|m| m.get_flag("until-eof"))
}

/// Serves the port from epoch to epoch. With a folder, what was committed there is served, and what is committed is
/// kept there. The port comes first: without it no epoch begins.
fn serve_on<T: Host, R: Read + Send + Drop + 'static, W: Write>(
    rt: T,
    host: &HostRuntime,
    alloc: Global,
    path: Option<&str>,
    mut reader: R,
    writer: &mut W,
    matches: Option<&ArgMatches<'_>>,
    admins: Admins,
    audit: Option<AuditFile>,
) -> Result<Served, Unbegun> {
    let folder = match path {
        Some(path) => Some(open_folder(host, alloc, path)?),
        None => None,
    };
    let folder = folder.as_ref();
    let serving = serving_of(matches, admins, true);
    let Some(mut port) = Port::open(rt, alloc, serving)? else {
        return Ok(Served::NoPort);
    };
    let file = matches.and_then(|m| m.get_str("opening"));
    let first = begin(host, alloc, folder, file, &mut reader, writer)?;
    if is_until_eof(matches) {
        port.end_with(rt, alloc, reader)?;
    }
    let ended = serve_epochs(
        rt, host, alloc, folder, first, &mut port, writer, matches, audit,
    )?;
    Ok(port.close(rt, alloc, ended, writer)?)
}

/// Serves one epoch after another. Each but the first begins on what the one before has left.
fn serve_epochs<T: Host, W: Write>(
    rt: T,
    host: &HostRuntime,
    alloc: Global,
    folder: Option<&Folder>,
    first: Begun,
    port: &mut Port,
    writer: &mut W,
    matches: Option<&ArgMatches<'_>>,
    audit: Option<AuditFile>,
) -> Result<Result<EpochEnd, Fault>, Unbegun> {
    let (mut begun, mut audit) = (first, audit);
    for _ in rt.forever() {
        let number = begun.number;
        let epoch = Arc::try_clone(&begun.epoch)?;
        let left = match serve_epoch(rt, alloc, begun, log_most(matches), port, writer, audit) {
            Ok(EpochEnd::Turned(left)) => left,
            ended => return Ok(ended),
        };
        begun = begin_after(host, alloc, folder, number, &epoch.opening, left)?;
        audit = audit_file(&rt, alloc, matches)?;
    }
    // `forever` has no end.
    unreachable!()
}

/// With how many bytes an epoch turns.
fn log_most(matches: Option<&ArgMatches<'_>>) -> u64 {
    let megabytes = matches
        .and_then(|m| m.get_one::<u32>("log-mb"))
        .unwrap_or(64);
    u64::from(megabytes) * 1_000_000
}

/// Serves the epoch. Where its log fails, standard error says why.
fn serve_epoch<T: Host, W: Write>(
    rt: T,
    alloc: Global,
    begun: Begun,
    most: u64,
    port: &mut Port,
    writer: &mut W,
    audit: Option<AuditFile>,
) -> Result<EpochEnd, Fault> {
    let Begun {
        number: _,
        epoch,
        log,
    } = begun;
    let Some(EpochLog { log, path }) = log else {
        let bound = EpochBound { log: None, most };
        let none = None::<FileLog<DiskFile>>;
        return port.serve_epoch(rt, alloc, &epoch, none, bound, audit, writer);
    };
    let (Ok(failure), Ok(size)) = (log.failure(), log.size()) else {
        return Err(Fault::Memory);
    };
    let bound = EpochBound {
        log: Some(size),
        most,
    };
    let ended = port.serve_epoch(rt, alloc, &epoch, Some(log), bound, audit, writer);
    if let Some(error) = failure.get() {
        let path = path.as_str();
        let _ = eprintln!(rt; "album: {path}: {error}");
    }
    ended
}

/// The same, where the input has the opening. It calls `serve_beside` with no other input, and not `serve_for`: a call
/// with the same types as above isn't proved once more.
fn serve_input<T: Host, R: Read + Send + Drop + 'static, W: Write>(
    rt: T,
    alloc: Global,
    mut reader: R,
    writer: &mut W,
    serving: Serving,
    audit: Option<AuditFile>,
    until_eof: bool,
) -> Result<Served, Fault> {
    if until_eof {
        return serve_until(rt, alloc, reader, writer, serving, audit);
    }
    serve_beside(rt, alloc, &mut reader, None::<R>, writer, serving, audit)
}

/// What the command line says of the service. Where it ends by no number of connections, whoever connects has a limit
/// of time.
fn serving_of(matches: Option<&ArgMatches<'_>>, admins: Admins, goes_on: bool) -> Serving {
    let conns = matches.and_then(|m| m.get_one::<u16>("conns"));
    let limit = if goes_on { LIMIT } else { 0 };
    Serving {
        port: matches.and_then(|m| m.get_one::<u16>("PORT")).unwrap_or(0),
        conns: conns.unwrap_or(u16::MAX),
        turns: TURNS,
        idle: seconds_of(matches, "idle").unwrap_or(0),
        hello: seconds_of(matches, "hello").unwrap_or(limit),
        grace: seconds_of(matches, "grace").unwrap_or(limit),
        stats: seconds_of(matches, "stats").unwrap_or(0),
        per_address: matches.and_then(|m| m.get_one::<u32>("per-address")),
        admins,
    }
}

/// So many seconds, where the option is given.
fn seconds_of(matches: Option<&ArgMatches<'_>>, option: &str) -> Option<u32> {
    matches.and_then(|m| m.get_one::<u32>(option))
}

/// Who may do more than ask, by the command line.
fn admins(alloc: Global, matches: Option<&ArgMatches<'_>>) -> Result<Admins, Refusal> {
    let words: &[&str] = matches.and_then(|m| m.get_strs("admin")).unwrap_or(&[]);
    Admins::named(alloc, words)
}

/// One who is named isn't a user or `ANONYMOUS@`, or there is no memory for it.
fn refuse_admins(rt: &impl Eprint, why: Refusal) -> ExitCode {
    if matches!(why, Refusal::OutOfMemory) {
        return status(rt, Err(Fault::Memory));
    }
    let _ = eprintln!(rt;
        "error: invalid value for '--admin <WHO>': {why}; a principal is name@users or ANONYMOUS@"
    );
    ExitCode::from(2)
}

/// The status of a service that has ended.
pub(crate) fn served(rt: &impl Eprint, outcome: Result<Served, Fault>) -> ExitCode {
    match outcome {
        Ok(Served::Done) => ExitCode::SUCCESS,
        Ok(Served::Refused | Served::Unread) => ExitCode::from(1),
        Ok(Served::NoPort) => {
            let _ = eprintln!(rt; "album: port refused");
            ExitCode::from(1)
        }
        Err(fault) => status(rt, Err(fault)),
    }
}
