//! The service of a port: it is opened by the lines that are read, and each connection has a thread and a session.
//!
//! `serve` calls `serve_for`. That, `serve_until` and `serve_beside` differ in what is read. Each of them calls
//! `begin`, which opens the service's state and listens at the port, and then `serve_begun`, which serves it as the
//! only epoch of a port (`epochs`).
use crate::audit_file::AuditFile;
use crate::epochs::Port;
use crate::one_epoch::EpochTerms;
use crate::opening::{Unopened, read_opening};
use crate::waker::{Door, Waker};
use album_audit::Totals;
use album_items::Opening;
use album_judge::{Fault, write_refused, write_text};
use album_stamps::Refusal;
use album_talk::{Admins, Epoch};
use album_threads::{NoLog, Opened};
use album_wire::{Counted, TalkOut, write_talk};
use std::alloc::Global;
use std::fs::File;
use std::io::{Read, Write};
use std::net::{Net, TcpListener, TcpStream};
use std::rt::Files;
use std::sync::{Arc, Wait};
use std::thread::Threads;
use std::time;

/// How `serve` ends, where there was no fault.
#[derive(Clone, Copy, Debug)]
pub enum Served {
    /// All connections were served, and the totals are written.
    Done,
    /// The opening was refused, and that is written.
    Refused,
    /// The port can't be had.
    NoPort,
    /// By a fault, and nobody reads standard error.
    Unread,
}

/// Where and how long a service is run.
#[derive(Debug, Drop)]
pub struct Serving {
    /// The port of 127.0.0.1.
    pub port: u16,
    /// How many connections are served.
    pub conns: u16,
    /// How many reads the opening may take, and each connection may make.
    pub turns: u64,
    /// A connection that says nothing for so many seconds ends, by the fault `Reading`, and one that takes no answer,
    /// by `Writing`. 0 is no limit.
    pub idle: u32,
    /// A connection that doesn't say who it is for so many seconds ends, by the fault `Reading`. 0 is no limit.
    pub hello: u32,
    /// Where the service ends by its input, connections that are open so many seconds later are ended. 0 is no limit.
    pub grace: u32,
    /// Each so many seconds the figures of the service are printed on standard error. 0 is never.
    pub stats: u32,
    /// How many connections one address may have at once, if there is a bound.
    pub per_address: Option<u32>,
    /// Who may sweep, trim and ask what is pending.
    pub admins: Admins,
}

/// What a service runs on: sockets, files, threads, the clock and standard error. What is sent to a thread has to name
/// each type of a handle's, and so that of a folder too, which nothing reads here.
pub trait Host: Net<Listener = TcpListener, Stream = TcpStream>
    + Files<File = File, Dir = <HostRuntime as Files>::Dir>
    + Threads
    + Wait
    + time::Clock
    + Eprint
    + Copy
    + Send
    + Sync
    + 'static {}

impl<T> Host for T
where
    T: Net<Listener = TcpListener, Stream = TcpStream>
        + Files<File = File, Dir = <HostRuntime as Files>::Dir>
        + Threads
        + Wait
        + time::Clock
        + Eprint
        + Copy
        + Send
        + Sync
        + 'static,
{}

/// Opens a service by the lines that are read, listens at the port of 127.0.0.1, gives each of so many connections a
/// thread and a session, and then writes the totals of the audit book. What is wrong with an opening, by its line, and
/// why a port can't be had is printed on standard error, as are the faults of connections.
///
/// # Errors
///
/// `Reading`, where a read fails, or `turns` reads did not come to the end of the opening; `Writing`, where a write to
/// `writer` fails or takes no byte; `Memory`. The first that comes ends it. Faults of connections end only these.
pub fn serve<T: Host, R: Read, W: Write>(
    rt: T,
    alloc: Global,
    reader: &mut R,
    writer: &mut W,
    port: u16,
    conns: u16,
    turns: u64,
) -> Result<Served, Fault> {
    let serving = Serving {
        port,
        conns,
        turns,
        idle: 0,
        hello: 0,
        grace: 0,
        stats: 0,
        per_address: None,
        admins: Admins::Anyone,
    };
    serve_for(rt, alloc, reader, writer, serving, None)
}

/// Serves as `serve` does, but as `serving` says. Each note is appended to the audit file, if there is one, before its
/// request is answered.
///
/// # Errors
///
/// As `serve`; also `Writing`, where a note can't be written to the audit file. Then nothing is answered any more, and
/// the reason is printed on standard error.
pub fn serve_for<T: Host, R: Read, W: Write>(
    rt: T,
    alloc: Global,
    reader: &mut R,
    writer: &mut W,
    serving: Serving,
    audit: Option<AuditFile>,
) -> Result<Served, Fault> {
    let begun = begin(&rt, alloc, reader, writer, &serving, serving.conns)?;
    serve_begun(rt, alloc, begun, None::<&[u8]>, writer, serving, audit)
}

/// Serves as `serve_for` does, to the end of the input after the opening: then no connection begins any more, and each
/// line that has come is answered still. Connections beyond the last that counts are answered `Closed` until then.
///
/// # Errors
///
/// As `serve_for`.
pub fn serve_until<T, R, W>(
    rt: T,
    alloc: Global,
    mut reader: R,
    writer: &mut W,
    serving: Serving,
    audit: Option<AuditFile>,
) -> Result<Served, Fault>
where
    T: Host,
    R: Read + Send + Drop + 'static,
    W: Write,
{
    let begun = begin(&rt, alloc, &mut reader, writer, &serving, u16::MAX)?;
    serve_begun(rt, alloc, begun, Some(reader), writer, serving, audit)
}

/// Serves as `serve_until` does, where the opening is read by itself, and of the other input only the end counts.
/// Without another input it serves as `serve_for` does.
///
/// # Errors
///
/// As `serve_for`.
pub fn serve_beside<T, O, R, W>(
    rt: T,
    alloc: Global,
    opening: &mut O,
    input: Option<R>,
    writer: &mut W,
    serving: Serving,
    audit: Option<AuditFile>,
) -> Result<Served, Fault>
where
    T: Host,
    O: Read,
    R: Read + Send + Drop + 'static,
    W: Write,
{
    let sessions = if input.is_some() {
        u16::MAX
    } else {
        serving.conns
    };
    let begun = begin(&rt, alloc, opening, writer, &serving, sessions)?;
    serve_begun(rt, alloc, begun, input, writer, serving, audit)
}

/// The state that was opened, and the epoch.
type OpenedOn = (Opened, Arc<Epoch, Global>);

/// What was opened, the door at its port, and what wakes who waits there; or how `serve` ends without them.
type Begun = Result<(OpenedOn, Door, Waker), Served>;

/// Reads the opening, opens the service's state by it for so many sessions, and listens at the port; or else answers
/// why not.
fn begin<T: Host, R: Read, W: Write>(
    rt: &T,
    alloc: Global,
    reader: &mut R,
    writer: &mut W,
    serving: &Serving,
    sessions: u16,
) -> Result<Begun, Fault> {
    match open(rt, alloc, reader, writer, serving.turns, sessions)? {
        Ok(opened) => Ok(listen(rt, alloc, opened, serving.port)),
        Err(served) => Ok(Err(served)),
    }
}

/// Reads the opening, and opens the service's state by it; or else answers why not.
fn open<T: Host, R: Read, W: Write>(
    rt: &T,
    alloc: Global,
    reader: &mut R,
    writer: &mut W,
    turns: u64,
    sessions: u16,
) -> Result<Result<OpenedOn, Served>, Fault> {
    let opening = match first_opening(rt, alloc, reader, writer, turns)? {
        Ok(opening) => opening,
        Err(served) => return Ok(Err(served)),
    };
    let epoch = Epoch {
        opening,
        number: None,
    };
    let epoch = Arc::new(alloc, epoch).map_err(|_| Fault::Memory)?;
    match open_by(rt, alloc, &epoch.opening, writer, sessions)? {
        Ok(opened) => Ok(Ok((opened, epoch))),
        Err(served) => Ok(Err(served)),
    }
}

/// The opening that is read, in so many reads at most; or else it is answered why there is none.
///
/// # Errors
///
/// As `serve`.
pub fn first_opening<T: Eprint, R: Read, W: Write>(
    rt: &T,
    alloc: Global,
    reader: &mut R,
    writer: &mut W,
    turns: u64,
) -> Result<Result<Opening, Served>, Fault> {
    match read_opening(alloc, reader, turns)? {
        Ok(opening) => Ok(Ok(opening)),
        Err(Unopened { line, why }) => {
            let _ = eprintln!(rt; "album: opening, line {line}: {}", why.name());
            write_refused(alloc, why, writer)?;
            Ok(Err(Served::Refused))
        }
    }
}

/// Opens the service's state by the opening, or answers why not.
pub(crate) fn open_by<T: Host, W: Write>(
    rt: &T,
    alloc: Global,
    opening: &Opening,
    writer: &mut W,
    sessions: u16,
) -> Result<Result<Opened, Served>, Fault> {
    match Opened::new(alloc, opening, sessions.max(1)) {
        Ok(opened) => Ok(Ok(opened)),
        Err(why) => {
            let _ = eprintln!(rt; "album: opening: {}", why.name());
            refuse(alloc, why, writer)
        }
    }
}

/// Answers why nothing is opened.
fn refuse<W: Write>(
    alloc: Global,
    why: Refusal,
    writer: &mut W,
) -> Result<Result<Opened, Served>, Fault> {
    write_refused(alloc, why, writer)?;
    Ok(Err(Served::Refused))
}

/// Listens at the port. Why it can't be had is printed on standard error.
fn listen<T: Host>(rt: &T, alloc: Global, opened: OpenedOn, port: u16) -> Begun {
    match Door::open(rt, alloc, port) {
        Ok((door, waker)) => Ok((opened, door, waker)),
        Err(error) => {
            let _ = eprintln!(rt; "album: port {port}: {error}");
            Err(Served::NoPort)
        }
    }
}

/// Serves what was opened, if anything was. From now on the input is read to its end, and notices are printed.
fn serve_begun<T, R, W>(
    rt: T,
    alloc: Global,
    begun: Begun,
    reader: Option<R>,
    writer: &mut W,
    serving: Serving,
    audit: Option<AuditFile>,
) -> Result<Served, Fault>
where
    T: Host,
    R: Read + Send + Drop + 'static,
    W: Write,
{
    let ((opened, epoch), door, waker) = match begun {
        Ok(begun) => begun,
        Err(served) => return Ok(served),
    };
    let mut port = Port::at(rt, alloc, door, waker, serving, reader.is_some())?;
    if let Some(reader) = reader {
        port.end_with(rt, alloc, reader)?;
    }
    let terms = EpochTerms {
        journal: port.journal(rt, alloc, audit)?,
        bound: None,
        epoch,
    };
    let ended = port.serve(rt, alloc, opened, None::<NoLog>, terms, writer);
    port.close(rt, alloc, ended, writer)
}

/// Writes a line.
pub(crate) fn print<W: Write>(alloc: Global, out: &TalkOut, writer: &mut W) -> Result<(), Fault> {
    let text = write_talk(alloc, out)?;
    write_text(writer, &text)?;
    writer.flush().map_err(|_| Fault::Writing)
}

/// The line of the totals.
pub(crate) fn totals_out(totals: Totals) -> TalkOut {
    TalkOut::Totals {
        audits: Counted {
            succeeded: totals.audit_ok,
            failed: totals.audit_failed,
        },
        alarms: Counted {
            succeeded: totals.alarm_ok,
            failed: totals.alarm_failed,
        },
    }
}
