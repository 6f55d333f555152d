//! An epoch of a port: the service of an opening, from the moment that it is opened to where it is closed.
//!
//! `serve_opened` gives the service its names. From there each calls the next: `serve_all`, which opens the service and
//! closes it; `say_and_attend`, which says that the port is served; `attend_all`, which makes what the threads share.
ghost use Rattle.std.specs.Prelude.{◌≡◌};
ghost use Rattle.album_threads.specs.Opened.{opened_as};

use crate::accepting::{Accepted, Limits, accept_all};
use crate::audit::AuditJournal;
use crate::connections::Connections;
use crate::epochs::{EpochEnd, Port};
use crate::input::Input;
use crate::port::{Host, print};
use crate::turn::{EpochBound, Turn};
use crate::watch::watch;
use album_audit::Totals;
use album_items::Opening;
use album_judge::Fault;
use album_stamps::Refusal;
use album_talk::Epoch;
use album_threads::{Gauge, MarkLog, Opened, OwnedSession, Service, ServiceNames};
use album_turns::leave;
use album_wire::TalkOut;
use crossbeam_channel::{Receiver, Sender, unbounded};
use std::alloc::Global;
use std::io::Write;
use std::marker::Brand;
use std::sync::{Arc, Mutex, Wait};
use std::thread;
use std::thread::{JoinHandle, Threads};

/// What an epoch has besides the state that was opened.
#[derive(Drop)]
pub(crate) struct EpochTerms<T: Wait + Copy> {
    /// Writes the notes to the audit file, if there is one.
    pub journal: AuditJournal<T>,
    /// The epoch turns where it has a bound.
    pub bound: Option<EpochBound>,
    /// What it opened on, and its number.
    pub epoch: Arc<Epoch, Global>,
}

/// Serves what was opened, under names of its own. Gives how the epoch ended, and the totals of its book.
pub(crate) fn serve_opened<T, L, W>(
    rt: T,
    alloc: Global,
    opened: Opened,
    log: Option<L>,
    port: &mut Port,
    terms: EpochTerms<T>,
    writer: &mut W,
) -> Result<(EpochEnd, Totals), Fault>
where
    T: Host,
    L: MarkLog + Drop + Send + 'static,
    W: Write,
{
    serve_all::<Brand, T, L, W>(rt, alloc, opened, log, port, terms, writer)
}

/// Opens the service, says so, and closes it once its connections have ended, or the epoch turns. What is printed
/// meanwhile is sent as a notice.
///
/// # Errors
///
/// Those of `attend_all`; `Memory`, also where a partition has ended for want of it, or no session could be opened for
/// a minute; `Writing`, also where the log failed.
fn serve_all<J, T, L, W>(
    rt: T,
    alloc: Global,
    opened: Opened,
    log: Option<L>,
    port: &mut Port,
    terms: EpochTerms<T>,
    writer: &mut W,
) -> Result<(EpochEnd, Totals), Fault>
where
    J: ServiceNames + Send + Sync + 'static,
    T: Host,
    L: MarkLog + Drop + Send + 'static,
    W: Write,
    requires named { opened ≡ opened_as J.table J.terms J.policy J.list
        J.audit_ok J.audit_failed J.alarm_ok J.alarm_failed }
{
    let gate = port.waker.copy()?;
    let epoch = Arc::try_clone(&terms.epoch).map_err(|_| Fault::Memory)?;
    let service = Service::<J>::open_logged(rt, alloc, opened, gate, log)?;
    let done = match say_and_attend(rt, alloc, &service, port, terms, writer) {
        Ok(Accepted::All) => Ok(EpochEnd::Over),
        Ok(Accepted::Turned) => Ok(EpochEnd::Turned(next(&rt, alloc, &service, &epoch.opening))),
        Ok(Accepted::Spent) => Err(Fault::Memory),
        Err(fault) => Err(fault),
    };
    close(&rt, service, done)
}

/// The opening with which the next epoch begins. A session of its own finds it: those of the connections have ended.
///
/// # Errors
///
/// As `Service::session` and `leave`.
fn next<J: ServiceNames, T: Host>(
    rt: &T,
    alloc: Global,
    service: &Service<J>,
    opening: &Opening,
) -> Result<Opening, Refusal> {
    let mut owned = OwnedSession::begin(rt, service)?;
    let left = leave(rt, alloc, &mut owned.session, opening)?;
    Ok(left.into_opening())
}

/// Closes the service, whose epoch has ended so.
fn close<J, T>(
    rt: &T,
    service: Service<J>,
    done: Result<EpochEnd, Fault>,
) -> Result<(EpochEnd, Totals), Fault>
where
    J: ServiceNames + Send + 'static,
    T: Threads + Wait,
{
    let (is_broken, has_lost_log) = (service.is_broken(), service.has_lost_log());
    let totals = service.close(rt);
    let ended = done?;
    if has_lost_log {
        return Err(Fault::Writing);
    }
    if is_broken {
        return Err(Fault::Memory);
    }
    Ok((ended, totals))
}

/// Says that the port is served, once, and serves it.
fn say_and_attend<J, T, W>(
    rt: T,
    alloc: Global,
    service: &Service<J>,
    port: &mut Port,
    terms: EpochTerms<T>,
    writer: &mut W,
) -> Result<Accepted, Fault>
where
    J: ServiceNames + Send + Sync + 'static,
    T: Host,
    W: Write,
{
    if !port.is_said {
        port.is_said = true;
        print(alloc, &TalkOut::Serving(port.number), writer)?;
    }
    attend_all(rt, alloc, service, port, terms)
}

/// Serves the connections. Meanwhile the figures are watched.
///
/// # Errors
///
/// `Memory`; `Writing`, where a note can't be written.
fn attend_all<J, T>(
    rt: T,
    alloc: Global,
    service: &Service<J>,
    port: &mut Port,
    terms: EpochTerms<T>,
) -> Result<Accepted, Fault>
where
    J: ServiceNames + Send + Sync + 'static,
    T: Host,
{
    if terms.journal.has_file() {
        service.keep_records(&rt);
    }
    let (end, ended) = ends_of(alloc)?;
    let Ok(shared) = Arc::new(alloc, shared_of(alloc, service, port, terms)?) else {
        return Err(Fault::Memory);
    };
    let watching = watch_beside(rt, alloc, &shared, ended)?;
    let accepted = accept_all(rt, alloc, service, &mut port.door, &shared);
    // The watch ends.
    drop(end);
    if let Some(watching) = watching {
        let _ = watching.join(&rt);
    }
    shared.end_sessions(&rt);
    shared.journal.end(&rt);
    shared.journal.outcome()?;
    Ok(accepted)
}

/// The ends of the channel by which the watch ends.
///
/// # Errors
///
/// `OutOfMemory`.
fn ends_of(alloc: Global) -> Result<(Sender<()>, Receiver<()>), Refusal> {
    Ok(unbounded(alloc)?)
}

/// What the threads of an epoch share.
#[derive(Drop)]
pub(crate) struct Shared<J: ServiceNames, T: Wait + Copy> {
    pub gauge: Gauge<J>,
    pub connections: Arc<Connections, Global>,
    pub journal: AuditJournal<T>,
    /// What the epoch opened on, and its number.
    pub epoch: Arc<Epoch, Global>,
    pub limits: Limits,
    /// The input, where the service ends with it.
    pub input: Option<Arc<Input, Global>>,
    /// Each so many seconds the figures are printed. 0 is never.
    pub stats: u32,
    /// How the epoch ends, where another follows.
    pub turn: Option<Turn>,
    /// The sessions of connections that have ended, for later ones.
    resting: Mutex<Vec<OwnedSession<J, T>>>,
}

impl<J: ServiceNames, T: Wait + Copy> Shared<J, T> {
    /// The turn, where it has begun.
    pub(crate) fn begun_turn(&self) -> Option<&Turn> {
        self.turn.as_ref().filter(|turn| turn.has_begun())
    }

    /// No epoch follows: what is left is answered in this one.
    pub(crate) fn go_on_here(&self) {
        if let Some(turn) = &self.turn {
            turn.cancel();
        }
    }

    /// A session that rests, if there is one.
    pub(crate) fn rested(&self, rt: &T) -> Option<OwnedSession<J, T>> {
        self.resting.lock(rt).pop()
    }

    /// The session's connection has ended. Where the service ends by its input, the next one has it: so there is no
    /// number of connections after which no session is to be had. Else it ends, and each connection has a new number.
    pub(crate) fn rest(&self, owned: OwnedSession<J, T>) {
        let rt = owned.rt;
        if self.limits.until_closed && self.begun_turn().is_none() {
            let _ = self.resting.lock(&rt).push(owned);
        }
    }

    /// The sessions that rest end, and so does the epoch.
    fn end_sessions(&self, rt: &T) {
        self.resting.lock(rt).clear();
    }
}

/// Makes what the threads of an epoch share. It turns where it has a bound.
///
/// # Errors
///
/// `OutOfMemory`.
fn shared_of<J: ServiceNames, T: Wait + Copy>(
    alloc: Global,
    service: &Service<J>,
    port: &Port,
    terms: EpochTerms<T>,
) -> Result<Shared<J, T>, Refusal> {
    let input = match &port.input {
        Some(input) => Some(Arc::try_clone(input)?),
        None => None,
    };
    let EpochTerms {
        journal,
        bound,
        epoch,
    } = terms;
    let turn = match bound {
        Some(bound) => Some(Turn::new(port.waker.copy()?, bound)),
        None => None,
    };
    Ok(Shared {
        gauge: service.gauge()?,
        connections: Arc::try_clone(&port.connections)?,
        journal,
        epoch,
        limits: port.limits,
        input,
        stats: port.stats,
        turn,
        resting: Mutex::new(Vec::new(alloc)),
    })
}

/// Watches the figures in a thread, until the sender to `ended` is let go. Without a thread, nothing is watched.
///
/// # Errors
///
/// `OutOfMemory`.
fn watch_beside<J, T>(
    rt: T,
    alloc: Global,
    shared: &Arc<Shared<J, T>, Global>,
    ended: Receiver<()>,
) -> Result<Option<JoinHandle<()>>, Refusal>
where
    J: ServiceNames + Send + Sync + 'static,
    T: Host,
{
    let shared = Arc::try_clone(shared)?;
    Ok(thread::spawn(&rt, move || watch(&rt, alloc, &shared, &ended)).ok())
}
