//! A port that is served from epoch to epoch: its connections stay.
use crate::accepting::Limits;
use crate::audit::AuditJournal;
use crate::audit_file::AuditFile;
use crate::connections::Connections;
use crate::input::Input;
use crate::notices::{Notices, Printer};
use crate::one_epoch::{EpochTerms, serve_opened};
use crate::port::{Host, Served, Serving, open_by, print, totals_out};
use crate::turn::EpochBound;
use crate::waker::{Door, Waker};
use album_audit::Totals;
use album_items::Opening;
use album_judge::Fault;
use album_stamps::Refusal;
use album_talk::Epoch;
use album_threads::{MarkLog, Opened};
use std::alloc::Global;
use std::io::{Read, Write};
use std::sync::Arc;
use std::time::Duration;

/// A port at which connections are served, from epoch to epoch.
#[derive(Drop)]
pub struct Port {
    pub(crate) number: u16,
    pub(crate) door: Door,
    pub(crate) waker: Waker,
    pub(crate) connections: Arc<Connections, Global>,
    pub(crate) limits: Limits,
    /// The input, where the service ends with it.
    pub(crate) input: Option<Arc<Input, Global>>,
    /// Each so many seconds the figures are printed. 0 is never.
    pub(crate) stats: u32,
    /// Whether it was said that the port is served.
    pub(crate) is_said: bool,
    /// How many reads of the input are made.
    turns: u64,
    printer: Printer,
    notices: Notices,
    /// Of the epochs that have ended.
    totals: Totals,
}

/// How an epoch ends, where there was no fault.
#[derive(Drop)]
pub enum EpochEnd {
    /// Its connections were served, and the service ends.
    Over,
    /// The next epoch goes on with the connections that are open. It begins with this opening, or it isn't known with
    /// which, and why.
    Turned(Result<Opening, Refusal>),
    /// The opening was refused, and that is written.
    Refused,
}

impl Port {
    /// Listens at the port. Where it can't be had, standard error says why, and there is none.
    ///
    /// # Errors
    ///
    /// `Memory`.
    pub fn open<T: Host>(rt: T, alloc: Global, serving: Serving) -> Result<Option<Port>, Fault> {
        match Door::open(&rt, alloc, serving.port) {
            Ok((door, waker)) => { Port::at(rt, alloc, door, waker, serving, true).map(Some) }
            Err(error) => {
                let port = serving.port;
                let _ = eprintln!(rt; "album: port {port}: {error}");
                Ok(None)
            }
        }
    }

    /// The port of this door, which is served until its input ends, or else until so many connections have ended. From
    /// now on notices are printed.
    ///
    /// # Errors
    ///
    /// `Memory`.
    pub(crate) fn at<T: Host>(
        rt: T,
        alloc: Global,
        door: Door,
        waker: Waker,
        serving: Serving,
        goes_on: bool,
    ) -> Result<Port, Fault> {
        let limits = limits_of(&serving, goes_on);
        let (printer, notices) = Printer::open(rt, alloc, goes_on)?;
        let Serving {
            port,
            conns: _,
            turns,
            idle: _,
            hello: _,
            grace: _,
            stats,
            per_address,
            admins,
        } = serving;
        let connections = Connections::new(
            alloc,
            notices.copy()?,
            waker.copy()?,
            limits.conns,
            goes_on,
            per_address.unwrap_or(u32::MAX),
            admins,
        );
        let Ok(connections) = Arc::new(alloc, connections) else {
            return Err(Fault::Memory);
        };
        Ok(Port {
            number: port,
            door,
            waker,
            connections,
            limits,
            input: None,
            stats,
            is_said: false,
            turns,
            printer,
            notices,
            totals: NONE,
        })
    }

    /// The service ends with this input, which is read from now on.
    ///
    /// # Errors
    ///
    /// `Memory`.
    pub fn end_with<T, R>(&mut self, rt: T, alloc: Global, reader: R) -> Result<(), Fault>
    where
        T: Host,
        R: Read + Send + Drop + 'static,
    {
        let waker = self.waker.copy()?;
        self.input = Some(Input::begin(rt, alloc, reader, waker, self.turns)?);
        Ok(())
    }

    /// Serves an epoch, with a log, if there is one, that keeps what is prepared before anybody hears of
    /// it. It turns where a partition has nearly as many marks as it may have, or there are as many bytes as the bound
    /// says. The first says that the port is served, and each goes on with the connections that the one before has
    /// left.
    ///
    /// # Errors
    ///
    /// As `serve_for`; also `Writing`, where the log fails. Then nothing more is answered that isn't kept.
    pub fn serve_epoch<T, L, W>(
        &mut self,
        rt: T,
        alloc: Global,
        epoch: &Arc<Epoch, Global>,
        log: Option<L>,
        bound: EpochBound,
        audit: Option<AuditFile>,
        writer: &mut W,
    ) -> Result<EpochEnd, Fault>
    where
        T: Host,
        L: MarkLog + Drop + Send + 'static,
        W: Write,
    {
        match open_by(&rt, alloc, &epoch.opening, writer, u16::MAX)? {
            Ok(opened) => {
                let terms = EpochTerms {
                    journal: self.journal(rt, alloc, audit)?,
                    bound: Some(bound),
                    epoch: Arc::try_clone(epoch).map_err(|_| Fault::Memory)?,
                };
                self.serve(rt, alloc, opened, log, terms, writer)
            }
            Err(_) => Ok(EpochEnd::Refused),
        }
    }

    /// What writes the notes of an epoch to the audit file, if there is one.
    ///
    /// # Errors
    ///
    /// `OutOfMemory`.
    pub(crate) fn journal<T: Host>(
        &self,
        rt: T,
        alloc: Global,
        audit: Option<AuditFile>,
    ) -> Result<AuditJournal<T>, Refusal> {
        AuditJournal::open(rt, alloc, self.notices.copy()?, audit)
    }

    /// Serves what was opened. The epoch turns where it has a bound.
    ///
    /// # Errors
    ///
    /// As `serve_epoch`.
    pub(crate) fn serve<T, L, W>(
        &mut self,
        rt: T,
        alloc: Global,
        opened: Opened,
        log: Option<L>,
        terms: EpochTerms<T>,
        writer: &mut W,
    ) -> Result<EpochEnd, Fault>
    where
        T: Host,
        L: MarkLog + Drop + Send + 'static,
        W: Write,
    {
        let (ended, totals) = serve_opened(rt, alloc, opened, log, self, terms, writer)?;
        self.totals = sum(self.totals, totals);
        Ok(ended)
    }

    /// The last epoch has ended so. All notices are printed, and then the totals of all epochs, unless there was a
    /// fault. Where nobody reads the notices, a fault isn't given back, so that nobody waits to print it.
    ///
    /// # Errors
    ///
    /// That of the epoch; `Writing`, `Memory`.
    pub fn close<T: Host, W: Write>(
        self,
        rt: T,
        alloc: Global,
        ended: Result<EpochEnd, Fault>,
        writer: &mut W,
    ) -> Result<Served, Fault> {
        let Port {
            number: _,
            door: _,
            waker: _,
            connections,
            limits: _,
            input: _,
            stats: _,
            is_said: _,
            turns: _,
            printer,
            notices,
            totals,
        } = self;
        drop(connections);
        drop(notices);
        let is_read = printer.close(&rt);
        match ended {
            Ok(EpochEnd::Refused) => Ok(Served::Refused),
            Ok(EpochEnd::Over | EpochEnd::Turned(_)) => {
                print(alloc, &totals_out(totals), writer)?;
                Ok(Served::Done)
            }
            Err(_) if !is_read => Ok(Served::Unread),
            Err(fault) => Err(fault),
        }
    }
}

/// Nothing was noted.
const NONE: Totals = Totals {
    audit_ok: 0,
    audit_failed: 0,
    alarm_ok: 0,
    alarm_failed: 0,
};

/// The totals of both.
fn sum(one: Totals, other: Totals) -> Totals {
    Totals {
        audit_ok: one.audit_ok.saturating_add(other.audit_ok),
        audit_failed: one.audit_failed.saturating_add(other.audit_failed),
        alarm_ok: one.alarm_ok.saturating_add(other.alarm_ok),
        alarm_failed: one.alarm_failed.saturating_add(other.alarm_failed),
    }
}

/// The limits of the connections. With `until_closed` the service ends only once they are closed.
fn limits_of(serving: &Serving, until_closed: bool) -> Limits {
    Limits {
        conns: serving.conns,
        turns: serving.turns,
        idle: seconds_of(serving.idle),
        hello: seconds_of(serving.hello),
        grace: seconds_of(serving.grace),
        until_closed,
    }
}

/// So many seconds, or no limit.
fn seconds_of(seconds: u32) -> Option<Duration> {
    if seconds == 0 {
        return None;
    }
    Some(Duration::from_secs(u64::from(seconds)))
}
