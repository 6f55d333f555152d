//! The notes of a service that go to its audit file, and how the requests have ended that were noted: each is in the
//! file before its request is answered.
//!
//! A thread of its own writes them (`writer`), so a file that stalls holds nobody up but who has noted something. What
//! waits to be written are the notes of requests that are under way: who has noted waits for that, and asks nothing
//! meanwhile.
ghost use Rattle.std.specs.Prelude.{◌≡◌, IfErr, IsOkUnless};

use crate::audit_file::AuditFile;
use crate::log::{Log, Unwritten};
use crate::moments::now;
use crate::notices::{Notice, Notices};
use crate::port::Host;
use crate::writer::Writer;
use album_audit::Record;
use album_eval::Principal;
use album_judge::Fault;
use album_stamps::{ClientNo, Refusal};
use album_talk::{AskWord, Ending, Journal};
use album_threads::{ServiceNames, Session};
use std::alloc::{AllocError, Global};
use std::collections::BTreeMap;
use std::sync::atomic::{AtomicBool, Ordering};
use std::sync::{Arc, Condvar, Mutex, Wait};
use std::{mem, thread, time};

/// What was given of a session.
#[derive(Clone, Copy)]
struct Given {
    /// How many lines were ever given by its last.
    last: u64,
    /// Whether a note was, and not yet how its request has ended.
    is_open: bool,
}

/// The lines that wait to be written.
#[derive(Drop)]
struct Waiting {
    log: Log<Vec<u8>>,
    /// How many lines were ever given here, and how many of them are in the file.
    given: u64,
    written: u64,
    /// By the numbers of the sessions.
    given_of: BTreeMap<u16, Given>,
    /// Whether no more is to be waited for, and whether no more will come.
    is_given_up: bool,
    is_ended: bool,
}

/// What those who note share with the thread that writes.
#[derive(Drop)]
pub(crate) struct Pending {
    alloc: Global,
    waiting: Mutex<Waiting>,
    /// Whether a note could not be written. Nothing is answered any more then.
    has_failed: AtomicBool,
    /// It has more lines, or has ended.
    more: Condvar,
    /// Some are written, or none will be.
    done: Condvar,
}

/// Lines, and how many were given by the last of them.
#[derive(Drop)]
pub(crate) struct Lines {
    pub text: Vec<u8>,
    until: u64,
}

/// Has the notes of a service written to its audit file, if it has one.
#[derive(Drop)]
pub(crate) struct AuditJournal<T> {
    rt: T,
    alloc: Global,
    /// The path of the file, which a message names.
    path: String,
    pending: Option<Arc<Pending, Global>>,
    notices: Notices,
}

impl Pending {
    /// Nothing waits.
    pub(crate) fn new(alloc: Global) -> Pending {
        let waiting = Waiting {
            log: Log::new(alloc, Vec::new(alloc)),
            given: 0,
            written: 0,
            given_of: BTreeMap::new(alloc),
            is_given_up: false,
            is_ended: false,
        };
        Pending {
            alloc,
            waiting: Mutex::new(waiting),
            has_failed: AtomicBool::new(false),
            more: Condvar::new(),
            done: Condvar::new(),
        }
    }

    /// The lines that wait, once there are some. None, where no more will come.
    pub(crate) fn next<T: Wait>(&self, rt: &T) -> Option<Lines> {
        let mut waiting = self.waiting.lock(rt);
        for _ in rt.forever() {
            if let Some(lines) = waiting.take(self.alloc) {
                return Some(lines);
            }
            if waiting.is_ended {
                return None;
            }
            waiting = self.more.wait(rt, waiting);
        }
        // `forever` has no end.
        unreachable!()
    }

    /// These are in the file.
    pub(crate) fn are_written<T: Wait>(&self, rt: &T, lines: &Lines) {
        self.waiting.lock(rt).written = lines.until;
        self.done.notify_all();
    }

    /// A note can't be written.
    pub(crate) fn fail<T: Wait>(&self, rt: &T) {
        self.has_failed.store(true, Ordering::SeqCst);
        // Who is about to wait has seen it, or is told.
        drop(self.waiting.lock(rt));
        self.done.notify_all();
    }

    fn has_failed(&self) -> bool {
        self.has_failed.load(Ordering::SeqCst)
    }

    /// Whether something that was given isn't written yet.
    fn is_behind<T: Wait>(&self, rt: &T) -> bool {
        let waiting = self.waiting.lock(rt);
        waiting.written < waiting.given
    }

    /// Waits until the notes of the session are written. One that has noted nothing waits for nobody.
    ///
    /// # Errors
    ///
    /// `Writing`, where they can't be written, or nobody waits for that any more.
    fn wait<T: Wait>(&self, rt: &T, client: u16) -> Result<(), Fault>
        ensures { IfErr result (λ fault. fault ≡ Fault.Writing) }
    {
        let mut waiting = self.waiting.lock(rt);
        for _ in rt.forever() {
            if self.has_failed() {
                return Err(Fault::Writing);
            }
            if waiting.has_written(client) {
                return Ok(());
            }
            if waiting.is_given_up {
                return Err(Fault::Writing);
            }
            waiting = self.done.wait(rt, waiting);
        }
        // `forever` has no end.
        unreachable!()
    }
}

impl Waiting {
    /// The lines that wait, if there are some.
    fn take(&mut self, alloc: Global) -> Option<Lines> {
        if self.log.to.is_empty() {
            return None;
        }
        Some(Lines {
            text: mem::replace(&mut self.log.to, Vec::new(alloc)),
            until: self.given,
        })
    }

    /// Whether all that was given of the session is in the file.
    fn has_written(&self, client: u16) -> bool {
        match self.given_of.get(&client) {
            Some(given) => given.last <= self.written,
            None => true,
        }
    }

    /// Whether something was noted of the session's request. How a request has ended that nothing was noted of isn't
    /// written.
    fn is_open(&self, client: u16) -> bool {
        match self.given_of.get(&client) {
            Some(given) => given.is_open,
            None => false,
        }
    }

    /// They are given here, and each session knows its last.
    ///
    /// # Errors
    ///
    /// `AllocError`.
    fn count(&mut self, records: &[Record]) -> Result<(), AllocError> {
        for record in records {
            self.count_one(record.client.number(), true)?;
        }
        Ok(())
    }

    /// Writes how the session's request has ended, at this moment, if something was noted of it.
    ///
    /// # Errors
    ///
    /// `OutOfMemory`.
    fn end(
        &mut self,
        alloc: Global,
        client: ClientNo,
        moment: &str,
        ending: Option<Ending>,
    ) -> Result<(), Refusal> {
        let Some(ending) = ending else {
            return Ok(());
        };
        if !self.is_open(client.number()) {
            return Ok(());
        }
        let written = self.log.end(alloc, client, moment, &ending);
        match written {
            Ok(()) => Ok(self.count_one(client.number(), false)?),
            Err(Unwritten::Memory | Unwritten::File(_)) => Err(Refusal::OutOfMemory),
        }
    }

    /// One more line of the session is given.
    ///
    /// # Errors
    ///
    /// `AllocError`.
    fn count_one(&mut self, client: u16, is_open: bool) -> Result<(), AllocError> {
        self.given = self.given.saturating_add(1);
        let last = self.given;
        let _ = self.given_of.insert(client, Given { last, is_open })?;
        Ok(())
    }
}

impl<T: Host> AuditJournal<T> {
    /// Nothing is noted yet. With a file a thread is started, which ends by `end`.
    ///
    /// # Errors
    ///
    /// `OutOfMemory`, also where a thread can't be had.
    pub(crate) fn open(
        rt: T,
        alloc: Global,
        notices: Notices,
        file: Option<AuditFile>,
    ) -> Result<AuditJournal<T>, Refusal> {
        let (path, pending) = match file {
            None => (String::new(alloc), None),
            Some(file) => {
                let path = file.path.clone()?;
                (path, Some(start(rt, alloc, notices.copy()?, file)?))
            }
        };
        Ok(AuditJournal {
            rt,
            alloc,
            path,
            pending,
            notices,
        })
    }
}

/// Starts the thread that writes to the file, and gives what is shared with it.
///
/// # Errors
///
/// As `AuditJournal::open`.
fn start<T: Host>(
    rt: T,
    alloc: Global,
    notices: Notices,
    file: AuditFile,
) -> Result<Arc<Pending, Global>, Refusal> {
    let pending = Arc::new(alloc, Pending::new(alloc))?;
    let shared = Arc::try_clone(&pending)?;
    let writer = Writer {
        alloc,
        file,
        looked: None,
        notices,
    };
    let thread = thread::spawn(&rt, move || writer.write_all(&rt, &shared));
    if thread.is_err() {
        return Err(Refusal::OutOfMemory);
    }
    Ok(pending)
}

impl<T: Wait + time::Clock> AuditJournal<T> {
    /// Whether notes go to a file.
    pub(crate) fn has_file(&self) -> bool {
        self.pending.is_some()
    }

    /// Whether a note could not be written.
    pub(crate) fn has_failed(&self) -> bool {
        match &self.pending {
            Some(pending) => pending.has_failed(),
            None => false,
        }
    }

    /// Whether somebody waits for notes to be written.
    pub(crate) fn is_behind(&self, rt: &T) -> bool {
        match &self.pending {
            Some(pending) => pending.is_behind(rt),
            None => false,
        }
    }

    /// `Writing`, where a note could not be written.
    pub(crate) fn outcome(&self) -> Result<(), Fault> {
        if self.has_failed() {
            return Err(Fault::Writing);
        }
        Ok(())
    }

    /// The connection of this session has ended. What was noted of it is written still.
    pub(crate) fn forget<J: ServiceNames, R: Wait>(&self, rt: &R, session: &Session<J>) {
        let _ = self.settle(rt, session, None, None);
        if let Some(pending) = &self.pending {
            let client = session.client().number();
            let mut waiting = pending.waiting.lock(rt);
            let _ = waiting.given_of.remove(&client);
            let _ = waiting.log.asked.remove(&client);
            let who = waiting.log.named.remove(&client);
            drop(waiting);
            drop(who);
        }
    }

    /// Nobody waits any longer for what isn't written yet, and those requests are not answered.
    pub(crate) fn give_up<R: Wait>(&self, rt: &R) {
        let Some(pending) = &self.pending else {
            return;
        };
        let mut waiting = pending.waiting.lock(rt);
        waiting.is_given_up = true;
        let is_late = waiting.written < waiting.given && !pending.has_failed();
        drop(waiting);
        if is_late {
            self.warn("notes wait still to be written, and their requests aren't answered");
            pending.has_failed.store(true, Ordering::SeqCst);
        }
        pending.done.notify_all();
    }

    /// No more will be noted.
    pub(crate) fn end<R: Wait>(&self, rt: &R) {
        if let Some(pending) = &self.pending {
            pending.waiting.lock(rt).is_ended = true;
            pending.more.notify_all();
        }
    }

    /// Has it printed that something is wrong with the file.
    fn warn(&self, why: &str) {
        let path = &self.path;
        if let Ok(text) = format!(in self.alloc; "{path}: {why}") {
            self.notices.send(&self.rt, Notice::Warning(text));
        }
    }

    /// What was noted since somebody last looked is given to the thread that writes, and then how the session's request
    /// has ended, if something was noted of it.
    ///
    /// # Errors
    ///
    /// `Writing`, where there is no memory for it. Standard error says so.
    fn give<J: ServiceNames, R: Wait>(
        &self,
        rt: &R,
        pending: &Pending,
        session: &Session<J>,
        who: Option<&Principal>,
        ending: Option<Ending>,
    ) -> Result<(), Fault>
        ensures { IfErr result (λ fault. fault ≡ Fault.Writing) }
    {
        let client = session.client();
        let mut waiting = pending.waiting.lock(rt);
        let before = waiting.given;
        let records = session.take_records(rt);
        let given = self.give_all(&mut waiting, client, who, &records, ending);
        let has_more = waiting.given > before;
        drop(waiting);
        if given.is_err() {
            self.warn("out of memory");
            pending.fail(rt);
            return Err(Fault::Writing);
        }
        if has_more {
            pending.more.notify_one();
        }
        Ok(())
    }

    fn give_all(
        &self,
        waiting: &mut Waiting,
        client: ClientNo,
        who: Option<&Principal>,
        records: &[Record],
        ending: Option<Ending>,
    ) -> Result<(), Refusal> {
        let moment = if records.is_empty() && !waiting.is_open(client.number()) {
            String::new(self.alloc)
        } else {
            let now = now(&self.rt);
            format!(in self.alloc; "{now:.3}")?
        };
        let written = waiting.log.write(self.alloc, client, who, &moment, records);
        match written {
            Ok(()) => waiting.count(records)?,
            Err(Unwritten::Memory | Unwritten::File(_)) => return Err(Refusal::OutOfMemory),
        }
        waiting.end(self.alloc, client, &moment, ending)
    }
}

impl<T: Wait + time::Clock> Journal for AuditJournal<T> {
    ghost use Rattle.std.specs.Prelude.{⊤};

    ghost recorded = { λ _ _ _. ⊤ };

    /// Known before anything is noted of it: others may give that to the thread that writes.
    fn begin<R: Wait>(
        &self,
        rt: &R,
        client: ClientNo,
        who: &Principal,
        ask: AskWord,
    ) -> Result<(), Refusal> {
        match &self.pending {
            Some(pending) => pending.waiting.lock(rt).log.begin(client, who, ask),
            None => Ok(()),
        }
    }

    /// Whoever is first gives what others have noted too: records are written in the order of the book.
    fn settle<J: ServiceNames, R: Wait>(
        &self,
        rt: &R,
        session: &Session<J>,
        who: Option<&Principal>,
        ending: Option<Ending>,
    ) -> Result<(), Fault> {
        let Some(pending) = &self.pending else {
            return Ok(());
        };
        if pending.has_failed() {
            return Err(Fault::Writing);
        }
        self.give(rt, pending, session, who, ending)?;
        pending.wait(rt, session.client().number())
    }
}
