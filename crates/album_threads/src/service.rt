//! A running service.
ghost use Rattle.std.specs.Prelude.{◌≡◌, ◌≤◌, ◌⊎◌, IfOk, IfErr, IsOkUnless, None, vec_len};
ghost use Rattle.std.specs.Arc.{arc_value};
ghost use Rattle.album_stamps.specs.declared.limits.TheConstants.{MAX_COUNTER, MAX_PARTS};
ghost use Rattle.album_audit.specs.Books.{new_share};
ghost use Rattle.album_passes.specs.Changes.{IsUnheard};
ghost use Rattle.album_threads.specs.Opened.{opened_as};

use crate::gauge::Gauge;
use crate::opened::Opened;
use crate::running::{Running, copies_of, in_order};
use album_audit::{AuditBook, Totals};
use album_board::Board;
use album_channels::PartitionChannel;
use album_eval::Policy;
use album_keepers::{Breakage, Gate, MarkLog, NoLog};
use album_passes::{Desk, Pass};
use album_sessions::{Hints, ServiceNames, Session, Stripes};
use album_stamps::Refusal;
use crossbeam_channel::unbounded;
use std::alloc::{AllocError, Global};
use std::marker::PhantomData;
use std::sync::{Arc, Mutex, Wait};
use std::thread::Threads;
use std::time;

/// A running service, of the desk, the policy and the audit book that `J` names. It has threads, and
/// ends by `close`.
pub struct Service<J: ServiceNames> {
    desk: Arc<Desk, Global>,
    policy: Policy,
    seed: Mutex<Seed<J>>,
    board: Arc<Mutex<Board<J>>, Global>,
    book: Arc<Mutex<AuditBook<J>>, Global>,
    hints: Arc<Hints, Global>,
    stripes: Arc<Stripes, Global>,
    /// Whether a session may give itself the replies that it knows.
    repeats: bool,
    alloc: Global,
    /// How many partitions there are.
    parts: u16,
    /// Whether they are checked.
    checked: bool,
    /// The counter above which sessions draw their stamps.
    first: u64,
    running: Running<J>,
    breakage: Arc<Breakage, Global>,
    ghost table_is: { (arc_value desk).table ≡ J.table },
    ghost terms_are: { (arc_value desk).terms ≡ J.terms },
    ghost policy_is: { policy ≡ J.policy },
    ghost parts_are: { J.terms.parts ≡ parts },
    ghost checked_is: { J.terms.checked ≡ checked },
    ghost first_is: { J.terms.first ≡ first },
    ghost low: { first ≤ MAX_COUNTER },
    ghost some: { 1 ≤ parts },
    ghost few: { parts ≤ MAX_PARTS },
    ghost mailboxes_are: { vec_len running.mailboxes ≡ parts },
}

impl<J: ServiceNames + Send + 'static> Service<J> {
    /// Starts a thread for each partition of what was opened. Each message that one takes passes the
    /// gate. Where this is open, sessions let partitions take their messages in their own threads.
    ///
    /// # Errors
    ///
    /// `OutOfMemory`, also where a thread can't be had. No thread runs then.
    pub fn open<
        R: Threads + Wait + time::Clock + Copy + Send + 'static,
        G: Gate + Drop + Send + Sync + 'static,
    >(rt: R, alloc: Global, opened: Opened, gate: G) -> Result<Service<J>, Refusal>
        requires named { opened ≡ opened_as J.table J.terms J.policy J.list
            J.audit_ok J.audit_failed J.alarm_ok J.alarm_failed }
        ensures memory { IsOkUnless result Refusal.OutOfMemory }
    {
        Service::open_logged::<NoLog, R, G>(rt, alloc, opened, gate, None)
    }

    /// The same, with a thread for the log, if there is one. What a partition prepares is kept there before any session
    /// or other partition hears of it.
    ///
    /// # Errors
    ///
    /// As `open`.
    pub fn open_logged<
        L: MarkLog + Drop + Send + 'static,
        R: Threads + Wait + time::Clock + Copy + Send + 'static,
        G: Gate + Drop + Send + Sync + 'static,
    >(rt: R, alloc: Global, opened: Opened, gate: G, log: Option<L>) -> Result<Service<J>, Refusal>
        requires named { opened ≡ opened_as J.table J.terms J.policy J.list
            J.audit_ok J.audit_failed J.alarm_ok J.alarm_failed }
        ensures memory { IsOkUnless result Refusal.OutOfMemory }
    {
        let Opened {
            desk,
            parts,
            checked,
            first,
            owners,
            partitions,
            mut pass,
            policy,
            list,
            blanks,
            hints,
            repeats,
        } = opened;
        let board = Board::open(list, pass.split(&desk));
        let shared = shared_of(alloc, board, AuditBook::new(blanks), hints)?;
        let desk = Arc::new(alloc, desk)?;
        let seed = Mutex::new(Seed {
            pass,
            of: PhantomData,
        });
        let running = Running::begin(
            rt,
            alloc,
            &desk,
            gate,
            &shared.breakage,
            owners,
            partitions,
            log,
        )?;
        let Shared {
            board,
            book,
            hints,
            stripes,
            breakage,
        } = shared;
        Ok(Service {
            desk,
            policy,
            seed,
            board,
            book,
            hints,
            stripes,
            repeats,
            alloc,
            parts,
            checked,
            first,
            running,
            breakage,
        })
    }

    /// Ends the partitions' threads, once each has taken what was sent to it before, and gives the
    /// totals of the audit book.
    pub fn close<R: Threads + Wait>(self, rt: &R) -> Totals {
        let Service {
            desk: _,
            policy: _,
            seed: _,
            board: _,
            book,
            hints: _,
            stripes: _,
            repeats: _,
            alloc: _,
            parts: _,
            checked: _,
            first: _,
            running,
            breakage: _,
        } = self;
        running.end(rt);
        book.lock(rt).totals()
    }
}

impl<J: ServiceNames> Service<J> {
    /// A new session, with a number of its own, from 1 on, and a share of the audit book in which nothing counts.
    /// Nothing is announced yet of any stamp of that number, and the counters of its stamps are above the opening's
    /// first.
    ///
    /// # Errors
    ///
    /// `OutOfMemory`, where there is none for the session; then `SessionsSpent`, where all numbers are drawn; then
    /// `OutOfMemory` once more, where the session can't be registered, which leaves its number spent.
    pub fn session<R: Wait>(&self, rt: &R) -> Result<Session<J>, Refusal>
        ensures unheard { IfOk result (λ session. IsUnheard session.client session.cut) }
        ensures most { IfOk result (λ session. session.client ≤ J.terms.sessions) }
        ensures parts { IfOk result (λ session. session.cut.parts ≡ J.terms.parts) }
        ensures checked { IfOk result (λ session. session.cut.checked ≡ J.terms.checked) }
        ensures opening { IfOk result (λ session. session.cut.opening ≡ J.terms.opening) }
        ensures counter { IfOk result (λ session. session.counter ≡ J.terms.first) }
        ensures share { IfOk result (λ session. session.share ≡ new_share) }
        ensures refused { IfErr result (λ e. (e ≡ Refusal.OutOfMemory) ⊎ (e ≡ Refusal.SessionsSpent)) }
    {
        let board = Arc::try_clone(&self.board)?;
        let book = Arc::try_clone(&self.book)?;
        let hints = Arc::try_clone(&self.hints)?;
        let stripes = Arc::try_clone(&self.stripes)?;
        let channel = self.channel(rt)?;
        let share = self.book.lock(rt).share();
        match share {
            Ok(share) => Ok(Session::new(
                self.alloc,
                channel,
                self.policy,
                board,
                book,
                share,
                hints,
                stripes,
                self.first,
            )),
            Err(refusal) => {
                channel.leave(rt);
                Err(refusal)
            }
        }
    }

    /// The channel of a new session, which each partition has registered.
    fn channel<R: Wait>(&self, rt: &R) -> Result<PartitionChannel<J>, Refusal>
        ensures unheard { IfOk result (λ channel. IsUnheard channel.client channel.cut) }
        ensures most { IfOk result (λ channel. channel.client ≤ J.terms.sessions) }
        ensures parts { IfOk result (λ channel. channel.cut.parts ≡ J.terms.parts) }
        ensures checked { IfOk result (λ channel. channel.cut.checked ≡ J.terms.checked) }
        ensures opening { IfOk result (λ channel. channel.cut.opening ≡ J.terms.opening) }
        ensures refused { IfErr result (λ e. (e ≡ Refusal.OutOfMemory) ⊎ (e ≡ Refusal.SessionsSpent)) }
    {
        let desk = Arc::try_clone(&self.desk)?;
        let breakage = Arc::try_clone(&self.breakage)?;
        let to = copies_of(self.alloc, &self.running.mailboxes)?;
        let keepers = in_order(self.alloc, &self.running.keepers)?;
        let (end, from) = unbounded(self.alloc)?;
        let mut pass = self.seed.lock(rt).split(&desk);
        let client = desk.draw(rt, &mut pass)?;
        let channel = PartitionChannel::new(
            self.alloc,
            desk,
            pass,
            client,
            self.parts,
            self.checked,
            to,
            from,
            self.repeats,
            breakage,
            keepers,
        );
        if channel.register(rt, end).is_err() {
            channel.leave(rt);
            return Err(Refusal::OutOfMemory);
        }
        Ok(channel)
    }

    /// Whether a partition's thread has ended for want of memory, or the log has failed. Then each session answers
    /// `Closed`, and all that is left is to close the service.
    pub fn is_broken(&self) -> bool {
        self.breakage.is_set()
    }

    /// Whether it is broken since its log failed.
    pub fn has_lost_log(&self) -> bool {
        self.breakage.is_by_log()
    }

    /// The totals of the audit book so far.
    pub fn totals<R: Wait>(&self, rt: &R) -> Totals {
        self.book.lock(rt).totals()
    }

    /// Has the audit book keep the record of each note from now on, until they are taken.
    pub fn keep_records<R: Wait>(&self, rt: &R) {
        self.book.lock(rt).keep(self.alloc);
    }

    /// What of the service another thread may look at.
    ///
    /// # Errors
    ///
    /// `OutOfMemory`.
    pub fn gauge(&self) -> Result<Gauge<J>, Refusal>
        ensures memory { IsOkUnless result Refusal.OutOfMemory }
    {
        Ok(Gauge {
            alloc: self.alloc,
            mailboxes: copies_of(self.alloc, &self.running.mailboxes)?,
            book: Arc::try_clone(&self.book)?,
        })
    }
}

/// The pass from which those of the sessions are split.
#[derive(Drop)]
struct Seed<J: ServiceNames> {
    pass: Pass,
    of: PhantomData<J>,
    ghost table_is: { pass.table ≡ J.table },
    ghost unnumbered: { pass.number ≡ None },
    ghost parts_are: { pass.cut.parts ≡ J.terms.parts },
    ghost checked_is: { pass.cut.checked ≡ J.terms.checked },
    ghost opening_is: { pass.cut.opening ≡ J.terms.opening },
}

impl<J: ServiceNames> Seed<J> {
    /// A pass with an equal cut.
    fn split(&mut self, desk: &Desk) -> Pass
        requires { desk.now.table ≡ J.table }
        ensures of { result.table ≡ J.table }
        ensures unnumbered { result.number ≡ None }
        ensures parts { result.cut.parts ≡ J.terms.parts }
        ensures checked { result.cut.checked ≡ J.terms.checked }
        ensures opening { result.cut.opening ≡ J.terms.opening }
    {
        self.pass.split(desk)
    }
}

/// What a service shares with its sessions, and with the partitions' threads.
#[derive(Drop)]
struct Shared<J: ServiceNames> {
    board: Arc<Mutex<Board<J>>, Global>,
    book: Arc<Mutex<AuditBook<J>>, Global>,
    hints: Arc<Hints, Global>,
    stripes: Arc<Stripes, Global>,
    breakage: Arc<Breakage, Global>,
}

/// They are made together, since there may be no memory for each.
fn shared_of<J: ServiceNames>(
    alloc: Global,
    board: Board<J>,
    book: AuditBook<J>,
    hints: usize,
) -> Result<Shared<J>, AllocError> {
    let board = Arc::new(alloc, Mutex::new(board))?;
    let book = Arc::new(alloc, Mutex::new(book))?;
    let hints = Arc::new(alloc, Hints::new(alloc, hints))?;
    let stripes = Arc::new(alloc, Stripes::new(alloc))?;
    let breakage = Arc::new(alloc, Breakage::new())?;
    Ok(Shared {
        board,
        book,
        hints,
        stripes,
        breakage,
    })
}
