//! Sessions that queue (docs/PROTOCOL.md, "Attempts"). One attempts its write again, and has the stripe of its picture
//! while one of its mails is held on the way to the partition. Three others wait for the stripe. Whatever becomes of
//! that attempt, all four are answered, and the service closes.
//!
//! Each test refuses a body of `attempt` that keeps its stripes after the answer: the others are never answered then.
//! And it refuses one that takes none: the others' reads come while the mail is held.
ghost use Rattle.std.specs.Prelude.{◌≡◌};
ghost use Rattle.album_threads.specs.Opened.{opened_as};

use super::{Relay, relay_for};
use crate::asked::Wish::{Read, Retitle};
use crate::asked::answer_to;
use crate::messages::{item_of, same, stamp_of};
use crate::sessions::{READABLE, list};
use crate::values::picture;
use album_items::{FirstStamps, ItemValues, Opening};
use album_permits::Answer;
use album_stamps::Refusal;
use album_threads::{
    Gate, LogEntry, MarkLog, NotKept, Opened, OwnedSession, PartitionMail, Service, ServiceNames,
};
use std::alloc::{AllocError, Global};
use std::marker::Brand;
use std::process::Abort;
use std::sync::atomic::{AtomicBool, AtomicU64, Ordering};
use std::sync::{Arc, Wait};
use std::test::Fail;
use std::thread::{JoinHandle, Threads, spawn};
use std::time::Duration;
use std::{thread, time};

/// amy's picture, which all others may read, at the only partition. Group 0, which heads it, is missing.
fn opening(alloc: Global) -> Result<Opening, Refusal> {
    let mut items = Vec::new(alloc);
    items.push((item_of("picture/0")?, picture(alloc, 0)?))?;
    items.push((item_of("list/0")?, list(alloc, READABLE)?))?;
    Ok(Opening {
        parts: 1,
        limit: 1000,
        policy: 1,
        checked: true,
        root: None,
        first: 0,
        items: ItemValues::of(items),
        stamps: FirstStamps::new(alloc),
    })
}

/// The numbers of the first session's mails. It reads the picture, and then with it its list and its group. Its Prepare
/// is refused, and the partition is to sweep the stamp. Then it has the stripe: it reads all three at once.
const FIRST_PREPARE: u64 = 2;

const SECOND_READ: u64 = 4;

const SECOND_PREPARE: u64 = 5;

const SECOND_COMMIT: u64 = 6;

/// The stamp of that attempt: counter 2 of client 2, since what overtook the first one has counter 1.
const T: u64 = 131_074;

/// What the sessions wish that wait.
const TITLES: &[&str] = &["Cove", "Dune", "Elm"];

/// What becomes of the attempt, once the others wait.
#[derive(Clone, Copy, PartialEq, Eq)]
enum Fate {
    /// The mail that is held comes, and so do all others.
    GoesOn,
    /// That mail is the last one that comes: the session's line to the partition is cut.
    IsCut,
    /// The service is closed before that mail comes.
    IsClosedBefore,
    /// The partition takes that mail, and is sent to leave before it does what the mail asks.
    IsClosedAfter,
}

/// What another session reads once all are answered.
#[derive(Clone, Copy, PartialEq, Eq)]
enum Shows {
    /// It can't read.
    Nothing,
    /// The title that was committed at the greatest stamp.
    Last,
    /// Once the attempt is swept, its title.
    Swept,
}

/// How a write ended, or why it was refused.
#[derive(Clone, Copy, Debug, PartialEq, Eq)]
enum Ending {
    Committed(u64),
    Aborted(u64),
    Unsettled(u64, Refusal),
    Refused(Refusal),
    Otherwise,
}

/// A queue, and what is to come of it.
#[derive(Clone, Copy)]
struct Case {
    /// Which of the first session's mails is held while the others begin to wait.
    held: u64,
    fate: Fate,
    /// How many entries the log keeps. Where it is to keep one more, it fails.
    most: u64,
    /// Whether the line of the first of those that wait is cut.
    is_waiting_cut: bool,
    /// How the first session's write ends.
    first: Ending,
    /// How those of the others do, or why they are refused, in the order of their numbers.
    others: &'static [&'static str],
    /// How many entries the log was given.
    logged: u64,
    shows: Shows,
}

/// The attempt is committed, and then the others' writes, each on the one before.
const GOES_ON: Case = Case {
    held: SECOND_PREPARE,
    fate: Fate::GoesOn,
    most: 1000,
    is_waiting_cut: false,
    first: Ending::Committed(T),
    others: &["committed", "committed", "committed"],
    logged: 5,
    shows: Shows::Last,
};

/// The log keeps what has overtaken the first attempt, and fails at the second one's Prepare: the service is broken.
const BROKEN: Case = Case {
    most: 1,
    first: Ending::Unsettled(T, Refusal::Closed),
    others: &["Closed", "Closed", "Closed"],
    logged: 2,
    shows: Shows::Nothing,
    ..GOES_ON
};

/// The attempt has read, and its Prepare can't be sent: nothing of it is anywhere.
const CUT_BEFORE_PREPARE: Case = Case {
    held: SECOND_READ,
    fate: Fate::IsCut,
    first: Ending::Unsettled(T, Refusal::Closed),
    logged: 4,
    ..GOES_ON
};

/// The attempt is prepared, and its Commit can't be sent. While it is pending nobody else can write the picture.
const CUT_BEFORE_COMMIT: Case = Case {
    fate: Fate::IsCut,
    first: Ending::Unsettled(T, Refusal::Closed),
    others: &["aborted", "aborted", "aborted"],
    logged: 2,
    shows: Shows::Swept,
    ..GOES_ON
};

/// Of those that wait one can send nothing, once it has the stripe. It gives it back.
const CUT_IN_QUEUE: Case = Case {
    is_waiting_cut: true,
    others: &["Closed", "committed", "committed"],
    logged: 4,
    ..GOES_ON
};

/// The epoch ends before the attempt's Prepare comes: the next one has nothing of it.
const CLOSED_BEFORE: Case = Case {
    fate: Fate::IsClosedBefore,
    first: Ending::Unsettled(T, Refusal::Closed),
    others: &["Closed", "Closed", "Closed"],
    logged: 1,
    shows: Shows::Nothing,
    ..GOES_ON
};

/// The epoch ends once the attempt's Commit has come: it is answered in this one.
const CLOSED_AFTER: Case = Case {
    held: SECOND_COMMIT,
    fate: Fate::IsClosedAfter,
    others: &["Closed", "Closed", "Closed"],
    logged: 2,
    shows: Shows::Nothing,
    ..GOES_ON
};

/// How far a queue has come. Each number only grows, but for that of the halt.
struct Progress {
    /// How many of the first session's mails have come to where they are held.
    come: AtomicU64,
    /// How many of those are passed on.
    passed: AtomicU64,
    /// How many sessions have begun to ask, and how many have their answers.
    begun: AtomicU64,
    answered: AtomicU64,
    /// 1 once all have: none of them ends before that.
    over: AtomicU64,
    /// How many messages the partition has taken.
    taken: AtomicU64,
    /// The number of the message at which the partition is held.
    halt: AtomicU64,
    /// 1 once it is there, and 1 once it may go on.
    halted: AtomicU64,
    resumed: AtomicU64,
    /// How many entries the log was given.
    logged: AtomicU64,
    gave_up: AtomicBool,
}

// By hand, as those below, so that what lets it go is proved once.
impl Drop for Progress {
    fn drop(self) {
        let Progress {
            come: _,
            passed: _,
            begun: _,
            answered: _,
            over: _,
            taken: _,
            halt: _,
            halted: _,
            resumed: _,
            logged: _,
            gave_up: _,
        } = self;
    }
}

impl Progress {
    fn new() -> Progress {
        Progress {
            come: AtomicU64::new(0),
            passed: AtomicU64::new(0),
            begun: AtomicU64::new(0),
            answered: AtomicU64::new(0),
            over: AtomicU64::new(0),
            taken: AtomicU64::new(0),
            halt: AtomicU64::new(u64::MAX),
            halted: AtomicU64::new(0),
            resumed: AtomicU64::new(0),
            logged: AtomicU64::new(0),
            gave_up: AtomicBool::new(false),
        }
    }

    /// Waits until the number is so great. It gives up after some ten seconds.
    fn wait<R: time::Clock>(&self, rt: &R, number: &AtomicU64, least: u64) {
        for _ in 0..10_000u32 {
            if number.load(Ordering::SeqCst) >= least {
                return;
            }
            thread::sleep(rt, Duration::from_millis(1));
        }
        self.gave_up.store(true, Ordering::SeqCst);
    }

    /// The same, where there is no clock.
    fn wait_at_gate(&self, number: &AtomicU64, least: u64) {
        for _ in 0..20_000_000u32 {
            if number.load(Ordering::SeqCst) >= least {
                return;
            }
            thread::yield_now();
        }
        self.gave_up.store(true, Ordering::SeqCst);
    }

    /// One more mail is held, until it may be passed on.
    fn hold<R: time::Clock>(&self, rt: &R) {
        let before = self.come.fetch_add(1, Ordering::SeqCst);
        self.wait(rt, &self.passed, before.wrapping_add(1));
    }

    fn has_given_up(&self) -> bool {
        self.gave_up.load(Ordering::SeqCst)
    }
}

/// Counts the messages, and holds the partition at one of them.
struct Halting {
    progress: Arc<Progress, Global>,
}

impl Drop for Halting {
    fn drop(self) {
        let Halting { progress } = self;
        drop(progress);
    }
}

impl Gate for Halting {
    fn enter(&self, _part: u16, number: u64) {
        let progress: &Progress = &self.progress;
        progress
            .taken
            .store(number.wrapping_add(1), Ordering::SeqCst);
        if number == progress.halt.load(Ordering::SeqCst) {
            progress.halted.store(1, Ordering::SeqCst);
            progress.wait_at_gate(&progress.resumed, 1);
        }
    }

    fn leave(&self, _part: u16, _number: u64) {}
}

/// A log for tests alone: it counts what it is given, keeps it nowhere, and fails at one entry too many.
struct Counted {
    progress: Arc<Progress, Global>,
    most: u64,
}

impl Drop for Counted {
    fn drop(self) {
        let Counted { progress, most: _ } = self;
        drop(progress);
    }
}

impl MarkLog for Counted {
    ghost keeps = { λ _ _. Unit {0} };

    ghost adds = { λ _ _. Unit {0} };

    fn add(&mut self, _entry: &LogEntry) -> Result<(), NotKept> {
        self.progress.logged.fetch_add(1, Ordering::SeqCst);
        Ok(())
    }

    fn keep(&mut self) -> Result<(), NotKept> {
        if self.progress.logged.load(Ordering::SeqCst) > self.most {
            return Err(NotKept);
        }
        Ok(())
    }
}

/// Passes each mail on, two of them once they may be. It ends with the session, or with the mail after which the line
/// is cut.
fn pass_on<J: ServiceNames, R: Wait + time::Clock + Copy>(
    rt: R,
    relay: Relay<J>,
    case: Case,
    progress: &Progress,
) {
    let mut number: u64 = 0;
    for _ in rt.forever() {
        let Ok(mail) = relay.mails.recv(&rt) else {
            return;
        };
        if number == FIRST_PREPARE || number == case.held {
            progress.hold(&rt);
        }
        if number == case.held && case.fate == Fate::IsCut {
            relay.end_with(&rt, mail);
            return;
        }
        drop(relay.to.send(&rt, mail));
        number = number.wrapping_add(1);
    }
    // `forever` has no end.
    unreachable!()
}

/// How the session's write of the title ends.
fn retitled<J: ServiceNames, R: Wait + time::Clock + Copy>(
    alloc: Global,
    owned: &mut OwnedSession<J, R>,
    title: &'static str,
) -> Ending {
    let rt = owned.rt;
    match answer_of(&rt, alloc, owned, title) {
        Ok(ending) => ending,
        Err(refusal) => Ending::Refused(refusal),
    }
}

fn answer_of<J: ServiceNames, R: Wait + time::Clock + Copy>(
    rt: &R,
    alloc: Global,
    owned: &mut OwnedSession<J, R>,
    title: &'static str,
) -> Result<Ending, Refusal> {
    let principal = Retitle("picture/0", title).principal()?;
    let ask = Retitle("picture/0", title).ask(alloc)?;
    let answer = owned.session.ask(rt, &principal, ask)?;
    let ending = ending_of(&answer);
    drop(answer);
    Ok(ending)
}

fn ending_of(answer: &Answer) -> Ending {
    match answer {
        Answer::Committed(stamp) => Ending::Committed(stamp.value()),
        Answer::Aborted(stamp) => Ending::Aborted(stamp.value()),
        Answer::Unsettled(stamp, refusal) => Ending::Unsettled(stamp.value(), *refusal),
        _ => Ending::Otherwise,
    }
}

/// Asks for the title, and ends once all are answered: what a session keeps until it ends is kept from the others.
fn asked<J: ServiceNames, R: Wait + time::Clock + Copy>(
    alloc: Global,
    mut owned: OwnedSession<J, R>,
    title: &'static str,
    progress: &Progress,
) -> Ending {
    let rt = owned.rt;
    progress.begun.fetch_add(1, Ordering::SeqCst);
    let ending = retitled(alloc, &mut owned, title);
    progress.answered.fetch_add(1, Ordering::SeqCst);
    progress.wait(&rt, &progress.over, 1);
    ending
}

/// The session asks for the title on a thread of its own.
fn ask_beside<
    J: ServiceNames + Send + 'static,
    R: Threads + Wait + time::Clock + Copy + Send + 'static,
>(
    rt: &R,
    alloc: Global,
    owned: OwnedSession<J, R>,
    title: &'static str,
    progress: &Arc<Progress, Global>,
) -> Result<JoinHandle<Ending>, AllocError> {
    let progress = Arc::try_clone(progress)?;
    spawn(rt, move || asked(alloc, owned, title, &progress))
        .ok()
        .ok_or(AllocError)
}

/// The mails of the relay are passed on on a thread of its own.
fn relay_beside<
    J: ServiceNames + Send + 'static,
    R: Threads + Wait + time::Clock + Copy + Send + 'static,
>(
    rt: &R,
    relay: Relay<J>,
    case: Case,
    progress: &Arc<Progress, Global>,
) -> Result<JoinHandle<()>, AllocError> {
    let progress = Arc::try_clone(progress)?;
    let own = *rt;
    spawn(rt, move || pass_on(own, relay, case, &progress))
        .ok()
        .ok_or(AllocError)
}

/// The first session asks, by a relay. Its thread is the first of the handles, and that of the relay is given.
fn first_asks<
    J: ServiceNames + Send + 'static,
    R: Threads + Wait + time::Clock + Copy + Send + 'static,
>(
    rt: &R,
    alloc: Global,
    service: &Service<J>,
    case: Case,
    progress: &Arc<Progress, Global>,
    handles: &mut Vec<JoinHandle<Ending>>,
) -> Result<JoinHandle<()>, Refusal> {
    let mut first = OwnedSession::begin(rt, service)?;
    let relay = relay_for(alloc, &mut first, 0)?;
    let relaying = relay_beside(rt, relay, case, progress)?;
    handles.push(ask_beside(rt, alloc, first, "Ash", progress)?)?;
    Ok(relaying)
}

/// One of those that wait asks.
fn one_waits<
    J: ServiceNames + Send + 'static,
    R: Threads + Wait + time::Clock + Copy + Send + 'static,
>(
    rt: &R,
    alloc: Global,
    service: &Service<J>,
    case: Case,
    title: &'static str,
    progress: &Arc<Progress, Global>,
    handles: &mut Vec<JoinHandle<Ending>>,
) -> Result<(), Refusal> {
    let mut owned = OwnedSession::begin(rt, service)?;
    if case.is_waiting_cut && handles.len() == 1 {
        drop(relay_for(alloc, &mut owned, 0)?);
    }
    handles.push(ask_beside(rt, alloc, owned, title, progress)?)?;
    Ok(())
}

/// The first session's first attempt is overtaken, and the others wait for its second one. Gives whether they send
/// nothing, though they have had time to.
fn others_wait<
    J: ServiceNames + Send + 'static,
    R: Threads + Wait + time::Clock + Copy + Send + 'static,
>(
    rt: &R,
    alloc: Global,
    service: &Service<J>,
    case: Case,
    progress: &Arc<Progress, Global>,
    other: &mut OwnedSession<J, R>,
    handles: &mut Vec<JoinHandle<Ending>>,
) -> Result<bool, Refusal> {
    progress.wait(rt, &progress.come, 1);
    let overtakes = retitled(alloc, other, "Bay");
    progress.passed.store(1, Ordering::SeqCst);
    progress.wait(rt, &progress.come, 2);
    let before = progress.taken.load(Ordering::SeqCst);
    for title in TITLES {
        one_waits(rt, alloc, service, case, title, progress, handles)?;
    }
    progress.wait(rt, &progress.begun, 4);
    thread::sleep(rt, Duration::from_millis(20));
    let taken = progress.taken.load(Ordering::SeqCst);
    Ok(taken == before && word_of(overtakes) == "committed")
}

/// A queue: a session that isn't in it, the thread of the relay, and those of the sessions that are.
struct Queue<J: ServiceNames, R: Wait + Copy> {
    other: OwnedSession<J, R>,
    relaying: JoinHandle<()>,
    handles: Vec<JoinHandle<Ending>>,
    /// Whether those that wait send nothing.
    is_quiet: bool,
}

impl<J: ServiceNames, R: Wait + Copy> Drop for Queue<J, R> {
    fn drop(self) {
        let Queue {
            other,
            relaying,
            handles,
            is_quiet: _,
        } = self;
        drop(other);
        drop(relaying);
        drop(handles);
    }
}

impl<J: ServiceNames, R: Wait + Copy> Queue<J, R> {
    fn into_parts(self) -> (OwnedSession<J, R>, JoinHandle<()>, Vec<JoinHandle<Ending>>) {
        let Queue {
            other,
            relaying,
            handles,
            is_quiet: _,
        } = self;
        (other, relaying, handles)
    }
}

/// The whole queue, in which a mail of the first session is held.
fn whole_queue<
    J: ServiceNames + Send + 'static,
    R: Threads + Wait + time::Clock + Copy + Send + 'static,
>(
    rt: &R,
    alloc: Global,
    service: &Service<J>,
    case: Case,
    progress: &Arc<Progress, Global>,
) -> Result<Queue<J, R>, Refusal> {
    let mut other = OwnedSession::begin(rt, service)?;
    let mut handles = Vec::new(alloc);
    let relaying = first_asks(rt, alloc, service, case, progress, &mut handles)?;
    let is_quiet = others_wait(rt, alloc, service, case, progress, &mut other, &mut handles)?;
    Ok(Queue {
        other,
        relaying,
        handles,
        is_quiet,
    })
}

/// Passes the mail on that is held, and waits until all are answered.
fn go_on<J: ServiceNames, R: Wait + time::Clock + Copy>(
    rt: &R,
    alloc: Global,
    other: &mut OwnedSession<J, R>,
    case: Case,
    progress: &Progress,
) {
    if case.fate == Fate::IsClosedAfter {
        // The message of that mail is the next one.
        let next = progress.taken.load(Ordering::SeqCst);
        progress.halt.store(next, Ordering::SeqCst);
        progress.passed.store(2, Ordering::SeqCst);
        progress.wait(rt, &progress.halted, 1);
        leave(rt, alloc, other);
        progress.resumed.store(1, Ordering::SeqCst);
    } else {
        progress.passed.store(2, Ordering::SeqCst);
    }
    progress.wait(rt, &progress.answered, 4);
}

/// Has the partition leave, as the service does that closes.
fn leave<J: ServiceNames, R: Wait + Copy>(rt: &R, alloc: Global, other: &mut OwnedSession<J, R>) {
    if let Ok(relay) = relay_for(alloc, other, 0) {
        drop(relay.to.send(rt, PartitionMail::Leave));
    }
}

/// How the writes ended, by the order of the handles. Where there is no memory some are missing.
fn endings_of<R: Threads>(rt: &R, alloc: Global, handles: Vec<JoinHandle<Ending>>) -> Vec<Ending> {
    let mut endings = Vec::new(alloc);
    for handle in handles {
        let _ = endings.push(handle.join(rt));
    }
    endings
}

fn word_of(ending: Ending) -> &'static str {
    match ending {
        Ending::Committed(_) => "committed",
        Ending::Aborted(_) => "aborted",
        Ending::Refused(refusal) => refusal.name(),
        Ending::Unsettled(_, _) | Ending::Otherwise => "otherwise",
    }
}

fn assert_endings(rt: &impl Abort, endings: &[Ending], case: Case) {
    assert_eq!(rt; endings.len(), 4);
    assert_eq!(rt; endings[0], case.first, "the first one");
    for (title, (ending, word)) in TITLES.iter().zip(endings[1..].iter().zip(case.others)) {
        assert_eq!(rt; word_of(*ending), *word, "{title}");
    }
}

/// What is there after those that wait: the title of the greatest stamp.
fn last_of(alloc: Global, endings: &[Ending]) -> Result<String, Refusal> {
    let (mut last, mut shown) = (0, "");
    for (title, ending) in TITLES.iter().zip(endings.iter().skip(1)) {
        if let Ending::Committed(stamp) = ending {
            if *stamp > last {
                last = *stamp;
                shown = *title;
            }
        }
    }
    Ok(format!(in alloc; "{shown} at {last}")?)
}

/// The partition settles the attempt. It takes a vote of its own, which the log keeps first.
fn sweep<J: ServiceNames, R: Wait + time::Clock + Copy>(
    rt: &R,
    other: &mut OwnedSession<J, R>,
) -> Result<(), Refusal> {
    other.session.sweep(rt, 0, stamp_of(T)?)?;
    for _ in 0..10_000u32 {
        if other.session.pending(rt, 0)?.as_slice().is_empty() {
            return Ok(());
        }
        thread::sleep(rt, Duration::from_millis(1));
    }
    Err(Refusal::Clash)
}

/// The other session reads this, and can write then.
fn assert_shown<J: ServiceNames, R: Wait + time::Clock + Copy + Abort>(
    rt: &R,
    alloc: Global,
    other: &mut OwnedSession<J, R>,
    endings: &[Ending],
    shows: Shows,
) -> Result<(), Fail> {
    let expected = match shows {
        Shows::Nothing => return Ok(()),
        Shows::Last => last_of(alloc, endings)?,
        Shows::Swept => {
            sweep(rt, other)?;
            format!(in alloc; "Ash at {T}")?
        }
    };
    let shown = answer_to(rt, alloc, &mut other.session, Read("bo@users", "picture/0"));
    assert_eq!(rt; word_of(retitled(alloc, other, "Fir")), "committed");
    same(rt, shown, expected.as_str())
}

/// All sessions of the queue are answered in time, as the case has it, and end.
fn assert_ended<
    J: ServiceNames + Send + 'static,
    R: Threads + Wait + time::Clock + Abort + Copy + Send + 'static,
>(rt: &R, alloc: Global, queue: Queue<J, R>, case: Case, progress: &Progress) -> Result<(), Fail> {
    let is_quiet = queue.is_quiet;
    let (mut other, relaying, handles) = queue.into_parts();
    go_on(rt, alloc, &mut other, case, progress);
    // Who isn't answered can't be joined.
    assert!(rt; !progress.has_given_up(), "nobody waits in vain");
    assert!(rt; is_quiet, "those that wait send nothing");
    progress.over.store(1, Ordering::SeqCst);
    let endings = endings_of(rt, alloc, handles);
    relaying.join(rt);
    assert_endings(rt, endings.as_slice(), case);
    assert_eq!(rt;
        progress.logged.load(Ordering::SeqCst),
        case.logged,
        "entries"
    );
    assert_shown(rt, alloc, &mut other, endings.as_slice(), case.shows)
}

fn assert_by<
    J: ServiceNames + Send + 'static,
    R: Threads + Wait + time::Clock + Abort + Copy + Send + Sync + 'static,
>(rt: R, alloc: Global, opened: Opened, case: Case) -> Result<(), Fail>
    requires named { opened ≡ opened_as J.table J.terms J.policy J.list
        J.audit_ok J.audit_failed J.alarm_ok J.alarm_failed }
{
    let progress = Arc::new(alloc, Progress::new())?;
    let gate = Halting {
        progress: Arc::try_clone(&progress)?,
    };
    let log = Counted {
        progress: Arc::try_clone(&progress)?,
        most: case.most,
    };
    let service = Service::<J>::open_logged(rt, alloc, opened, gate, Some(log))?;
    let queue = whole_queue(&rt, alloc, &service, case, &progress);
    if case.fate == Fate::IsClosedBefore {
        service.close(&rt);
        return assert_ended(&rt, alloc, queue?, case, &progress);
    }
    let ended = match queue {
        Ok(queue) => assert_ended(&rt, alloc, queue, case, &progress),
        Err(refusal) => Err(refusal.into()),
    };
    let is_broken = service.has_lost_log();
    service.close(&rt);
    ended?;
    assert_eq!(rt; is_broken, case.logged > case.most, "whether it is broken");
    Ok(())
}

fn assert_case<R: Threads + Wait + time::Clock + Abort + Copy + Send + Sync + 'static>(
    rt: R,
    alloc: Global,
    case: Case,
) -> Result<(), Fail> {
    let opened = Opened::new(alloc, &opening(alloc)?, 5)?;
    assert_by::<Brand, R>(rt, alloc, opened, case)
}

/// It refuses stripes that are kept after a commit.
#[test]
fn each_is_answered_after_the_other(rt: HostRuntime) -> Result<(), Fail> {
    assert_case(rt, rt.alloc(), GOES_ON)
}

/// It refuses stripes that are kept where the service is broken, and a wait for a reply that doesn't look at that.
#[test]
fn a_service_that_breaks(rt: HostRuntime) -> Result<(), Fail> {
    assert_case(rt, rt.alloc(), BROKEN)
}

/// It refuses stripes that are kept where a Prepare can't be sent.
#[test]
fn a_client_that_goes_before_it_prepares(rt: HostRuntime) -> Result<(), Fail> {
    assert_case(rt, rt.alloc(), CUT_BEFORE_PREPARE)
}

/// It refuses stripes that are kept where a Commit can't be sent, or after an abort, and an ask that is attempted for
/// ever.
#[test]
fn a_client_that_goes_before_it_commits(rt: HostRuntime) -> Result<(), Fail> {
    assert_case(rt, rt.alloc(), CUT_BEFORE_COMMIT)
}

/// It refuses stripes that are kept where an attempt is refused.
#[test]
fn a_client_that_goes_in_the_queue(rt: HostRuntime) -> Result<(), Fail> {
    assert_case(rt, rt.alloc(), CUT_IN_QUEUE)
}

/// It refuses stripes that are kept where the service closes, and a close that waits for sessions.
#[test]
fn an_epoch_that_ends_before_the_prepare(rt: HostRuntime) -> Result<(), Fail> {
    assert_case(rt, rt.alloc(), CLOSED_BEFORE)
}

/// It refuses stripes that are kept after the last answer of an epoch.
#[test]
fn an_epoch_that_ends_after_the_commit(rt: HostRuntime) -> Result<(), Fail> {
    assert_case(rt, rt.alloc(), CLOSED_AFTER)
}
