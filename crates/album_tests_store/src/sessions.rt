//! Sessions of a running service: the answers to them, and how many messages a gate sees for these. And that sessions
//! and partitions run side by side (docs/PROTOCOL.md, "A view" and "Cuts and passes").
ghost use Rattle.std.specs.Prelude.{◌≡◌, ◌<◌};
ghost use Rattle.album_threads.specs.Opened.{opened_as};

use crate::asked::Order::{Pending, Sweep, Trim};
use crate::asked::Wish::{Read, Retitle, SetLists};
use crate::asked::{Order, Row, answer_to, assert_answers, assert_orders};
use crate::gates::{Counting, Counts, Entered, Together};
use crate::messages::{item_of, same, stamp_of};
use crate::values::{Entry, list_of, picture};
use album_access::AceType;
use album_audit::Totals;
use album_eval::Principal;
use album_items::{FirstStamps, ItemValues, Opening, Title, Value};
use album_permits::{Answer, Served};
use album_stamps::Refusal;
use album_threads::{
    Open, Opened, OwnedSession, Service, ServiceNames, Session, Visit, with_opened,
};
use album_views::{Ask, NewLists};
use std::alloc::{AllocError, Global};
use std::marker::Brand;
use std::process::Abort;
use std::sync::{Arc, Wait};
use std::test::Fail;
use std::thread::Threads;
use std::{thread, time};

/// The owner may do anything.
pub(crate) const OWNED: &[Entry] = &[(AceType::Allowed, "OWNER@", 2_032_127, 0)];

/// All others may read, and are shown the title.
pub(crate) const READABLE: &[Entry] = &[
    (AceType::Allowed, "OWNER@", 2_032_127, 0),
    (AceType::Allowed, "EVERYONE@", 129, 0),
];

pub(crate) fn list(alloc: Global, entries: &[Entry]) -> Result<Value, Refusal> {
    Ok(Value::List(list_of(alloc, entries)?))
}

/// amy's pictures at partitions 0 and 1 of three. The list of the first has these entries and is placed at partition 2,
/// and that of the second at partition 0. Group 0, which heads both, is missing and would be placed there too.
fn opening(alloc: Global, entries: &[Entry]) -> Result<Opening, Refusal> {
    let mut items = Vec::new(alloc);
    items.push((item_of("picture/0")?, picture(alloc, 0)?))?;
    items.push((item_of("picture/1")?, picture(alloc, 1)?))?;
    items.push((item_of("list/0")?, list(alloc, entries)?))?;
    items.push((item_of("list/1")?, list(alloc, OWNED)?))?;
    Ok(Opening {
        parts: 3,
        limit: 1000,
        policy: 1,
        checked: false,
        root: None,
        first: 0,
        items: ItemValues::of(items),
        stamps: FirstStamps::new(alloc),
    })
}

/// This opening, for so many sessions.
pub(crate) fn opened(alloc: Global, entries: &[Entry], sessions: u16) -> Result<Opened, Refusal>
    requires { 0 < sessions }
{
    Opened::new(alloc, &opening(alloc, entries)?, sessions)
}

pub(crate) fn read<J: ServiceNames, R: Wait + time::Clock>(
    rt: &R,
    session: &mut Session<J>,
    who: &str,
) -> Result<Answer, Refusal> {
    let principal = Principal::read(who)?;
    let object = item_of("picture/0")?;
    session.ask(rt, &principal, Ask::Read { object })
}

pub(crate) fn retitle<J: ServiceNames, R: Wait + time::Clock>(
    rt: &R,
    alloc: Global,
    session: &mut Session<J>,
    title: &str,
) -> Result<Answer, Refusal> {
    let principal = Principal::read("amy@users")?;
    let object = item_of("picture/0")?;
    let title = Title::of(alloc, title)?;
    session.ask(rt, &principal, Ask::Retitle { object, title })
}

/// The stamp at which it is written.
pub(crate) fn committed(answer: Answer) -> Result<u64, Refusal> {
    match answer {
        Answer::Committed(stamp) => Ok(stamp.value()),
        _ => Err(Refusal::Clash),
    }
}

/// A first read reads picture/0, and then with it list/0 and group/0. Nothing is pending, so only the first rounds are
/// sent.
const BEFORE: &[Row] = &[(Read("bo@users", "picture/0"), "Sea at 0", (3, 1))];

/// A retitle by another session reads all three at once, and then prepares and commits picture/0.
const MEANWHILE: &[Row] = &[
    (Retitle("picture/0", "Bay"), "committed at 65537", (4, 1)),
    (Read("amy@users", "picture/0"), "Bay at 65537", (2, 1)),
];

/// The other reads what was written, although it has heard of nothing since it read last: it asks the partitions anew.
const AFTER: &[Row] = &[(Read("bo@users", "picture/0"), "Bay at 65537", (2, 1))];

const ORDERS: &[(Order, &str)] = &[
    (Pending(0), "0 pending"),
    (Pending(3), "NoSuchPart"),
    (Sweep(0, 65537), "NotPrepared"),
    (Sweep(0, 131073), "NotPrepared"),
    (Sweep(3, 65537), "NoSuchPart"),
    (Trim(1), "Clash"),
    (Trim(3), "NoSuchPart"),
    (Trim(0), "trimmed"),
];

/// The other's write has a greater stamp than the one that it read.
const WRITTEN: &[Row] = &[(Retitle("picture/0", "Cove"), "committed at 131074", (4, 1))];

/// Two sessions get these answers, before they meet and after it.
fn both_answered<J: ServiceNames, R: Wait + time::Clock + Abort>(
    rt: &R,
    alloc: Global,
    counts: &Counts,
    one: &mut Session<J>,
    two: &mut Session<J>,
) -> Result<(), Fail> {
    assert_answers(rt, alloc, two, counts, BEFORE)?;
    assert_answers(rt, alloc, one, counts, MEANWHILE)?;
    assert_answers(rt, alloc, two, counts, AFTER)?;
    one.meet(two);
    assert_answers(rt, alloc, two, counts, AFTER)?;
    assert_orders(rt, alloc, two, counts, ORDERS)?;
    assert_answers(rt, alloc, two, counts, AFTER)?;
    assert_answers(rt, alloc, two, counts, WRITTEN)
}

/// A visit of two sessions, while the gate counts. Their numbers are 1 and 2, there is no third, and they get the
/// answers above.
#[derive(Drop)]
struct Two {
    counts: Arc<Counts, Global>,
}

impl<R: Wait + time::Clock + Abort + Copy> Visit<R> for Two {
    type Answer = Result<(), Fail>;

    fn visit<J: ServiceNames + Send + Sync>(
        self,
        rt: &R,
        alloc: Global,
        service: &Service<J>,
    ) -> Result<(), Fail> {
        let mut one = OwnedSession::begin(rt, service)?;
        let mut two = OwnedSession::begin(rt, service)?;
        let numbers = (one.session.client().number(), two.session.client().number());
        assert_eq!(rt; numbers, (1, 2));
        assert_eq!(rt;
            OwnedSession::begin(rt, service).err(),
            Some(Refusal::SessionsSpent)
        );
        both_answered(rt, alloc, &self.counts, &mut one.session, &mut two.session)
    }
}

/// What one session writes another reads, and each read and write takes exactly its messages.
#[test]
fn two_sessions(rt: HostRuntime) -> Result<(), Fail> {
    let opened = opened(rt.alloc(), READABLE, 2)?;
    let counts = Arc::new(rt.alloc(), Counts::new())?;
    let gate = Counting {
        counts: Arc::try_clone(&counts)?,
    };
    with_opened(rt, rt.alloc(), opened, gate, Two { counts })?
}

/// The number of the refusal, or 0.
fn refused<T: Drop>(given: Result<T, Refusal>) -> u8 {
    match given {
        Ok(_) => 0,
        Err(refusal) => refusal.number(),
    }
}

/// The refusal of bo's ask that names no object.
fn refused_without_object<J: ServiceNames, R: Wait + time::Clock>(
    rt: &R,
    alloc: Global,
    session: &mut Session<J>,
) -> Result<u8, Refusal> {
    let principal = Principal::read("bo@users")?;
    let lists = NewLists::of(Vec::new(alloc));
    Ok(refused(session.ask(rt, &principal, Ask::SetLists { lists })))
}

/// The refusals of the session's asks, one after another: to read twice, and one without an object.
fn refused_asks<J: ServiceNames, R: Wait + time::Clock>(
    rt: &R,
    alloc: Global,
    session: &mut Session<J>,
) -> Result<[u8; 3], Refusal> {
    let first = refused(read(rt, session, "bo@users"));
    let second = refused(read(rt, session, "bo@users"));
    Ok([first, second, refused_without_object(rt, alloc, session)?])
}

/// The same of control requests: to a partition that there isn't; what is pending; to sweep a stamp that isn't pending;
/// and to trim an item at another partition than its own.
fn refused_controls<J: ServiceNames, R: Wait + time::Clock>(
    rt: &R,
    session: &mut Session<J>,
) -> Result<[u8; 4], Refusal> {
    let (stamp, item) = (stamp_of(65_537)?, item_of("picture/1")?);
    let nowhere = refused(session.trim(rt, 3, item));
    let pending = refused(session.pending(rt, 0));
    let swept = refused(session.sweep(rt, 0, stamp));
    Ok([nowhere, pending, swept, refused(session.trim(rt, 0, item))])
}

fn refused_all<J: ServiceNames, R: Wait + time::Clock + Copy>(
    rt: &R,
    alloc: Global,
    mut owned: OwnedSession<J, R>,
) -> Result<([u8; 3], [u8; 4]), Refusal> {
    let asks = refused_asks(rt, alloc, &mut owned.session)?;
    Ok((asks, refused_controls(rt, &mut owned.session)?))
}

/// The refusals that a session gets once the service is closed.
fn closed_on<
    J: ServiceNames + Send + 'static,
    R: Threads + Wait + time::Clock + Copy + Send + 'static,
>(rt: R, alloc: Global, opened: Opened) -> Result<([u8; 3], [u8; 4]), Refusal>
    requires named { opened ≡ opened_as J.table J.terms J.policy J.list
        J.audit_ok J.audit_failed J.alarm_ok J.alarm_failed }
{
    let service = Service::<J>::open(rt, alloc, opened, Open)?;
    let owned = OwnedSession::begin(&rt, &service);
    service.close(&rt);
    refused_all(&rt, alloc, owned?)
}

fn refused_once_closed<R: Threads + Wait + time::Clock + Copy + Send + 'static>(
    rt: R,
    alloc: Global,
) -> Result<([u8; 3], [u8; 4]), Refusal> {
    let opened = opened(alloc, READABLE, 1)?;
    closed_on::<Brand, R>(rt, alloc, opened)
}

/// A session outlives its service, and is refused `Closed` (21): after what its ask lacks (3), and after a partition
/// that there isn't (23), but before what a partition would refuse.
#[test]
fn a_closed_service(rt: HostRuntime) {
    let refused = refused_once_closed(rt, rt.alloc());
    assert_eq!(rt; refused, Ok(([21, 21, 3], [23, 21, 21, 21])));
}

/// A visit of a session in which amy sets both lists; the answer to her.
#[derive(Drop)]
struct SetBoth;

impl<R: Wait + time::Clock + Abort + Copy> Visit<R> for SetBoth {
    type Answer = Result<String, Refusal>;

    fn visit<J: ServiceNames + Send + Sync>(
        self,
        rt: &R,
        alloc: Global,
        service: &Service<J>,
    ) -> Result<String, Refusal> {
        let mut owned = OwnedSession::begin(rt, service)?;
        answer_to(rt, alloc, &mut owned.session, SetLists)
    }
}

/// A session sends to both partitions before it waits for either, and each works on a thread of its own.
#[test]
fn two_partitions_at_once(rt: HostRuntime) -> Result<(), Fail> {
    let opened = opened(rt.alloc(), OWNED, 1)?;
    let entered = Arc::new(rt.alloc(), Entered::new())?;
    let gate = Together {
        entered: Arc::try_clone(&entered)?,
    };
    let given = with_opened(rt, rt.alloc(), opened, gate, SetBoth)?;
    same(&rt, given, "committed at 65537")?;
    assert!(rt; entered.at_once(), "in their first messages at once");
    Ok(())
}

/// What writes attributes and is granted is audited.
const AUDITED: &[Entry] = &[
    (AceType::Audit, "EVERYONE@", 256, 16),
    (AceType::Allowed, "OWNER@", 2_032_127, 0),
];

/// The stamp of the picture that is served.
pub(crate) fn stamp_served(answer: &Answer) -> Result<u64, Refusal> {
    match answer {
        Answer::Served(
            Served::Picture {
                object: _,
                stamp,
                title: _,
                content: _,
            },
        ) => { Ok(stamp.value()) }
        _ => Err(Refusal::Clash),
    }
}

/// Retitles picture/0 so often; the greatest stamp of them.
fn retitle_often<J: ServiceNames, R: Wait + time::Clock>(
    rt: &R,
    alloc: Global,
    session: &mut Session<J>,
) -> Result<u64, Refusal> {
    let mut greatest = 0;
    for _ in 0..25u32 {
        let stamp = committed(retitle(rt, alloc, session, "Bay")?)?;
        greatest = stamp.max(greatest);
    }
    Ok(greatest)
}

/// A session that retitled, and the greatest stamp of it.
#[derive(Drop)]
struct Retitled<J: ServiceNames, R: Wait + Copy> {
    owned: OwnedSession<J, R>,
    greatest: Result<u64, Refusal>,
}

fn retitle_all<J: ServiceNames, R: Wait + time::Clock + Copy>(
    alloc: Global,
    mut owned: OwnedSession<J, R>,
) -> Retitled<J, R> {
    let rt = owned.rt;
    let greatest = retitle_often(&rt, alloc, &mut owned.session);
    Retitled { owned, greatest }
}

/// The one session, once it met the other, and the greatest stamp of both.
fn met<J: ServiceNames, R: Wait + time::Clock + Copy>(
    mut one: Retitled<J, R>,
    mut other: Retitled<J, R>,
) -> Retitled<J, R> {
    one.owned.session.meet(&mut other.owned.session);
    one.greatest = greater(one.greatest, other.greatest);
    one
}

fn greater(one: Result<u64, Refusal>, other: Result<u64, Refusal>) -> Result<u64, Refusal> {
    Ok(one?.max(other?))
}

/// Four sessions, each on a thread of its own, retitle picture/0 so often. The first, once it met the others, and the
/// greatest stamp of all.
fn retitled_at_once<J: ServiceNames + Send, R: Threads + Wait + time::Clock + Copy + Send + Sync>(
    rt: &R,
    alloc: Global,
    one: OwnedSession<J, R>,
    two: OwnedSession<J, R>,
    three: OwnedSession<J, R>,
    four: OwnedSession<J, R>,
) -> Result<Retitled<J, R>, AllocError> {
    thread::scope(
        thread::scope_env(),
        rt,
        |scope| -> Result<Retitled<J, R>, AllocError> {
            let one = scope.spawn(move || retitle_all(alloc, one))?;
            let two = scope.spawn(move || retitle_all(alloc, two))?;
            let three = scope.spawn(move || retitle_all(alloc, three))?;
            let four = scope.spawn(move || retitle_all(alloc, four))?;
            let left = met(one.join(rt), two.join(rt));
            Ok(met(met(left, three.join(rt)), four.join(rt)))
        },
    )
}

/// Whether the first of four sessions, once it met the others, reads picture/0 at the greatest stamp at which they
/// retitled it, and what the audit book has then.
fn four_retitled<J: ServiceNames + Send, R: Threads + Wait + time::Clock + Copy + Send + Sync>(
    rt: &R,
    alloc: Global,
    service: &Service<J>,
) -> Result<(bool, Totals), Refusal> {
    let (one, two) = (
        OwnedSession::begin(rt, service)?,
        OwnedSession::begin(rt, service)?,
    );
    let (three, four) = (
        OwnedSession::begin(rt, service)?,
        OwnedSession::begin(rt, service)?,
    );
    let Retitled {
        mut owned,
        greatest,
    } = retitled_at_once(rt, alloc, one, two, three, four)?;
    let stamp = stamp_served(&read(rt, &mut owned.session, "amy@users")?)?;
    Ok((stamp == greatest?, service.totals(rt)))
}

/// What four sessions read and what the audit book has, before they end and as the service is closed. It is no visit,
/// since a visit can't start threads.
fn four_over<
    J: ServiceNames + Send + 'static,
    R: Threads + Wait + time::Clock + Copy + Send + Sync + 'static,
>(rt: R, alloc: Global, opened: Opened) -> Result<(bool, Totals, Totals), Refusal>
    requires named { opened ≡ opened_as J.table J.terms J.policy J.list
        J.audit_ok J.audit_failed J.alarm_ok J.alarm_failed }
{
    let service = Service::<J>::open(rt, alloc, opened, Open)?;
    let retitled = four_retitled(&rt, alloc, &service);
    let closed = service.close(&rt);
    let (is_greatest, totals) = retitled?;
    Ok((is_greatest, totals, closed))
}

fn hundred_retitled<R: Threads + Wait + time::Clock + Copy + Send + Sync + 'static>(
    rt: R,
    alloc: Global,
) -> Result<(bool, Totals, Totals), Refusal> {
    let opened = opened(alloc, AUDITED, 4)?;
    four_over::<Brand, R>(rt, alloc, opened)
}

/// Four sessions retitle a picture at once, each 25 times. Each retitle is committed, and audited once.
#[test]
fn four_sessions_at_once(rt: HostRuntime) {
    let audited = Totals {
        audit_ok: 100,
        audit_failed: 0,
        alarm_ok: 0,
        alarm_failed: 0,
    };
    assert_eq!(rt;
        hundred_retitled(rt, rt.alloc()),
        Ok((true, audited, audited))
    );
}
