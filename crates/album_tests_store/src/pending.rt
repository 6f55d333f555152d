//! A read while a write is pending: it asks in both rounds, though its service is not a plain one, and shows what is
//! committed (docs/PROTOCOL.md, "A service").
ghost use Rattle.std.specs.Prelude.{◌≡◌};
ghost use Rattle.album_threads.specs.Opened.{opened_as};

use crate::asked::Wish::{Read, Retitle, SetLists};
use crate::asked::{Row, answer_to, assert_answers};
use crate::gates::{Hold, Holding};
use crate::messages::same;
use crate::sessions::{READABLE, opened};
use album_stamps::Refusal;
use album_threads::{Opened, OwnedSession, Service, ServiceNames};
use std::alloc::{AllocError, Global};
use std::marker::Brand;
use std::process::Abort;
use std::sync::{Arc, Wait};
use std::test::Fail;
use std::thread::{Threads, spawn};
use std::time;

/// amy's two lists are prepared at partition 0, at 65537, and partition 2 is held. The new title takes no second round:
/// all that is read for it is at 0, which is below what is pending. bo reads that title, at 65538, and by it can't know
/// what list/1 was at that stamp. So he asks for it and for the group once more, and is denied by the list of before.
const PENDING: &[Row] = &[
    (Retitle("picture/1", "Bay"), "committed at 65538", (2, 0)),
    (
        Read("bo@users", "picture/1"),
        "denied picture/1 at the end",
        (4, 0),
    ),
];

/// Once the lists are committed, nothing is pending: one round is enough.
const COMMITTED: &[Row] = &[(Read("bo@users", "picture/1"), "Bay at 65538", (2, 0))];

/// The answer to amy, whose lists are set.
fn lists_set<J: ServiceNames, R: Wait + time::Clock + Copy>(
    alloc: Global,
    mut amy: OwnedSession<J, R>,
) -> Result<String, Refusal> {
    let rt = amy.rt;
    answer_to(&rt, alloc, &mut amy.session, SetLists)
}

/// The answer to amy, and whether the other session gets its answers while her lists are pending.
struct Both {
    amy: Result<String, Refusal>,
    other: Result<(), Fail>,
}

/// amy's lists are prepared by the messages 0 to 4 of partition 0: picture/0; it, list/1 and the group; and Prepare. At
/// partition 2 the Prepare is the message 1, after list/0.
fn both_answered<
    J: ServiceNames + Send + 'static,
    R: Threads + Wait + time::Clock + Abort + Copy + Send + 'static,
>(
    rt: &R,
    alloc: Global,
    hold: &Hold,
    amy: OwnedSession<J, R>,
    other: &mut OwnedSession<J, R>,
) -> Result<Both, AllocError> {
    let Ok(amy) = spawn(rt, move || lists_set(alloc, amy)) else {
        return Err(AllocError);
    };
    hold.wait_for(5, 2);
    let answered = assert_answers(rt, alloc, &mut other.session, &hold.counts, PENDING);
    hold.release();
    Ok(Both {
        amy: amy.join(rt),
        other: answered,
    })
}

fn assert_all<
    J: ServiceNames + Send + 'static,
    R: Threads + Wait + time::Clock + Abort + Copy + Send + 'static,
>(rt: &R, alloc: Global, hold: &Hold, service: &Service<J>) -> Result<(), Fail> {
    let amy = OwnedSession::begin(rt, service)?;
    let mut owned = OwnedSession::begin(rt, service)?;
    let Both { amy, other } = both_answered(rt, alloc, hold, amy, &mut owned)?;
    other?;
    same(rt, amy, "committed at 65537")?;
    assert_answers(rt, alloc, &mut owned.session, &hold.counts, COMMITTED)
}

fn assert_by<
    J: ServiceNames + Send + 'static,
    R: Threads + Wait + time::Clock + Abort + Copy + Send + 'static,
>(rt: R, alloc: Global, opened: Opened) -> Result<(), Fail>
    requires named { opened ≡ opened_as J.table J.terms J.policy J.list
        J.audit_ok J.audit_failed J.alarm_ok J.alarm_failed }
{
    let hold = Arc::new(alloc, Hold::new())?;
    let gate = Holding {
        hold: Arc::try_clone(&hold)?,
    };
    let service = Service::<J>::open(rt, alloc, opened, gate)?;
    let answered = assert_all(&rt, alloc, &hold, &service);
    service.close(&rt);
    answered?;
    assert!(rt; !hold.has_given_up(), "nobody waits in vain");
    Ok(())
}

fn assert_while_pending<R: Threads + Wait + time::Clock + Abort + Copy + Send + 'static>(
    rt: R,
    alloc: Global,
) -> Result<(), Fail> {
    let opened = opened(alloc, READABLE, 2)?;
    assert_by::<Brand, R>(rt, alloc, opened)
}

#[test]
fn a_read_while_a_write_is_pending(rt: HostRuntime) -> Result<(), Fail> {
    assert_while_pending(rt, rt.alloc())
}
