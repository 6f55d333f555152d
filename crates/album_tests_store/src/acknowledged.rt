//! Requests in the order of the board: what one session was answered, a later request of another has seen
//! (docs/PROTOCOL.md, "The board").
use crate::messages::item_of;
use crate::sessions::{READABLE, opened, stamp_served};
use album_eval::Principal;
use album_items::Title;
use album_permits::Answer;
use album_stamps::Refusal;
use album_threads::{
    Acknowledged, Open, OwnedSession, Service, ServiceNames, Session, Visit,
    acknowledged_is_visible, with_opened,
};
use album_views::Ask;
use std::alloc::Global;
use std::process::Abort;
use std::sync::Wait;
use std::test::Fail;
use std::time;

/// How much was published before a request began, and before it was answered; and the stamp that its answer has.
type Row = (u64, u64, u64);

fn row_of<J: ServiceNames>(given: &Acknowledged<J>, stamp: u64) -> Row {
    (given.listened.number(), given.published.number(), stamp)
}

/// amy gives picture/0 a title.
fn retitle<J: ServiceNames, R: Wait + time::Clock>(
    rt: &R,
    alloc: Global,
    session: &mut Session<J>,
) -> Result<Acknowledged<J>, Refusal> {
    let principal = Principal::read("amy@users")?;
    let object = item_of("picture/0")?;
    let title = Title::of(alloc, "Bay")?;
    session.ask_in_order(rt, &principal, Ask::Retitle { object, title })
}

/// bo reads it.
fn read<J: ServiceNames, R: Wait + time::Clock>(
    rt: &R,
    session: &mut Session<J>,
) -> Result<Acknowledged<J>, Refusal> {
    let principal = Principal::read("bo@users")?;
    let object = item_of("picture/0")?;
    session.ask_in_order(rt, &principal, Ask::Read { object })
}

/// The stamp at which a picture is written or was read.
fn stamp_in(answer: &Answer) -> Result<u64, Refusal> {
    match answer {
        Answer::Committed(stamp) => Ok(stamp.value()),
        _ => stamp_served(answer),
    }
}

/// What amy's session is answered, and then bo's.
fn one_after_the_other<J: ServiceNames, R: Wait + time::Clock>(
    rt: &R,
    alloc: Global,
    one: &mut Session<J>,
    two: &mut Session<J>,
) -> Result<(Row, Row), Refusal> {
    let first = retitle(rt, alloc, one)?;
    let second = read(rt, two)?;
    acknowledged_is_visible(&first, &second);
    let (wrote, read) = (stamp_in(&first.answer)?, stamp_in(&second.answer)?);
    Ok((row_of(&first, wrote), row_of(&second, read)))
}

/// A visit of two sessions, which never meet.
#[derive(Drop)]
struct InTurn;

impl<R: Wait + time::Clock + Abort + Copy> Visit<R> for InTurn {
    type Answer = Result<(Row, Row), Refusal>;

    fn visit<J: ServiceNames + Send + Sync>(
        self,
        rt: &R,
        alloc: Global,
        service: &Service<J>,
    ) -> Result<(Row, Row), Refusal> {
        let mut one = OwnedSession::begin(rt, service)?;
        let mut two = OwnedSession::begin(rt, service)?;
        one_after_the_other(rt, alloc, &mut one.session, &mut two.session)
    }
}

const T: u64 = 65_537; // counter 1 of client 1

/// The second request has listened to one publication, the first one's, and reads what that wrote.
#[test]
fn the_next_request_has_listened(rt: HostRuntime) -> Result<(), Fail> {
    let opened = opened(rt.alloc(), READABLE, 2)?;

    let rows = with_opened(rt, rt.alloc(), opened, Open, InTurn)?;

    assert_eq!(rt; rows, Ok(((0, 0, T), (1, 1, T))));
    Ok(())
}
