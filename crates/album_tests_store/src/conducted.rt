//! A service in which what happens is conducted, move by move: two sessions ask on threads of their own, and each
//! partition is held at its gate until it is its turn.
ghost use Rattle.std.specs.Prelude.{◌≡◌};
ghost use Rattle.album_threads.specs.Opened.{opened_as};

use crate::answers::{AllAnswers, ClientAnswers};
use crate::doors::{Doors, Held};
use crate::mails::Move;
use crate::scripts::{Who, Wish, ask_of, opening};
use album_audit::Totals;
use album_stamps::Refusal;
use album_threads::{Opened, OwnedSession, Service, ServiceNames};
use std::alloc::{AllocError, Global};
use std::marker::Brand;
use std::sync::atomic::Ordering;
use std::sync::{Arc, Wait};
use std::thread::Threads;
use std::{thread, time};

/// Makes the move. `Take` waits until the messages are done, and `Await` until the next one is at the partition.
fn make(doors: &Doors, step: Move) {
    match step {
        Move::Ask(who) => {
            doors.asks(who).fetch_add(1, Ordering::SeqCst);
        }
        Move::Take(part, count) => {
            let door = doors.door(part);
            door.open.store(count, Ordering::SeqCst);
            doors.wait(&door.done, count);
        }
        Move::Await(part, count) => {
            doors.wait(&doors.door(part).come, count.wrapping_add(1));
        }
    }
}

fn make_all(doors: &Doors, moves: &[Move]) {
    for step in moves {
        make(doors, *step);
    }
}

/// The session asks for the wish, and the answer is added.
fn ask<J: ServiceNames, R: Wait + time::Clock + Copy>(
    alloc: Global,
    owned: &mut OwnedSession<J, R>,
    who: Who,
    wish: Wish,
    answers: &mut ClientAnswers,
) -> Result<(), Refusal> {
    let rt = owned.rt;
    let principal = who.principal()?;
    let ask = ask_of(alloc, wish)?;
    let answer = owned.session.ask(&rt, &principal, ask)?;
    let added = answers.add(&answer);
    drop(answer);
    added
}

/// The answers to the session for all its wishes. It asks for each once it is time.
fn ask_all<J: ServiceNames, R: Wait + time::Clock + Copy>(
    alloc: Global,
    mut owned: OwnedSession<J, R>,
    doors: &Doors,
    who: Who,
) -> Result<ClientAnswers, Refusal> {
    let mut answers = ClientAnswers::new(alloc);
    let mut count: u64 = 0;
    for wish in who.wishes() {
        count = count.wrapping_add(1);
        doors.wait(doors.asks(who), count);
        ask(alloc, &mut owned, who, *wish, &mut answers)?;
    }
    Ok(answers)
}

/// The answers to two sessions.
#[derive(Drop)]
struct Both {
    amy: Result<ClientAnswers, Refusal>,
    bo: Result<ClientAnswers, Refusal>,
}

/// Two sessions ask on threads of their own, while the moves are made.
fn both_ask<J: ServiceNames + Send, R: Threads + Wait + time::Clock + Copy + Send + Sync>(
    rt: &R,
    alloc: Global,
    doors: &Doors,
    moves: &[Move],
    amy: OwnedSession<J, R>,
    bo: OwnedSession<J, R>,
) -> Result<Both, AllocError> {
    thread::scope(
        thread::scope_env(),
        rt,
        |scope| -> Result<Both, AllocError> {
            let amy = scope.spawn(move || ask_all(alloc, amy, doors, Who::Amy))?;
            let bo = scope.spawn(move || ask_all(alloc, bo, doors, Who::Bo))?;
            make_all(doors, moves);
            Ok(Both {
                amy: amy.join(rt),
                bo: bo.join(rt),
            })
        },
    )
}

/// The answers to two new sessions.
fn new_ask<J: ServiceNames + Send, R: Threads + Wait + time::Clock + Copy + Send + Sync>(
    rt: &R,
    alloc: Global,
    service: &Service<J>,
    doors: &Doors,
    moves: &[Move],
) -> Result<Both, Refusal> {
    let amy = OwnedSession::begin(rt, service)?;
    let bo = OwnedSession::begin(rt, service)?;
    Ok(both_ask(rt, alloc, doors, moves, amy, bo)?)
}

/// The answers to both, and what the audit book has, where nobody gave up waiting.
fn all_answers(both: Both, totals: Totals, doors: &Doors) -> Result<AllAnswers, Refusal> {
    let Both { amy, bo } = both;
    let (amy, bo) = (amy?, bo?);
    if doors.has_given_up() {
        return Err(Refusal::Closed);
    }
    Ok(AllAnswers {
        amy,
        bo,
        granted: totals.audit_ok,
        denied: totals.audit_failed,
    })
}

fn conduct_by<
    J: ServiceNames + Send + 'static,
    R: Threads + Wait + time::Clock + Copy + Send + Sync + 'static,
>(rt: R, alloc: Global, opened: Opened, moves: &[Move]) -> Result<AllAnswers, Refusal>
    requires named { opened ≡ opened_as J.table J.terms J.policy J.list
        J.audit_ok J.audit_failed J.alarm_ok J.alarm_failed }
{
    let doors = Arc::new(alloc, Doors::new())?;
    let gate = Held {
        doors: Arc::try_clone(&doors)?,
    };
    let service = Service::<J>::open(rt, alloc, opened, gate)?;
    let both = new_ask(&rt, alloc, &service, &doors, moves);
    let totals = service.close(&rt);
    all_answers(both?, totals, &doors)
}

/// The answers to two sessions of a service in which the moves are made, and what its audit book has.
pub fn conduct<R: Threads + Wait + time::Clock + Copy + Send + Sync + 'static>(
    rt: R,
    alloc: Global,
    moves: &[Move],
) -> Result<AllAnswers, Refusal> {
    let opened = Opened::new(alloc, &opening(alloc)?, 2)?.plain();
    conduct_by::<Brand, R>(rt, alloc, opened, moves)
}
