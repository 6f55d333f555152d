//! A write that is committed between the two rounds of a read: the read is of what was before (docs/PROTOCOL.md, "A
//! service").
ghost use Rattle.std.specs.Prelude.{◌≡◌};
ghost use Rattle.album_threads.specs.Opened.{opened_as};

use crate::asked::Wish::{Read, Retitle};
use crate::asked::answer_to;
use crate::gates::{Overtakes, Overtaking};
use crate::messages::same;
use crate::sessions::{READABLE, opened};
use album_stamps::Refusal;
use album_threads::{Opened, OwnedSession, Service, ServiceNames};
use std::alloc::{AllocError, Global};
use std::marker::Brand;
use std::sync::{Arc, Wait};
use std::test::Fail;
use std::thread::Threads;
use std::{thread, time};

/// The answer to amy, who gives a new title.
fn retitled<J: ServiceNames, R: Wait + time::Clock + Copy>(
    alloc: Global,
    mut amy: OwnedSession<J, R>,
) -> Result<String, Refusal> {
    let rt = amy.rt;
    answer_to(&rt, alloc, &mut amy.session, Retitle("picture/0", "Bay"))
}

/// The answer to bo, who reads once amy's last read is held.
fn served<J: ServiceNames, R: Wait + time::Clock + Copy>(
    alloc: Global,
    mut bo: OwnedSession<J, R>,
    overtakes: &Overtakes,
) -> Result<String, Refusal> {
    let rt = bo.rt;
    overtakes.wait_for_amy();
    answer_to(&rt, alloc, &mut bo.session, Read("bo@users", "picture/0"))
}

/// The answers to both, each on a thread of its own.
#[derive(Drop)]
struct Both {
    amy: Result<String, Refusal>,
    bo: Result<String, Refusal>,
}

fn both_ask<J: ServiceNames + Send, R: Threads + Wait + time::Clock + Copy + Send + Sync>(
    rt: &R,
    alloc: Global,
    overtakes: &Overtakes,
    amy: OwnedSession<J, R>,
    bo: OwnedSession<J, R>,
) -> Result<Both, AllocError> {
    thread::scope(
        thread::scope_env(),
        rt,
        |scope| -> Result<Both, AllocError> {
            let amy = scope.spawn(move || retitled(alloc, amy))?;
            let bo = scope.spawn(move || served(alloc, bo, overtakes))?;
            Ok(Both {
                amy: amy.join(rt),
                bo: bo.join(rt),
            })
        },
    )
}

fn new_both<J: ServiceNames + Send, R: Threads + Wait + time::Clock + Copy + Send + Sync>(
    rt: &R,
    alloc: Global,
    overtakes: &Overtakes,
    service: &Service<J>,
) -> Result<Both, Refusal> {
    let amy = OwnedSession::begin(rt, service)?;
    let bo = OwnedSession::begin(rt, service)?;
    Ok(both_ask(rt, alloc, overtakes, amy, bo)?)
}

fn both_over<
    J: ServiceNames + Send + 'static,
    R: Threads + Wait + time::Clock + Copy + Send + Sync + 'static,
>(rt: R, alloc: Global, opened: Opened) -> Result<Both, Refusal>
    requires named { opened ≡ opened_as J.table J.terms J.policy J.list
        J.audit_ok J.audit_failed J.alarm_ok J.alarm_failed }
{
    let overtakes = Arc::new(alloc, Overtakes::new())?;
    let gate = Overtaking {
        overtakes: Arc::try_clone(&overtakes)?,
    };
    let service = Service::<J>::open(rt, alloc, opened, gate)?;
    let both = new_both(&rt, alloc, &overtakes, &service);
    service.close(&rt);
    let both = both?;
    if overtakes.has_given_up() {
        return Err(Refusal::Closed);
    }
    Ok(both)
}

fn retitled_between_rounds<R: Threads + Wait + time::Clock + Copy + Send + Sync + 'static>(
    rt: R,
    alloc: Global,
) -> Result<Both, Refusal> {
    let opened = opened(alloc, READABLE, 2)?.plain();
    both_over::<Brand, R>(rt, alloc, opened)
}

/// amy's title is committed between the two rounds of bo's last read. So the picture's partition has a newer version in
/// the second round. By what bo's session had seen as that round began, it had none. So the read counts, and isn't made
/// anew: he is served the title of before.
#[test]
fn a_commit_between_the_rounds_of_a_read(rt: HostRuntime) -> Result<(), Fail> {
    let Both { amy, bo } = retitled_between_rounds(rt, rt.alloc())?;
    same(&rt, amy, "committed at 65537")?;
    same(&rt, bo, "Sea at 0")
}
