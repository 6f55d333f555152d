//! `converse` over readers and writers that give and take little, or fail, and with one who waits for each answer: one
//! session talks again and again.
ghost use Rattle.std.specs.Prelude.{◌≡◌};
ghost use Rattle.album_threads.specs.Opened.{opened_as};

use crate::runs::{Engine, Script, assert_kept};
use crate::streams::{Counted, Pieces, Taking, Waiting};
use album_items::{FirstStamps, ItemValues, Opening};
use album_judge::Fault;
use album_stamps::Refusal;
use album_talk::converse;
use album_threads::{Open, Opened, Service, ServiceNames, Session};
use std::alloc::Global;
use std::marker::Brand;
use std::process::Abort;
use std::sync::atomic::AtomicU64;
use std::sync::{Arc, Wait};
use std::thread::Threads;
use std::time;

struct Talking<J: ServiceNames, R: Wait + Copy> {
    rt: R,
    session: Session<J>,
}

impl<J: ServiceNames, R: Wait + time::Clock + Copy> Engine for Talking<J, R> {
    fn run(
        &mut self,
        alloc: Global,
        reader: &mut Pieces,
        writer: &mut Taking,
        turns: u64,
    ) -> Result<(), Fault> {
        converse(&self.rt, alloc, reader, writer, &mut self.session, turns)
    }
}

/// A hello, blank lines, an ask, what is pending, a partition that is not there, and the beginning of a line.
const TALK: Script = Script {
    input: "{\"who\":\"bo@users\"}\r\n \t\r\n\n\
        {\"ask\":{\"do\":\"read\",\"object\":\"picture/0\"}}\n\
        {\"pending\":0}\n{\"pending\":3}\n\
        {\"ask\":",
    output: "{\"answer\":\"hello\",\"client\":1}\n\
        {\"answer\":\"missing\",\"client\":1,\"object\":\"picture/0\"}\n\
        {\"answer\":\"pending\",\"stamps\":[]}\n{\"name\":\"NoSuchPart\",\"refused\":23}\n\
        {\"name\":\"BadLine\",\"refused\":2}\n",
    ends: &[(20, 30), (68, 83), (82, 116), (96, 151)],
    writes: &[30, 53, 33, 35, 31],
};

/// A service of two partitions with nothing in them, for one session.
fn opened(alloc: Global) -> Result<Opened, Refusal> {
    let opening = Opening {
        parts: 2,
        limit: 1000,
        policy: 1,
        checked: false,
        root: None,
        first: 0,
        items: ItemValues::of(Vec::new(alloc)),
        stamps: FirstStamps::new(alloc),
    };
    Opened::new(alloc, &opening, 1)
}

/// What is said by one who waits for each answer.
const WAITED: &[&str] = &[
    "{\"who\":\"bo@users\"}\n",
    "{\"pending\":0}\n",
    "{\"pending\":3}\n",
    "{\"ask\":\n",
];

/// How the talk with one ends who waits for each answer.
fn waited_for<J: ServiceNames, R: Wait + time::Clock>(
    rt: &R,
    alloc: Global,
    session: &mut Session<J>,
) -> Result<Option<Fault>, Refusal> {
    let answered = Arc::new(alloc, AtomicU64::new(0))?;
    let mut writer = Counted {
        answered: Arc::try_clone(&answered)?,
    };
    let mut reader = Waiting {
        lines: WAITED,
        given: 0,
        answered,
    };
    let done = converse(rt, alloc, &mut reader, &mut writer, session, 100);
    Ok(done.err())
}

/// The session talks.
fn assert_talks<J: ServiceNames, R: Wait + time::Clock + Abort + Copy>(
    rt: &R,
    alloc: Global,
    service: &Service<J>,
) -> Result<(), Refusal> {
    let session = service.session(rt)?;
    let mut talking = Talking { rt: *rt, session };
    assert_kept(rt, &mut talking, alloc, &TALK);
    let Talking { rt: _, mut session } = talking;
    assert_eq!(rt; waited_for(rt, alloc, &mut session), Ok(None));
    session.end(rt);
    Ok(())
}

fn talks_over<
    J: ServiceNames + Send + 'static,
    R: Threads + Wait + time::Clock + Abort + Copy + Send + 'static,
>(rt: R, alloc: Global, opened: Opened) -> Result<(), Refusal>
    requires named { opened ≡ opened_as J.table J.terms J.policy J.list
        J.audit_ok J.audit_failed J.alarm_ok J.alarm_failed }
{
    let service = Service::<J>::open(rt, alloc, opened, Open)?;
    let talked = assert_talks(&rt, alloc, &service);
    service.close(&rt);
    talked
}

fn talks_alone<R: Threads + Wait + time::Clock + Abort + Copy + Send + 'static>(
    rt: R,
    alloc: Global,
) -> Result<(), Refusal> {
    let opened = opened(alloc)?;
    talks_over::<Brand, R>(rt, alloc, opened)
}

#[test]
fn talks(rt: HostRuntime) {
    assert_eq!(rt; talks_alone(rt, rt.alloc()), Ok(()));
}
