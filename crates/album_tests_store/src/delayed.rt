//! Mails that are held on their way from a session to a partition, as in a network: a read that is under way while a
//! list and its group change, a write that is committed at one partition and not yet at another, and a write that comes
//! when another has been committed (docs/PROTOCOL.md, "Settling", "Causality" and "Attempts").
ghost use Rattle.std.specs.Prelude.{◌≡◌};
ghost use Rattle.album_threads.specs.Opened.{opened_as};

// Sessions that wait while a mail of another one is held.
mod queued;

use crate::asked::Wish::{Add, List, Read, Retitle, SetList, SetLists, SetMembers};
use crate::asked::{Wish, answer_to, member};
use crate::gates::{Hold, Watching};
use crate::messages::{item_of, same};
use crate::sessions::{OWNED, list};
use crate::values::{Entry, album_of_two, head, picture};
use album_access::AceType;
use album_items::{FirstStamps, Group, ItemValues, Opening, Value};
use album_stamps::Refusal;
use album_threads::{Opened, OwnedSession, PartitionMail, Service, ServiceNames};
use crossbeam_channel::{Receiver, Sender, unbounded};
use std::alloc::{AllocError, Global};
use std::marker::Brand;
use std::process::Abort;
use std::sync::{Arc, Wait};
use std::test::Fail;
use std::thread::Threads;
use std::{thread, time};

/// The members of group/7 may read, and are shown the title.
const SHARED: &[Entry] = &[
    (AceType::Allowed, "OWNER@", 2_032_127, 0),
    (AceType::Allowed, "7@groups", 129, 64),
];

/// All others may read; and the owner may do anything, with the pictures that are added too.
const PASSED_ON: &[Entry] = &[
    (AceType::Allowed, "OWNER@", 2_032_127, 1),
    (AceType::Allowed, "EVERYONE@", 129, 0),
];

/// amy's group/7, in which cy is.
pub(crate) fn group(alloc: Global) -> Result<Value, Refusal> {
    Ok(Value::Group(Group {
        head: head(7)?,
        members: member(alloc, "cy@users")?,
    }))
}

/// Three partitions. picture/0 and the lists 1 and 7 are placed at 0; picture/1, album/0, list/2 and group/7 at 1;
/// list/0 at 2. Group 0, which heads all, is missing and would be placed at 0.
fn opening(alloc: Global, checked: bool) -> Result<Opening, Refusal> {
    let mut items = Vec::new(alloc);
    items.push((item_of("picture/0")?, picture(alloc, 0)?))?;
    items.push((item_of("picture/1")?, picture(alloc, 1)?))?;
    items.push((item_of("album/0")?, album_of_two(alloc)?))?;
    items.push((item_of("list/0")?, list(alloc, SHARED)?))?;
    items.push((item_of("list/1")?, list(alloc, OWNED)?))?;
    items.push((item_of("list/2")?, list(alloc, PASSED_ON)?))?;
    items.push((item_of("list/7")?, list(alloc, OWNED)?))?;
    items.push((item_of("group/7")?, group(alloc)?))?;
    Ok(Opening {
        parts: 3,
        limit: 1000,
        policy: 1,
        checked,
        root: None,
        first: 0,
        items: ItemValues::of(items),
        stamps: FirstStamps::new(alloc),
    })
}

/// This for two sessions, with hints or as a plain service.
fn opened(alloc: Global, case: Delayed) -> Result<Opened, Refusal> {
    let opened = Opened::new(alloc, &opening(alloc, case.checked)?, 2)?;
    if case.plain {
        return Ok(opened.plain());
    }
    Ok(opened)
}

/// A session asks, and one of its mails is held on its way to a partition while another session is answered.
/// Numbers of messages are of partitions 0 and 2.
#[derive(Clone, Copy)]
struct Delayed {
    plain: bool,
    checked: bool,
    wish: Wish,
    /// What the session asks afterwards.
    then: Option<Wish>,
    part: u16,
    /// Which of the session's mails to the partition is held, from 0.
    held: u64,
    /// Whether that is the last mail which the partition ever gets of it.
    is_last: bool,
    /// Whether all partitions leave before it is passed on, as they do when the service closes.
    closes: bool,
    /// How many messages were taken once the rest of what it sent by then is.
    until: (u64, u64),
    meanwhile: &'static [(Wish, &'static str)],
    /// The answers to it once the mail is passed on, and how many messages that takes, where it is known.
    answer: &'static str,
    after: Option<(u64, u64)>,
}

/// bo's read: of picture/0; with it list/0 and group/0; with them group/7, which waits. Each read has two rounds in a
/// plain service, and one round otherwise. amy takes the group off the list, and puts bo into it. Then group/7 comes
/// with bo in it, from a time when the list has lost the group. The second round, with 2 messages to partition 0 and 1
/// to partition 2, shows that the read is overtaken. bo reads the picture anew, and with it the list as it is now,
/// which lets nobody in.
const NEW_ENEMY: Delayed = Delayed {
    plain: false,
    checked: false,
    wish: Read("bo@users", "picture/0"),
    then: None,
    part: 1,
    held: 0,
    is_last: false,
    closes: false,
    until: (5, 2),
    meanwhile: &[
        (SetList, "committed at 65538"),
        (SetMembers, "committed at 131074"),
    ],
    answer: "denied picture/0 at the end",
    after: Some((5, 2)),
};

/// The same of a plain service: so the mails are those of examples/new_enemy.jsonl, in their order.
const PLAIN_NEW_ENEMY: Delayed = Delayed {
    plain: true,
    until: (8, 3),
    after: Some((8, 3)),
    ..NEW_ENEMY
};

/// amy's two lists are committed at partition 0, and only prepared at 2. cy, who was let in to picture/0 and not to
/// picture/1, lists both: the album's listing has both lists as they are written. So has each later read, also that of
/// list/0 alone.
const HALF_COMMITTED: Delayed = Delayed {
    plain: false,
    checked: false,
    wish: SetLists,
    then: None,
    part: 2,
    held: 3,
    is_last: false,
    closes: false,
    until: (9, 3),
    meanwhile: &[
        (List("cy@users", "album/0"), "listed picture/1"),
        (Read("cy@users", "picture/0"), "denied picture/0 at the end"),
        (Read("cy@users", "picture/1"), "Sea at 0"),
    ],
    answer: "committed at 65537",
    after: Some((0, 1)),
};

/// The same of a plain service.
const PLAIN_HALF_COMMITTED: Delayed = Delayed {
    plain: true,
    held: 5,
    until: (16, 5),
    ..HALF_COMMITTED
};

/// amy sets a title, after three reads. Before her Prepare comes, another session has set one. In a checked store hers
/// is refused, and her session attempts it anew.
const OVERTAKEN: Delayed = Delayed {
    plain: false,
    checked: true,
    wish: Retitle("picture/0", "Ash"),
    then: Some(Read("cy@users", "picture/0")),
    part: 0,
    held: 3,
    is_last: false,
    closes: false,
    until: (5, 2),
    meanwhile: &[
        (Retitle("picture/0", "Bay"), "committed at 65538"),
        (Read("cy@users", "picture/0"), "Bay at 65538"),
    ],
    answer: "committed at 131073; Ash at 131073",
    after: None,
};

/// Without the key both are committed, and the one of the greater stamp stays.
const LOST: Delayed = Delayed {
    checked: false,
    answer: "committed at 65537; Bay at 65538",
    ..OVERTAKEN
};

/// Where the partition gets no other mail of hers, there is no second attempt: what the first has written is aborted.
const CUT_OFF: Delayed = Delayed {
    then: None,
    is_last: true,
    answer: "aborted at 65537",
    ..OVERTAKEN
};

/// The same of a plain service, which has no hints: an attempt has reads of two rounds.
const PLAIN_OVERTAKEN: Delayed = Delayed {
    plain: true,
    held: 6,
    until: (10, 4),
    ..OVERTAKEN
};

/// Where the service closes before her Prepare comes, nobody knows what becomes of her write.
const CLOSED: Delayed = Delayed {
    then: None,
    closes: true,
    answer: "Closed at 65537",
    ..OVERTAKEN
};

/// The same of a plain service.
const PLAIN_CLOSED: Delayed = Delayed {
    plain: true,
    held: 6,
    until: (10, 4),
    ..CLOSED
};

/// Two pictures are added to one album, which is placed at 1 with amy's new list. Her new picture is prepared at 2, and
/// is discarded there before she asks anew. Both are listed.
const ADDED: Delayed = Delayed {
    plain: false,
    checked: true,
    wish: Add("Ash"),
    then: Some(List("amy@users", "album/0")),
    part: 1,
    held: 2,
    is_last: false,
    closes: false,
    until: (1, 1),
    meanwhile: &[(Add("Bay"), "committed at 65538")],
    answer: "committed at 131073; listed picture/0 picture/1 picture/65538 picture/131073",
    after: None,
};

/// Where a session's mails to a partition come, and where they are passed on to.
struct Relay<J: ServiceNames> {
    mails: Receiver<PartitionMail<J>>,
    to: Sender<PartitionMail<J>>,
}

// By hand, so that what lets it go is proved once.
impl<J: ServiceNames> Drop for Relay<J> {
    fn drop(self) {
        let Relay { mails, to } = self;
        drop(mails);
        drop(to);
    }
}

impl<J: ServiceNames> Relay<J> {
    /// Passes the mail on, as the last one: whoever sends the next finds nobody. So nothing that it sends is lost.
    fn end_with<R: Wait>(self, rt: &R, mail: PartitionMail<J>) {
        let Relay { mails, to } = self;
        drop(mails);
        drop(to.send(rt, mail));
    }
}

/// Takes the place of the partition for the session.
fn relay_for<J: ServiceNames, R: Wait + Copy>(
    alloc: Global,
    owned: &mut OwnedSession<J, R>,
    part: u16,
) -> Result<Relay<J>, Refusal> {
    let (mailbox, mails) = unbounded(alloc)?;
    let to = owned
        .session
        .relay(part, mailbox)
        .ok_or(Refusal::NoSuchPart)?;
    Ok(Relay { mails, to })
}

/// Passes each mail on, the one of this number once it is released. It ends with the session, or after that mail if it
/// is the last.
fn pass_on<J: ServiceNames, R: Wait + Copy>(rt: R, relay: Relay<J>, case: Delayed, hold: &Hold) {
    let mut number: u64 = 0;
    for _ in rt.forever() {
        let Ok(mail) = relay.mails.recv(&rt) else {
            return;
        };
        if number == case.held {
            hold.wait();
        }
        if case.is_last && number == case.held {
            relay.end_with(&rt, mail);
            return;
        }
        drop(relay.to.send(&rt, mail));
        number = number.wrapping_add(1);
    }
    // `forever` has no end.
    unreachable!()
}

/// The answers to the session, which ends then.
fn late_answer<J: ServiceNames, R: Wait + time::Clock + Copy>(
    alloc: Global,
    mut owned: OwnedSession<J, R>,
    wish: Wish,
    then: Option<Wish>,
) -> Result<String, Refusal> {
    let rt = owned.rt;
    let answer = answer_to(&rt, alloc, &mut owned.session, wish)?;
    let Some(then) = then else {
        return Ok(answer);
    };
    let next = answer_to(&rt, alloc, &mut owned.session, then)?;
    Ok(format!(in alloc; "{answer}; {next}")?)
}

/// The other session gets these answers, has all partitions leave where the service closes, and ends.
fn assert_meanwhile<J: ServiceNames, R: Wait + time::Clock + Abort + Copy>(
    alloc: Global,
    mut other: OwnedSession<J, R>,
    case: Delayed,
) -> Result<(), Fail> {
    let rt = other.rt;
    for (wish, expected) in case.meanwhile {
        same(
            &rt,
            answer_to(&rt, alloc, &mut other.session, *wish),
            expected,
        )?;
    }
    if case.closes {
        for part in 0..3 {
            let relay = relay_for(alloc, &mut other, part)?;
            drop(relay.to.send(&rt, PartitionMail::Leave));
        }
    }
    Ok(())
}

/// The answer to the session whose mail is held, after how many messages, and whether the other one gets its answers
/// meanwhile.
struct Both {
    late: Result<String, Refusal>,
    after: (u64, u64),
    meanwhile: Result<(), Fail>,
}

fn both_answered<
    J: ServiceNames + Send,
    R: Threads + Wait + time::Clock + Abort + Copy + Send + Sync,
>(
    rt: &R,
    alloc: Global,
    hold: &Hold,
    case: Delayed,
    relay: Relay<J>,
    owned: OwnedSession<J, R>,
    other: OwnedSession<J, R>,
) -> Result<Both, AllocError> {
    thread::scope(
        thread::scope_env(),
        rt,
        |scope| -> Result<Both, AllocError> {
            let own = *rt;
            let relaying = scope.spawn(move || pass_on(own, relay, case, hold))?;
            let late = scope.spawn(move || late_answer(alloc, owned, case.wish, case.then))?;
            hold.wait_for(case.until.0, case.until.1);
            let meanwhile = assert_meanwhile(alloc, other, case);
            let before = hold.counts.so_far();
            hold.release();
            let late = late.join(rt);
            relaying.join(rt);
            Ok(Both {
                late,
                after: hold.counts.since(before),
                meanwhile,
            })
        },
    )
}

fn assert_all<J: ServiceNames + Send, R: Threads + Wait + time::Clock + Abort + Copy + Send + Sync>(
    rt: &R,
    alloc: Global,
    hold: &Hold,
    case: Delayed,
    service: &Service<J>,
) -> Result<(), Fail> {
    let mut owned = OwnedSession::begin(rt, service)?;
    let other = OwnedSession::begin(rt, service)?;
    let relay = relay_for(alloc, &mut owned, case.part)?;
    let Both {
        late,
        after,
        meanwhile,
    } = both_answered(rt, alloc, hold, case, relay, owned, other)?;
    meanwhile?;
    same(rt, late, case.answer)?;
    if let Some(expected) = case.after {
        assert_eq!(rt; after, expected);
    }
    Ok(())
}

fn assert_by<
    J: ServiceNames + Send + 'static,
    R: Threads + Wait + time::Clock + Abort + Copy + Send + Sync + 'static,
>(rt: R, alloc: Global, opened: Opened, case: Delayed) -> Result<(), Fail>
    requires named { opened ≡ opened_as J.table J.terms J.policy J.list
        J.audit_ok J.audit_failed J.alarm_ok J.alarm_failed }
{
    let hold = Arc::new(alloc, Hold::new())?;
    let gate = Watching {
        hold: Arc::try_clone(&hold)?,
    };
    let service = Service::<J>::open(rt, alloc, opened, gate)?;
    let answered = assert_all(&rt, alloc, &hold, case, &service);
    service.close(&rt);
    answered?;
    assert!(rt; !hold.has_given_up(), "nobody waits in vain");
    Ok(())
}

fn assert_case<R: Threads + Wait + time::Clock + Abort + Copy + Send + Sync + 'static>(
    rt: R,
    alloc: Global,
    case: Delayed,
) -> Result<(), Fail> {
    let opened = opened(alloc, case)?;
    assert_by::<Brand, R>(rt, alloc, opened, case)
}

#[test]
fn no_new_enemy_is_served(rt: HostRuntime) -> Result<(), Fail> {
    assert_case(rt, rt.alloc(), NEW_ENEMY)?;
    assert_case(rt, rt.alloc(), PLAIN_NEW_ENEMY)
}

#[test]
fn a_write_that_is_half_committed(rt: HostRuntime) -> Result<(), Fail> {
    assert_case(rt, rt.alloc(), HALF_COMMITTED)?;
    assert_case(rt, rt.alloc(), PLAIN_HALF_COMMITTED)
}

#[test]
fn a_write_that_is_overtaken(rt: HostRuntime) -> Result<(), Fail> {
    assert_case(rt, rt.alloc(), OVERTAKEN)?;
    assert_case(rt, rt.alloc(), PLAIN_OVERTAKEN)?;
    assert_case(rt, rt.alloc(), LOST)?;
    assert_case(rt, rt.alloc(), CUT_OFF)
}

#[test]
fn a_write_as_the_service_closes(rt: HostRuntime) -> Result<(), Fail> {
    assert_case(rt, rt.alloc(), CLOSED)?;
    assert_case(rt, rt.alloc(), PLAIN_CLOSED)
}

#[test]
fn two_pictures_for_one_album(rt: HostRuntime) -> Result<(), Fail> {
    assert_case(rt, rt.alloc(), ADDED)
}
