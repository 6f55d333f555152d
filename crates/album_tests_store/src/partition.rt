//! What a partition answers, to messages too that no client sends, what it keeps, and how it opens (docs/PROTOCOL.md,
//! "What a partition answers").
use crate::messages::{
    Is, Rows, Step, client, item_of, reply_or_dash, rows_of, same, sent, stamp_of, texts_of,
};
use album_calls::{Body, Message, Node, Reply, Vote};
use album_partition::{Figures, Partition};
use album_stamps::{MAX_MARKS, Refusal, Stamp};
use album_terminate::StampState;
use std::alloc::Global;
use std::process::Abort;
use std::test::Fail;

/// Partition 0 of three, which opens with no item and room for so many marks.
fn opened(alloc: Global, limit: u64) -> Result<Partition, Refusal> {
    let items = rows_of(alloc, &[])?;
    Ok(Partition::new(alloc, 0, 3, items, limit)?)
}

/// What the partition replies to the message.
fn reply_to(
    alloc: Global,
    partition: &mut Partition,
    message: &Message,
) -> Result<String, Refusal> {
    let reply = partition.receive(message)?;
    reply_or_dash(alloc, &reply)
}

/// What the partition replies to a message of client 1 to this node.
fn answer(
    alloc: Global,
    partition: &mut Partition,
    to: Node,
    tag: u64,
    step: Step,
) -> Result<String, Refusal> {
    let message = sent(alloc, to, tag, step)?;
    reply_to(alloc, partition, &message)
}

/// What is sent, and what is replied.
type Cases = &'static [(Step, &'static str)];

/// The partition replies to each message to this node so. The tags count up from 7.
fn check(
    rt: &impl Abort,
    alloc: Global,
    partition: &mut Partition,
    to: &Node,
    cases: Cases,
) -> Result<(), Fail> {
    let mut tag = 7;
    for (step, expected) in cases {
        same(rt, answer(alloc, partition, *to, tag, *step), expected)?;
        tag = tag.wrapping_add(1);
    }
    Ok(())
}

/// Partition 0 of three, with room for so many marks, replies to each message so. Gives how many marks it
/// has then.
fn replies_so(rt: &impl Abort, alloc: Global, limit: u64, cases: Cases) -> Result<usize, Fail> {
    let mut partition = opened(alloc, limit)?;
    check(rt, alloc, &mut partition, &Node::Part(0), cases)?;
    Ok(partition.history().len())
}

const FIRST: Rows = &[("picture/0", Is::Picture(1))];

const OTHER: Rows = &[("picture/0", Is::Picture(2))];

const TWICE: Rows = &[("picture/0", Is::Picture(1)), ("picture/0", Is::Picture(1))];

const PICTURE: &[&str] = &["picture/0"];

/// The items of a transaction: list/0 is placed at partition 2 of 3, and list/1 at partition 0.
const LISTS: &[&str] = &["list/0", "list/1"];

const LIST_0: Rows = &[("list/0", Is::List)];

const LIST_1: Rows = &[("list/1", Is::List)];

const TABLE: Cases = &[
    (
        Step::Prepare(65537, FIRST, PICTURE),
        "p0 c1 7 prepared 65537",
    ),
    (
        Step::Prepare(65537, FIRST, PICTURE),
        "p0 c1 8 prepared 65537",
    ),
    (Step::Prepare(65537, OTHER, PICTURE), "p0 c1 9 clash"),
    (Step::Check(65538), "p0 c1 10 status 65538 never"),
    (
        Step::Prepare(65538, FIRST, PICTURE),
        "p0 c1 11 discarded 65538",
    ),
    (Step::Commit(65538), "p0 c1 12 discarded 65538"),
    (Step::Commit(65539), "p0 c1 13 not prepared 65539"),
    (Step::Get("list/0", &[]), "p0 c1 14 clash"),
];

/// A Prepare is answered alike when it comes again, and a Check of an unknown stamp discards it.
#[test]
fn partition_table(rt: HostRuntime) -> Result<(), Fail> {
    let marks = replies_so(&rt, rt.alloc(), 10, TABLE)?;
    assert_eq!(rt; marks, 2);
    Ok(())
}

const IMPROPER: Cases = &[
    (Step::Prepare(0, FIRST, PICTURE), "p0 c1 7 clash"),
    (Step::Prepare(65537, &[], &[]), "p0 c1 8 clash"),
    (
        Step::Prepare(65537, TWICE, &["picture/0", "picture/0"]),
        "p0 c1 9 clash",
    ),
    (Step::Prepare(65537, &[], PICTURE), "p0 c1 10 clash"),
    (Step::Prepare(65537, LIST_0, LISTS), "p0 c1 11 clash"),
    (
        Step::Prepare(65537, &[("picture/0", Is::Album)], PICTURE),
        "p0 c1 12 clash",
    ),
    (Step::Commit(0), "p0 c1 13 clash"),
    (Step::Check(0), "p0 c1 14 clash"),
    (Step::Prepared(65537), "-"),
];

/// A message that breaks a rule is answered Clash, a reply not at all, and neither leaves a mark.
#[test]
fn improper_messages(rt: HostRuntime) -> Result<(), Fail> {
    let marks = replies_so(&rt, rt.alloc(), 10, IMPROPER)?;
    assert_eq!(rt; marks, 0);
    Ok(())
}

/// Two pictures of partition 0, in the order of the items and in the other.
const PICTURES: Rows = &[("picture/0", Is::Picture(1)), ("picture/3", Is::Picture(2))];

const TURNED: Rows = &[("picture/3", Is::Picture(2)), ("picture/0", Is::Picture(1))];

const BOTH_PICTURES: &[&str] = &["picture/0", "picture/3"];

/// The writes of a Prepare may be in any order, each item's once; a repeated Prepare is the same one.
const ORDERS: Cases = &[
    (
        Step::Prepare(65537, TURNED, BOTH_PICTURES),
        "p0 c1 7 prepared 65537",
    ),
    (
        Step::Prepare(65537, TURNED, BOTH_PICTURES),
        "p0 c1 8 prepared 65537",
    ),
    (
        Step::Prepare(65537, PICTURES, BOTH_PICTURES),
        "p0 c1 9 clash",
    ),
    (
        Step::Prepare(131073, TWICE, BOTH_PICTURES),
        "p0 c1 10 clash",
    ),
    (
        Step::Prepare(131073, FIRST, BOTH_PICTURES),
        "p0 c1 11 clash",
    ),
    (Step::Prepare(131073, PICTURES, PICTURE), "p0 c1 12 clash"),
];

#[test]
fn writes_in_any_order(rt: HostRuntime) -> Result<(), Fail> {
    replies_so(&rt, rt.alloc(), 10, ORDERS)?;
    Ok(())
}

const UNANSWERED: Cases = &[
    (Step::Check(65537), "-"),
    (Step::Prepare(65537, FIRST, PICTURE), "-"),
];

/// The partition says nothing to what goes to another one, nor to what goes to a client.
fn silent(rt: &impl Abort, alloc: Global, partition: &mut Partition) -> Result<(), Fail> {
    check(rt, alloc, partition, &Node::Part(1), UNANSWERED)?;
    check(rt, alloc, partition, &client()?, UNANSWERED)
}

/// A message to another node does nothing.
#[test]
fn messages_to_others(rt: HostRuntime) -> Result<(), Fail> {
    let mut partition = opened(rt.alloc(), 10)?;
    silent(&rt, rt.alloc(), &mut partition)?;
    assert_eq!(rt; partition.history().len(), 0);
    Ok(())
}

/// The partition takes the message, whatever it replies.
fn taken(alloc: Global, partition: &mut Partition, step: Step) -> Result<(), Refusal> {
    let _reply = answer(alloc, partition, Node::Part(0), 7, step)?;
    Ok(())
}

/// The stamp of the counter is prepared and committed.
fn written(alloc: Global, partition: &mut Partition, counter: u64) -> Result<(), Refusal> {
    let stamp = counter.wrapping_mul(65536).wrapping_add(1);
    taken(alloc, partition, Step::Prepare(stamp, FIRST, PICTURE))?;
    taken(alloc, partition, Step::Commit(stamp))
}

/// A partition to which so many stamps were written.
fn filled(alloc: Global, counters: u64) -> Result<Partition, Refusal> {
    let mut partition = opened(alloc, 1000)?;
    for counter in 1..=counters {
        written(alloc, &mut partition, counter)?;
    }
    Ok(partition)
}

#[test]
fn a_thousand_marks(rt: HostRuntime) -> Result<(), Fail> {
    let alloc = rt.alloc();
    let mut partition = filled(alloc, 500)?;
    assert_eq!(rt; partition.history().len(), 1000);
    check(&rt, alloc, &mut partition, &Node::Part(0), AFTER_A_THOUSAND)
}

const AFTER_A_THOUSAND: Cases = &[
    (
        Step::Get("picture/0", &[]),
        "p0 c1 7 version picture/0 32768001 picture",
    ),
    (
        Step::Get("picture/0", &[65537, 131073, 65538]),
        "p0 c1 8 version picture/0 131073 picture",
    ),
    (
        Step::Prepare(32833537, FIRST, PICTURE),
        "p0 c1 9 full 32833537",
    ),
];

/// The partition, once it has its Prepare of the two lists at 65537.
fn prepared(alloc: Global) -> Result<Partition, Refusal> {
    let mut partition = opened(alloc, 10)?;
    taken(alloc, &mut partition, Step::Prepare(65537, LIST_1, LISTS))?;
    Ok(partition)
}

/// The state of 65537, and how many marks there are.
fn standing(alloc: Global, partition: &Partition) -> Result<String, Refusal> {
    let state = partition.state(stamp_of(65537)?);
    let marks = partition.history().len();
    Ok(format!(in alloc; "{state:?} {marks}")?)
}

/// The state of 65537, how many marks there are, what is pending, and the latest stamp of the item.
fn kept(alloc: Global, partition: &Partition, item: &str) -> Result<String, Refusal> {
    let latest = partition.latest(item_of(item)?).value();
    let standing = standing(alloc, partition)?;
    let pending = pending_text(alloc, partition)?;
    Ok(format!(in alloc; "{} [{}] {latest}", standing.as_str(), pending.as_str())?)
}

fn pending_text(alloc: Global, partition: &Partition) -> Result<String, Refusal> {
    let mut text = String::new(alloc);
    for stamp in partition.pending()? {
        let stamp = format!(in alloc; "{}", stamp.value())?;
        text.push_str(stamp.as_str())?;
    }
    Ok(text)
}

/// A stamp that is prepared is pending, and no item's latest.
#[test]
fn what_is_kept(rt: HostRuntime) -> Result<(), Fail> {
    let partition = prepared(rt.alloc())?;
    let text = kept(rt.alloc(), &partition, "list/1");
    same(&rt, text, "Pending 1 [65537] 0")
}

/// The items of a transaction with one at each of the three partitions.
const THREE: &[&str] = &["list/0", "list/1", "list/2"];

/// The partition that votes Prepared on a stamp, and the stamp's state then.
const VOTES: &[(u16, StampState)] = &[
    (1, StampState::Pending),
    (1, StampState::Pending),
    (2, StampState::Committed),
    (1, StampState::Committed),
];

/// The stamp's state once this partition has voted Prepared on it.
fn voted(partition: &mut Partition, part: u16, stamp: Stamp) -> Result<StampState, Refusal> {
    let vote = Body::Reply(Reply::Status(stamp, Vote::Prepared));
    let message = Message::new(Node::Part(part), Node::Part(0), 0, vote);
    let _reply = partition.receive(&message)?;
    Ok(partition.state(stamp))
}

/// The stamp of the counter is prepared, and settled by these votes alone.
fn settled(
    rt: &impl Abort,
    alloc: Global,
    partition: &mut Partition,
    counter: u64,
) -> Result<(), Fail> {
    let stamp = counter.wrapping_mul(65536).wrapping_add(1);
    taken(alloc, partition, Step::Prepare(stamp, LIST_1, THREE))?;
    for (part, expected) in VOTES {
        let state = voted(partition, *part, stamp_of(stamp)?)?;
        assert_eq!(rt; state, *expected, "{part} at {stamp}");
    }
    Ok(())
}

/// Votes on stamps that were settled before don't count: each of many waits for the same ones.
#[test]
fn swept_many_times(rt: HostRuntime) -> Result<(), Fail> {
    let mut partition = opened(rt.alloc(), 100)?;

    for counter in 1..=8 {
        settled(&rt, rt.alloc(), &mut partition, counter)?;
    }

    let figures = Figures {
        marks: 16,
        limit: 100,
        pending: 0,
        versions: 8,
    };
    assert_eq!(rt; partition.figures(), figures);
    Ok(())
}

/// Why a partition of this number, of so many, does not open.
fn refused(
    alloc: Global,
    number: u16,
    parts: u16,
    limit: u64,
    items: Rows,
) -> Result<Option<Refusal>, Refusal> {
    let items = rows_of(alloc, items)?;
    let opened = Partition::new(alloc, number, parts, items, limit);
    Ok(opened.err().map(Refusal::from))
}

const OPENINGS: &[(u16, u16, u64, Rows, Option<Refusal>)] = &[
    (3, 3, 10, &[], Some(Refusal::NoSuchPart)),
    (0, 17, 10, &[], Some(Refusal::BadOpening)),
    (0, 3, 1, &[], Some(Refusal::BadOpening)),
    (0, 3, MAX_MARKS + 1, &[], Some(Refusal::BadOpening)),
    (0, 3, 10, LIST_0, Some(Refusal::BadOpening)),
    (0, 3, 10, TWICE, Some(Refusal::BadOpening)),
    (
        0,
        3,
        10,
        &[("picture/0", Is::Missing)],
        Some(Refusal::BadOpening),
    ),
    (
        0,
        3,
        10,
        &[("picture/0", Is::Album)],
        Some(Refusal::BadOpening),
    ),
    (15, 16, 2, &[], None),
    (2, 3, MAX_MARKS, LIST_0, None),
    (0, 3, 10, FIRST, None),
];

#[test]
fn refused_openings(rt: HostRuntime) -> Result<(), Fail> {
    for (number, parts, limit, items, expected) in OPENINGS {
        let refusal = refused(rt.alloc(), *number, *parts, *limit, items)?;
        assert_eq!(rt; refusal, *expected, "{number} of {parts}, {limit} marks");
    }
    Ok(())
}

fn copies(alloc: Global, messages: &[Message]) -> Result<Vec<Message>, Refusal> {
    let mut copies = Vec::new(alloc);
    for message in messages {
        copies.push(message.copy()?)?;
    }
    Ok(copies)
}

/// The texts of the copies of these messages.
fn copied_text(alloc: Global, messages: &[Message]) -> Result<String, Refusal> {
    let copies = copies(alloc, messages)?;
    texts_of(alloc, &copies)
}

/// What the partition replies to each message.
fn replies(
    alloc: Global,
    partition: &mut Partition,
    messages: &[Message],
) -> Result<Vec<Message>, Refusal> {
    let mut replies = Vec::new(alloc);
    for message in messages {
        if let Some(reply) = partition.receive(message)? {
            replies.push(reply)?;
        }
    }
    Ok(replies)
}

/// The message of the step to partition 0, alone.
fn one_sent(alloc: Global, step: Step) -> Result<Vec<Message>, Refusal> {
    let mut messages = Vec::new(alloc);
    messages.push(sent(alloc, Node::Part(0), 7, step)?)?;
    Ok(messages)
}

/// What is exchanged with the partition: the text of a copy of the message, and of a copy of the reply, if
/// there is one.
fn copied(alloc: Global, partition: &mut Partition, step: Step) -> Result<String, Refusal> {
    let messages = one_sent(alloc, step)?;
    let replies = replies(alloc, partition, &messages)?;
    let mut text = copied_text(alloc, &messages)?;
    text.push_str(copied_text(alloc, &replies)?.as_str())?;
    Ok(text)
}

const COPIED: Cases = &[
    (
        Step::Prepare(65537, FIRST, PICTURE),
        "c1 p0 7 prepare 65537; p0 c1 7 prepared 65537; ",
    ),
    (
        Step::Get("picture/0", &[65537]),
        "c1 p0 7 picture/0; p0 c1 7 version picture/0 65537 picture; ",
    ),
    (
        Step::Check(65537),
        "c1 p0 7 check 65537; p0 c1 7 status 65537 prepared; ",
    ),
    (
        Step::Commit(65537),
        "c1 p0 7 commit 65537; p0 c1 7 committed 65537; ",
    ),
    (
        Step::Prepare(65537, OTHER, PICTURE),
        "c1 p0 7 prepare 65537; p0 c1 7 clash; ",
    ),
    (
        Step::Commit(131073),
        "c1 p0 7 commit 131073; p0 c1 7 not prepared 131073; ",
    ),
    (
        Step::Check(196609),
        "c1 p0 7 check 196609; p0 c1 7 full 196609; ",
    ),
];

#[test]
fn each_message_copied(rt: HostRuntime) -> Result<(), Fail> {
    let alloc = rt.alloc();
    let mut partition = opened(alloc, 3)?;
    for (step, expected) in COPIED {
        same(&rt, copied(alloc, &mut partition, *step), expected)?;
    }
    Ok(())
}
