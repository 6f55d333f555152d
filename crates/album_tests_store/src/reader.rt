//! Replies to a read that are no answers, replies that an item is gone, and how many items a read may have
//! (docs/PROTOCOL.md, "A read").
use crate::messages::{Is, item_of, items_of, value_of};
use crate::refused::{is_as_before, whole_text};
use album_calls::{Body, Message, Node, Reply};
use album_items::{ItemId, Items, Kind, SharedValue, are_distinct};
use album_reader::{Reading, Step};
use album_stamps::{ClientNo, MAX_READ_ITEMS, Refusal, Refused, Stamp};
use std::alloc::Global;
use std::process::Abort;
use std::test::Fail;

/// The client that reads.
fn reader() -> Result<ClientNo, Refusal> {
    ClientNo::of(2).ok_or(Refusal::BadRequest)
}

/// Client 2 begins to read these items, under the tag 3; once more with what is handed back, where there was no memory.
fn started(alloc: Global, items: Items) -> Result<(Reading, Vec<Message>), Refusal> {
    let client = reader()?;
    let before = whole_text(alloc, &items);
    match start(alloc, items, client) {
        Ok(started) => Ok(started),
        Err(Refused { refusal, given }) => {
            if refusal != Refusal::OutOfMemory {
                return Err(refusal);
            }
            if !is_as_before(alloc, &given, &before) {
                return Err(Refusal::Clash);
            }
            Ok(start(alloc, given, client)?)
        }
    }
}

fn start(
    alloc: Global,
    items: Items,
    client: ClientNo,
) -> Result<(Reading, Vec<Message>), Refused<Items>> {
    if items.as_slice().is_empty() || !are_distinct(items.as_slice()) {
        return Err(Refused {
            refusal: Refusal::BadRequest,
            given: items,
        });
    }
    Reading::start(alloc, items, client, 3, 3)
}

/// The next step after the reply; once more with the reading that is handed back, where there was no memory.
fn replied(alloc: Global, reading: Reading, reply: &Message) -> Result<Step, Refusal> {
    let before = whole_text(alloc, &reading);
    match reading.on_reply(reply) {
        Ok(step) => Ok(step),
        Err(Refused { refusal: _, given }) => replied_again(alloc, given, reply, &before),
    }
}

fn replied_again(
    alloc: Global,
    reading: Reading,
    reply: &Message,
    before: &Result<String, Refusal>,
) -> Result<Step, Refusal> {
    if !is_as_before(alloc, &reading, before) {
        return Err(Refusal::Clash);
    }
    Ok(reading.on_reply(reply)?)
}

fn given(alloc: Global, step: Step, reply: &Message) -> Result<Step, Refusal> {
    match step {
        Step::Same(reading) => replied(alloc, reading, reply),
        Step::Next(reading, messages) => Ok(Step::Next(reading, messages)),
        Step::Done(snapshot) => Ok(Step::Done(snapshot)),
        Step::Gone(items) => Ok(Step::Gone(items)),
    }
}

const BOTH: &[&str] = &["picture/0", "list/0"];

fn word(step: &Step) -> &'static str {
    match step {
        Step::Same(_) => "same",
        Step::Next(_, _) => "next",
        Step::Done(_) => "done",
        Step::Gone(_) => "gone",
    }
}

/// A copy of the reading of both, as it begins.
fn copied(alloc: Global) -> Result<Step, Refusal> {
    let (reading, _messages) = started(alloc, items_of(alloc, BOTH)?)?;
    Ok(Step::Same(reading.copy()?))
}

/// What a partition replies to client 2, under a tag, for an item: the version at the zero stamp, or that it is
/// gone.
type ReplyRow = (u16, u64, &'static str, Option<Is>);

fn reply_of(alloc: Global, text: &str, is: Option<Is>) -> Result<Reply, Refusal> {
    let item = item_of(text)?;
    match is {
        Some(is) => {
            let value = SharedValue::of(alloc, value_of(alloc, is)?)?;
            Ok(Reply::Version(item, Stamp::zero(), value))
        }
        None => Ok(Reply::Gone(item)),
    }
}

fn message_of(alloc: Global, (part, tag, text, is): ReplyRow) -> Result<Message, Refusal> {
    let to = Node::Client(reader()?);
    let reply = reply_of(alloc, text, is)?;
    Ok(Message::new(Node::Part(part), to, tag, Body::Reply(reply)))
}

/// What is replied, and how far the reading is then.
type Replies = &'static [(ReplyRow, &'static str)];

fn messages_of(alloc: Global, rows: Replies) -> Result<Vec<(Message, &'static str)>, Refusal> {
    let mut messages = Vec::new(alloc);
    for (reply, expected) in rows {
        messages.push((message_of(alloc, *reply)?, *expected))?;
    }
    Ok(messages)
}

/// The reading is so far after each reply.
fn comes_so_far(
    rt: &impl Abort,
    alloc: Global,
    mut step: Step,
    replies: &[(Message, &'static str)],
) -> Result<(), Fail> {
    for (reply, expected) in replies {
        step = given(alloc, step, reply)?;
        assert!(rt; word(&step) == *expected);
    }
    Ok(())
}

/// Replies to a reading of picture/0 and list/0, and how far it is then.
const NO_ANSWERS: Replies = &[
    ((1, 3, "picture/0", Some(Is::Picture(1))), "same"),
    ((0, 4, "picture/0", Some(Is::Picture(1))), "same"),
    ((1, 3, "album/0", Some(Is::Album)), "same"),
    ((0, 3, "picture/0", Some(Is::Picture(1))), "same"),
    ((0, 3, "picture/0", Some(Is::Picture(1))), "same"),
    ((2, 3, "list/0", Some(Is::List)), "next"),
];

/// Of the replies, the first one of each item's own partition counts, under the round's tag.
#[test]
fn replies_that_are_no_answers(rt: HostRuntime) -> Result<(), Fail> {
    let replies = messages_of(rt.alloc(), NO_ANSWERS)?;
    comes_so_far(&rt, rt.alloc(), copied(rt.alloc())?, &replies)
}

/// What both partitions reply in the first round.
const FIRST: Replies = &[
    ((0, 3, "picture/0", Some(Is::Picture(1))), "same"),
    ((2, 3, "list/0", Some(Is::List)), "next"),
];

/// The step that this one leads to, given one reply after the other.
fn after(
    alloc: Global,
    mut step: Step,
    replies: &[(Message, &'static str)],
) -> Result<Step, Refusal> {
    for (reply, _) in replies {
        step = given(alloc, step, reply)?;
    }
    Ok(step)
}

fn second(step: Step) -> Result<Step, Refusal> {
    match step {
        Step::Next(reading, _messages) => Ok(Step::Same(reading)),
        Step::Same(_) | Step::Done(_) | Step::Gone(_) => Err(Refusal::Clash),
    }
}

/// The second round of a read of both items, as it begins.
fn half_read(alloc: Global) -> Result<Step, Refusal> {
    let replies = messages_of(alloc, FIRST)?;
    second(after(alloc, copied(alloc)?, &replies)?)
}

/// Replies that an item is gone, and how far the first round is then.
const GONE_TOO_EARLY: Replies = &[
    ((0, 3, "picture/0", None), "same"),
    ((0, 4, "picture/0", None), "same"),
];

/// The same of the second round, once picture/0 has its answer: it counts from the item's own partition,
/// under the round's tag, for an item without an answer.
const GONE: Replies = &[
    ((0, 4, "picture/0", Some(Is::Picture(1))), "same"),
    ((2, 3, "list/0", None), "same"),
    ((1, 4, "list/0", None), "same"),
    ((0, 4, "picture/0", None), "same"),
    ((0, 4, "picture/3", None), "same"),
    ((2, 4, "list/0", None), "gone"),
];

/// A reply that an item is gone ends a read, and in its second round alone.
#[test]
fn a_read_of_what_is_gone(rt: HostRuntime) -> Result<(), Fail> {
    let early = messages_of(rt.alloc(), GONE_TOO_EARLY)?;
    comes_so_far(&rt, rt.alloc(), copied(rt.alloc())?, &early)?;
    let replies = messages_of(rt.alloc(), GONE)?;
    comes_so_far(&rt, rt.alloc(), half_read(rt.alloc())?, &replies)
}

/// So many pictures.
fn pictures(alloc: Global, len: usize) -> Result<Items, Refusal> {
    let mut items = Vec::new(alloc);
    for number in 0..len {
        items.push(ItemId::new(Kind::Picture, number as u64))?;
    }
    Ok(Items::of(items))
}

/// How many messages begin a read of so many pictures.
fn begun(alloc: Global, len: usize) -> Result<usize, Refusal> {
    let (_reading, messages) = started(alloc, pictures(alloc, len)?)?;
    Ok(messages.len())
}

/// A read has 512 items at most.
#[test]
fn most_items(rt: HostRuntime) {
    assert_eq!(rt; begun(rt.alloc(), MAX_READ_ITEMS), Ok(512));
    assert_eq!(rt; begun(rt.alloc(), 513), Err(Refusal::TooManyItems));
}
