//! Calls on a partition that are refused for want of memory (docs/PROTOCOL.md, "What a partition answers"): it is then
//! as it was, and a call that is made once more does what one does that is not refused. doubt/memory refuses each
//! allocation of these tests in turn; where none is, they show the answers alone.
use crate::messages::{
    Is, Rows, Step, item_of, reply_or_dash, rows_of, same, sent, stamp_of, texts_of,
};
use album_calls::{Message, Node};
use album_items::ItemValues;
use album_partition::Partition;
use album_stamps::{Refusal, Refused};
use std::alloc::Global;
use std::fmt::Debug;
use std::test::Fail;

/// The text of the whole value, or that there was no memory for it.
pub fn whole_text<T: Debug>(alloc: Global, value: &T) -> Result<String, Refusal> {
    Ok(format!(in alloc; "{value:?}")?)
}

/// Whether the value is what it was when this text was made of it.
pub fn is_as_before<T: Debug>(alloc: Global, value: &T, before: &Result<String, Refusal>) -> bool {
    match (before, whole_text(alloc, value)) {
        (Ok(before), Ok(now)) => now == *before,
        _ => false,
    }
}

const FIRST: Rows = &[("picture/0", Is::Picture(1))];

const OTHER: Rows = &[("picture/0", Is::Picture(2))];

const PICTURE: &[&str] = &["picture/0"];

/// list/1 is placed at partition 0 of 3, and list/0 at partition 2.
const LIST_1: Rows = &[("list/1", Is::List)];

const LISTS: &[&str] = &["list/0", "list/1"];

/// Partition 0 of three, with one picture.
fn opened(alloc: Global) -> Result<Partition, Refusal> {
    let items = rows_of(alloc, FIRST)?;
    let before = whole_text(alloc, &items);
    match Partition::new(alloc, 0, 3, items, 10) {
        Ok(partition) => Ok(partition),
        Err(Refused { refusal: _, given }) => opened_again(alloc, given, &before),
    }
}

fn opened_again(
    alloc: Global,
    items: ItemValues,
    before: &Result<String, Refusal>,
) -> Result<Partition, Refusal> {
    if !is_as_before(alloc, &items, before) {
        return Err(Refusal::Clash);
    }
    Ok(Partition::new(alloc, 0, 3, items, 10)?)
}

/// The stamps of these tests.
const STAMPS: &[u64] = &[65537, 131073, 196609];

/// What the partition replies of the item to one who has seen all of them.
fn got(alloc: Global, partition: &mut Partition, item: &'static str) -> Result<String, Refusal> {
    let message = sent(alloc, Node::Part(0), 10, Step::Get(item, STAMPS))?;
    let reply = partition.receive(&message)?;
    reply_or_dash(alloc, &reply)
}

/// What the partition shows: its marks, and what it replies of its items.
fn shown(alloc: Global, partition: &mut Partition) -> Result<String, Refusal> {
    let picture = got(alloc, partition, "picture/0")?;
    let list = got(alloc, partition, "list/1")?;
    let marks = whole_text(alloc, &partition.history())?;
    Ok(format!(in alloc; "{} {} {}", marks.as_str(), picture.as_str(), list.as_str())?)
}

/// Whether the partition shows what it did when this text was made of it.
fn stays(alloc: Global, partition: &mut Partition, before: &Result<String, Refusal>) -> bool {
    match (before, shown(alloc, partition)) {
        (Ok(before), Ok(now)) => now == *before,
        _ => false,
    }
}

fn received(
    alloc: Global,
    partition: &mut Partition,
    message: &Message,
) -> Result<Option<Message>, Refusal> {
    let before = shown(alloc, partition);
    match partition.receive(message) {
        Ok(reply) => Ok(reply),
        Err(_) if stays(alloc, partition, &before) => partition.receive(message),
        Err(_) => Err(Refusal::Clash),
    }
}

fn trimmed(alloc: Global, partition: &mut Partition, item: &str) -> Result<(), Refusal> {
    let item = item_of(item)?;
    let before = shown(alloc, partition);
    match partition.trim(item) {
        Ok(()) => Ok(()),
        Err(_) if stays(alloc, partition, &before) => partition.trim(item),
        Err(_) => Err(Refusal::Clash),
    }
}

fn swept(partition: &Partition, stamp: u64) -> Result<Vec<Message>, Refusal> {
    let stamp = stamp_of(stamp)?;
    match partition.sweep(stamp) {
        Ok(messages) => Ok(messages),
        Err(_) => partition.sweep(stamp),
    }
}

/// What the partition replies to a message of client 1.
fn answer(
    alloc: Global,
    partition: &mut Partition,
    tag: u64,
    step: Step,
) -> Result<String, Refusal> {
    let message = sent(alloc, Node::Part(0), tag, step)?;
    let reply = received(alloc, partition, &message)?;
    reply_or_dash(alloc, &reply)
}

/// What is sent under which tag, and what is replied.
const REPLIES: &[(u64, Step, &str)] = &[
    (
        1,
        Step::Get("picture/0", &[]),
        "p0 c1 1 version picture/0 0 picture",
    ),
    (
        2,
        Step::Prepare(65537, OTHER, PICTURE),
        "p0 c1 2 prepared 65537",
    ),
    (3, Step::Check(65537), "p0 c1 3 status 65537 prepared"),
    (4, Step::Commit(65537), "p0 c1 4 committed 65537"),
    (
        5,
        Step::Get("picture/0", &[0, 65537]),
        "p0 c1 5 version picture/0 65537 picture",
    ),
    (6, Step::Check(131073), "p0 c1 6 status 131073 never"),
    (7, Step::Commit(131073), "p0 c1 7 discarded 131073"),
    (
        8,
        Step::Prepare(196609, LIST_1, LISTS),
        "p0 c1 8 prepared 196609",
    ),
];

/// The partition, once it has replied so.
fn replied(alloc: Global) -> Result<Partition, Refusal> {
    let mut partition = opened(alloc)?;
    for (tag, step, expected) in REPLIES {
        let text = answer(alloc, &mut partition, *tag, *step)?;
        if text.as_str() != *expected {
            return Err(Refusal::Clash);
        }
    }
    Ok(partition)
}

/// What it sends in a sweep of what is pending.
fn sweep_text(alloc: Global) -> Result<String, Refusal> {
    let partition = replied(alloc)?;
    let messages = swept(&partition, 196609)?;
    texts_of(alloc, &messages)
}

/// Whether the picture's first version is there, once older ones are let go.
fn trim_text(alloc: Global) -> Result<String, Refusal> {
    let mut partition = replied(alloc)?;
    trimmed(alloc, &mut partition, "picture/0")?;
    answer(alloc, &mut partition, 9, Step::Get("picture/0", &[0]))
}

/// Of the two lists, list/0 is written at partition 2.
#[test]
fn what_is_refused_is_made_again(rt: HostRuntime) -> Result<(), Fail> {
    same(&rt, sweep_text(rt.alloc()), "p0 p2 0 check 196609; ")?;
    same(&rt, trim_text(rt.alloc()), "p0 c1 9 gone picture/0")
}
