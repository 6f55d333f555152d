//! A store that a table spells, and what a read of its items finds.
use album_access::{AceFlags, AceType, Mask};
use album_calls::{Body, Message, Node, Reply};
use album_items::{
    Album, Content, Head, ItemId, Items, Kind, Members, Picture, SharedValue, Title, Value,
    are_distinct, read_item,
};
use album_lists::{AccessList, Ace, Member, Name, Who};
use album_reader::{Reading, Snapshot, Step};
use album_stamps::{ClientNo, Refusal, Stamp};
use bytes::Bytes;
use std::alloc::Global;

/// What an item is.
#[derive(Clone, Copy)]
pub enum Is {
    /// amy's picture in album/0, under the list of this number.
    Picture(u64),
    /// amy's album of 128 pictures, from picture/0 on, under the list of this number.
    Album(u64),
    /// A list of these entries.
    List(&'static [Entry]),
}

/// The type, the who, the mask and the flags of an entry.
pub type Entry = (AceType, &'static str, u32, u32);

pub const ALLOW: AceType = AceType::Allowed;

pub const AMY: &str = "amy@users";

/// Items, each with what it is at the zero stamp. All other items are missing.
pub type Store = &'static [(&'static str, Is)];

pub fn item_of(text: &str) -> Result<ItemId, Refusal> {
    read_item(text).ok_or(Refusal::BadRequest)
}

/// A head of amy's, of the head group 0, with the list of this number.
fn head(list: u64) -> Result<Head, Refusal> {
    let owner = Name::of("amy")?;
    Ok(Head {
        owner,
        group: 0,
        list,
    })
}

fn picture(alloc: Global, list: u64) -> Result<Value, Refusal> {
    Ok(Value::Picture(Picture {
        title: Title::of(alloc, "Sea")?,
        content: Content::of(Bytes::new())?,
        head: head(list)?,
        home: 0,
    }))
}

fn children(alloc: Global) -> Result<Items, Refusal> {
    let mut items = Vec::new(alloc);
    for number in 0..128 {
        items.push(ItemId::new(Kind::Picture, number))?;
    }
    Ok(Items::of(items))
}

fn album(alloc: Global, list: u64) -> Result<Value, Refusal> {
    Ok(Value::Album(Album {
        title: Title::of(alloc, "Trip")?,
        head: head(list)?,
        home: None,
        children: children(alloc)?,
    }))
}

fn entry_of((sort, who, mask, flags): Entry) -> Result<Ace, Refusal> {
    let flags = AceFlags::of(flags)?;
    let mask = Mask::of(mask)?;
    let who = Who::read(who, flags)?;
    Ok(Ace {
        sort,
        who,
        mask,
        flags,
    })
}

/// The list of these entries.
pub fn list_of(alloc: Global, rows: &[Entry]) -> Result<AccessList, Refusal> {
    let mut entries = Vec::new(alloc);
    for row in rows {
        entries.push(entry_of(*row)?)?;
    }
    Ok(AccessList::new(entries)?)
}

fn list(alloc: Global, rows: &[Entry]) -> Result<Value, Refusal> {
    Ok(Value::List(list_of(alloc, rows)?))
}

/// So many groups as members, from the one of this number on.
pub fn groups(alloc: Global, first: u64, len: u64) -> Result<Members, Refusal> {
    let mut members = Vec::new(alloc);
    for index in 0..len {
        members.push(Member::Group(first.wrapping_add(index)))?;
    }
    Ok(Members::of(members))
}

fn value_of(alloc: Global, is: Is) -> Result<Value, Refusal> {
    match is {
        Is::Picture(list) => picture(alloc, list),
        Is::Album(list) => album(alloc, list),
        Is::List(entries) => list(alloc, entries),
    }
}

/// What the item is in the store, if it is there.
fn is_at(store: Store, item: ItemId) -> Option<Is> {
    for (text, is) in store {
        if read_item(text) == Some(item) {
            return Some(*is);
        }
    }
    None
}

/// The item's value in the store.
fn found(alloc: Global, store: Store, item: ItemId) -> Result<Value, Refusal> {
    match is_at(store, item) {
        Some(is) => value_of(alloc, is),
        None => Ok(Value::Missing),
    }
}

/// What the one partition replies to client 1 for the item.
fn version(alloc: Global, store: Store, tag: u64, item: ItemId) -> Result<Message, Refusal> {
    let client = ClientNo::of(1).ok_or(Refusal::BadRequest)?;
    let value = found(alloc, store, item)?;
    let value = SharedValue::of(alloc, value)?;
    let body = Body::Reply(Reply::Version(item, Stamp::zero(), value));
    Ok(Message::new(Node::Part(0), Node::Client(client), tag, body))
}

fn versions(
    alloc: Global,
    store: Store,
    tag: u64,
    items: &[ItemId],
) -> Result<Vec<Message>, Refusal> {
    let mut versions = Vec::new(alloc);
    for item in items {
        versions.push(version(alloc, store, tag, *item)?)?;
    }
    Ok(versions)
}

/// Client 1 begins to read these items of one partition, under the tag 1.
fn started(alloc: Global, items: &Items) -> Result<Reading, Refusal> {
    if items.as_slice().is_empty() || !are_distinct(items.as_slice()) {
        return Err(Refusal::BadRequest);
    }
    let client = ClientNo::of(1).ok_or(Refusal::BadRequest)?;
    let (reading, messages) = Reading::start(alloc, items.clone()?, client, 1, 1)?;
    drop(messages);
    Ok(reading)
}

/// The step after one more reply.
fn given(step: Step, reply: &Message) -> Result<Step, Refusal> {
    match step {
        Step::Same(reading) => Ok(reading.on_reply(reply)?),
        other @ (Step::Next(_, _) | Step::Done(_) | Step::Gone(_)) => {
            drop(other);
            Err(Refusal::Clash)
        }
    }
}

/// The step that the reading leads to, given one reply after the other.
fn after(reading: Reading, replies: &[Message]) -> Result<Step, Refusal> {
    let mut step = Step::Same(reading);
    for reply in replies {
        step = given(step, reply)?;
    }
    Ok(step)
}

fn second(step: Step) -> Result<Reading, Refusal> {
    match step {
        Step::Next(reading, messages) => {
            drop(messages);
            Ok(reading)
        }
        other @ (Step::Same(_) | Step::Done(_) | Step::Gone(_)) => {
            drop(other);
            Err(Refusal::Clash)
        }
    }
}

fn done(step: Step) -> Result<Snapshot, Refusal> {
    match step {
        Step::Done(snapshot) => Ok(snapshot),
        other @ (Step::Same(_) | Step::Next(_, _) | Step::Gone(_)) => {
            drop(other);
            Err(Refusal::Clash)
        }
    }
}

/// The second round of a read of the items.
fn halfway(alloc: Global, store: Store, items: &Items) -> Result<Reading, Refusal> {
    let first = versions(alloc, store, 1, items.as_slice())?;
    second(after(started(alloc, items)?, &first)?)
}

/// What a read of the items finds.
pub fn snapshot(alloc: Global, store: Store, items: &Items) -> Result<Snapshot, Refusal> {
    let replies = versions(alloc, store, 2, items.as_slice())?;
    done(after(halfway(alloc, store, items)?, &replies)?)
}
