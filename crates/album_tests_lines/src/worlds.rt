//! A world by calls that no line makes: several events at once, and what is looked up in it (docs/PROTOCOL.md, "The
//! world"). amy sets another list of her picture, the one item at the one partition. The ask sends message 1, and each
//! message that comes sends the next: the picture is read by 1 to 4; it, its list and its group by 5 to 16; then come
//! the Prepare 17 and its answer 18, the Commit 19 and its answer 20. An event that is refused for want of memory is
//! stepped once more: doubt/memory refuses each allocation of these tests in turn.
use album_eval::Principal;
use album_items::{
    Content, FirstStamps, Head, ItemId, ItemValues, Kind, Opening, Picture, Title, Value,
};
use album_lists::{AccessList, Name};
use album_permits::{Answer, Event, Out};
use album_stamps::{ClientNo, Refusal};
use album_views::{Ask, NewList, NewLists};
use album_world::World;
use bytes::Bytes;
use std::alloc::Global;

/// Counter 1 of client 1.
const T: u64 = 65_537;

const MESSAGES: u64 = 20;

fn the_picture() -> ItemId {
    ItemId::new(Kind::Picture, 0)
}

/// amy's picture, without a title and a content.
fn picture(alloc: Global) -> Result<Value, Refusal> {
    let head = Head {
        owner: Name::of("amy")?,
        group: 0,
        list: 0,
    };
    Ok(Value::Picture(Picture {
        title: Title::of(alloc, "")?,
        content: Content::of(Bytes::new())?,
        head,
        home: 0,
    }))
}

fn items(alloc: Global) -> Result<ItemValues, Refusal> {
    let mut rows = Vec::new(alloc);
    rows.push((the_picture(), picture(alloc)?))?;
    Ok(ItemValues::of(rows))
}

/// A world of one partition, in which an owner may always change the list.
fn opened(alloc: Global) -> Result<World, Refusal> {
    let opening = Opening {
        parts: 1,
        limit: 10,
        policy: 2,
        checked: false,
        root: None,
        first: 0,
        items: items(alloc)?,
        stamps: FirstStamps::new(alloc),
    };
    let world = World::open(alloc, &opening);
    drop(opening);
    world
}

/// The picture is to have a list without an entry.
fn lists(alloc: Global) -> Result<NewLists, Refusal> {
    let list = AccessList::new(Vec::new(alloc))?;
    let mut lists = Vec::new(alloc);
    lists.push(NewList {
        object: the_picture(),
        list,
    })?;
    Ok(NewLists::of(lists))
}

/// Client 1 asks that for amy.
fn ask(alloc: Global) -> Result<Event, Refusal> {
    let client = ClientNo::of(1).ok_or(Refusal::BadRequest)?;
    let amy = Principal::read("amy@users")?;
    let lists = lists(alloc)?;
    Ok(Event::Ask(client, amy, Ask::SetLists { lists }))
}

/// The ask, and then each message.
fn events(alloc: Global) -> Result<Vec<Event>, Refusal> {
    let mut events = Vec::new(alloc);
    events.push(ask(alloc)?)?;
    for number in 1..=MESSAGES {
        events.push(Event::Deliver(number))?;
    }
    Ok(events)
}

/// The stamp of the commit among the outputs, or 0.
fn committed_in(outs: &[Out]) -> u64 {
    for out in outs {
        if let Out::Answered(_, Answer::Committed(stamp)) = out {
            return stamp.value();
        }
    }
    0
}

/// The sum of the stamps whose commits are among the outputs, where no event is refused.
fn committed(results: &[Result<Vec<Out>, Refusal>]) -> Result<u64, Refusal> {
    let mut stamps: u64 = 0;
    for result in results {
        match result {
            Ok(outs) => stamps = stamps.wrapping_add(committed_in(outs)),
            Err(refusal) => return Err(*refusal),
        }
    }
    Ok(stamps)
}

/// The sum of the stamps that the events at once commit. They run once more, where there was no memory for any.
fn at_once(world: &mut World, events: &[Event]) -> Result<u64, Refusal> {
    match world.run(events) {
        Ok(results) => committed(&results),
        Err(_) => committed(&world.run(events)?),
    }
}

/// The stamp that the event commits, or 0. It is stepped once more, where it was refused.
fn stepped(world: &mut World, event: &Event) -> Result<u64, Refusal> {
    match world.step(event) {
        Ok(outs) => Ok(committed_in(&outs)),
        Err(_) => Ok(committed_in(&world.step(event)?)),
    }
}

fn one_by_one(world: &mut World, events: &[Event]) -> Result<u64, Refusal> {
    let mut stamps: u64 = 0;
    for event in events {
        stamps = stamps.wrapping_add(stepped(world, event)?);
    }
    Ok(stamps)
}

/// How many marks the partition of this number has, if there is one.
fn marks(world: &World, number: u16) -> Option<usize> {
    match world.partition(number) {
        Some(partition) => Some(partition.history().len()),
        None => None,
    }
}

/// The sum of the stamps that the events commit, how many messages were sent, and the marks of partitions 0 and 1.
type Ran = (u64, u64, Option<usize>, Option<usize>);

fn ran(alloc: Global, is_at_once: bool) -> Result<Ran, Refusal> {
    let events = events(alloc)?;
    let mut world = opened(alloc)?;
    let sum = run(&mut world, &events, is_at_once)?;
    Ok((sum, world.sent(), marks(&world, 0), marks(&world, 1)))
}

fn run(world: &mut World, events: &[Event], is_at_once: bool) -> Result<u64, Refusal> {
    if is_at_once {
        at_once(world, events)
    } else {
        one_by_one(world, events)
    }
}

/// The list is prepared and committed, which are two marks.
#[test]
fn events_at_once_and_one_by_one(rt: HostRuntime) {
    let done = (T, MESSAGES, Some(2), None);
    assert_eq!(rt; ran(rt.alloc(), true), Ok(done));
    assert_eq!(rt; ran(rt.alloc(), false), Ok(done));
}
