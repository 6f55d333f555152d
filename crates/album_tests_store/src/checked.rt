//! Two writes of one item that race in a world. Where it opened checked at most one of them is committed, and stays.
//! Where it didn't both are, and the one of the lower stamp is lost (docs/PROTOCOL.md, "What a partition answers").
use crate::answers::text_of;
use crate::asked::Wish;
use crate::asked::Wish::{
    Add, Delete, Give, List, Move, Read, Retitle, SetLists, SetMembers, SwapLists,
};
use crate::delayed::group;
use crate::messages::{item_of, same};
use crate::sessions::{OWNED, list};
use crate::values::{Entry, album_of_two, head, picture};
use album_access::AceType;
use album_calls::{Body, Message, Node, Request};
use album_items::{Album, FirstStamps, ItemValues, Items, Opening, Title, Value};
use album_stamps::{ClientNo, Refusal};
use album_world::{Event, Out, World};
use std::alloc::Global;
use std::process::Abort;
use std::test::Fail;

/// More messages than any of these worlds sends.
const MOST: u64 = 1000;

/// The owner may do anything, and the members of group/7 may read.
const SHARED: &[Entry] = &[
    (AceType::Allowed, "OWNER@", 2_032_127, 0),
    (AceType::Allowed, "7@groups", 129, 64),
];

/// The owner may do anything, with the pictures that are added too.
const PASSED_ON: &[Entry] = &[(AceType::Allowed, "OWNER@", 2_032_127, 1)];

/// amy's album/1, in which nothing is.
fn empty_album(alloc: Global) -> Result<Value, Refusal> {
    Ok(Value::Album(Album {
        title: Title::of(alloc, "Trip")?,
        head: head(3)?,
        home: None,
        children: Items::of(Vec::new(alloc)),
    }))
}

/// Three partitions. picture/0 and the lists 1 and 7 are placed at 0; picture/1, album/0, list/2 and group/7 at 1;
/// album/1 and the lists 0 and 3 at 2. Group 0, which heads all, is missing and would be placed at 0.
fn opening(alloc: Global, checked: bool) -> Result<Opening, Refusal> {
    let mut items = Vec::new(alloc);
    items.push((item_of("picture/0")?, picture(alloc, 0)?))?;
    items.push((item_of("picture/1")?, picture(alloc, 1)?))?;
    items.push((item_of("album/0")?, album_of_two(alloc)?))?;
    items.push((item_of("album/1")?, empty_album(alloc)?))?;
    items.push((item_of("list/0")?, list(alloc, SHARED)?))?;
    items.push((item_of("list/1")?, list(alloc, OWNED)?))?;
    items.push((item_of("list/2")?, list(alloc, PASSED_ON)?))?;
    items.push((item_of("list/3")?, list(alloc, OWNED)?))?;
    items.push((item_of("list/7")?, list(alloc, OWNED)?))?;
    items.push((item_of("group/7")?, group(alloc)?))?;
    Ok(Opening {
        parts: 3,
        limit: 1000,
        policy: 1,
        checked,
        root: None,
        first: 0,
        items: ItemValues::of(items),
        stamps: FirstStamps::new(alloc),
    })
}

/// What happens next.
#[derive(Clone, Copy)]
enum Turn {
    /// The partitions take the Prepares of this client that they have not taken yet.
    Prepares(u16),
    /// This one of them does.
    PrepareAt(u16, u16),
    /// All else that was sent is delivered, in the order in which it was sent.
    Rest,
}

/// A Prepare on its way.
#[derive(Clone, Copy)]
struct Held {
    client: u16,
    part: u16,
    number: u64,
    is_taken: bool,
}

/// A world in which Prepares are held, the answers to clients 1 and 2, and what client 3 sees afterwards.
#[derive(Drop)]
struct Racing {
    alloc: Global,
    world: World,
    /// The number of the first message that was not looked at.
    next: u64,
    held: Vec<Held>,
    one: String,
    other: String,
    seen: String,
}

fn is_prepare(body: &Body) -> bool {
    matches!(
        body,
        Body::Request(Request::Prepare(_, _, _)) | Body::Request(Request::PrepareOn(_, _, _, _))
    )
}

fn sender_of(message: &Message) -> Option<u16> {
    match message.from() {
        Node::Client(client) => Some(client.number()),
        Node::Part(_) => None,
    }
}

fn receiver_of(message: &Message) -> Option<u16> {
    match message.to() {
        Node::Part(part) => Some(part),
        Node::Client(_) => None,
    }
}

/// The Prepare that this message is, if it is one.
fn held_of(message: &Message, number: u64) -> Option<Held> {
    if !is_prepare(message.body()) {
        return None;
    }
    let client = sender_of(message)?;
    let part = receiver_of(message)?;
    Some(Held {
        client,
        part,
        number,
        is_taken: false,
    })
}

/// Whether it is this client's, and is for this partition, if one is named.
fn is_due(held: &Held, client: u16, part: Option<u16>) -> bool {
    match part {
        Some(part) if part != held.part => false,
        _ => held.client == client && !held.is_taken,
    }
}

impl Racing {
    fn new(alloc: Global, checked: bool) -> Result<Racing, Refusal> {
        let opening = opening(alloc, checked)?;
        let world = World::open(alloc, &opening)?;
        Ok(Racing {
            alloc,
            world,
            next: 1,
            held: Vec::new(alloc),
            one: String::new(alloc),
            other: String::new(alloc),
            seen: String::new(alloc),
        })
    }

    fn happen(&mut self, event: &Event) -> Result<(), Refusal> {
        let outs = self.world.step(event)?;
        let heard = self.hear_all(&outs);
        drop(outs);
        heard
    }

    fn hear_all(&mut self, outs: &[Out]) -> Result<(), Refusal> {
        for out in outs {
            self.hear(out)?;
        }
        Ok(())
    }

    fn hear(&mut self, out: &Out) -> Result<(), Refusal> {
        let Out::Answered(client, answer) = out else {
            return Ok(());
        };
        let text = text_of(self.alloc, answer)?;
        self.answer(client.number(), text.as_str())
    }

    fn answer(&mut self, client: u16, text: &str) -> Result<(), Refusal> {
        let answers = match client {
            1 => &mut self.one,
            2 => &mut self.other,
            _ => &mut self.seen,
        };
        answers.push_str(text)?;
        answers.push_str("; ")?;
        Ok(())
    }

    fn ask(&mut self, client: u16, wish: Wish) -> Result<(), Refusal> {
        let client = ClientNo::of(client).ok_or(Refusal::BadRequest)?;
        let event = Event::Ask(client, wish.principal()?, wish.ask(self.alloc)?);
        let happened = self.happen(&event);
        drop(event);
        happened?;
        self.rest()
    }

    /// All that was sent is delivered, and what is sent then, but for Prepares.
    fn rest(&mut self) -> Result<(), Refusal> {
        for number in self.next..MOST {
            if number > self.world.sent() {
                return Ok(());
            }
            self.next = number.wrapping_add(1);
            self.pass(number)?;
        }
        Err(Refusal::Full)
    }

    fn pass(&mut self, number: u64) -> Result<(), Refusal> {
        let Some(message) = self.world.message(number) else {
            return Err(Refusal::NoSuchMessage);
        };
        match held_of(message, number) {
            Some(held) => Ok(self.held.push(held)?),
            None => self.happen(&Event::Deliver(number)),
        }
    }

    fn take(&mut self, client: u16, part: Option<u16>) -> Result<(), Refusal> {
        for index in 0..self.held.len() {
            self.take_one(index, client, part)?;
        }
        Ok(())
    }

    fn take_one(&mut self, index: usize, client: u16, part: Option<u16>) -> Result<(), Refusal> {
        let Some(held) = self.held.get_mut(index) else {
            return Err(Refusal::NoSuchMessage);
        };
        if !is_due(held, client, part) {
            return Ok(());
        }
        held.is_taken = true;
        let number = held.number;
        self.happen(&Event::Deliver(number))
    }

    fn turn(&mut self, turn: Turn) -> Result<(), Refusal> {
        match turn {
            Turn::Prepares(client) => self.take(client, None),
            Turn::PrepareAt(client, part) => self.take(client, Some(part)),
            Turn::Rest => self.rest(),
        }
    }

    fn turns(&mut self, turns: &[Turn]) -> Result<(), Refusal> {
        for turn in turns {
            self.turn(*turn)?;
        }
        Ok(())
    }

    fn look(&mut self, looks: &[Wish]) -> Result<(), Refusal> {
        for wish in looks {
            self.ask(3, *wish)?;
        }
        Ok(())
    }
}

/// Two writes that clients 1 and 2 make for amy, both on what the opening has; what client 3 asks afterwards; and the
/// answers to it, where the first alone is committed, where the other alone is, and where both are.
#[derive(Clone, Copy)]
struct Race {
    one: Wish,
    other: Wish,
    looks: &'static [Wish],
    one_alone: &'static str,
    other_alone: &'static str,
    both: &'static str,
}

/// The answers once the two have read and these turns were taken.
fn raced(alloc: Global, checked: bool, race: &Race, turns: &[Turn]) -> Result<String, Refusal> {
    let mut racing = Racing::new(alloc, checked)?;
    racing.ask(1, race.one)?;
    racing.ask(2, race.other)?;
    racing.turns(turns)?;
    racing.look(race.looks)?;
    let (one, other, seen) = (
        racing.one.as_str(),
        racing.other.as_str(),
        racing.seen.as_str(),
    );
    Ok(format!(in alloc; "{one}{other}{seen}")?)
}

/// Two pictures are added to one album. Where both are committed the first one is in no listing.
const ADDITIONS: Race = Race {
    one: Add("Bay"),
    other: Add("Cove"),
    looks: &[List("amy@users", "album/0")],
    one_alone: "listed picture/0 picture/1 picture/65537; ",
    other_alone: "listed picture/0 picture/1 picture/65538; ",
    both: "listed picture/0 picture/1 picture/65538; ",
};

/// A picture is given to bo, and gets another title. Where both are committed it is amy's still.
const GIFT: Race = Race {
    one: Give("picture/0"),
    other: Retitle("picture/0", "Bay"),
    looks: &[Read("bo@users", "picture/0")],
    one_alone: "Sea at 65537; ",
    other_alone: "denied picture/0 at the end; ",
    both: "denied picture/0 at the end; ",
};

/// A picture is deleted, and gets another title. Where both are committed it is there, without a list.
const DELETION: Race = Race {
    one: Delete("picture/0"),
    other: Retitle("picture/0", "Bay"),
    looks: &[Read("amy@users", "picture/0")],
    one_alone: "missing picture/0; ",
    other_alone: "Bay at 65538; ",
    both: "denied picture/0 at the end; ",
};

/// Two pictures are moved from one album to another. Where both are committed the first one is in neither listing: its
/// home has it not as a child.
const MOVES: Race = Race {
    one: Move("picture/0"),
    other: Move("picture/1"),
    looks: &[List("amy@users", "album/0"), List("amy@users", "album/1")],
    one_alone: "listed picture/1; listed picture/0; ",
    other_alone: "listed picture/0; listed picture/1; ",
    both: "listed; listed picture/1; ",
};

/// Two lists are set, at partitions 0 and 2. cy is in the group that may read picture/0 at first. Where both are
/// committed, nothing of the first is left.
const LISTS: Race = Race {
    one: SetLists,
    other: SwapLists,
    looks: &[Read("cy@users", "picture/0"), Read("cy@users", "picture/1")],
    one_alone: "denied picture/0 at the end; Sea at 0; ",
    other_alone: "Sea at 0; denied picture/1 at the end; ",
    both: "Sea at 0; denied picture/1 at the end; ",
};

/// A group gets bo in the place of cy, and is given to bo. Where both are committed bo is not in it.
const MEMBERS: Race = Race {
    one: SetMembers,
    other: Give("group/7"),
    looks: &[Read("bo@users", "picture/0")],
    one_alone: "Sea at 0; ",
    other_alone: "denied picture/0 at the end; ",
    both: "denied picture/0 at the end; ",
};

const RACES: &[Race] = &[ADDITIONS, GIFT, DELETION, MOVES, LISTS, MEMBERS];

/// The Prepares of client 1 come first: those of client 2 come once it is answered, or right after them.
const ONE_FIRST: &[&[Turn]] = &[
    &[Turn::Prepares(1), Turn::Rest, Turn::Prepares(2), Turn::Rest],
    &[Turn::Prepares(1), Turn::Prepares(2), Turn::Rest],
];

/// Those of client 2 come first.
const OTHER_FIRST: &[&[Turn]] = &[
    &[Turn::Prepares(2), Turn::Rest, Turn::Prepares(1), Turn::Rest],
    &[Turn::Prepares(2), Turn::Prepares(1), Turn::Rest],
];

/// The Prepares to partition 0 come in one order, and those to partition 2 in the other.
const CROSSED: &[&[Turn]] = &[&[
    Turn::PrepareAt(1, 0),
    Turn::PrepareAt(2, 2),
    Turn::Prepares(1),
    Turn::Prepares(2),
    Turn::Rest,
]];

/// The answers to clients 1 and 2.
const ONE: &str = "committed at 65537; aborted at 65538; ";

const OTHER: &str = "aborted at 65537; committed at 65538; ";

const BOTH: &str = "committed at 65537; committed at 65538; ";

const NEITHER: &str = "aborted at 65537; aborted at 65538; ";

/// In each of these orders the two clients get these answers, and the third one sees this.
fn assert_raced(
    rt: &impl Abort,
    race: &Race,
    (alloc, checked): (Global, bool),
    orders: &[&[Turn]],
    (answers, seen): (&str, &str),
) -> Result<(), Fail> {
    let expected = expected(alloc, answers, seen)?;
    for turns in orders {
        same(rt, raced(alloc, checked, race, turns), expected.as_str())?;
    }
    Ok(())
}

fn expected(alloc: Global, answers: &str, seen: &str) -> Result<String, Refusal> {
    Ok(format!(in alloc; "{answers}{seen}")?)
}

#[test]
fn one_of_two_writes_is_committed(rt: HostRuntime) -> Result<(), Fail> {
    let checked = (rt.alloc(), true);
    for race in RACES {
        assert_raced(&rt, race, checked, ONE_FIRST, (ONE, race.one_alone))?;
        assert_raced(&rt, race, checked, OTHER_FIRST, (OTHER, race.other_alone))?;
    }
    Ok(())
}

#[test]
fn each_refuses_the_other(rt: HostRuntime) -> Result<(), Fail> {
    let as_before = "Sea at 0; denied picture/1 at the end; ";
    assert_raced(
        &rt,
        &LISTS,
        (rt.alloc(), true),
        CROSSED,
        (NEITHER, as_before),
    )
}

#[test]
fn without_the_key_a_write_is_lost(rt: HostRuntime) -> Result<(), Fail> {
    let plain = (rt.alloc(), false);
    for race in RACES {
        assert_raced(&rt, race, plain, ONE_FIRST, (BOTH, race.both))?;
        assert_raced(&rt, race, plain, OTHER_FIRST, (BOTH, race.both))?;
    }
    Ok(())
}
