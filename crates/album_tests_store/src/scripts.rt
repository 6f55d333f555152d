//! What two clients ask of a store, and orders in which it happens: the same asks in each order, and other answers
//! (docs/PROTOCOL.md, "Asks", "A write" and "A service").
use crate::messages::item_of;
use crate::values::{Entry, head, list_of, picture};
use album_access::AceType;
use album_eval::Principal;
use album_items::{
    Album, Content, FirstStamps, ItemId, ItemValues, Items, Kind, Opening, Title, Value,
};
use album_stamps::{ClientNo, Refusal};
use album_views::{Ask, NewList, NewLists};
use bytes::Bytes;
use std::alloc::Global;

/// How many partitions there are.
pub const PARTS: u16 = 4;

/// One of the two clients. amy is client 1 and the owner of all there is, bo is client 2.
#[derive(Clone, Copy)]
pub enum Who {
    Amy,
    Bo,
}

impl Who {
    pub fn client(self) -> Result<ClientNo, Refusal> {
        ClientNo::of(self.number()).ok_or(Refusal::BadRequest)
    }

    fn number(self) -> u16 {
        match self {
            Who::Amy => 1,
            Who::Bo => 2,
        }
    }

    pub fn principal(self) -> Result<Principal, Refusal> {
        match self {
            Who::Amy => Principal::read("amy@users"),
            Who::Bo => Principal::read("bo@users"),
        }
    }

    /// What is asked, first things first.
    pub fn wishes(self) -> &'static [Wish] {
        match self {
            Who::Amy => AMYS,
            Who::Bo => BOS,
        }
    }
}

/// What is asked.
#[derive(Clone, Copy)]
pub enum Wish {
    /// To read picture/0.
    Read,
    /// That picture/0 has this title.
    Retitle(&'static str),
    /// Other lists, each of these entries.
    SetLists(&'static [(&'static str, &'static [Entry])]),
    /// A picture of this title more in album/3.
    Add(&'static str),
}

const AMYS: &[Wish] = &[
    Wish::Retitle("Bay"),
    Wish::SetLists(&[("picture/0", PRIVATE), ("picture/1", PRIVATE)]),
    Wish::Add("Cove"),
];

const BOS: &[Wish] = &[
    Wish::Read,
    Wish::SetLists(&[("picture/0", SHARED)]),
    Wish::Add("Pier"),
    Wish::Read,
];

/// All may read, and set the list; both is audited, whether it is granted or not.
const SHARED: &[Entry] = &[
    (AceType::Audit, "EVERYONE@", 262_145, 48),
    (AceType::Allowed, "OWNER@", 2_032_127, 0),
    (AceType::Allowed, "EVERYONE@", 262_145, 0),
];

/// The owner alone may do anything; the same is audited.
const PRIVATE: &[Entry] = &[
    (AceType::Audit, "EVERYONE@", 262_145, 48),
    (AceType::Allowed, "OWNER@", 2_032_127, 0),
];

/// All may add pictures.
const ADDED_TO: &[Entry] = &[(AceType::Allowed, "EVERYONE@", 2, 0)];

/// One child less than an album may have.
const CHILDREN: u64 = 127;

/// These items as an album's children: pictures that are not there.
fn children(alloc: Global) -> Result<Items, Refusal> {
    let mut children = Vec::new(alloc);
    for number in 0..CHILDREN {
        children.push(ItemId::new(Kind::Picture, 1000 + number))?;
    }
    Ok(Items::of(children))
}

/// amy's album under the list of this number, which has room for one child more.
fn album(alloc: Global, list: u64) -> Result<Value, Refusal> {
    Ok(Value::Album(Album {
        title: Title::of(alloc, "Trip")?,
        head: head(list)?,
        home: None,
        children: children(alloc)?,
    }))
}

fn list(alloc: Global, entries: &[Entry]) -> Result<Value, Refusal> {
    Ok(Value::List(list_of(alloc, entries)?))
}

/// picture/0 and album/3 at partition 0 with their lists at 1, picture/1 at 1 with its list at 2. Group 0, which heads
/// all, is missing and would be placed at 3.
fn items(alloc: Global) -> Result<ItemValues, Refusal> {
    let mut items = Vec::new(alloc);
    items.push((item_of("picture/0")?, picture(alloc, 3)?))?;
    items.push((item_of("list/3")?, list(alloc, SHARED)?))?;
    items.push((item_of("picture/1")?, picture(alloc, 4)?))?;
    items.push((item_of("list/4")?, list(alloc, SHARED)?))?;
    items.push((item_of("album/3")?, album(alloc, 7)?))?;
    items.push((item_of("list/7")?, list(alloc, ADDED_TO)?))?;
    Ok(ItemValues::of(items))
}

/// The store as it opens.
pub fn opening(alloc: Global) -> Result<Opening, Refusal> {
    Ok(Opening {
        parts: u64::from(PARTS),
        limit: 1000,
        policy: 1,
        checked: false,
        root: None,
        first: 0,
        items: items(alloc)?,
        stamps: FirstStamps::new(alloc),
    })
}

fn new_list(alloc: Global, object: &str, entries: &[Entry]) -> Result<NewList, Refusal> {
    let object = item_of(object)?;
    let list = list_of(alloc, entries)?;
    Ok(NewList { object, list })
}

/// New lists: of each object these entries.
pub fn new_lists(
    alloc: Global,
    rows: &[(&'static str, &'static [Entry])],
) -> Result<NewLists, Refusal> {
    let mut lists = Vec::new(alloc);
    for (object, entries) in rows {
        lists.push(new_list(alloc, object, entries)?)?;
    }
    Ok(NewLists::of(lists))
}

/// The ask for the wish.
pub fn ask_of(alloc: Global, wish: Wish) -> Result<Ask, Refusal> {
    match wish {
        Wish::Read => Ok(Ask::Read {
            object: item_of("picture/0")?,
        }),
        Wish::Retitle(title) => Ok(Ask::Retitle {
            object: item_of("picture/0")?,
            title: Title::of(alloc, title)?,
        }),
        Wish::SetLists(rows) => Ok(Ask::SetLists {
            lists: new_lists(alloc, rows)?,
        }),
        Wish::Add(title) => added(alloc, title),
    }
}

fn added(alloc: Global, title: &str) -> Result<Ask, Refusal> {
    let album = item_of("album/3")?;
    let content = Content::of(Bytes::new())?;
    let title = Title::of(alloc, title)?;
    Ok(Ask::AddPicture {
        album,
        title,
        content,
    })
}

/// What happens next.
#[derive(Clone, Copy)]
pub enum Step {
    /// This client asks for the next of its wishes.
    Ask(Who),
    /// One after another these partitions take the next mail that lies there.
    Take(&'static [u16]),
}

/// What happens, and its outcome.
pub struct Script {
    pub steps: &'static [Step],
    /// The answers to amy and bo, and how many entries have audited what was granted and what was denied.
    pub answers: &'static str,
}
