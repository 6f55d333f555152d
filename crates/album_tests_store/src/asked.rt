//! What a client or a session asks, the answers to a session, and how many messages partitions take for that.
use crate::answers::text_of;
use crate::gates::Counts;
use crate::messages::{item_of, same, stamp_of};
use crate::scripts::new_lists;
use crate::sessions::{OWNED, READABLE};
use crate::values::Entry;
use album_eval::Principal;
use album_items::{Content, Members, Title};
use album_lists::{Member, Name};
use album_stamps::Refusal;
use album_threads::{ServiceNames, Session};
use album_views::Ask;
use bytes::Bytes;
use std::alloc::Global;
use std::process::Abort;
use std::sync::Wait;
use std::test::Fail;
use std::time;

/// What is asked: by whom it says, or else for amy.
#[derive(Clone, Copy)]
pub enum Wish {
    /// To read the object, for whom this is.
    Read(&'static str, &'static str),
    /// To list the album, for whom this is.
    List(&'static str, &'static str),
    /// That the picture has this title.
    Retitle(&'static str, &'static str),
    /// That picture/0 has this head group.
    SetGroup(u64),
    /// That picture/0 is for its owner alone.
    SetList,
    /// The same, and that all may read picture/1.
    SetLists,
    /// That the owner alone may do anything with picture/1, and that all may read picture/0.
    SwapLists,
    /// That bo alone is in group/7.
    SetMembers,
    /// That the object is bo's.
    Give(&'static str),
    /// A picture of this title more in album/0.
    Add(&'static str),
    /// That the picture is in album/1.
    Move(&'static str),
    /// To delete the picture.
    Delete(&'static str),
}

impl Wish {
    pub fn principal(self) -> Result<Principal, Refusal> {
        match self {
            Wish::Read(who, _) | Wish::List(who, _) => Principal::read(who),
            _ => Principal::read("amy@users"),
        }
    }

    pub fn ask(self, alloc: Global) -> Result<Ask, Refusal> {
        match self {
            Wish::Read(_, object) => Ok(Ask::Read {
                object: item_of(object)?,
            }),
            Wish::List(_, album) => Ok(Ask::List {
                album: item_of(album)?,
            }),
            Wish::Retitle(object, title) => Ok(Ask::Retitle {
                object: item_of(object)?,
                title: Title::of(alloc, title)?,
            }),
            Wish::SetGroup(group) => set_owner("picture/0", "amy", group),
            Wish::SetList => set_lists(alloc, &[("picture/0", OWNED)]),
            Wish::SetLists => set_lists(alloc, &[("picture/0", OWNED), ("picture/1", READABLE)]),
            Wish::SwapLists => set_lists(alloc, &[("picture/0", READABLE), ("picture/1", OWNED)]),
            Wish::SetMembers => Ok(Ask::SetMembers {
                object: item_of("group/7")?,
                members: member(alloc, "bo@users")?,
            }),
            Wish::Give(object) => set_owner(object, "bo", 0),
            Wish::Add(title) => added(alloc, title),
            Wish::Move(picture) => Ok(Ask::Move {
                object: item_of(picture)?,
                to: item_of("album/1")?,
            }),
            Wish::Delete(object) => Ok(Ask::Delete {
                object: item_of(object)?,
            }),
        }
    }
}

fn set_owner(object: &str, owner: &str, group: u64) -> Result<Ask, Refusal> {
    Ok(Ask::SetOwner {
        object: item_of(object)?,
        owner: Name::of(owner)?,
        group,
    })
}

fn added(alloc: Global, title: &str) -> Result<Ask, Refusal> {
    Ok(Ask::AddPicture {
        album: item_of("album/0")?,
        title: Title::of(alloc, title)?,
        content: Content::of(Bytes::new())?,
    })
}

fn set_lists(alloc: Global, rows: &[(&'static str, &'static [Entry])]) -> Result<Ask, Refusal> {
    let lists = new_lists(alloc, rows)?;
    Ok(Ask::SetLists { lists })
}

/// This one as the members.
pub fn member(alloc: Global, who: &str) -> Result<Members, Refusal> {
    let mut members = Vec::new(alloc);
    members.push(Member::read(who)?)?;
    Ok(Members::of(members))
}

/// What is asked, and the answer. Numbers are of partitions 0 and 2: how many messages they take for it.
pub type Row = (Wish, &'static str, (u64, u64));

/// The answer to the session.
pub fn answer_to<J: ServiceNames, R: Wait + time::Clock>(
    rt: &R,
    alloc: Global,
    session: &mut Session<J>,
    wish: Wish,
) -> Result<String, Refusal> {
    let principal = wish.principal()?;
    let ask = wish.ask(alloc)?;
    let answer = session.ask(rt, &principal, ask)?;
    let text = text_of(alloc, &answer);
    drop(answer);
    text
}

/// The session gets these answers, and the partitions take so many messages for each.
pub fn assert_answers<J: ServiceNames, R: Wait + time::Clock + Abort>(
    rt: &R,
    alloc: Global,
    session: &mut Session<J>,
    counts: &Counts,
    rows: &[Row],
) -> Result<(), Fail> {
    for (wish, expected, messages) in rows {
        let before = counts.so_far();
        same(rt, answer_to(rt, alloc, session, *wish), expected)?;
        assert_eq!(rt; counts.since(before), *messages, "messages at {expected}");
    }
    Ok(())
}

/// What whoever runs the service wants of a partition, by its number.
#[derive(Clone, Copy)]
pub enum Order {
    Pending(u16),
    Sweep(u16, u64),
    /// To let versions of picture/0 go.
    Trim(u16),
}

fn carried_out<J: ServiceNames, R: Wait + time::Clock>(
    rt: &R,
    alloc: Global,
    session: &mut Session<J>,
    order: Order,
) -> Result<String, Refusal> {
    match order {
        Order::Pending(part) => {
            let stamps = session.pending(rt, part)?;
            Ok(format!(in alloc; "{} pending", stamps.as_slice().len())?)
        }
        Order::Sweep(part, stamp) => {
            session.sweep(rt, part, stamp_of(stamp)?)?;
            Ok(String::from_str(alloc, "swept")?)
        }
        Order::Trim(part) => {
            session.trim(rt, part, item_of("picture/0")?)?;
            Ok(String::from_str(alloc, "trimmed")?)
        }
    }
}

/// Each order has this result, or is refused by this name. An order is no message.
pub fn assert_orders<J: ServiceNames, R: Wait + time::Clock + Abort>(
    rt: &R,
    alloc: Global,
    session: &mut Session<J>,
    counts: &Counts,
    rows: &[(Order, &'static str)],
) -> Result<(), Fail> {
    let before = counts.so_far();
    for (order, expected) in rows {
        let text = match carried_out(rt, alloc, session, *order) {
            Ok(text) => text,
            Err(refusal) => String::from_str(alloc, refusal.name())?,
        };
        same(rt, Ok(text), expected)?;
    }
    assert_eq!(rt; counts.since(before), (0, 0), "messages of orders");
    Ok(())
}
