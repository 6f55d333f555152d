//! Values for the tests of partitions, reads and sessions.
use album_access::{AceFlags, AceType, Mask};
use album_items::{Album, Content, Head, ItemId, Items, Kind, Picture, Title, Value};
use album_lists::{AccessList, Ace, Name, Who};
use album_stamps::Refusal;
use bytes::Bytes;
use std::alloc::Global;

/// A head of amy's with the list of this number.
pub fn head(list: u64) -> Result<Head, Refusal> {
    Ok(Head {
        owner: Name::of("amy")?,
        group: 0,
        list,
    })
}

/// A picture of amy's under the list of this number.
pub fn picture(alloc: Global, list: u64) -> Result<Value, Refusal> {
    let content = Content::of(Bytes::new())?;
    Ok(Value::Picture(Picture {
        title: Title::of(alloc, "Sea")?,
        content,
        head: head(list)?,
        home: 0,
    }))
}

/// An album of amy's.
pub fn album(alloc: Global) -> Result<Value, Refusal> {
    let mut children = Vec::new(alloc);
    children.push(ItemId::new(Kind::Picture, 4))?;
    Ok(Value::Album(Album {
        title: Title::of(alloc, "Trip")?,
        head: head(2)?,
        home: Some(3),
        children: Items::of(children),
    }))
}

/// amy's album/0 with the pictures 0 and 1, under list/2.
pub fn album_of_two(alloc: Global) -> Result<Value, Refusal> {
    let mut children = Vec::new(alloc);
    children.push(ItemId::new(Kind::Picture, 0))?;
    children.push(ItemId::new(Kind::Picture, 1))?;
    Ok(Value::Album(Album {
        title: Title::of(alloc, "Trip")?,
        head: head(2)?,
        home: None,
        children: Items::of(children),
    }))
}

/// The type, the who, the mask and the flags of an entry.
pub type Entry = (AceType, &'static str, u32, u32);

fn entry_of((sort, who, mask, flags): Entry) -> Result<Ace, Refusal> {
    let flags = AceFlags::of(flags)?;
    Ok(Ace {
        sort,
        who: Who::read(who, flags)?,
        mask: Mask::of(mask)?,
        flags,
    })
}

/// The list of these entries.
pub fn list_of(alloc: Global, rows: &[Entry]) -> Result<AccessList, Refusal> {
    let mut entries = Vec::new(alloc);
    for row in rows {
        entries.push(entry_of(*row)?)?;
    }
    Ok(AccessList::new(entries)?)
}

/// A list of one entry.
pub fn list(alloc: Global) -> Result<Value, Refusal> {
    let list = list_of(alloc, &[(AceType::Denied, "amy@users", 4, 0)])?;
    Ok(Value::List(list))
}
