//! The one value that is written: a picture, or a list.
use album_access::{AceFlags, AceType, Mask};
use album_items::{Content, Head, Picture, Title, Value};
use album_lists::{AccessList, Ace, Name, Who};
use album_stamps::Refusal;
use bytes::Bytes;
use std::alloc::Global;

/// A picture where there are no entries, else a list of so many.
pub fn value_of(alloc: Global, entries: u64) -> Result<Value, Refusal> {
    if entries == 0 {
        return Ok(Value::Picture(picture(alloc)?));
    }
    let entries = entries_of(alloc, entries)?;
    Ok(Value::List(AccessList::new(entries)?))
}

fn picture(alloc: Global) -> Result<Picture, Refusal> {
    let content = Content::of(Bytes::new())?;
    Ok(Picture {
        title: Title::of(alloc, "Sea")?,
        content,
        head: head()?,
        home: 0,
    })
}

fn head() -> Result<Head, Refusal> {
    Ok(Head {
        owner: Name::of("amy")?,
        group: 0,
        list: 0,
    })
}

fn entries_of(alloc: Global, count: u64) -> Result<Vec<Ace>, Refusal> {
    let mut entries = Vec::new(alloc);
    for _ in 0..count {
        entries.push(entry()?)?;
    }
    Ok(entries)
}

fn entry() -> Result<Ace, Refusal> {
    let flags = AceFlags::of(0)?;
    Ok(Ace {
        sort: AceType::Denied,
        who: Who::read("amy@users", flags)?,
        mask: Mask::of(4)?,
        flags,
    })
}
