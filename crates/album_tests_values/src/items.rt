//! Items, their texts and their values (docs/FORMATS.md, "Limits", and docs/PROTOCOL.md, "Stamps and items").
use crate::lists::list_of;
use album_access::AceType;
use album_items::{
    Album, Content, Group, Head, ItemId, ItemValues, Items, Kind, Members, Picture, Title, Value,
    place, read_item,
};
use album_lists::{Member, Name};
use album_stamps::{MAX_CONTENT, MAX_TITLE, Refusal};
use bytes::Bytes;
use std::alloc::Global;

/// The item's text is this one, and is read as the item.
fn has_text(alloc: Global, item: ItemId, expected: &str) -> Result<bool, Refusal> {
    let text = item.text(alloc)?;
    Ok(text.as_str() == expected && read_item(expected) == Some(item))
}

#[test]
fn items(rt: HostRuntime) {
    let list = ItemId::new(Kind::List, u64::MAX);

    let refused = read_item("list/05").is_none() && read_item("lists/5").is_none();
    let placed = place(list, 16) == 1 && place(ItemId::new(Kind::Group, 4), 3) == 1;

    assert_eq!(rt;
        has_text(rt.alloc(), list, "list/18446744073709551615"),
        Ok(true)
    );
    assert!(rt; refused && placed);
}

/// A title of so many letters.
pub fn title(alloc: Global, len: usize) -> Result<Title, Refusal> {
    Title::of(alloc, "x".repeat(alloc, len)?.as_str())
}

/// The length of a copy of a title of so many letters.
fn title_len(alloc: Global, len: usize) -> Result<usize, Refusal> {
    let copy = title(alloc, len)?.copy()?;
    Ok(copy.as_str().len())
}

/// The length of the title of this text.
fn text_len(alloc: Global, text: &str) -> Result<usize, Refusal> {
    let title = Title::of(alloc, text)?;
    Ok(title.as_str().len())
}

fn bytes(alloc: Global, len: usize) -> Result<Bytes, Refusal> {
    Ok(Bytes::from_vec(vec![in alloc; 7u8; len]?)?)
}

/// The length of a copy of the content.
fn copy_len(content: &Content) -> Result<usize, Refusal> {
    let copy = content.copy()?;
    Ok(copy.as_slice().len())
}

/// The length of a copy of a content of so many bytes.
fn content_len(alloc: Global, len: usize) -> Result<usize, Refusal> {
    let content = Content::of(bytes(alloc, len)?)?;
    copy_len(&content)
}

/// How long a text is, and how long what holds it is.
type Length = (usize, Result<usize, Refusal>);

const TITLES: &[Length] = &[(MAX_TITLE, Ok(200)), (201, Err(Refusal::BadText))];

const TEXTS: &[(&str, Result<usize, Refusal>)] = &[
    ("a\u{7f}", Err(Refusal::BadText)),
    ("a\u{85}", Ok(3)),
    ("", Ok(0)),
];

const CONTENTS: &[Length] = &[(MAX_CONTENT, Ok(4096)), (4097, Err(Refusal::BadText))];

#[test]
fn titles(rt: HostRuntime) {
    for (len, expected) in TITLES {
        assert_eq!(rt; title_len(rt.alloc(), *len), *expected);
    }
}

#[test]
fn texts_of_titles(rt: HostRuntime) {
    for (text, expected) in TEXTS {
        assert_eq!(rt; text_len(rt.alloc(), text), *expected);
    }
}

#[test]
fn contents(rt: HostRuntime) {
    for (len, expected) in CONTENTS {
        assert_eq!(rt; content_len(rt.alloc(), *len), *expected);
    }
}

/// A head of amy's with the list of this number.
fn head(list: u64) -> Result<Head, Refusal> {
    Ok(Head {
        owner: Name::of("amy")?,
        group: 0,
        list,
    })
}

/// A picture of amy's under the list of this number.
pub fn picture(alloc: Global, list: u64) -> Result<Value, Refusal> {
    let content = Content::of(Bytes::new())?;
    Ok(Value::Picture(Picture {
        title: title(alloc, 3)?,
        content,
        head: head(list)?,
        home: 0,
    }))
}

fn group(alloc: Global) -> Result<Value, Refusal> {
    let mut members = Vec::new(alloc);
    members.push(Member::read("9@groups")?)?;
    Ok(Value::Group(Group {
        head: head(1)?,
        members: Members::of(members),
    }))
}

/// An album of amy's.
fn album(alloc: Global) -> Result<Value, Refusal> {
    let mut children = Vec::new(alloc);
    children.push(ItemId::new(Kind::Picture, 4))?;
    Ok(Value::Album(Album {
        title: title(alloc, 2)?,
        head: head(2)?,
        home: Some(3),
        children: Items::of(children),
    }))
}

fn list(alloc: Global) -> Result<Value, Refusal> {
    let list = list_of(alloc, &[(AceType::Denied, "amy@users", 4, 0)])?;
    Ok(Value::List(list))
}

/// The number of a title's letters, of an album's first child, of the group that is a group's member, or of a
/// list's entries.
fn first_number(value: &Value) -> Option<u64> {
    match value {
        Value::Picture(picture) => Some(picture.title.as_str().len() as u64),
        Value::Album(album) => match album.children.as_slice() {
            [child, ..] => Some(child.number()),
            [] => None,
        },
        Value::Group(group) => match group.members.as_slice() {
            [Member::Group(number)] => Some(*number),
            _ => None,
        },
        Value::List(list) => Some(list.entries().len() as u64),
        Value::Missing => None,
    }
}

/// A value of the kind.
fn value_of(alloc: Global, kind: Kind) -> Result<Value, Refusal> {
    match kind {
        Kind::Picture => picture(alloc, 5),
        Kind::Album => album(alloc),
        Kind::List => list(alloc),
        Kind::Group => group(alloc),
    }
}

/// The first number of a copy of the value.
fn copied_number(value: &Value) -> Result<Option<u64>, Refusal> {
    let copy = value.copy()?;
    let number = first_number(&copy);
    drop(copy);
    Ok(number)
}

/// The first number of a copy of a value of the kind.
fn number_of(alloc: Global, kind: Kind) -> Result<Option<u64>, Refusal> {
    let value = value_of(alloc, kind)?;
    let number = copied_number(&value);
    drop(value);
    number
}

/// Each kind that has parts, and the first number of its value.
const NUMBERS: &[(Kind, u64)] = &[(Kind::Group, 9), (Kind::Album, 4), (Kind::List, 1)];

#[test]
fn copies(rt: HostRuntime) {
    for (kind, number) in NUMBERS {
        assert_eq!(rt; number_of(rt.alloc(), *kind), Ok(Some(*number)));
    }
}

/// Each kind of value.
const KINDS: &[Kind] = &[Kind::Picture, Kind::Album, Kind::List, Kind::Group];

/// A row of each kind of value, and one of a group that is missing.
fn each_kind(alloc: Global) -> Result<ItemValues, Refusal> {
    let mut rows = Vec::new(alloc);
    for kind in KINDS {
        rows.push((ItemId::new(*kind, 1), value_of(alloc, *kind)?))?;
    }
    rows.push((ItemId::new(Kind::Group, 2), Value::Missing))?;
    Ok(ItemValues::of(rows))
}

/// The first numbers of the values in their order, as digits.
fn digits(rows: &ItemValues) -> u64 {
    let mut number = 0u64;
    for (_, value) in rows.as_slice() {
        number = number
            .wrapping_mul(10)
            .wrapping_add(first_number(value).unwrap_or(0));
    }
    number
}

/// The rows are shared; once more, where there was no memory for it: what they hold is the same then.
fn make_shared(rows: &mut ItemValues) -> Result<(), Refusal> {
    match rows.make_shared() {
        Ok(()) => Ok(()),
        Err(_) => rows.make_shared(),
    }
}

/// A copy of the rows; made once more, where that was refused.
fn copied(rows: &ItemValues) -> Result<ItemValues, Refusal> {
    match rows.clone() {
        Ok(copy) => Ok(copy),
        Err(_) => Ok(rows.clone()?),
    }
}

/// The first numbers of rows that were shared so many times, and those of their copy.
fn shared_digits(alloc: Global, times: usize) -> Result<(u64, u64), Refusal> {
    let mut rows = each_kind(alloc)?;
    for _ in 0..times {
        make_shared(&mut rows)?;
    }
    let copy = copied(&rows)?;
    Ok((digits(&rows), digits(&copy)))
}

#[test]
fn shared_values(rt: HostRuntime) {
    for times in 0..3 {
        assert_eq!(rt; shared_digits(rt.alloc(), times), Ok((34_190, 34_190)));
    }
}
