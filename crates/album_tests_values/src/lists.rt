//! Names, whos, access lists and inheritance (docs/FORMATS.md, "Whos", "Entries" and "Flags").
use album_access::{AceFlags, AceType, Mask};
use album_lists::{AccessList, Ace, Holder, Member, Name, Who};
use album_stamps::{MAX_ENTRIES, Refusal};
use bitflags::Flags;
use std::alloc::Global;

#[test]
fn bits(rt: HostRuntime) {
    let masks = Mask::of(2_032_127) == Ok(Mask::all());
    let other = Mask::of(2_032_128) == Err(Refusal::BadMask);
    let flags = AceFlags::of(127) == Ok(AceFlags::all());

    assert_eq!(rt; (masks, other, flags), (true, true, true));
}

/// The length of the name that the text is.
fn name_len(text: &str) -> Result<usize, Refusal> {
    let name = Name::of(text)?;
    let copy = name.copy()?;
    Ok(copy.as_str().len())
}

/// The number of the group that the text is, in an entry with these flags.
fn group_number(text: &str, flags: u32) -> Result<Option<u64>, Refusal> {
    let who = Who::read(text, AceFlags::of(flags)?)?.copy()?;
    match who {
        Who::Group(number) => Ok(Some(number)),
        _ => Ok(None),
    }
}

/// The number of the group that the text of a member is.
fn member_number(text: &str) -> Result<Option<u64>, Refusal> {
    match Member::read(text)?.copy()? {
        Member::Group(number) => Ok(Some(number)),
        Member::User(_) => Ok(None),
    }
}

/// What is read of texts: the length of a name, the numbers of two whos, and that of a member.
type Texts = (usize, Option<u64>, Option<u64>, Option<u64>);

fn texts_read() -> Result<Texts, Refusal> {
    let name = name_len("amy-b_2.c")?;
    let who = group_number("0@groups", 64)?;
    let head = group_number("GROUP@", 0)?;
    let member = member_number("12@groups")?;
    Ok((name, who, head, member))
}

#[test]
fn texts(rt: HostRuntime) {
    assert_eq!(rt; texts_read(), Ok((9, Some(0), None, Some(12))));
}

pub fn entry(sort: AceType, who: &str, mask: u32, flags: u32) -> Result<Ace, Refusal> {
    let flags = AceFlags::of(flags)?;
    Ok(Ace {
        sort,
        who: Who::read(who, flags)?,
        mask: Mask::of(mask)?,
        flags,
    })
}

/// Each entry of a list: its type, its who, its mask and its flags.
pub type Rows = &'static [(AceType, &'static str, u32, u32)];

/// The list of these entries.
pub fn list_of(alloc: Global, rows: Rows) -> Result<AccessList, Refusal> {
    let mut entries = Vec::new(alloc);
    for (sort, who, mask, flags) in rows {
        entries.push(entry(*sort, who, *mask, *flags)?)?;
    }
    Ok(AccessList::new(entries)?)
}

fn many_entries(alloc: Global, len: usize) -> Result<Vec<Ace>, Refusal> {
    let mut entries = Vec::new(alloc);
    for _ in 0..len {
        entries.push(entry(AceType::Allowed, "amy@users", 1, 0)?)?;
    }
    Ok(entries)
}

/// How many entries the list of so many has; or its refusal, and how many are handed back.
fn entries_taken(alloc: Global, len: usize) -> Result<(Option<Refusal>, usize), Refusal> {
    match AccessList::new(many_entries(alloc, len)?) {
        Ok(list) => Ok((None, list.entries().len())),
        Err(refused) => Ok((Some(refused.refusal), refused.given.len())),
    }
}

/// How many entries are given, and the outcome.
const LENGTHS: &[(usize, (Option<Refusal>, usize))] = &[
    (MAX_ENTRIES, (None, 128)),
    (129, (Some(Refusal::ListFull), 129)),
];

#[test]
fn most_entries(rt: HostRuntime) {
    for (len, taken) in LENGTHS {
        assert_eq!(rt; entries_taken(rt.alloc(), *len), Ok(*taken));
    }
}

/// A user, and the flags of the user's entry.
type Flagged = (&'static str, u32);

/// Whether the entry is the user's with these flags.
fn is_entry(entry: &Ace, (user, flags): Flagged) -> bool {
    match &entry.who {
        Who::User(name) => name.as_str() == user && entry.flags.bits() == flags,
        _ => false,
    }
}

/// Whether these are the entries of the users in their order, each with its flags.
fn are_entries(entries: &[Ace], expected: &[Flagged]) -> bool {
    for (index, row) in expected.iter().enumerate() {
        match entries.get(index) {
            Some(entry) if is_entry(entry, *row) => {}
            _ => return false,
        }
    }
    entries.len() == expected.len()
}

/// Whether a copy of the list has these entries.
fn has_entries(list: &AccessList, expected: &[Flagged]) -> Result<bool, Refusal> {
    let copy = list.copy()?;
    let are = are_entries(copy.entries(), expected);
    drop(copy);
    Ok(are)
}

/// What an object of this kind inherits.
fn inherited(alloc: Global, holder: Holder) -> Result<AccessList, Refusal> {
    let list = list_of(alloc, INHERITED)?;
    let inherited = list.inherit(alloc, holder);
    drop(list);
    inherited
}

/// Whether an object of this kind inherits these entries.
fn inherits(alloc: Global, holder: Holder, expected: &[Flagged]) -> Result<bool, Refusal> {
    let list = inherited(alloc, holder)?;
    let has = has_entries(&list, expected);
    drop(list);
    has
}

const INHERITED: Rows = &[
    (AceType::Allowed, "amy@users", 1, 1),
    (AceType::Allowed, "bo@users", 1, 11),
    (AceType::Allowed, "cat@users", 1, 2),
    (AceType::Denied, "dan@users", 2, 5),
];

/// What each kind of object inherits.
const HEIRS: &[(Holder, &[Flagged])] = &[
    (Holder::Plain, &[("amy", 0), ("bo", 0), ("dan", 0)]),
    (Holder::Folder, &[("amy", 9), ("bo", 3), ("cat", 2)]),
];

#[test]
fn inherited_entries(rt: HostRuntime) {
    for (holder, expected) in HEIRS {
        assert_eq!(rt; inherits(rt.alloc(), *holder, expected), Ok(true));
    }
}

/// The list of an entry of group 7 with these flags and of this mask's bits.
fn group_entry(alloc: Global, flags: AceFlags, mask: Mask) -> Result<usize, Refusal> {
    let mut entries = Vec::new(alloc);
    entries.push(Ace {
        sort: AceType::Allowed,
        who: Who::Group(7),
        mask,
        flags,
    })?;
    Ok(AccessList::new(entries)?.entries().len())
}

/// An entry that no line can spell is in no list.
#[test]
fn entries_that_no_line_spells(rt: HostRuntime) {
    let group = AceFlags::IDENTIFIER_GROUP;
    let no_flag = group.difference(group);
    let no_bit = Mask::READ_DATA.difference(Mask::READ_DATA);
    let rows = [
        (group, Mask::READ_DATA, Ok(1)),
        (no_flag, Mask::READ_DATA, Err(Refusal::BadFlags)),
        (group, no_bit, Err(Refusal::BadFlags)),
    ];

    for (flags, mask, taken) in &rows {
        assert_eq!(rt; group_entry(rt.alloc(), *flags, *mask), *taken);
    }
}
