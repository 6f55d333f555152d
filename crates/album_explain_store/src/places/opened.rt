//! Where an opening as a whole is none: the line, and its part. The header is tested first: its numbers, then
//! whether its policy is one that has a root. In a first epoch it is then how many items there are, then each item by
//! itself, and then the items together; in a later one whether the items rise, then whether each has a value of its
//! kind, and then their numbers. Last come the stamps.
use album_access::AceFlags;
use album_explain::Found;
use album_items::{ItemId, Opening, Value, has_own_value};
use album_lists::Ace;
use album_stamps::{
    CLIENTS, MAX_CHILDREN, MAX_COUNTER, MAX_MARKS, MAX_OPENING_ITEMS, MAX_OPENING_NUMBER,
    MAX_PARTS, MIN_MARKS, Stamp,
};
use bitflags::Flags;
use std::alloc::{AllocError, Global};

/// Where the opening fails its first test, if it fails one. Its header is in one line, each of its items in another.
pub(crate) fn bad_opening(
    alloc: Global,
    opening: &Opening,
    header_line: u64,
    lines: &[u64],
) -> Result<Option<Found>, AllocError> {
    if let Some((part, value)) = bad_header(opening) {
        return at_line(alloc, header_line, part, Some(value));
    }
    if opening.root.is_some() && opening.policy != 3 {
        return at_line(alloc, header_line, "open.root", None);
    }
    let rows = opening.items.as_slice();
    let greatest = opening
        .first
        .saturating_mul(CLIENTS)
        .saturating_add(MAX_OPENING_NUMBER);
    let found = if opening.first > 0 {
        bad_later(alloc, greatest, rows, lines)?
    } else {
        bad_first(alloc, rows, lines)?
    };
    match found {
        Some(found) => Ok(Some(found)),
        None => bad_stamp(alloc, greatest, opening, lines),
    }
}

/// The first item that has a stamp which no epoch before gave.
fn bad_stamp(
    alloc: Global,
    greatest: u64,
    opening: &Opening,
    lines: &[u64],
) -> Result<Option<Found>, AllocError> {
    for (index, row) in opening.items.as_slice().iter().enumerate() {
        let stamp = opening.stamps.shown(row.0, Stamp::zero()).value();
        if stamp > greatest {
            return at_line(alloc, line_of(lines, index), "stamp", Some(stamp));
        }
    }
    Ok(None)
}

/// What is wrong with the items of a first epoch: there are too many, or one by itself is wrong, or two together.
fn bad_first(
    alloc: Global,
    rows: &[(ItemId, Value)],
    lines: &[u64],
) -> Result<Option<Found>, AllocError> {
    if rows.len() > MAX_OPENING_ITEMS {
        let at = format!(in alloc; "line {}", line_of(lines, MAX_OPENING_ITEMS))?;
        return Ok(Some(Found { at, value: None }));
    }
    for (index, row) in rows.iter().enumerate() {
        let found = bad_row(alloc, line_of(lines, index), row)?;
        if found.is_some() {
            return Ok(found);
        }
    }
    bad_pair(alloc, rows, lines)
}

fn line_of(lines: &[u64], index: usize) -> u64 {
    lines.get(index).copied().unwrap_or(0)
}

/// A part of a line.
fn at_line(
    alloc: Global,
    line: u64,
    part: &str,
    value: Option<u64>,
) -> Result<Option<Found>, AllocError> {
    let at = format!(in alloc; "line {line}: {part}")?;
    Ok(Some(Found { at, value }))
}

/// The number of the header that is none.
fn bad_header(opening: &Opening) -> Option<(&'static str, u64)> {
    if !(1..=u64::from(MAX_PARTS)).contains(&opening.parts) {
        return Some(("open.parts", opening.parts));
    }
    if !(MIN_MARKS..=MAX_MARKS).contains(&opening.limit) {
        return Some(("open.limit", opening.limit));
    }
    if !matches!(opening.policy, 1 | 2 | 3) {
        return Some(("open.policy", opening.policy));
    }
    if opening.first > MAX_COUNTER {
        return Some(("open.first", opening.first));
    }
    None
}

/// What is wrong with the items of a later epoch: one isn't above the one before, has a value of another kind, or has
/// or names a number that no stamp of the epochs before had.
fn bad_later(
    alloc: Global,
    greatest: u64,
    rows: &[(ItemId, Value)],
    lines: &[u64],
) -> Result<Option<Found>, AllocError> {
    for (index, row) in rows.iter().enumerate() {
        if index > 0 && row.0 <= rows[index - 1].0 {
            return at_line(alloc, line_of(lines, index), "item", None);
        }
    }
    for (index, row) in rows.iter().enumerate() {
        if !has_own_value(row) {
            return at_line(alloc, line_of(lines, index), "value", None);
        }
    }
    for (index, row) in rows.iter().enumerate() {
        let line = line_of(lines, index);
        if row.0.number() > greatest {
            return at_line(alloc, line, "item", None);
        }
        if let Some((part, value)) = bad_number(greatest, &row.1) {
            return at_line(alloc, line, part, Some(value));
        }
        if let Some(child) = bad_child(greatest, row.1.children()) {
            return at_child(alloc, line, child);
        }
    }
    Ok(None)
}

/// The first child whose number is too great.
fn bad_child(greatest: u64, children: &[ItemId]) -> Option<usize> {
    children.iter().position(|child| child.number() > greatest)
}

/// What is wrong with an item by itself.
fn bad_row(alloc: Global, line: u64, row: &(ItemId, Value)) -> Result<Option<Found>, AllocError> {
    if !has_own_value(row) {
        return at_line(alloc, line, "value", None);
    }
    if row.0.number() > MAX_OPENING_NUMBER {
        return at_line(alloc, line, "item", None);
    }
    if let Some((part, value)) = bad_number(MAX_OPENING_NUMBER, &row.1) {
        return at_line(alloc, line, part, Some(value));
    }
    bad_children(alloc, line, row.1.children())
}

/// The number of a list or of a home that is too great.
fn bad_number(greatest: u64, value: &Value) -> Option<(&'static str, u64)> {
    let home = match value {
        Value::Picture(picture) => Some(picture.home),
        Value::Album(album) => album.home,
        Value::Missing | Value::List(_) | Value::Group(_) => None,
    };
    if let Some(head) = value.head() {
        if head.list > greatest {
            return Some(("value.list", head.list));
        }
    }
    match home {
        Some(home) if home > greatest => Some(("value.home", home)),
        _ => None,
    }
}

/// A child whose number is too great, more children than there may be, or a child that is among those before it.
fn bad_children(
    alloc: Global,
    line: u64,
    children: &[ItemId],
) -> Result<Option<Found>, AllocError> {
    if let Some(index) = bad_child(MAX_OPENING_NUMBER, children) {
        return at_child(alloc, line, index);
    }
    if children.len() > MAX_CHILDREN {
        return at_line(alloc, line, "value.children", None);
    }
    for (index, child) in children.iter().enumerate() {
        if children[..index].iter().any(|other| other.is(*child)) {
            return at_child(alloc, line, index);
        }
    }
    Ok(None)
}

fn at_child(alloc: Global, line: u64, index: usize) -> Result<Option<Found>, AllocError> {
    let at = format!(in alloc; "line {line}: value.children[{index}]")?;
    Ok(Some(Found { at, value: None }))
}

/// What is wrong with two items: both are one, both heads name one list, or a list doesn't fit what carries it.
fn bad_pair(
    alloc: Global,
    rows: &[(ItemId, Value)],
    lines: &[u64],
) -> Result<Option<Found>, AllocError> {
    for (index, row) in rows.iter().enumerate() {
        if rows[..index].iter().any(|other| other.0.is(row.0)) {
            return at_line(alloc, line_of(lines, index), "item", None);
        }
    }
    for (index, row) in rows.iter().enumerate() {
        if let Some(head) = row.1.head() {
            if rows[..index]
                .iter()
                .any(|other| names_list(&other.1, head.list))
            {
                let line = line_of(lines, index);
                return at_line(alloc, line, "value.list", Some(head.list));
            }
        }
    }
    for (index, row) in rows.iter().enumerate() {
        let is_plain = rows.iter().any(|other| is_plain_list(&other.1, row.0));
        if let Some((at, flags)) = inherited(row.1.entries()) {
            if is_plain {
                let line = line_of(lines, index);
                let at = format!(in alloc; "line {line}: value.entries[{at}].flags")?;
                let value = Some(flags);
                return Ok(Some(Found { at, value }));
            }
        }
    }
    Ok(None)
}

fn names_list(value: &Value, list: u64) -> bool {
    match value.head() {
        Some(head) => head.list == list,
        None => false,
    }
}

/// Whether the item is the list of this picture or group.
fn is_plain_list(value: &Value, item: ItemId) -> bool {
    match value {
        Value::Picture(picture) => picture.head.list == item.number(),
        Value::Group(group) => group.head.list == item.number(),
        Value::Missing | Value::Album(_) | Value::List(_) => false,
    }
}

/// The first entry that only an album may carry, with its flags.
fn inherited(entries: &[Ace]) -> Option<(usize, u64)> {
    let inheritance = AceFlags::FILE_INHERIT
        .union(AceFlags::DIRECTORY_INHERIT)
        .union(AceFlags::NO_PROPAGATE_INHERIT)
        .union(AceFlags::INHERIT_ONLY);
    for (index, entry) in entries.iter().enumerate() {
        if entry.flags.intersects(inheritance) {
            return Some((index, u64::from(entry.flags.bits())));
        }
    }
    None
}
