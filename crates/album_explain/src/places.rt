//! Where a refused line fails its first test: at a byte, where it is no JSON, or else at a part of its object.
ghost use Rattle.std.specs.Prelude.{◌≡◌};

mod bytes;
mod shapes;
mod values;

use crate::places::bytes::bad_byte;
use crate::places::shapes::{bad_entries_form, bad_shape};
use crate::places::values::{bad_entries_value, bad_value};
use album_lines::{LineIn, data, whole};
use album_lists::Holder;
use album_stamps::{MAX_LINE, Refusal};
use json::{Scratch, Value};
use std::alloc::{AllocError, Global};

/// A part of a line.
#[derive(Clone, Copy, Debug)]
pub(crate) enum Place<'a> {
    /// The line as a whole.
    Line,
    /// The member of this name, which may be missing.
    Member(&'a str),
    /// An item of the member of this name.
    Item(&'static str, usize),
    /// A part of an entry.
    Entry(usize, &'static str),
    /// The number of a group.
    GroupNumber(usize),
    /// The members of a group.
    GroupMembers(usize),
    /// A member of a group.
    GroupMember(usize, usize),
}

/// What a test is made of: a part, and its number, if it is one.
#[derive(Clone, Copy, Debug)]
pub(crate) struct Finding<'a> {
    pub(crate) place: Place<'a>,
    pub(crate) value: Option<u64>,
}

impl<'a> Finding<'a> {
    /// The part, whose JSON value this is.
    pub(crate) fn new(place: Place<'a>, value: &Value<'_>) -> Finding<'a> {
        Finding {
            place,
            value: whole(value).ok(),
        }
    }
}

/// Where a line is refused, as its explanation says it: the place, and the number there, if it is one.
#[derive(Debug, Drop)]
pub struct Found {
    pub at: String,
    pub value: Option<u64>,
}

/// Where the judge line fails its first test, if it fails one.
pub(crate) fn find(
    alloc: Global,
    scratch: &mut Scratch,
    line: &LineIn,
) -> Result<Option<Found>, AllocError> {
    let LineIn::Text(bytes) = line else {
        return Ok(Some(find_byte(alloc, line)?));
    };
    match data(alloc, scratch, bytes) {
        Ok(value) => in_object(alloc, &value),
        Err(Refusal::OutOfMemory) => Err(AllocError),
        Err(_) => Ok(Some(find_byte(alloc, line)?)),
    }
}

/// The byte from which on a line that is no JSON is none.
///
/// # Errors
///
/// `AllocError`.
pub fn find_byte(alloc: Global, line: &LineIn) -> Result<Found, AllocError> {
    let byte = match line {
        LineIn::Text(bytes) => bad_byte(alloc, bytes)?,
        LineIn::TooLong => MAX_LINE,
    };
    let at = format!(in alloc; "byte {byte}")?;
    Ok(Found { at, value: None })
}

fn in_object(alloc: Global, line: &Value<'_>) -> Result<Option<Found>, AllocError> {
    let found = match bad_shape(alloc, line)? {
        Some(finding) => Some(finding),
        None => bad_value(line),
    };
    found_of(alloc, found)
}

/// Where the value hasn't the form of a list of entries, if it hasn't.
///
/// # Errors
///
/// `AllocError`.
pub fn find_entries_form(alloc: Global, value: &Value<'_>) -> Result<Option<Found>, AllocError> {
    found_of(alloc, bad_entries_form(value))
}

/// Where a list of entries that has its form is none that an object of this kind may carry, if it is none.
///
/// # Errors
///
/// `AllocError`.
pub fn find_entries_value(
    alloc: Global,
    value: &Value<'_>,
    holder: Holder,
) -> Result<Option<Found>, AllocError> {
    found_of(
        alloc,
        bad_entries_value(value, matches!(holder, Holder::Folder)),
    )
}

fn found_of(alloc: Global, found: Option<Finding<'_>>) -> Result<Option<Found>, AllocError> {
    match found {
        None => Ok(None),
        Some(finding) => {
            let at = path(alloc, finding.place)?;
            Ok(Some(Found {
                at,
                value: finding.value,
            }))
        }
    }
}

/// A part, as an explanation says it.
fn path(alloc: Global, place: Place<'_>) -> Result<String, AllocError> {
    match place {
        Place::Line => String::from_str(alloc, "line"),
        Place::Member(name) => String::from_str(alloc, name),
        Place::Item(list, index) => format!(in alloc; "{list}[{index}]"),
        Place::Entry(index, part) => format!(in alloc; "entries[{index}].{part}"),
        Place::GroupNumber(index) => format!(in alloc; "groups[{index}].number"),
        Place::GroupMembers(index) => format!(in alloc; "groups[{index}].members"),
        Place::GroupMember(index, member) => {
            format!(in alloc; "groups[{index}].members[{member}]")
        }
    }
}
