//! Where a refused line fails its first test: at a byte, where it is no JSON, or else at a part of its object. The
//! forms of the whole line are tested before any value, as its readers do.

pub(crate) mod checked;
mod forms;
pub(crate) mod opened;
pub(crate) mod tables;
mod values;

use crate::places::forms::{bad_form, bad_names};
use crate::places::tables::{Part, Rows, Table, parts_of, rows_of, valued_parts_of};
use crate::places::values::bad_value;
use album_explain::{Found, find_byte};
use album_lines::{LineIn, data, member, whole};
use album_stamps::Refusal;
use json::{Scratch, Value};
use std::alloc::{AllocError, Global};

/// Where the line fails its first test. Where none of its parts does, it is refused as a whole.
pub(crate) fn find(
    alloc: Global,
    scratch: &mut Scratch,
    line: &LineIn,
    table: Table,
) -> Result<Found, AllocError> {
    let LineIn::Text(bytes) = line else {
        return find_byte(alloc, line);
    };
    match data(alloc, scratch, bytes) {
        Ok(value) => in_line(alloc, &value, table),
        Err(Refusal::OutOfMemory) => Err(AllocError),
        Err(_) => find_byte(alloc, line),
    }
}

fn in_line(alloc: Global, line: &Value<'_>, table: Table) -> Result<Found, AllocError> {
    if says_nothing(line) {
        return whole_line(alloc, line);
    }
    match bad_line_part(alloc, line, table)? {
        Some(found) => Ok(found),
        None => whole_line(alloc, line),
    }
}

fn bad_line_part(
    alloc: Global,
    line: &Value<'_>,
    table: Table,
) -> Result<Option<Found>, AllocError> {
    let found = bad_line_form(alloc, line, table)?;
    if found.is_some() {
        return Ok(found);
    }
    bad_line_value(alloc, line, table)
}

/// Whether the line is no object, or has no member, and so says nothing.
fn says_nothing(line: &Value<'_>) -> bool {
    match line {
        Value::Object(members) => members.is_empty(),
        _ => true,
    }
}

fn whole_line(alloc: Global, line: &Value<'_>) -> Result<Found, AllocError> {
    Ok(Found {
        at: String::from_str(alloc, "line")?,
        value: whole(line).ok(),
    })
}

/// The part of this name, whose JSON value this is.
fn found_at(alloc: Global, at: &str, value: &Value<'_>) -> Result<Option<Found>, AllocError> {
    Ok(Some(Found {
        at: String::from_str(alloc, at)?,
        value: whole(value).ok(),
    }))
}

/// The member of this name, which isn't there.
fn missing(alloc: Global, name: &str) -> Result<Option<Found>, AllocError> {
    Ok(Some(Found {
        at: String::from_str(alloc, name)?,
        value: None,
    }))
}

/// A part of a member, as a part of the object that has the member. A part without a name is the member itself.
fn within(alloc: Global, name: &str, found: Option<Found>) -> Result<Option<Found>, AllocError> {
    let Some(Found { at, value }) = found else {
        return Ok(None);
    };
    let at = if at.is_empty() {
        String::from_str(alloc, name)?
    } else {
        format!(in alloc; "{name}.{at}")?
    };
    Ok(Some(Found { at, value }))
}

/// The first part of a line that hasn't its form. The line itself has no name.
fn bad_line_form(
    alloc: Global,
    line: &Value<'_>,
    table: Table,
) -> Result<Option<Found>, AllocError> {
    let parts = parts_of(table, line);
    let found = bad_names(alloc, line, parts)?;
    if found.is_some() {
        return Ok(found);
    }
    for (name, part) in parts {
        let found = match member(line, name) {
            None => missing(alloc, name)?,
            Some(value) => bad_part_form(alloc, line, name, *part, value)?,
        };
        if found.is_some() {
            return Ok(found);
        }
    }
    Ok(None)
}

fn bad_part_form(
    alloc: Global,
    line: &Value<'_>,
    name: &str,
    part: Part,
    value: &Value<'_>,
) -> Result<Option<Found>, AllocError> {
    match (part, rows_of(line, part, value)) {
        (Part::Plain(form), _) => bad_form(alloc, name, form, value),
        (_, Some(rows)) => within(alloc, name, bad_object_form(alloc, value, rows)?),
        (_, None) => within(alloc, name, bad_word(alloc, value)?),
    }
}

/// An ask whose word is none.
fn bad_word(alloc: Global, ask: &Value<'_>) -> Result<Option<Found>, AllocError> {
    let Value::Object(_) = ask else {
        return found_at(alloc, "", ask);
    };
    match member(ask, "do") {
        None => missing(alloc, "do"),
        Some(word) => found_at(alloc, "do", word),
    }
}

/// The first part of an object of these members that hasn't its form.
fn bad_object_form(
    alloc: Global,
    object: &Value<'_>,
    rows: Rows,
) -> Result<Option<Found>, AllocError> {
    let found = bad_names(alloc, object, rows)?;
    if found.is_some() {
        return Ok(found);
    }
    for (name, form) in rows {
        let found = match member(object, name) {
            None if form.may_be_left_out() => None,
            None => missing(alloc, name)?,
            Some(value) => bad_form(alloc, name, *form, value)?,
        };
        if found.is_some() {
            return Ok(found);
        }
    }
    Ok(None)
}

/// The first part of a line whose parts have their form that isn't one of its kind.
fn bad_line_value(
    alloc: Global,
    line: &Value<'_>,
    table: Table,
) -> Result<Option<Found>, AllocError> {
    for (name, part) in valued_parts_of(table, line) {
        if let Some(value) = member(line, name) {
            let found = match (*part, rows_of(line, *part, value)) {
                (Part::Plain(form), _) => bad_value(alloc, name, form, value)?,
                (_, Some(rows)) => within(alloc, name, bad_object_value(alloc, value, rows)?)?,
                (_, None) => None,
            };
            if found.is_some() {
                return Ok(found);
            }
        }
    }
    Ok(None)
}

fn bad_object_value(
    alloc: Global,
    object: &Value<'_>,
    rows: Rows,
) -> Result<Option<Found>, AllocError> {
    for (name, form) in rows {
        if let Some(value) = member(object, name) {
            let found = bad_value(alloc, name, *form, value)?;
            if found.is_some() {
                return Ok(found);
            }
        }
    }
    Ok(None)
}
