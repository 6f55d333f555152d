//! Whether the value under a name has its form, and where it hasn't.
use crate::places::found_at;
use crate::places::tables::Form;
use album_explain::{Found, find_entries_form};
use album_items::{ItemId, Kind, read_item};
use album_lines::{is_list, is_nothing, item, list, sized_list, text, truth, whole};
use album_stamps::{ClientNo, Stamp};
use album_wire::MAX_DELIVERIES;
use json::Value;
use std::alloc::{AllocError, Global};

impl Form {
    pub(crate) fn may_be_left_out(&self) -> bool {
        matches!(
            self,
            Form::PerhapsWhole | Form::PerhapsTruth | Form::PerhapsOwner
        )
    }
}

/// What has a name that none of these is, the first; or the value itself, without a name, where it is no object.
pub(crate) fn bad_names<T>(
    alloc: Global,
    value: &Value<'_>,
    rows: &[(&str, T)],
) -> Result<Option<Found>, AllocError> {
    let Value::Object(members) = value else {
        return found_at(alloc, "", value);
    };
    for known in members.as_slice() {
        if !rows.iter().any(|row| row.0 == known.0) {
            return found_at(alloc, known.0, &known.1);
        }
    }
    Ok(None)
}

/// The first part of the member of this name that hasn't its form.
pub(crate) fn bad_form(
    alloc: Global,
    name: &str,
    form: Form,
    value: &Value<'_>,
) -> Result<Option<Found>, AllocError> {
    match form {
        Form::Entries => find_entries_form(alloc, value),
        Form::Members | Form::Children => bad_items(alloc, name, form, value),
        Form::Lists | Form::Memberships => bad_pairs(alloc, name, form, value),
        Form::Deliver => bad_deliver(alloc, name, value),
        _ if has_form(form, value) => Ok(None),
        _ => found_at(alloc, name, value),
    }
}

/// Whether a value that has no parts has its form.
fn has_form(form: Form, value: &Value<'_>) -> bool {
    match form {
        Form::Word | Form::Title | Form::Content | Form::Owner | Form::PerhapsOwner | Form::Who =>
            text(value).is_ok(),
        Form::Whole | Form::PerhapsWhole => whole(value).is_ok(),
        Form::PerhapsTruth => truth(value).is_ok(),
        Form::True => matches!(truth(value), Ok(true)),
        Form::Home => is_nothing(value) || whole(value).is_ok(),
        Form::Client => small(value).is_some_and(|number| ClientNo::of(number).is_some()),
        Form::Part => small(value).is_some(),
        Form::Stamp => is_stamp(value),
        Form::Item => item_in(value).is_some(),
        Form::Children | Form::Members | Form::Entries | Form::Lists | Form::Memberships => is_list(
            value,
        ),
        Form::Deliver => whole(value).is_ok() || is_range(value),
    }
}

/// The number of at most 16 bits that the value is.
fn small(value: &Value<'_>) -> Option<u16> {
    u16::try_from(whole(value).ok()?).ok()
}

fn is_stamp(value: &Value<'_>) -> bool {
    match whole(value) {
        Ok(number) => Stamp::read(number).is_some(),
        Err(_) => false,
    }
}

/// The item that the value is.
pub(crate) fn item_in(value: &Value<'_>) -> Option<ItemId> {
    read_item(text(value).ok()?)
}

fn is_child(value: &Value<'_>) -> bool {
    match item_in(value) {
        Some(item) => matches!(item.kind(), Kind::Picture | Kind::Album),
        None => false,
    }
}

/// Whether the value is [first, last], with no more between them than a range may spell.
fn is_range(value: &Value<'_>) -> bool {
    match (bound(value, 0), bound(value, 1)) {
        (Some(first), Some(last)) => {
            sized_list(value, 2).is_ok() && (last < first || last - first < MAX_DELIVERIES)
        }
        _ => false,
    }
}

fn bound(value: &Value<'_>, index: usize) -> Option<u64> {
    whole(item(value, index).ok()?).ok()
}

/// The item at this index of the member.
pub(crate) fn found_item(
    alloc: Global,
    name: &str,
    index: usize,
    value: &Value<'_>,
) -> Result<Option<Found>, AllocError> {
    Ok(Some(Found {
        at: format!(in alloc; "{name}[{index}]")?,
        value: whole(value).ok(),
    }))
}

/// Children or members.
fn bad_items(
    alloc: Global,
    name: &str,
    form: Form,
    value: &Value<'_>,
) -> Result<Option<Found>, AllocError> {
    let Ok(items) = list(value) else {
        return found_at(alloc, name, value);
    };
    for (index, item) in items.as_slice().iter().enumerate() {
        let passes = match form {
            Form::Children => is_child(item),
            _ => text(item).is_ok(),
        };
        if !passes {
            return found_item(alloc, name, index, item);
        }
    }
    Ok(None)
}

/// [object, entries] each, or [group, members].
fn bad_pairs(
    alloc: Global,
    name: &str,
    form: Form,
    value: &Value<'_>,
) -> Result<Option<Found>, AllocError> {
    let Ok(pairs) = list(value) else {
        return found_at(alloc, name, value);
    };
    for (index, pair) in pairs.as_slice().iter().enumerate() {
        let found = bad_pair(alloc, name, form, index, pair)?;
        if found.is_some() {
            return Ok(found);
        }
    }
    Ok(None)
}

fn bad_pair(
    alloc: Global,
    name: &str,
    form: Form,
    index: usize,
    pair: &Value<'_>,
) -> Result<Option<Found>, AllocError> {
    if sized_list(pair, 2).is_err() {
        return found_item(alloc, name, index, pair);
    }
    match item(pair, 0) {
        Ok(object) if item_in(object).is_none() => found_object(alloc, name, index, object),
        _ => bad_second(alloc, name, form, index, pair),
    }
}

fn found_object(
    alloc: Global,
    name: &str,
    index: usize,
    object: &Value<'_>,
) -> Result<Option<Found>, AllocError> {
    let at = format!(in alloc; "{name}[{index}].object")?;
    Ok(Some(Found {
        at,
        value: whole(object).ok(),
    }))
}

/// The entries of the pair, or its members.
fn bad_second(
    alloc: Global,
    name: &str,
    form: Form,
    index: usize,
    pair: &Value<'_>,
) -> Result<Option<Found>, AllocError> {
    let Ok(part) = item(pair, 1) else {
        return Ok(None);
    };
    let found = match form {
        Form::Lists => find_entries_form(alloc, part)?,
        _ => bad_items(alloc, "members", Form::Members, part)?,
    };
    within_item(alloc, name, index, found)
}

/// A part of an item of the member.
pub(crate) fn within_item(
    alloc: Global,
    name: &str,
    index: usize,
    found: Option<Found>,
) -> Result<Option<Found>, AllocError> {
    let Some(Found { at, value }) = found else {
        return Ok(None);
    };
    let at = format!(in alloc; "{name}[{index}].{at}")?;
    Ok(Some(Found { at, value }))
}

/// A number, or [first, last], which may be too many.
fn bad_deliver(alloc: Global, name: &str, value: &Value<'_>) -> Result<Option<Found>, AllocError> {
    if has_form(Form::Deliver, value) {
        return Ok(None);
    }
    if sized_list(value, 2).is_ok() {
        for index in 0..2 {
            if let Ok(end) = item(value, index) {
                if whole(end).is_err() {
                    return found_item(alloc, name, index, end);
                }
            }
        }
    }
    found_at(alloc, name, value)
}
