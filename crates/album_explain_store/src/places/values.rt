//! Whether what has its form is one of its kind, and where it isn't.
use crate::places::forms::{found_item, within_item};
use crate::places::found_at;
use crate::places::tables::Form;
use album_eval::Principal;
use album_explain::{Found, find_entries_value};
use album_items::Title;
use album_lines::{item, list, text};
use album_lists::{Holder, Member, user_name};
use album_stamps::{MAX_CONTENT, MAX_MEMBERS, Refusal};
use hex::FromHexError;
use json::Value;
use std::alloc::{AllocError, Global};

/// The first part of the member of this name that is none of its kind.
pub(crate) fn bad_value(
    alloc: Global,
    name: &str,
    form: Form,
    value: &Value<'_>,
) -> Result<Option<Found>, AllocError> {
    match form {
        // Whether the object may carry them, no reader tests.
        Form::Entries => find_entries_value(alloc, value, Holder::Folder),
        Form::Members => bad_members(alloc, name, value),
        Form::Lists | Form::Memberships => bad_pairs(alloc, name, form, value),
        _ => match text(value) {
            Ok(text) if !is_right(alloc, form, text)? => found_at(alloc, name, value),
            _ => Ok(None),
        },
    }
}

/// Whether the text is one of its kind.
fn is_right(alloc: Global, form: Form, text: &str) -> Result<bool, AllocError> {
    match form {
        Form::Title => is_title(alloc, text),
        Form::Content => is_content(alloc, text),
        Form::Owner | Form::PerhapsOwner => Ok(user_name(text).is_ok()),
        Form::Who => Ok(Principal::read(text).is_ok()),
        _ => Ok(true),
    }
}

fn is_title(alloc: Global, text: &str) -> Result<bool, AllocError> {
    match Title::of(alloc, text) {
        Ok(_) => Ok(true),
        Err(Refusal::OutOfMemory) => Err(AllocError),
        Err(_) => Ok(false),
    }
}

/// Whether the text spells a content in hexadecimal.
fn is_content(alloc: Global, text: &str) -> Result<bool, AllocError> {
    match hex::decode(alloc, text) {
        Ok(bytes) => Ok(bytes.len() <= MAX_CONTENT),
        Err(FromHexError::OutOfMemory) => Err(AllocError),
        Err(_) => Ok(false),
    }
}

/// How many members there are, then each of them.
fn bad_members(alloc: Global, name: &str, value: &Value<'_>) -> Result<Option<Found>, AllocError> {
    let Ok(members) = list(value) else {
        return Ok(None);
    };
    if members.len() > MAX_MEMBERS {
        return found_at(alloc, name, value);
    }
    for (index, member) in members.as_slice().iter().enumerate() {
        let passes = match text(member) {
            Ok(text) => Member::read(text).is_ok(),
            Err(_) => false,
        };
        if !passes {
            return found_item(alloc, name, index, member);
        }
    }
    Ok(None)
}

/// [object, entries] each, or [group, members].
fn bad_pairs(
    alloc: Global,
    name: &str,
    form: Form,
    value: &Value<'_>,
) -> Result<Option<Found>, AllocError> {
    let Ok(pairs) = list(value) else {
        return Ok(None);
    };
    for (index, pair) in pairs.as_slice().iter().enumerate() {
        if let Ok(part) = item(pair, 1) {
            let found = match form {
                Form::Lists => find_entries_value(alloc, part, Holder::Folder)?,
                _ => bad_members(alloc, "members", part)?,
            };
            if found.is_some() {
                return within_item(alloc, name, index, found);
            }
        }
    }
    Ok(None)
}
