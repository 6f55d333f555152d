//! Answers, spelled out for people: contents as text where they are UTF-8, masks and flags by their bits' names, and a
//! new object by its name.

use crate::requests::json_line;
use album_access::{AceFlags, Mask};
use album_judge::Fault;
use bitflags::Flags;
use serde_json::{Map, Value, put};
use std::alloc::{AllocError, Global};

/// A reason of a denial: object, mask, and where it is decided.
const REASON: Places = Places {
    mask: 1,
    flags: None,
};

/// An entry of a list: type, who, mask and flags.
const ENTRY: Places = Places {
    mask: 2,
    flags: Some(3),
};

/// The answer to the request, spelled out. One that isn't a JSON object stays as it is.
pub(crate) fn spelled(alloc: Global, request: &[u8], answer: &[u8]) -> Result<Vec<u8>, Fault> {
    match spelled_text(alloc, request, answer) {
        Ok(text) => Ok(text),
        Err(_) => Err(Fault::Memory),
    }
}

fn spelled_text(alloc: Global, request: &[u8], answer: &[u8]) -> Result<Vec<u8>, AllocError> {
    let Some(mut value) = parsed(alloc, answer) else {
        return copied(alloc, answer);
    };
    if let Some(fields) = value.as_object_mut() {
        spell_fields(alloc, fields, request)?;
    }
    json_line(alloc, &value)
}

/// Spells out the fields of an answer that is an object.
fn spell_fields(
    alloc: Global,
    fields: &mut Map<String, Value>,
    request: &[u8],
) -> Result<(), AllocError> {
    spell_content(alloc, fields)?;
    spell_rows(alloc, fields, "reasons", REASON)?;
    spell_rows(alloc, fields, "entries", ENTRY)?;
    name_new_object(alloc, fields, request)
}

fn parsed(alloc: Global, answer: &[u8]) -> Option<Value> {
    let text = std::str::from_utf8(answer).ok()?;
    Value::from_str(alloc, text).ok()
}

fn copied(alloc: Global, answer: &[u8]) -> Result<Vec<u8>, AllocError> {
    let mut text = Vec::new(alloc);
    text.extend_from_slice(answer)?;
    Ok(text)
}

/// A picture's content is hexadecimal. Where it spells a text in UTF-8, that text replaces it, under `text`.
fn spell_content(alloc: Global, fields: &mut Map<String, Value>) -> Result<(), AllocError> {
    let Some(Value::String(digits)) = fields.get("content") else {
        return Ok(());
    };
    let Ok(bytes) = hex::decode(alloc, digits.as_bytes()) else {
        return Ok(());
    };
    let Ok(text) = std::str::from_utf8(&bytes) else {
        return Ok(());
    };
    let text = Value::try_from_str(alloc, text)?;
    put(fields, alloc, "text", text)?;
    let _ = fields.remove("content");
    Ok(())
}

/// At which index of a row its mask is, and its flags, if it has them.
#[derive(Clone, Copy)]
struct Places {
    mask: usize,
    flags: Option<usize>,
}

/// In each row under the key, masks and flags become names.
fn spell_rows(
    alloc: Global,
    fields: &mut Map<String, Value>,
    key: &str,
    places: Places,
) -> Result<(), AllocError> {
    let Some(Value::Array(rows)) = fields.remove(key) else {
        return Ok(());
    };
    let spelled = spelled_rows(alloc, rows, places)?;
    put(fields, alloc, key, spelled)
}

fn spelled_rows(alloc: Global, rows: Vec<Value>, places: Places) -> Result<Value, AllocError> {
    let mut spelled = Vec::new(alloc);
    for row in rows {
        spelled.push(spelled_row(alloc, row, places)?)?;
    }
    Ok(Value::Array(spelled))
}

fn spelled_row(alloc: Global, row: Value, places: Places) -> Result<Value, AllocError> {
    let Value::Array(parts) = row else {
        return Ok(row);
    };
    let mut spelled = Vec::new(alloc);
    let mut at = 0usize;
    for part in parts {
        spelled.push(spelled_part(alloc, part, at, places)?)?;
        at = at.saturating_add(1);
    }
    Ok(Value::Array(spelled))
}

fn spelled_part(
    alloc: Global,
    part: Value,
    at: usize,
    places: Places,
) -> Result<Value, AllocError> {
    if at == places.mask {
        return mask_names(alloc, &part);
    }
    if places.flags == Some(at) {
        return flag_names(alloc, &part);
    }
    Ok(part)
}

/// The names of the bits of a mask, with commas between them.
fn mask_names(alloc: Global, part: &Value) -> Result<Value, AllocError> {
    let bits = part.as_u64().and_then(|bits| u32::try_from(bits).ok());
    let mut names = String::new(alloc);
    for flag in Mask::flags() {
        if bits.is_some_and(|bits| bits & flag.value.bits() != 0) {
            add_name(&mut names, flag.name)?;
        }
    }
    Ok(Value::String(names))
}

fn flag_names(alloc: Global, part: &Value) -> Result<Value, AllocError> {
    let bits = part.as_u64().and_then(|bits| u32::try_from(bits).ok());
    let mut names = String::new(alloc);
    for flag in AceFlags::flags() {
        if bits.is_some_and(|bits| bits & flag.value.bits() != 0) {
            add_name(&mut names, flag.name)?;
        }
    }
    Ok(Value::String(names))
}

fn add_name(names: &mut String, name: &str) -> Result<(), AllocError> {
    if !names.is_empty() {
        names.push(',')?;
    }
    names.push_str(name)
}

/// What a committed request has made is named: its number is the stamp.
fn name_new_object(
    alloc: Global,
    fields: &mut Map<String, Value>,
    request: &[u8],
) -> Result<(), AllocError> {
    let Some(kind) = new_kind(alloc, request) else {
        return Ok(());
    };
    if fields.get("answer").and_then(Value::as_str) != Some("committed") {
        return Ok(());
    }
    let Some(stamp) = fields.get("stamp").and_then(Value::as_u64) else {
        return Ok(());
    };
    let name = format!(in alloc; "{kind}/{stamp}")?;
    put(fields, alloc, "object", Value::String(name))
}

/// The kind of what the request makes, if it makes something.
fn new_kind(alloc: Global, request: &[u8]) -> Option<&'static str> {
    let request = parsed(alloc, request)?;
    match request.get("ask") {
        Some(asked) => kind_made(asked),
        None => kind_made(&request),
    }
}

fn kind_made(asked: &Value) -> Option<&'static str> {
    match asked.get("do").and_then(Value::as_str) {
        Some("add_picture") => Some("picture"),
        Some("add_album") => Some("album"),
        Some("add_group") => Some("group"),
        _ => None,
    }
}
