//! The JSON value of a line, whose texts are borrowed from the line: one JSON text whose numbers are all in range. Each
//! number is tested here, and read where the shape wants it.
ghost use Rattle.std.specs.Prelude.{◌≡◌};
ghost use Rattle.json.specs.Value.{value_view, items_view, members_view};
ghost use Rattle.album_stamps.specs.Outcome.{Gives};
ghost use Rattle.album_lines.specs.Fields.{data_of};
ghost use Rattle.album_lines.specs.Trees.{value_data, is_in_range, are_in_range, hold_in_range};

use crate::numbers::number;
use album_stamps::Refusal;
use json::{Error, Reader, Scratch, Value};
use std::alloc::Global;
use std::str;

/// How deep the brackets of a line may be nested.
pub const MAX_DEPTH: usize = 127;

/// The JSON value of a line. The scratch is room that is kept from line to line, whatever was in it.
///
/// # Errors
///
/// `BadLine`, where the bytes aren't UTF-8, or aren't one JSON text nested at most 127 deep, or have a number
/// that is out of range. `OutOfMemory`.
pub fn data<'a>(
    alloc: Global,
    scratch: &'a mut Scratch,
    bytes: &'a [u8],
) -> Result<Value<'a>, Refusal>
    ensures { Gives value_data result (data_of bytes.now) }
{
    let Ok(text) = str::from_utf8(bytes) else {
        return Err(Refusal::BadLine);
    };
    let mut reader = Reader::new(text, scratch)?;
    let value = match Value::read(alloc, &mut reader, MAX_DEPTH) {
        Ok(value) => value,
        Err(Error::Invalid) => return Err(Refusal::BadLine),
        // `read` gives no other error than that there is no memory.
        Err(_) => return Err(Refusal::OutOfMemory),
    };
    if reader.next().is_some() {
        return Err(Refusal::BadLine);
    }
    if !is_in_range(&value) {
        return Err(Refusal::BadLine);
    }
    Ok(value)
}

/// Whether each number in the value is in range.
#[cycle(range)]
fn is_in_range(value: &Value<'_>) -> bool
    ensures { result ≡ is_in_range (value_view value.now) }
{
    match value {
        Value::Number(text) => number(text).is_some(),
        Value::Array(items) => are_in_range(items),
        Value::Object(members) => hold_in_range(members),
        Value::Null | Value::Bool(_) | Value::String(_) => true,
    }
}

#[cycle(range)]
fn are_in_range(items: &[Value<'_>]) -> bool
    ensures { result ≡ are_in_range (items_view items.now) }
{
    for item in items {
        if !is_in_range(item) {
            return false;
        }
    }
    true
}

#[cycle(range)]
fn hold_in_range(members: &[(&str, Value<'_>)]) -> bool
    ensures { result ≡ hold_in_range (members_view members.now) }
{
    for member in members {
        if !is_in_range(&member.1) {
            return false;
        }
    }
    true
}
