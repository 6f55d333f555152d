//! JSON values that are written, made part by part: {name: value, ..}, [value, ..], and the line of one.
//!
//! A part comes as the result of what makes it, and so does what it is added to. A failure is passed on to the end. So
//! a value of many parts is made in as many calls, and its function has no `?` at which it would let the others go.
ghost use Rattle.std.specs.Prelude.{◌≡◌, ◌++◌, ◌∷◌, [], false, map, IfOk, IsOkAnd};
ghost use Rattle.serde_json.specs.Data.{object, put as put_member};
ghost use Rattle.serde_json.specs.View.{view, members_view};
ghost use Rattle.serde_json.specs.Written.{has_float};
ghost use Rattle.album_lines.specs.Output.{line_text};
ghost use Rattle.album_lines.specs.Spelling.{list_data};

use serde_json::{Map, Value, put};
use std::alloc::{AllocError, Global};

/// The members and one more, which takes the place of one with its name.
///
/// # Errors
///
/// `AllocError`, where the members or the value have failed, or there is no memory for one more.
pub fn with_member(
    alloc: Global,
    members: Result<Map<String, Value>, AllocError>,
    name: &str,
    value: Result<Value, AllocError>,
) -> Result<Map<String, Value>, AllocError>
    ensures { IfOk result (λ new. IsOkAnd members (λ old. IsOkAnd value (λ v.
        members_view new.entries ≡ put_member name.now (view v) (members_view old.entries)))) }
{
    let mut members = members?;
    put(&mut members, alloc, name, value?)?;
    Ok(members)
}

/// The object of these members.
///
/// # Errors
///
/// `AllocError`, where the members have failed.
pub fn object_of(members: Result<Map<String, Value>, AllocError>) -> Result<Value, AllocError>
    ensures { IfOk result (λ v. IsOkAnd members (λ all. view v ≡ object (members_view all.entries))) }
{
    Ok(Value::Object(members?))
}

/// The items and one more, as the last.
///
/// # Errors
///
/// `AllocError`, where the items or the value have failed, or there is no memory for one more.
pub fn with_item(
    items: Result<Vec<Value>, AllocError>,
    value: Result<Value, AllocError>,
) -> Result<Vec<Value>, AllocError>
    ensures { IfOk result (λ new. IsOkAnd items (λ old. IsOkAnd value (λ v.
        new.items ≡ old.items ++ v ∷ []))) }
{
    let mut items = items?;
    items.push(value?)?;
    Ok(items)
}

/// The list of these items.
///
/// # Errors
///
/// `AllocError`, where the items have failed.
pub fn array_of(items: Result<Vec<Value>, AllocError>) -> Result<Value, AllocError>
    ensures { IfOk result (λ v. IsOkAnd items (λ all. view v ≡ list_data (map view all.items))) }
{
    Ok(Value::Array(items?))
}

/// The line of a value that has no float.
///
/// # Errors
///
/// `AllocError`, where the value has failed, or there is no memory for its line.
pub fn json_line(alloc: Global, value: Result<Value, AllocError>) -> Result<Vec<u8>, AllocError>
    requires { IfOk value (λ v. has_float (view v) ≡ false) }
    ensures { IfOk result (λ bytes. IsOkAnd value (λ v. bytes.items ≡ line_text (view v))) }
{
    let value = value?;
    let mut bytes = value.to_vec(alloc)?;
    bytes.push(b'\n')?;
    Ok(bytes)
}
