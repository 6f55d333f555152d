//! What the bits of masks and flags are called. The tables of `album_access` have the names; an album's lowest three
//! bits have names of their own, which are here.
ghost use Rattle.std.specs.Prelude.{◌≡◌, ◌==◌, map, filter, IfOk};
ghost use Rattle.serde_json.specs.View.{view};
ghost use Rattle.album_access.specs.Bits.{mask_bits, flag_bits};
ghost use Rattle.album_explain.specs.Names.{bit_name};

use album_access::{AceFlags, Mask};
use album_lines::{array_of, object_of, with_item, with_member};
use album_lists::Holder;
use album_stamps::Refusal;
use bitflags::{Flag, Flags};
use serde_json::{Map, Value};
use std::alloc::{AllocError, Global};

/// What a bit of a mask is called on an object of this kind (RFC 7530, section 6.2.1.3.1).
pub fn bit_name(holder: Holder, flag: &Flag<Mask>) -> &'static str
    ensures { result.now ≡ bit_name holder flag.now.name.now (mask_bits flag.now.value) }
{
    match (holder, flag.value.bits()) {
        (Holder::Folder, 1) => "LIST_DIRECTORY",
        (Holder::Folder, 2) => "ADD_FILE",
        (Holder::Folder, 4) => "ADD_SUBDIRECTORY",
        (Holder::Folder | Holder::Plain, _) => flag.name,
    }
}

/// The line for a mask: of a number its names, of names their number.
///
/// # Errors
///
/// `BadMask`, where the text is no mask's number, or has a name that is none. `OutOfMemory`.
pub fn write_mask(alloc: Global, text: &str) -> Result<Vec<u8>, Refusal> {
    let value = match number(text) {
        Some(number) => mask_json(alloc, mask_of(number)?)?,
        None => number_json(alloc, "mask", mask_named(text)?.bits())?,
    };
    Ok(line(alloc, &value)?)
}

/// The line for flags, likewise.
///
/// # Errors
///
/// `BadFlags`, where the text is no number of flags, or has a name that is none. `OutOfMemory`.
pub fn write_flags(alloc: Global, text: &str) -> Result<Vec<u8>, Refusal> {
    let value = match number(text) {
        Some(number) => flags_json(alloc, flags_of(number)?)?,
        None => number_json(alloc, "flags", flags_named(text)?.bits())?,
    };
    Ok(line(alloc, &value)?)
}

/// The number that the text is, if it is one.
fn number(text: &str) -> Option<u64> {
    text.parse::<u64>().ok()
}

fn mask_of(number: u64) -> Result<Mask, Refusal> {
    match u32::try_from(number) {
        Ok(bits) => Mask::of(bits),
        Err(_) => Err(Refusal::BadMask),
    }
}

fn flags_of(number: u64) -> Result<AceFlags, Refusal> {
    match u32::try_from(number) {
        Ok(bits) => AceFlags::of(bits),
        Err(_) => Err(Refusal::BadFlags),
    }
}

/// The mask of names with commas between them, each as it is on one of the objects.
fn mask_named(text: &str) -> Result<Mask, Refusal> {
    let mut mask = Mask::empty();
    for name in text.split(',') {
        let Some(flag) = Mask::flags().iter().find(|flag| is_called(flag, name)) else {
            return Err(Refusal::BadMask);
        };
        mask = mask.union(flag.value);
    }
    Ok(mask)
}

fn is_called(flag: &Flag<Mask>, name: &str) -> bool {
    flag.name == name || bit_name(Holder::Folder, flag) == name
}

fn flags_named(text: &str) -> Result<AceFlags, Refusal> {
    let mut flags = AceFlags::empty();
    for name in text.split(',') {
        let flag = AceFlags::from_name(name).ok_or(Refusal::BadFlags)?;
        flags = flags.union(flag);
    }
    Ok(flags)
}

fn mask_json(alloc: Global, mask: Mask) -> Result<Value, AllocError> {
    let mut names = Ok(Vec::new(alloc));
    for flag in Mask::flags() {
        if mask.contains(flag.value) {
            names = with_item(names, Value::try_from_str(alloc, flag.name));
        }
    }
    let fields = number_fields(alloc, "mask", mask.bits());
    object_of(with_member(alloc, fields, "names", array_of(names)))
}

fn flags_json(alloc: Global, flags: AceFlags) -> Result<Value, AllocError> {
    let mut names = Ok(Vec::new(alloc));
    for flag in AceFlags::flags() {
        if flags.contains(flag.value) {
            names = with_item(names, Value::try_from_str(alloc, flag.name));
        }
    }
    let fields = number_fields(alloc, "flags", flags.bits());
    object_of(with_member(alloc, fields, "names", array_of(names)))
}

fn number_json(alloc: Global, name: &str, bits: u32) -> Result<Value, AllocError> {
    object_of(number_fields(alloc, name, bits))
}

fn number_fields(alloc: Global, name: &str, bits: u32) -> Result<Map<String, Value>, AllocError> {
    with_member(alloc, Ok(Map::new(alloc)), name, Ok(Value::from(bits)))
}

fn line(alloc: Global, value: &Value) -> Result<Vec<u8>, AllocError> {
    let mut bytes = value.to_vec(alloc)?;
    bytes.push(b'\n')?;
    Ok(bytes)
}
