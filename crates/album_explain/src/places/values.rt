//! The first part of a line that has its form and isn't one, in the order in which parts are tested.
use crate::places::{Finding, Place};
use album_access::{AceFlags, Mask};
use album_eval::Principal;
use album_lines::{item, list, member, text, whole};
use album_lists::{Member, Who, user_name};
use album_stamps::{MAX_ENTRIES, MAX_MEMBERS};
use bitflags::Flags;
use json::Value;

/// The members of a line whose parts are tested, in the order of their tests.
const NAMES: [&str; 5] = ["entries", "groups", "owner", "who", "mask"];

/// The first part that is none of its kind, of a line whose parts have their form.
pub(crate) fn bad_value<'a>(line: &Value<'a>) -> Option<Finding<'a>> {
    let is_album = is_album(line);
    for name in NAMES {
        if let Some(value) = member(line, name) {
            let found = match name {
                "entries" => bad_entries_value(value, is_album),
                "groups" => bad_groups(value),
                _ => bad_member(name, value),
            };
            if found.is_some() {
                return found;
            }
        }
    }
    None
}

fn is_album(line: &Value<'_>) -> bool {
    match member(line, "kind") {
        Some(kind) => matches!(text(kind), Ok("album")),
        None => false,
    }
}

fn bad_member<'a>(name: &'static str, value: &Value<'_>) -> Option<Finding<'a>> {
    let passes = match name {
        "owner" => is_owner(value),
        "who" => is_principal(value),
        _ => is_mask(value),
    };
    if passes {
        return None;
    }
    Some(Finding::new(Place::Member(name), value))
}

fn is_owner(value: &Value<'_>) -> bool {
    match text(value) {
        Ok(text) => user_name(text).is_ok(),
        Err(_) => false,
    }
}

fn is_principal(value: &Value<'_>) -> bool {
    match text(value) {
        Ok(text) => Principal::read(text).is_ok(),
        Err(_) => false,
    }
}

fn is_mask(value: &Value<'_>) -> bool {
    match number(value) {
        Some(bits) => Mask::of(bits).is_ok(),
        None => false,
    }
}

/// The number of at most 32 bits that the value is.
fn number(value: &Value<'_>) -> Option<u32> {
    u32::try_from(whole(value).ok()?).ok()
}

/// How many entries there are, then each of them, then whether all are of use, and whether the object may carry them.
pub(crate) fn bad_entries_value<'a>(value: &Value<'_>, is_album: bool) -> Option<Finding<'a>> {
    let entries = list(value).ok()?;
    if entries.len() > MAX_ENTRIES {
        return Some(Finding::new(Place::Member("entries"), value));
    }
    for (index, entry) in entries.as_slice().iter().enumerate() {
        if let Some((at, part)) = bad_part(entry) {
            return Some(Finding::new(Place::Entry(index, part), item(entry, at).ok()?));
        }
    }
    for (index, entry) in entries.as_slice().iter().enumerate() {
        if is_of_no_use(entry) {
            return Some(Finding::new(Place::Entry(index, "flags"), item(entry, 3).ok()?));
        }
    }
    for (index, entry) in entries.as_slice().iter().enumerate() {
        if !is_album && is_inherited(entry) {
            return Some(Finding::new(Place::Entry(index, "flags"), item(entry, 3).ok()?));
        }
    }
    None
}

/// The part of an entry that is none, by its index and its name.
fn bad_part(entry: &Value<'_>) -> Option<(usize, &'static str)> {
    if !is_mask(item(entry, 2).ok()?) {
        return Some((2, "mask"));
    }
    let Some(flags) = flags(entry) else {
        return Some((3, "flags"));
    };
    let who = text(item(entry, 1).ok()?).ok()?;
    match Who::read(who, flags) {
        Ok(_) => None,
        Err(_) => Some((1, "who")),
    }
}

fn flags(entry: &Value<'_>) -> Option<AceFlags> {
    AceFlags::of(number(item(entry, 3).ok()?)?).ok()
}

/// Whether the entry is only inherited, and nothing inherits it.
fn is_of_no_use(entry: &Value<'_>) -> bool {
    let heirs = AceFlags::FILE_INHERIT.union(AceFlags::DIRECTORY_INHERIT);
    flags(entry).is_some_and(|flags| flags.contains(AceFlags::INHERIT_ONLY)
        && !flags.intersects(heirs))
}

fn is_inherited(entry: &Value<'_>) -> bool {
    let inheritance = AceFlags::FILE_INHERIT
        .union(AceFlags::DIRECTORY_INHERIT)
        .union(AceFlags::NO_PROPAGATE_INHERIT)
        .union(AceFlags::INHERIT_ONLY);
    flags(entry).is_some_and(|flags| flags.intersects(inheritance))
}

/// Of each group how many members there are, then each of them.
fn bad_groups<'a>(value: &Value<'_>) -> Option<Finding<'a>> {
    for (index, group) in list(value).ok()?.as_slice().iter().enumerate() {
        let value = item(group, 1).ok()?;
        let members = list(value).ok()?;
        if members.len() > MAX_MEMBERS {
            return Some(Finding::new(Place::GroupMembers(index), value));
        }
        for (at, member) in members.as_slice().iter().enumerate() {
            if Member::read(text(member).ok()?).is_err() {
                return Some(Finding::new(Place::GroupMember(index, at), member));
            }
        }
    }
    None
}
