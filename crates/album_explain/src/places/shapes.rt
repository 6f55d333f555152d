//! The first part of a line's object that hasn't its form, in the order in which forms are tested.
use crate::places::{Finding, Place};
use album_eval::Policy;
use album_lines::{item, list, member, sized_list, text, whole};
use json::Value;
use std::alloc::{AllocError, Global};
use std::collections::BTreeSet;

/// The members of a line, in the order of their tests.
const NAMES: [&str; 8] = [
    "entries", "kind", "group", "groups", "owner", "who", "mask", "policy",
];

/// The first part that hasn't its form.
pub(crate) fn bad_shape<'a>(
    alloc: Global,
    line: &Value<'a>,
) -> Result<Option<Finding<'a>>, AllocError> {
    let Value::Object(members) = line else {
        return Ok(Some(Finding::new(Place::Line, line)));
    };
    for known in members.as_slice() {
        if !NAMES.contains(&known.0) {
            return Ok(Some(Finding::new(Place::Member(known.0), &known.1)));
        }
    }
    for name in NAMES {
        let found = bad_member(alloc, line, name)?;
        if found.is_some() {
            return Ok(found);
        }
    }
    Ok(None)
}

fn bad_member<'a>(
    alloc: Global,
    line: &Value<'a>,
    name: &'static str,
) -> Result<Option<Finding<'a>>, AllocError> {
    let place = Place::Member(name);
    let Some(value) = member(line, name) else {
        let may_be_left_out = matches!(name, "kind" | "groups" | "policy");
        return Ok(if may_be_left_out {
            None
        } else {
            Some(Finding { place, value: None })
        });
    };
    match name {
        "entries" => Ok(bad_entries_form(value)),
        "groups" => bad_groups(alloc, value),
        "kind" => Ok(unless(is_kind(value), place, value)),
        "policy" => Ok(unless(is_policy(value), place, value)),
        "owner" | "who" => Ok(unless(text(value).is_ok(), place, value)),
        _ => Ok(unless(whole(value).is_ok(), place, value)),
    }
}

/// The part, unless it passes its test.
fn unless<'a>(passes: bool, place: Place<'a>, value: &Value<'_>) -> Option<Finding<'a>> {
    if passes {
        None
    } else {
        Some(Finding::new(place, value))
    }
}

fn is_kind(value: &Value<'_>) -> bool {
    matches!(text(value), Ok("picture" | "album" | "group"))
}

fn is_policy(value: &Value<'_>) -> bool {
    match whole(value) {
        Ok(number) => Policy::of(number).is_some(),
        Err(_) => false,
    }
}

pub(crate) fn bad_entries_form<'a>(value: &Value<'a>) -> Option<Finding<'a>> {
    let Ok(entries) = list(value) else {
        return Some(Finding::new(Place::Member("entries"), value));
    };
    for (index, entry) in entries.as_slice().iter().enumerate() {
        let found = bad_entry(index, entry);
        if found.is_some() {
            return found;
        }
    }
    None
}

fn bad_entry<'a>(index: usize, entry: &Value<'a>) -> Option<Finding<'a>> {
    if sized_list(entry, 4).is_err() {
        return Some(Finding::new(Place::Item("entries", index), entry));
    }
    for (at, part) in ["type", "who", "mask", "flags"].iter().enumerate() {
        let Ok(value) = item(entry, at) else {
            continue;
        };
        let passes = match at {
            0 => is_type(value),
            1 => text(value).is_ok(),
            _ => whole(value).is_ok(),
        };
        if !passes {
            return Some(Finding::new(Place::Entry(index, part), value));
        }
    }
    None
}

fn is_type(value: &Value<'_>) -> bool {
    matches!(text(value), Ok("allow" | "deny" | "audit" | "alarm"))
}

fn bad_groups<'a>(alloc: Global, value: &Value<'a>) -> Result<Option<Finding<'a>>, AllocError> {
    let Ok(groups) = list(value) else {
        return Ok(Some(Finding::new(Place::Member("groups"), value)));
    };
    for (index, group) in groups.as_slice().iter().enumerate() {
        let found = bad_group(index, group);
        if found.is_some() {
            return Ok(found);
        }
    }
    repeated(alloc, groups)
}

fn bad_group<'a>(index: usize, group: &Value<'a>) -> Option<Finding<'a>> {
    if sized_list(group, 2).is_err() {
        return Some(Finding::new(Place::Item("groups", index), group));
    }
    if let Ok(number) = item(group, 0) {
        if whole(number).is_err() {
            return Some(Finding::new(Place::GroupNumber(index), number));
        }
    }
    let Ok(value) = item(group, 1) else {
        return None;
    };
    let Ok(members) = list(value) else {
        return Some(Finding::new(Place::GroupMembers(index), value));
    };
    for (at, member) in members.as_slice().iter().enumerate() {
        if text(member).is_err() {
            return Some(Finding::new(Place::GroupMember(index, at), member));
        }
    }
    None
}

/// The first number that another group before has.
fn repeated<'a>(alloc: Global, groups: &[Value<'a>]) -> Result<Option<Finding<'a>>, AllocError> {
    let mut seen = BTreeSet::new(alloc);
    for (index, group) in groups.iter().enumerate() {
        if let Ok(value) = item(group, 0) {
            if let Ok(number) = whole(value) {
                if !seen.insert(number)? {
                    return Ok(Some(Finding::new(Place::GroupNumber(index), value)));
                }
            }
        }
    }
    Ok(None)
}
