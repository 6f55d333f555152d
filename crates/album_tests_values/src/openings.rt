//! The state that the service opens with (docs/FORMATS.md, "Limits").
use crate::items::picture;
use album_items::{FirstStamps, ItemId, ItemValues, Kind, Opening, Value};
use album_stamps::{MAX_OPENING_ITEMS, Refusal, Stamp};
use std::alloc::Global;

fn picture_row(alloc: Global, number: u64, list: u64) -> Result<(ItemId, Value), Refusal> {
    let value = picture(alloc, list)?;
    Ok((ItemId::new(Kind::Picture, number), value))
}

/// Two pictures under lists of these numbers.
fn two_pictures(alloc: Global, lists: [u64; 2]) -> Result<ItemValues, Refusal> {
    let mut rows = Vec::new(alloc);
    for (number, list) in lists.iter().enumerate() {
        rows.push(picture_row(alloc, number as u64, *list)?)?;
    }
    Ok(ItemValues::of(rows))
}

/// What the check of an opening of copies of two pictures under lists of these numbers says.
fn two_checked(alloc: Global, lists: [u64; 2]) -> Result<(), Refusal> {
    let items = two_pictures(alloc, lists)?;
    checked(alloc, items.clone()?)
}

fn checked(alloc: Global, items: ItemValues) -> Result<(), Refusal> {
    let opening = Opening {
        parts: 3,
        limit: 1000,
        policy: 1,
        checked: false,
        root: None,
        first: 0,
        items,
        stamps: FirstStamps::new(alloc),
    };
    opening.check()
}

/// The lists of two pictures, and what the check says.
const TWO: &[([u64; 2], Result<(), Refusal>)] = &[
    ([7, 8], Ok(())),
    ([7, 7], Err(Refusal::BadOpening)),
    ([7, 65536], Err(Refusal::BadOpening)),
];

#[test]
fn two_heads_with_one_list(rt: HostRuntime) {
    for (lists, said) in TWO {
        assert_eq!(rt; two_checked(rt.alloc(), *lists), *said);
    }
}

/// What the check of an opening with no item says, under a policy of this number.
fn under_policy(alloc: Global, policy: u64) -> Result<(), Refusal> {
    let opening = Opening {
        parts: 1,
        limit: 2,
        policy,
        checked: false,
        root: None,
        first: 0,
        items: ItemValues::of(Vec::new(alloc)),
        stamps: FirstStamps::new(alloc),
    };
    opening.check()
}

/// What the check of an opening with no item says, after an epoch of counter 1, where a first value has this stamp.
fn with_stamp(alloc: Global, value: u64) -> Result<(), Refusal> {
    let stamp = Stamp::read(value).ok_or(Refusal::BadRequest)?;
    let mut stamps = FirstStamps::new(alloc);
    stamps.note(ItemId::new(Kind::Picture, 0), stamp)?;
    let opening = Opening {
        parts: 1,
        limit: 2,
        policy: 3,
        checked: true,
        root: None,
        first: 1,
        items: ItemValues::of(Vec::new(alloc)),
        stamps,
    };
    opening.check()
}

/// The greatest stamp of counter 1, and the first ones of counters 1 and 2.
const STAMPS: &[(u64, Result<(), Refusal>)] = &[
    (0, Ok(())),
    (65_537, Ok(())),
    (131_071, Ok(())),
    (131_073, Err(Refusal::BadOpening)),
];

#[test]
fn stamps_of_the_epochs_before(rt: HostRuntime) {
    for (value, said) in STAMPS {
        assert_eq!(rt; with_stamp(rt.alloc(), *value), *said);
    }
}

/// Each number, and what the check says of a policy of it.
const POLICIES: &[(u64, Result<(), Refusal>)] = &[
    (0, Err(Refusal::BadOpening)),
    (1, Ok(())),
    (2, Ok(())),
    (3, Ok(())),
    (4, Err(Refusal::BadOpening)),
];

#[test]
fn policies(rt: HostRuntime) {
    for (policy, said) in POLICIES {
        assert_eq!(rt; under_policy(rt.alloc(), *policy), *said);
    }
}

/// What the check of an opening of so many pictures says, each under its own list.
fn many_pictures(alloc: Global, len: usize) -> Result<(), Refusal> {
    let mut rows = Vec::new(alloc);
    for number in 0..len {
        rows.push(picture_row(alloc, number as u64, number as u64)?)?;
    }
    checked(alloc, ItemValues::of(rows))
}

/// How many pictures, and what the check says.
const LENGTHS: &[(usize, Result<(), Refusal>)] = &[
    (MAX_OPENING_ITEMS, Ok(())),
    (4097, Err(Refusal::BadOpening)),
];

#[test]
fn most_items(rt: HostRuntime) {
    for (len, said) in LENGTHS {
        assert_eq!(rt; many_pictures(rt.alloc(), *len), *said);
    }
}
