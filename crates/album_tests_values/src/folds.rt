//! What the next epoch opens with (docs/PROTOCOL.md, "Epochs").
use crate::items::picture;
use album_epochs::{fold, greatest_stamp};
use album_items::{FirstStamps, ItemId, ItemValues, Items, Kind, Value};
use album_partition::Mark;
use album_stamps::{Refusal, Stamp};
use std::alloc::Global;

/// Counter 2 of client 1.
const GREATER: u64 = 131_073;

/// Counter 1 of client 2.
const LESSER: u64 = 65_538;

/// Of an epoch before, which wrote picture/1 under list 91.
const EARLIER: u64 = 65_537;

/// In place of a list's number: there is no picture.
const GONE: u64 = 0;

/// A picture by its number, and the number of its list.
type Under = (u64, u64);

/// A mark: what it prepares, and the pictures of the whole transaction.
#[derive(Clone, Copy)]
enum Made {
    Prepared(u64, &'static [Under], &'static [u64]),
    Committed(u64),
    Discarded(u64),
    Trimmed(u64),
}

/// The marks of partition 0, with the even pictures, and of partition 1, with the odd ones; and what that folds into,
/// where picture/0 is under list 90 at first, and picture/1 under list 91.
type Row = (&'static [Made], &'static [Made], &'static [Under]);

const FIRST: &[Under] = &[(0, 90), (1, 91)];

/// The transaction of picture/0 and picture/1, by its two marks.
const EVEN: Made = Made::Prepared(LESSER, &[(0, 10)], &[0, 1]);

const ODD: Made = Made::Prepared(LESSER, &[(1, 11)], &[0, 1]);

fn value(alloc: Global, list: u64) -> Result<Value, Refusal> {
    if list == GONE {
        Ok(Value::Missing)
    } else {
        picture(alloc, list)
    }
}

fn values(alloc: Global, pictures: &[Under]) -> Result<ItemValues, Refusal> {
    let mut rows = Vec::new(alloc);
    for (number, list) in pictures {
        rows.push((ItemId::new(Kind::Picture, *number), value(alloc, *list)?))?;
    }
    Ok(ItemValues::of(rows))
}

fn items(alloc: Global, numbers: &[u64]) -> Result<Items, Refusal> {
    let mut items = Vec::new(alloc);
    for number in numbers {
        items.push(ItemId::new(Kind::Picture, *number))?;
    }
    Ok(Items::of(items))
}

fn stamp(value: u64) -> Result<Stamp, Refusal> {
    Stamp::read(value).ok_or(Refusal::BadRequest)
}

fn mark(alloc: Global, made: Made) -> Result<Mark, Refusal> {
    match made {
        Made::Prepared(value, pictures, numbers) => {
            let values = values(alloc, pictures)?;
            Ok(Mark::Prepared(stamp(value)?, values, items(alloc, numbers)?))
        }
        Made::Committed(value) => Ok(Mark::Committed(stamp(value)?)),
        Made::Discarded(value) => Ok(Mark::Discarded(stamp(value)?)),
        Made::Trimmed(number) => Ok(Mark::Trimmed(ItemId::new(Kind::Picture, number))),
    }
}

fn marks(alloc: Global, made: &[Made]) -> Result<Vec<Mark>, Refusal> {
    let mut marks = Vec::new(alloc);
    for one in made {
        marks.push(mark(alloc, *one)?)?;
    }
    Ok(marks)
}

/// Each picture with the number of its list.
fn pictures(alloc: Global, rows: &[(ItemId, Value)]) -> Result<Vec<Under>, Refusal> {
    let mut pictures = Vec::new(alloc);
    for (item, value) in rows {
        let list = value.head().map_or(GONE, |head| head.list);
        pictures.push((item.number(), list))?;
    }
    Ok(pictures)
}

/// What the histories fold into, where picture/1 has a stamp at first.
fn folded(
    alloc: Global,
    even: &[Made],
    odd: &[Made],
) -> Result<(Vec<Under>, FirstStamps), Refusal> {
    let first = values(alloc, FIRST)?;
    let mut stamps = FirstStamps::new(alloc);
    stamps.note(ItemId::new(Kind::Picture, 1), stamp(EARLIER)?)?;
    let even = marks(alloc, even)?;
    let odd = marks(alloc, odd)?;
    let histories = [even.as_slice(), odd.as_slice()];
    let (rows, stamps) = fold(alloc, first.as_slice(), &stamps, &histories)?;
    Ok((pictures(alloc, rows.as_slice())?, stamps))
}

/// Whether that is what is expected, and each picture has the stamp of the write that put it under its list.
fn is_folded(alloc: Global, row: &Row) -> Result<bool, Refusal> {
    let (pictures, stamps) = folded(alloc, row.0, row.1)?;
    Ok(pictures.as_slice() == row.2 && are_stamped(&stamps, row.2))
}

/// Whether the stamps are those of the writes that put the pictures under these lists, and no other picture has one.
fn are_stamped(stamps: &FirstStamps, pictures: &[Under]) -> bool {
    for number in 0..6 {
        let item = ItemId::new(Kind::Picture, number);
        let list = pictures.iter().find(|under| under.0 == number);
        let written = list.map_or(0, |under| stamp_by(under.1));
        if stamps.shown(item, Stamp::zero()).value() != written {
            return false;
        }
    }
    true
}

/// The stamp at which a picture was put under this list.
fn stamp_by(list: u64) -> u64 {
    match list {
        10..=14 => LESSER,
        20 => GREATER,
        91 => EARLIER,
        _ => 0,
    }
}

/// A stamp is carried where each partition of its items has prepared it, whatever it knows of the others.
const CARRIED: &[Row] = &[
    (&[], &[], &[(0, 90), (1, 91)]),
    (&[EVEN], &[], &[(0, 90), (1, 91)]),
    (&[], &[ODD], &[(0, 90), (1, 91)]),
    (&[EVEN], &[ODD], &[(0, 10), (1, 11)]),
    (
        &[EVEN, Made::Committed(LESSER)],
        &[ODD],
        &[(0, 10), (1, 11)],
    ),
    (
        &[EVEN, Made::Committed(LESSER), Made::Trimmed(0)],
        &[ODD, Made::Committed(LESSER)],
        &[(0, 10), (1, 11)],
    ),
    (&[EVEN], &[Made::Discarded(LESSER)], &[(0, 90), (1, 91)]),
    (
        &[EVEN, Made::Discarded(LESSER)],
        &[Made::Discarded(LESSER)],
        &[(0, 90), (1, 91)],
    ),
];

/// Of two carried stamps the greater one counts, in whatever order they were prepared and committed. One that isn't
/// carried counts for nothing.
const GREATEST: &[Row] = &[
    (
        &[
            Made::Prepared(GREATER, &[(0, 20)], &[0]),
            Made::Prepared(LESSER, &[(0, 10)], &[0]),
            Made::Committed(GREATER),
            Made::Committed(LESSER),
        ],
        &[],
        &[(0, 20), (1, 91)],
    ),
    (
        &[
            EVEN,
            Made::Prepared(GREATER, &[(0, 20)], &[0]),
            Made::Committed(GREATER),
        ],
        &[ODD],
        &[(0, 20), (1, 11)],
    ),
    (
        &[
            EVEN,
            Made::Committed(LESSER),
            Made::Prepared(GREATER, &[(0, 20)], &[0, 3]),
        ],
        &[ODD],
        &[(0, 10), (1, 11)],
    ),
];

/// An item that only a write in doubt has, one that is deleted, and one that is made anew; and rows rise.
const THERE: &[Row] = &[
    (
        &[Made::Prepared(LESSER, &[(2, 12)], &[2, 3])],
        &[],
        &[(0, 90), (1, 91)],
    ),
    (
        &[Made::Prepared(LESSER, &[(2, 12)], &[2, 3])],
        &[Made::Prepared(LESSER, &[(3, 13)], &[2, 3])],
        &[(0, 90), (1, 91), (2, 12), (3, 13)],
    ),
    (
        &[Made::Prepared(LESSER, &[(0, GONE)], &[0])],
        &[],
        &[(1, 91)],
    ),
    (
        &[Made::Prepared(LESSER, &[(0, GONE)], &[0, 1])],
        &[],
        &[(0, 90), (1, 91)],
    ),
    (
        &[
            Made::Prepared(LESSER, &[(0, GONE)], &[0]),
            Made::Prepared(GREATER, &[(0, 20)], &[0]),
        ],
        &[],
        &[(0, 20), (1, 91)],
    ),
    (
        &[Made::Prepared(LESSER, &[(4, 14), (2, 12)], &[4, 2])],
        &[],
        &[(0, 90), (1, 91), (2, 12), (4, 14)],
    ),
];

#[test]
fn what_all_have_prepared_is_carried(rt: HostRuntime) {
    for row in CARRIED {
        assert_eq!(rt; is_folded(rt.alloc(), row), Ok(true));
    }
}

#[test]
fn greatest_carried_stamp_counts(rt: HostRuntime) {
    for row in GREATEST {
        assert_eq!(rt; is_folded(rt.alloc(), row), Ok(true));
    }
}

#[test]
fn rows_are_of_what_is_there(rt: HostRuntime) {
    for row in THERE {
        assert_eq!(rt; is_folded(rt.alloc(), row), Ok(true));
    }
}

/// The greatest stamp that two histories have.
fn greatest(alloc: Global, one: &[Made], other: &[Made]) -> Result<u64, Refusal> {
    let one = marks(alloc, one)?;
    let other = marks(alloc, other)?;
    Ok(greatest_stamp(&[one.as_slice(), other.as_slice()]).value())
}

/// A stamp that was only discarded counts too, and a trim is of none.
#[test]
fn each_mark_has_its_stamp(rt: HostRuntime) {
    assert_eq!(rt; greatest(rt.alloc(), &[Made::Trimmed(0)], &[]), Ok(0));
    assert_eq!(rt;
        greatest(rt.alloc(), &[EVEN], &[ODD, Made::Committed(LESSER)]),
        Ok(LESSER)
    );
    assert_eq!(rt;
        greatest(rt.alloc(), &[EVEN], &[Made::Discarded(GREATER), ODD]),
        Ok(GREATER)
    );
}
