//! What a partition keeps of its items (docs/PROTOCOL.md, "What a partition keeps").
use crate::items::picture;
use album_items::{ItemId, Kind, SharedValue};
use album_stamps::{ClientNo, Refusal, Stamp};
use album_versions::Versions;
use std::alloc::Global;

/// Counter 2 of client 1.
const GREATER: u64 = 131_073;

/// Counter 1 of client 2.
const LESSER: u64 = 65_538;

/// What is done with picture/0.
#[derive(Clone, Copy)]
enum Step {
    Add(u64),
    Commit(u64),
    Drop(u64),
    Trim,
}

/// What is done, the stamps that are asked then, and what is returned: the latest stamp, the floor and
/// the best of the asked.
type Row = (&'static [Step], &'static [u64], (u64, u64, Option<u64>));

fn stamp(value: u64) -> Result<Stamp, Refusal> {
    Stamp::read(value).ok_or(Refusal::BadRequest)
}

/// Adds a version, where there is none: a picture under the list of this number.
fn add(
    alloc: Global,
    versions: &mut Versions,
    item: ItemId,
    stamp: Stamp,
    list: u64,
) -> Result<(), Refusal> {
    if versions.value(item, stamp).is_some() {
        return Err(Refusal::Clash);
    }
    let value = SharedValue::of(alloc, picture(alloc, list)?)?;
    versions.add(item, stamp, value)?;
    Ok(())
}

/// Commits a version, where there is one or the stamp is below the floor.
fn commit(versions: &mut Versions, item: ItemId, stamp: Stamp) -> Result<(), Refusal> {
    if versions.value(item, stamp).is_none() && stamp >= versions.floor(item) {
        return Err(Refusal::NotPrepared);
    }
    versions.commit(item, stamp);
    Ok(())
}

fn act(alloc: Global, versions: &mut Versions, item: ItemId, step: Step) -> Result<(), Refusal> {
    match step {
        Step::Add(value) => add(alloc, versions, item, stamp(value)?, value),
        Step::Commit(value) => commit(versions, item, stamp(value)?),
        Step::Drop(value) => {
            versions.drop_stamp(item, stamp(value)?);
            Ok(())
        }
        Step::Trim => {
            versions.trim(item);
            Ok(())
        }
    }
}

/// The best of the stamps.
fn best(
    alloc: Global,
    versions: &Versions,
    item: ItemId,
    asked: &[u64],
) -> Result<Option<u64>, Refusal> {
    let mut stamps = Vec::new(alloc);
    for value in asked {
        stamps.push(stamp(*value)?)?;
    }
    match versions.best(item, stamps.as_slice()) {
        None => Ok(None),
        Some(best) => Ok(Some(best.value())),
    }
}

/// What is returned after the steps.
fn shown(alloc: Global, steps: &[Step], asked: &[u64]) -> Result<(u64, u64, Option<u64>), Refusal> {
    let item = ItemId::new(Kind::Picture, 0);
    let mut versions = Versions::new(alloc);
    for step in steps {
        act(alloc, &mut versions, item, *step)?;
    }
    let best = best(alloc, &versions, item, asked)?;
    Ok((
        versions.latest(item).value(),
        versions.floor(item).value(),
        best,
    ))
}

/// A greater stamp that is committed stays the latest.
const COMMITS: &[Row] = &[
    (
        &[Step::Add(GREATER), Step::Add(LESSER)],
        &[],
        (0, 0, Some(0)),
    ),
    (
        &[Step::Add(GREATER), Step::Add(LESSER), Step::Commit(GREATER)],
        &[],
        (GREATER, 0, Some(0)),
    ),
    (
        &[
            Step::Add(GREATER),
            Step::Add(LESSER),
            Step::Commit(GREATER),
            Step::Commit(LESSER),
        ],
        &[LESSER],
        (GREATER, 0, Some(LESSER)),
    ),
];

/// The order of the asked stamps and repeats among them do not matter, nor do those without a version.
const BESTS: &[Row] = &[
    (&[], &[LESSER], (0, 0, Some(0))),
    (
        &[Step::Add(GREATER), Step::Add(LESSER)],
        &[LESSER, 0],
        (0, 0, Some(LESSER)),
    ),
    (
        &[Step::Add(GREATER), Step::Add(LESSER)],
        &[LESSER, GREATER, LESSER],
        (0, 0, Some(GREATER)),
    ),
    (
        &[Step::Add(GREATER), Step::Add(LESSER)],
        &[GREATER, GREATER, LESSER, 0, LESSER],
        (0, 0, Some(GREATER)),
    ),
    (
        &[Step::Add(LESSER)],
        &[GREATER, LESSER, GREATER, LESSER],
        (0, 0, Some(LESSER)),
    ),
    (
        &[Step::Add(GREATER), Step::Add(LESSER), Step::Drop(LESSER)],
        &[LESSER],
        (0, 0, Some(0)),
    ),
];

/// What is below the floor is gone, and so is what comes there later. What is at it stays.
const TRIMS: &[Row] = &[
    (&[Step::Trim], &[LESSER], (0, 0, Some(0))),
    (
        &[Step::Add(LESSER), Step::Trim],
        &[LESSER],
        (0, 0, Some(LESSER)),
    ),
    (
        &[Step::Add(GREATER), Step::Commit(GREATER), Step::Trim],
        &[LESSER, GREATER, 0],
        (GREATER, GREATER, Some(GREATER)),
    ),
    (
        &[
            Step::Add(GREATER),
            Step::Commit(GREATER),
            Step::Trim,
            Step::Add(LESSER),
            Step::Commit(LESSER),
        ],
        &[LESSER],
        (GREATER, GREATER, None),
    ),
    (
        &[
            Step::Add(LESSER),
            Step::Commit(LESSER),
            Step::Add(GREATER),
            Step::Trim,
        ],
        &[GREATER, 0],
        (LESSER, LESSER, Some(GREATER)),
    ),
    (
        &[
            Step::Add(LESSER),
            Step::Add(GREATER),
            Step::Commit(GREATER),
            Step::Trim,
            Step::Trim,
        ],
        &[],
        (GREATER, GREATER, None),
    ),
];

#[test]
fn greater_stamp_stays(rt: HostRuntime) {
    for (steps, asked, expected) in COMMITS {
        assert_eq!(rt; shown(rt.alloc(), steps, asked), Ok(*expected));
    }
}

#[test]
fn best_of_the_given(rt: HostRuntime) {
    for (steps, asked, expected) in BESTS {
        assert_eq!(rt; shown(rt.alloc(), steps, asked), Ok(*expected));
    }
}

#[test]
fn nothing_kept_below_the_floor(rt: HostRuntime) {
    for (steps, asked, expected) in TRIMS {
        assert_eq!(rt; shown(rt.alloc(), steps, asked), Ok(*expected));
    }
}

/// The stamp of this counter of client 1.
fn counted(counter: u64) -> Option<Stamp> {
    Stamp::of(counter, ClientNo::of(1)?)
}

/// Picture/0 at each even counter from 2 to 998, each under the list of that number, and added in
/// another order.
fn many(alloc: Global, item: ItemId) -> Result<Versions, Refusal> {
    let mut versions = Versions::new(alloc);
    for turn in 0..499u64 {
        let counter = 2 * (turn * 7 % 499) + 2;
        let stamp = counted(counter).ok_or(Refusal::BadRequest)?;
        add(alloc, &mut versions, item, stamp, counter)?;
    }
    Ok(versions)
}

/// The number of the list of the item's version at the counter.
fn list_at(versions: &Versions, item: ItemId, counter: u64) -> Option<u64> {
    let value = versions.value(item, counted(counter)?)?;
    Some(value.value().head()?.list)
}

/// The first counter up to 1,000 at which another version is found than was added.
fn first_wrong(alloc: Global) -> Result<Option<u64>, Refusal> {
    let item = ItemId::new(Kind::Picture, 0);
    let versions = many(alloc, item)?;
    for counter in 1..1001u64 {
        let added = counter % 2 == 0 && counter < 1000;
        if list_at(&versions, item, counter) != added.then_some(counter) {
            return Ok(Some(counter));
        }
    }
    Ok(None)
}

#[test]
fn each_of_many_found(rt: HostRuntime) {
    assert_eq!(rt; first_wrong(rt.alloc()), Ok(None));
}
