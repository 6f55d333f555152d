//! The histories that are folded, and how often.
ghost use Rattle.std.specs.Prelude.{◌≤◌};
ghost use Rattle.album_stamps.specs.declared.limits.TheConstants.{MAX_PARTS};

use crate::draws::Draws;
use crate::values::value_of;
use album_epochs::fold;
use album_items::{FirstStamps, ItemId, ItemValues, Items, Kind, Value, place};
use album_lists::whole_number;
use album_partition::Mark;
use album_stamps::{ClientNo, MAX_PARTS, Refusal, Stamp};
use std::alloc::Global;

/// What is made: half of the items have a first value, and each write is of two items.
#[derive(Clone, Copy)]
struct Measure {
    seed: u64,
    items: u64,
    marks: u64,
    parts: u16,
}

impl Measure {
    /// The measure that the words after `fold` are.
    fn read(words: &[String]) -> Option<Measure> {
        let parts = u16::try_from(number(words, 5)?).ok()?;
        if parts == 0 || parts > MAX_PARTS {
            return None;
        }
        Some(Measure {
            seed: number(words, 2)?,
            items: number(words, 3)?,
            marks: number(words, 4)?,
            parts,
        })
    }
}

fn number(words: &[String], index: usize) -> Option<u64> {
    whole_number(words.get(index)?.as_str())
}

/// The end of an epoch.
#[derive(Drop)]
pub struct End {
    alloc: Global,
    first: ItemValues,
    histories: Vec<Vec<Mark>>,
}

impl End {
    /// The end that the words ask for.
    pub fn new(alloc: Global, words: &[String]) -> Result<End, Refusal> {
        let measure = Measure::read(words).ok_or(Refusal::BadRequest)?;
        let value = value_of(alloc, 0)?;
        Ok(End {
            alloc,
            first: first_rows(alloc, measure.items / 2, &value)?,
            histories: histories_of(alloc, measure, &value)?,
        })
    }

    /// How many marks there are.
    pub fn marks(&self) -> u64 {
        let mut marks = 0u64;
        for history in &self.histories {
            marks = marks.wrapping_add(history.len() as u64);
        }
        marks
    }

    /// Folds it, and gives how many rows that makes.
    pub fn fold(&self) -> Result<u64, Refusal> {
        let mut lent = Vec::new(self.alloc);
        for history in &self.histories {
            lent.push(history.as_slice())?;
        }
        if lent.is_empty() || lent.len() > MAX_PARTS as usize {
            return Err(Refusal::BadRequest);
        }
        let stamps = FirstStamps::new(self.alloc);
        let (rows, _) = fold(self.alloc, self.first.as_slice(), &stamps, &lent)?;
        Ok(rows.as_slice().len() as u64)
    }
}

fn first_rows(alloc: Global, count: u64, value: &Value) -> Result<ItemValues, Refusal> {
    let mut rows = Vec::new(alloc);
    for half in 0..count {
        rows.push((
            ItemId::new(Kind::Picture, half.wrapping_mul(2)),
            value.copy()?,
        ))?;
    }
    Ok(ItemValues::of(rows))
}

/// A write of two items in turn, prepared and committed at each of their partitions, until there are so many marks.
fn histories_of(alloc: Global, measure: Measure, value: &Value) -> Result<Vec<Vec<Mark>>, Refusal> {
    let mut histories = Vec::new(alloc);
    for _ in 0..measure.parts {
        histories.push(Vec::new(alloc))?;
    }
    let mut draws = Draws::new(measure.seed);
    let mut marks = 0u64;
    for counter in 1..measure.marks {
        if marks >= measure.marks {
            break;
        }
        let one = ItemId::new(Kind::Picture, draws.below(measure.items));
        let other = ItemId::new(Kind::Picture, draws.below(measure.items));
        let stamp = stamp_of(counter)?;
        marks = marks.wrapping_add(write(alloc, &mut histories, stamp, one, other, value)?);
    }
    Ok(histories)
}

fn stamp_of(counter: u64) -> Result<Stamp, Refusal> {
    let client = ClientNo::of(1).ok_or(Refusal::BadRequest)?;
    Stamp::of(counter, client).ok_or(Refusal::StampsSpent)
}

/// Appends the marks of a write, and gives how many these are.
fn write(
    alloc: Global,
    histories: &mut Vec<Vec<Mark>>,
    stamp: Stamp,
    one: ItemId,
    other: ItemId,
    value: &Value,
) -> Result<u64, Refusal> {
    let parts = u16::try_from(histories.len()).unwrap_or(0);
    if parts == 0 || parts > MAX_PARTS {
        return Err(Refusal::BadRequest);
    }
    let mut items = Vec::new(alloc);
    items.push(one)?;
    if !one.is(other) {
        items.push(other)?;
    }
    let mut marks = 0u64;
    for part in 0..parts {
        if place(one, parts) == part || place(other, parts) == part {
            let mark = prepared(alloc, stamp, &items, part, parts, value)?;
            append(histories, part, mark)?;
            append(histories, part, Mark::Committed(stamp))?;
            marks = marks.wrapping_add(2);
        }
    }
    Ok(marks)
}

fn append(histories: &mut Vec<Vec<Mark>>, part: u16, mark: Mark) -> Result<(), Refusal> {
    match histories.get_mut(part as usize) {
        Some(history) => Ok(history.push(mark)?),
        None => Err(Refusal::BadRequest),
    }
}

/// The Prepared mark of a partition: of those items that are placed there.
fn prepared(
    alloc: Global,
    stamp: Stamp,
    items: &[ItemId],
    part: u16,
    parts: u16,
    value: &Value,
) -> Result<Mark, Refusal>
    requires some { 1 ≤ parts }
    requires few { parts ≤ MAX_PARTS }
{
    let mut rows = Vec::new(alloc);
    let mut all = Vec::new(alloc);
    for item in items {
        all.push(*item)?;
        if place(*item, parts) == part {
            rows.push((*item, value.copy()?))?;
        }
    }
    Ok(Mark::Prepared(stamp, ItemValues::of(rows), Items::of(all)))
}
