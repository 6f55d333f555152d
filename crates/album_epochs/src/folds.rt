//! The rows with which the next epoch opens: the histories of all partitions, folded into one state.
ghost use Rattle.std.specs.Prelude.{◌≡◌, ◌≤◌, ◌==◌, ℕ, List, length, map, Some, IfOk, OnOk, IsOkUnless, if◌then◌else◌};
ghost use Rattle.std.specs.Ordering.{nat_cmp};
ghost use Rattle.std.specs.List.{filter, list_any};
ghost use Rattle.std.specs.List.Sorted.{IsStrictlySortedBy};
ghost use Rattle.std.specs.Map.{keys_of};
ghost use Rattle.std.specs.Option.{option_or};
ghost use Rattle.album_stamps.specs.declared.limits.TheConstants.{MAX_PARTS};
ghost use Rattle.album_items.specs.FirstStamps.{first_stamp};
ghost use Rattle.album_items.specs.ItemIds.{place_of};
ghost use Rattle.album_items.specs.Values.{is_there};
ghost use Rattle.album_partition.specs.Marks.{value_in, prepares, prepare_in};
ghost use Rattle.album_partition.specs.declared.marks.Mark.{Mark as Made};
ghost use Rattle.album_passes.specs.Cuts.{Cut, marks_at};
ghost use Rattle.album_epochs.specs.Carried.{IsLeft, AreNextRows, AreNextStamps};
ghost use Rattle.album_epochs.specs.Folding.{histories_lent, prepares_of, first_kept, raised, raised_by, newest, newest_of, is_throughout, kept_in, stamp_kept, ArePrepared, AreAllPrepared, AreFolded, AreFoldedStamps, stamp_left};

use album_items::{FirstStamps, ItemId, ItemValues, Value, place};
use album_partition::Mark;
use album_stamps::{Refusal, Stamp};
use std::alloc::{AllocError, Global};
use std::collections::{BTreeMap, BTreeSet};

/// The rows with which the next epoch opens, after these histories of all partitions, on these first values with these
/// stamps: rising, and one for each item that isn't missing; and the stamps of them. Only marks that prepare count, so
/// that others may be left out.
///
/// It takes time for each mark and each item once, but for look-ups.
///
/// # Errors
///
/// `OutOfMemory`.
pub fn fold(
    alloc: Global,
    first: &[(ItemId, Value)],
    stamps: &FirstStamps,
    histories: &[&[Mark]],
) -> Result<(ItemValues, FirstStamps), Refusal>
    requires some { 1 ≤ length histories.now }
    requires few { length histories.now ≤ MAX_PARTS }
    ensures folded { IfOk result (λ fold. AreFolded first.now (histories_lent histories.now) fold.0) }
    ensures stamped { IfOk result (λ fold. AreFoldedStamps stamps.now first.now (histories_lent histories.now) fold.1) }
    ensures rows { IfOk result (λ fold. (cut : Cut) → IsLeft cut → cut.opening ≡ first.now
        → prepares_of cut.prefixes ≡ prepares_of (histories_lent histories.now) → AreNextRows cut fold.0) }
    ensures stamps { IfOk result (λ fold. (cut : Cut) → IsLeft cut → cut.opening ≡ first.now
        → prepares_of cut.prefixes ≡ prepares_of (histories_lent histories.now)
        → AreNextStamps cut stamps.now fold.1) }
    ensures memory { IsOkUnless result Refusal.OutOfMemory }
{
    let found = found_in(alloc, first, histories)?;
    let next = stamps_of(alloc, &found, stamps)?;
    let rows = rows_of(alloc, found)?;
    Ok((ItemValues::of(rows), next))
}

/// Of each item the greatest stamp that is carried, with the value there.
fn found_in(
    alloc: Global,
    first: &[(ItemId, Value)],
    histories: &[&[Mark]],
) -> Result<BTreeMap<ItemId, (Stamp, Value)>, AllocError>
    requires some { 1 ≤ length histories.now }
    requires few { length histories.now ≤ MAX_PARTS }
    ensures { IfOk result (λ found. (item : ℕ) → kept_in found item
        ≡ newest_of (histories_lent histories.now) (first_kept first.now) item) }
{
    let prepared = prepared_in_each(alloc, histories)?;
    let mut found = first_found(alloc, first)?;
    for part in 0..histories.len() {
        raise_all(&mut found, part as u16, &prepared, histories[part])?;
    }
    Ok(found)
}

/// The stamps that the marks prepare.
fn prepared_in(alloc: Global, marks: &[Mark]) -> Result<BTreeSet<Stamp>, AllocError>
    ensures { IfOk result (λ stamps. ArePrepared marks.now stamps) }
{
    let mut stamps = BTreeSet::new(alloc);
    for mark in marks {
        match prepare_in(mark) {
            Some(stamp) => {
                stamps.insert(stamp)?;
            }
            None => {}
        }
    }
    Ok(stamps)
}

/// The stamp that the mark prepares, if it prepares one.
fn prepare_in(mark: &Mark) -> Option<Stamp>
    ensures { result ≡ prepare_in mark.now }
{
    match mark {
        Mark::Prepared(stamp, _, _) => Some(*stamp),
        Mark::Committed(_) | Mark::Discarded(_) | Mark::Trimmed(_) => None,
    }
}

/// The same of each history.
fn prepared_in_each(
    alloc: Global,
    histories: &[&[Mark]],
) -> Result<Vec<BTreeSet<Stamp>>, AllocError>
    ensures { IfOk result (λ sets. AreAllPrepared (histories_lent histories.now) sets.items) }
{
    let mut sets = Vec::new(alloc);
    for history in histories {
        sets.push(prepared_in(alloc, history)?)?;
    }
    Ok(sets)
}

/// Whether the partition of each of the items has prepared the stamp.
fn is_throughout(prepared: &[BTreeSet<Stamp>], stamp: Stamp, items: &[ItemId]) -> bool
    requires some { 1 ≤ length prepared.now }
    requires few { length prepared.now ≤ MAX_PARTS }
    ensures { (histories : List (List Made)) → AreAllPrepared histories prepared.now
        → result ≡ is_throughout histories stamp items.now }
{
    for item in items {
        if !is_prepared_for(prepared, stamp, *item) {
            return false;
        }
    }
    true
}

/// Whether the partition of the item has prepared the stamp.
fn is_prepared_for(prepared: &[BTreeSet<Stamp>], stamp: Stamp, item: ItemId) -> bool
    requires some { 1 ≤ length prepared.now }
    requires few { length prepared.now ≤ MAX_PARTS }
    ensures { (histories : List (List Made)) → AreAllPrepared histories prepared.now
        → result ≡ list_any (prepares stamp) (marks_at histories (place_of (length histories) item)) }
{
    let part = place(item, prepared.len() as u16);
    prepared[part as usize].contains(&stamp)
}

/// Each item with its first value, at the zero stamp.
fn first_found(
    alloc: Global,
    rows: &[(ItemId, Value)],
) -> Result<BTreeMap<ItemId, (Stamp, Value)>, AllocError>
    ensures { IfOk result (λ found. (item : ℕ) → kept_in found item ≡ first_kept rows.now item) }
{
    let mut found = BTreeMap::new(alloc);
    for row in rows {
        begin(&mut found, row.0, &row.1)?;
    }
    Ok(found)
}

/// Lets the item have its first value, unless it has one.
fn begin(
    found: &mut BTreeMap<ItemId, (Stamp, Value)>,
    item: ItemId,
    value: &Value,
) -> Result<(), AllocError>
    ensures { OnOk result ((other : ℕ) → kept_in found.new other
        ≡ (if item == other then option_or (kept_in found.old other) (Some (0, value.now))
        else kept_in found.old other)) }
{
    if !found.contains_key(&item) {
        let value = copy_of(value)?;
        let _none = found.insert(item, (Stamp::zero(), value))?;
    }
    Ok(())
}

/// Takes in all marks of the partition.
fn raise_all(
    found: &mut BTreeMap<ItemId, (Stamp, Value)>,
    part: u16,
    prepared: &[BTreeSet<Stamp>],
    marks: &[Mark],
) -> Result<(), AllocError>
    requires some { 1 ≤ length prepared.now }
    requires few { length prepared.now ≤ MAX_PARTS }
    ensures { (histories : List (List Made)) → AreAllPrepared histories prepared.now
        → OnOk result ((item : ℕ) → kept_in found.new item
        ≡ (if place_of (length histories) item == part then newest histories item (kept_in found.old item) marks.now
        else kept_in found.old item)) }
{
    for mark in marks {
        raise_by(found, part, prepared, mark)?;
    }
    Ok(())
}

/// Takes in a mark of the partition: what it prepares, where its stamp is prepared throughout.
fn raise_by(
    found: &mut BTreeMap<ItemId, (Stamp, Value)>,
    part: u16,
    prepared: &[BTreeSet<Stamp>],
    mark: &Mark,
) -> Result<(), AllocError>
    requires some { 1 ≤ length prepared.now }
    requires few { length prepared.now ≤ MAX_PARTS }
    ensures { (histories : List (List Made)) → AreAllPrepared histories prepared.now
        → OnOk result ((item : ℕ) → kept_in found.new item
        ≡ (if place_of (length histories) item == part then raised_by histories item (kept_in found.old item) mark.now
        else kept_in found.old item)) }
{
    match mark {
        Mark::Prepared(stamp, writes, items) => {
            if is_throughout(prepared, *stamp, items.as_slice()) {
                raise_each(
                    found,
                    part,
                    prepared.len() as u16,
                    *stamp,
                    writes.as_slice(),
                )
            } else {
                Ok(())
            }
        }
        Mark::Committed(_) | Mark::Discarded(_) | Mark::Trimmed(_) => Ok(()),
    }
}

/// Takes in the writes that are placed at the partition.
fn raise_each(
    found: &mut BTreeMap<ItemId, (Stamp, Value)>,
    part: u16,
    parts: u16,
    stamp: Stamp,
    writes: &[(ItemId, Value)],
) -> Result<(), AllocError>
    requires some { 1 ≤ parts }
    requires few { parts ≤ MAX_PARTS }
    ensures { OnOk result ((item : ℕ) → kept_in found.new item
        ≡ (if place_of parts item == part then raised (kept_in found.old item) stamp (value_in writes.now item)
        else kept_in found.old item)) }
{
    for row in writes {
        if place(row.0, parts) == part {
            raise(found, row.0, stamp, &row.1)?;
        }
    }
    Ok(())
}

/// Lets the item have the value at the stamp, unless it has one at a stamp that is not smaller.
fn raise(
    found: &mut BTreeMap<ItemId, (Stamp, Value)>,
    item: ItemId,
    stamp: Stamp,
    value: &Value,
) -> Result<(), AllocError>
    ensures { OnOk result ((other : ℕ) → kept_in found.new other
        ≡ (if item == other then raised (kept_in found.old other) stamp (Some value.now)
        else kept_in found.old other)) }
{
    if stamp_of(found, item) < stamp {
        let value = copy_of(value)?;
        let _earlier = found.insert(item, (stamp, value))?;
    }
    Ok(())
}

/// The stamp at which the item has its value.
fn stamp_of(found: &BTreeMap<ItemId, (Stamp, Value)>, item: ItemId) -> Stamp
    ensures { result ≡ stamp_kept (kept_in found.now item) }
{
    match found.get(&item) {
        Some(kept) => kept.0,
        None => Stamp::zero(),
    }
}

fn copy_of(value: &Value) -> Result<Value, AllocError>
    ensures { IfOk result (λ copy. copy ≡ value.now) }
{
    value.clone()
}

/// The stamps to show of the items that are there.
fn stamps_of(
    alloc: Global,
    found: &BTreeMap<ItemId, (Stamp, Value)>,
    stamps: &FirstStamps,
) -> Result<FirstStamps, AllocError>
    ensures { IfOk result (λ next. (item : ℕ) → first_stamp next item
        ≡ stamp_left stamps.now item (kept_in found.now item)) }
{
    let mut next = FirstStamps::new(alloc);
    for item in found.keys() {
        next.note(*item, stamp_left(found, stamps, *item))?;
    }
    Ok(next)
}

/// The stamp to show of what was found of an item.
fn stamp_left(found: &BTreeMap<ItemId, (Stamp, Value)>, stamps: &FirstStamps, item: ItemId) -> Stamp
    ensures { result ≡ stamp_left stamps.now item (kept_in found.now item) }
{
    match found.get(&item) {
        Some(kept) if kept.1.is_there() => stamps.shown(item, kept.0),
        Some(_) | None => Stamp::zero(),
    }
}

/// The items that are there, rising, with their values.
fn rows_of(
    alloc: Global,
    found: BTreeMap<ItemId, (Stamp, Value)>,
) -> Result<Vec<(ItemId, Value)>, AllocError>
    ensures rows { IfOk result (λ rows. rows.items
        ≡ filter (λ row. is_there row.1) (map (λ e. (e.0, e.1.1)) found.entries)) }
    ensures rising { OnOk result (IsStrictlySortedBy nat_cmp (keys_of found.entries)) }
{
    let mut rows = Vec::new(alloc);
    for (item, (_, value)) in found {
        if value.is_there() {
            rows.push((item, value))?;
        }
    }
    Ok(rows)
}
