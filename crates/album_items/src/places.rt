//! Where the items of a transaction are placed.
ghost use Rattle.std.specs.Prelude.{◌≡◌, ◌≤◌, IfOk, IsOkUnless};
ghost use Rattle.album_items.specs.Places.{lies_at, is_other, others_of, places_of, rows_placed_at};

use crate::collections::ItemValues;
use crate::item_ids::{ItemId, place};
use crate::values::Value;
use album_stamps::{MAX_PARTS, Refusal};
use std::alloc::{AllocError, Global};

/// Whether one of the items is placed at the partition of this number, of so many.
pub fn lies_at(number: u16, parts: u16, items: &[ItemId]) -> bool
    requires low { 1 ≤ parts }
    requires high { parts ≤ MAX_PARTS }
    ensures { result ≡ lies_at number parts items.now }
{
    items.iter().any(|item| place(*item, parts) == number)
}

/// The partitions of the items, rising.
///
/// # Errors
///
/// `AllocError`, where there is no memory for the list.
#[tactic(auto, using(crate::proofs::PlaceLemmas::filter_range_then, crate::proofs::PlaceLemmas::filter_range_else))]
pub fn places_of(alloc: Global, parts: u16, items: &[ItemId]) -> Result<Vec<u16>, AllocError>
    requires low { 1 ≤ parts }
    requires high { parts ≤ MAX_PARTS }
    ensures { IfOk result (λ places. places.items ≡ places_of parts items.now) }
{
    let mut places = Vec::new(alloc);
    for part in 0..parts {
        if lies_at(part, parts, items) {
            places.push(part)?;
        }
    }
    Ok(places)
}

/// The partitions of the items but the one of this number, rising.
///
/// # Errors
///
/// `AllocError`, where there is no memory for the list.
#[tactic(auto, using(crate::proofs::PlaceLemmas::filter_range_then, crate::proofs::PlaceLemmas::filter_range_else))]
pub fn others_of(
    alloc: Global,
    number: u16,
    parts: u16,
    items: &[ItemId],
) -> Result<Vec<u16>, AllocError>
    requires low { 1 ≤ parts }
    requires high { parts ≤ MAX_PARTS }
    ensures { IfOk result (λ others. others.items ≡ others_of number parts items.now) }
{
    let mut others = Vec::new(alloc);
    for part in 0..parts {
        if is_other(number, parts, items, part) {
            others.push(part)?;
        }
    }
    Ok(others)
}

fn is_other(number: u16, parts: u16, items: &[ItemId], part: u16) -> bool
    requires low { 1 ≤ parts }
    requires high { parts ≤ MAX_PARTS }
    ensures { result ≡ is_other number parts items.now part }
{
    part != number && lies_at(part, parts, items)
}

/// The rows whose items are placed at the partition of this number, in order.
///
/// # Errors
///
/// `OutOfMemory`.
pub fn rows_placed_at(
    alloc: Global,
    number: u16,
    parts: u16,
    rows: &[(ItemId, Value)],
) -> Result<ItemValues, Refusal>
    requires low { 1 ≤ parts }
    requires high { parts ≤ MAX_PARTS }
    ensures rows { IfOk result (λ placed. placed ≡ rows_placed_at number parts rows.now) }
    ensures memory { IsOkUnless result Refusal.OutOfMemory }
{
    let mut placed = Vec::new(alloc);
    for row in rows {
        if place(row.0, parts) == number {
            placed.push((row.0, row.1.copy()?))?;
        }
    }
    Ok(ItemValues::of(placed))
}
