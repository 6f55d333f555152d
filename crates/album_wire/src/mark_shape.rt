//! The shape of a mark's line: {items = [item, ..], part, stamp, writes = [[item, value or null], ..]}.
ghost use Rattle.std.specs.Prelude.{◌≡◌, map, option_map};
ghost use Rattle.album_stamps.specs.Outcome.{Gives};
ghost use Rattle.album_lines.specs.Fields.{each};
ghost use Rattle.album_lines.specs.Trees.{value_data, items_data};
ghost use Rattle.album_wire.specs.ItemShapes.{item_named, spelled_value};
ghost use Rattle.album_wire.specs.MarkShape.{spelled_write, spelled_mark, written_shape_of, write_shape_of, mark_shape_of};

use crate::event_shape::{part_under, stamp_named};
use crate::item_shapes::{ValueShape, item_named, value_shape};
use album_items::ItemId;
use album_lines::{field, is_nothing, item, list_under, only, sized_list};
use album_stamps::{Refusal, Stamp};
use json::Value;
use std::alloc::Global;

/// A write as a line spells it: an item, and its value, or nothing where it is missing.
#[derive(Drop)]
pub(crate) struct WriteShape<'a> {
    pub(crate) item: ItemId,
    pub(crate) value: Option<ValueShape<'a>>,
}

/// A mark as a line spells it.
#[derive(Drop)]
pub(crate) struct MarkShape<'a> {
    pub(crate) part: u16,
    pub(crate) stamp: Stamp,
    pub(crate) writes: Vec<WriteShape<'a>>,
    pub(crate) items: Vec<ItemId>,
}

/// The fields of a mark's line, each of its shape, or `BadRequest`.
#[tactic(auto, unfolding(crate::specs::MarkShape::mark_shape_of))]
pub(crate) fn mark_shape<'a>(alloc: Global, value: &Value<'a>) -> Result<MarkShape<'a>, Refusal>
    ensures { Gives spelled_mark result (mark_shape_of (value_data value.now)) }
{
    only(value, &["items", "part", "stamp", "writes"])?;
    let items = each_item(alloc, list_under(value, "items")?)?;
    let part = part_under(value, "part")?;
    let stamp = stamp_named(field(value, "stamp")?)?;
    let writes = each_write_shape(alloc, list_under(value, "writes")?)?;
    Ok(MarkShape {
        part,
        stamp,
        writes,
        items,
    })
}

fn each_item(alloc: Global, values: &[Value<'_>]) -> Result<Vec<ItemId>, Refusal>
    ensures { Gives (λ items. items.items) result (each item_named (items_data values.now)) }
{
    let mut items = Vec::with_capacity(alloc, values.len())?;
    for value in values {
        items.push(item_named(value)?)?;
    }
    Ok(items)
}

fn each_write_shape<'a>(alloc: Global, values: &[Value<'a>]) -> Result<Vec<WriteShape<'a>>, Refusal>
    ensures { Gives (λ shapes. map spelled_write shapes.items) result
        (each write_shape_of (items_data values.now)) }
{
    let mut shapes = Vec::with_capacity(alloc, values.len())?;
    for value in values {
        shapes.push(write_shape(alloc, value)?)?;
    }
    Ok(shapes)
}

/// [item, value or null]
#[tactic(auto, unfolding(crate::specs::MarkShape::write_shape_of, crate::specs::MarkShape::spelled_write))]
fn write_shape<'a>(alloc: Global, value: &Value<'a>) -> Result<WriteShape<'a>, Refusal>
    ensures { Gives spelled_write result (write_shape_of (value_data value.now)) }
{
    sized_list(value, 2)?;
    let item_written = item_named(item(value, 0)?)?;
    let shape = written_shape(alloc, item(value, 1)?)?;
    Ok(WriteShape {
        item: item_written,
        value: shape,
    })
}

/// A value, or nothing where it is missing.
fn written_shape<'a>(alloc: Global, value: &Value<'a>) -> Result<Option<ValueShape<'a>>, Refusal>
    ensures { Gives (option_map spelled_value) result (written_shape_of (value_data value.now)) }
{
    if is_nothing(value) {
        return Ok(None);
    }
    let shape = value_shape(alloc, value)?;
    Ok(Some(shape))
}
