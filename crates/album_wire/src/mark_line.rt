//! The line of a mark in a log: what a partition has prepared at a stamp, written and read.
ghost use Rattle.std.specs.Prelude.{◌≡◌, ◌++◌, [], ◌∷◌, Ok, Err, Option, codes, map, option_map, IfOk, IsOkUnless};
ghost use Rattle.serde_json.specs.View.{view};
ghost use Rattle.album_stamps.specs.Outcome.{Gives};
ghost use Rattle.album_items.specs.ItemIds.{picture, album, list};
ghost use Rattle.album_items.specs.declared.values.Value.TheVariants as ItemValue;
ghost use Rattle.album_lines.specs.Values.{each_of};
ghost use Rattle.album_wire.specs.ItemShapes.{spelled_value};
ghost use Rattle.album_wire.specs.MarkLine.{written_read, write_read, mark_read, mark_line_of, mark_json, mark_text};
ghost use Rattle.album_wire.specs.MarkShape.{spelled_write, spelled_mark};

use crate::item_shapes::ValueShape;
use crate::mark_shape::{MarkShape, WriteShape, mark_shape};
use crate::message_json::writes_json;
use crate::opening_line::value_of;
use crate::value_json::item_list_json;
use album_items::{ItemId, ItemValues, Items, Value};
use album_lines::{data, json_line, object_of, with_member};
use album_stamps::{Refusal, Stamp};
use json::Scratch;
use serde_json::Map;
use std::alloc::{AllocError, Global};

/// What a partition has prepared at a stamp: its own writes, and the items of the whole transaction.
#[derive(Debug, Drop)]
pub struct PreparedMark {
    /// The number of the partition, also of one that is not there.
    pub part: u16,
    pub stamp: Stamp,
    /// The partition's writes. A value may be missing.
    pub writes: ItemValues,
    /// The items of the transaction, at every partition.
    pub items: Items,
}

/// Reads the line of a mark. The scratch is room that is kept from line to line, whatever was in it.
///
/// # Errors
///
/// `BadLine` where the bytes are no text or no JSON; `BadRequest` where the shape is wrong; then, write after write,
/// what an opening's line says of its value. `OutOfMemory` where memory ran out.
#[tactic(auto, unfolding(crate::specs::MarkLine::mark_line_of))]
pub fn read_mark(
    alloc: Global,
    scratch: &mut Scratch,
    bytes: &[u8],
) -> Result<PreparedMark, Refusal>
    ensures { Gives (λ mark. mark) result (mark_line_of bytes.now) }
{
    let value = data(alloc, scratch, bytes)?;
    let shape = mark_shape(alloc, &value)?;
    mark_of(alloc, shape)
}

/// The line of what the partition has prepared.
///
/// # Errors
///
/// `OutOfMemory`.
#[tactic(auto, unfolding(crate::specs::MarkLine::mark_text))]
pub fn write_mark(
    alloc: Global,
    part: u16,
    stamp: Stamp,
    writes: &[(ItemId, Value)],
    items: &[ItemId],
) -> Result<Vec<u8>, Refusal>
    ensures text { IfOk result (λ bytes. bytes.items ≡ mark_text part stamp writes.now items.now) }
    ensures memory { IsOkUnless result Refusal.OutOfMemory }
{
    let value = mark_json(alloc, part, stamp, writes, items);
    Ok(json_line(alloc, value)?)
}

/// A law: lines of marks that were worked out by hand.
pub fn worked_marks()
    // A picture is deleted, and its album's list of entries is set.
    ensures written { mark_text 2 65537
        ((picture 2, ItemValue.Missing) ∷ (list 9, ItemValue.List []) ∷ []) (picture 2 ∷ list 9 ∷ album 0 ∷ [])
        ≡ codes "{\"items\":[\"picture/2\",\"list/9\",\"album/0\"],\"part\":2,\"stamp\":65537,"
        ++ codes "\"writes\":[[\"picture/2\",null],[\"list/9\",{\"entries\":[]}]]}\n" }
    ensures read { mark_line_of
        (codes "{\"items\":[\"picture/2\",\"list/9\",\"album/0\"],\"part\":2,\"stamp\":65537,"
        ++ codes "\"writes\":[[\"picture/2\",null],[\"list/9\",{\"entries\":[]}]]}")
        ≡ Ok (record {
          part = 2;
          stamp = 65537;
          writes = (picture 2, ItemValue.Missing) ∷ (list 9, ItemValue.List []) ∷ [];
          items = picture 2 ∷ list 9 ∷ album 0 ∷ [];
        }) }
    ensures with_value { mark_line_of
        (codes "{\"items\":[\"picture/0\"],\"part\":65535,\"stamp\":65537,\"writes\":[[\"picture/0\","
        ++ codes "{\"content\":\"736561\",\"group\":0,\"home\":0,\"list\":0,\"owner\":\"amy@users\","
        ++ codes "\"title\":\"Sea\"}]]}")
        ≡ Ok (record {
          part = 65535;
          stamp = 65537;
          writes = (
            picture 0,
            ItemValue.Picture (record {
              title = codes "Sea";
              content = 115 ∷ 101 ∷ 97 ∷ [];
              head = record { owner = codes "amy"; group = 0; list = 0 };
              home = 0;
            }),
          ) ∷ [];
          items = picture 0 ∷ [];
        }) }
    // A partition may have no writes of a transaction's.
    ensures without_writes { mark_line_of (codes "{\"items\":[],\"part\":0,\"stamp\":0,\"writes\":[]}")
        ≡ Ok (record { part = 0; stamp = 0; writes = []; items = [] }) }
    ensures torn { mark_line_of (codes "{\"items\":[],\"part\":0,\"stamp\":65537,\"wri") ≡ Err Refusal.BadLine }
    ensures no_items { mark_line_of (codes "{\"part\":0,\"stamp\":65537,\"writes\":[]}") ≡ Err Refusal.BadRequest }
    ensures past_parts { mark_line_of (codes "{\"items\":[],\"part\":65536,\"stamp\":65537,\"writes\":[]}")
        ≡ Err Refusal.BadRequest }
    // 65536 has the client 0.
    ensures no_stamp { mark_line_of (codes "{\"items\":[],\"part\":0,\"stamp\":65536,\"writes\":[]}")
        ≡ Err Refusal.BadRequest }
    ensures half_write { mark_line_of
        (codes "{\"items\":[],\"part\":0,\"stamp\":65537,\"writes\":[[\"picture/2\"]]}")
        ≡ Err Refusal.BadRequest }
    // The first write's mask has a bit without a name, and the second write has no value.
    ensures shape_first { mark_line_of
        (codes "{\"items\":[],\"part\":0,\"stamp\":65537,\"writes\":[[\"list/0\",{\"entries\":"
        ++ codes "[[\"allow\",\"OWNER@\",2097152,0]]}],[\"list/1\",{}]]}")
        ≡ Err Refusal.BadRequest }
    ensures mask { mark_line_of
        (codes "{\"items\":[],\"part\":0,\"stamp\":65537,\"writes\":[[\"list/0\",{\"entries\":"
        ++ codes "[[\"allow\",\"OWNER@\",2097152,0]]}]]}")
        ≡ Err Refusal.BadMask }
{}

fn mark_json(
    alloc: Global,
    part: u16,
    stamp: Stamp,
    writes: &[(ItemId, Value)],
    items: &[ItemId],
) -> Result<serde_json::Value, AllocError>
    ensures { IfOk result (λ v. view v ≡ mark_json part stamp writes.now items.now) }
{
    let fields = Ok(Map::new(alloc));
    let fields = with_member(alloc, fields, "items", item_list_json(alloc, items));
    let part = Ok(serde_json::Value::from(part));
    let fields = with_member(alloc, fields, "part", part);
    let stamp = Ok(serde_json::Value::from(stamp.value()));
    let fields = with_member(alloc, fields, "stamp", stamp);
    object_of(with_member(alloc, fields, "writes", writes_json(alloc, writes)))
}

/// The values of the writes, in their order.
#[tactic(auto, unfolding(crate::specs::MarkLine::mark_read))]
fn mark_of(alloc: Global, shape: MarkShape) -> Result<PreparedMark, Refusal>
    ensures { Gives (λ mark. mark) result (mark_read (spelled_mark shape.entry)) }
{
    let MarkShape {
        part,
        stamp,
        writes: shapes,
        items,
    } = shape;
    let writes = each_write(alloc, shapes)?;
    Ok(PreparedMark {
        part,
        stamp,
        writes: ItemValues::of(writes),
        items: Items::of(items),
    })
}

fn each_write(alloc: Global, shapes: Vec<WriteShape>) -> Result<Vec<(ItemId, Value)>, Refusal>
    ensures { Gives (λ writes. writes.items) result
        (each_of write_read (map spelled_write shapes.entry.items)) }
{
    let mut writes = Vec::with_capacity(alloc, shapes.len())?;
    for shape in shapes {
        writes.push(write_of(alloc, shape)?)?;
    }
    Ok(writes)
}

#[tactic(auto, unfolding(crate::specs::MarkLine::write_read, crate::specs::MarkShape::spelled_write))]
fn write_of(alloc: Global, shape: WriteShape) -> Result<(ItemId, Value), Refusal>
    ensures { Gives (λ write. write) result (write_read (spelled_write shape.entry)) }
{
    let WriteShape { item, value: shape } = shape;
    let value = written(alloc, shape)?;
    Ok((item, value))
}

/// A value, or that it is missing.
fn written(alloc: Global, shape: Option<ValueShape>) -> Result<Value, Refusal>
    ensures { Gives (λ value. value) result (written_read (option_map spelled_value shape.entry)) }
{
    match shape {
        Some(shape) => value_of(alloc, shape),
        None => Ok(Value::Missing),
    }
}
