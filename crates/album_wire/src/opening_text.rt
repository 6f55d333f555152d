//! The lines of an opening that are written: how the store is to be opened, an item with its first value and the stamp
//! of that, and that this is all.
ghost use Rattle.std.specs.Prelude.{◌≡◌, ◌++◌, [], ◌∷◌, true, false, Some, None, codes, IfOk, IsOkUnless};
ghost use Rattle.serde_json.specs.View.{view, members_view};
ghost use Rattle.album_items.specs.ItemIds.{picture};
ghost use Rattle.album_items.specs.declared.values.Value.TheVariants as ItemValue;
ghost use Rattle.album_wire.specs.OpeningJson.{header_fields, header_json, opening_json, opening_text};
ghost use Rattle.album_wire.specs.ValueJson.{members_named};

use crate::opening_line::OpeningLine;
use crate::opening_shape::Header;
use crate::value_json::{item_json, owner_json, value_json};
use album_items::ItemId;
use album_lines::{json_line, object_of, with_member};
use album_stamps::{Refusal, Stamp};
use serde_json::{Map, Value};
use std::alloc::{AllocError, Global};

/// The line that says how the store is to be opened. It has every key, but that of a root only where there is one.
///
/// # Errors
///
/// `OutOfMemory`.
#[tactic(auto, using(crate::proofs::Floats::no_float_in_header), unfolding(crate::specs::OpeningJson::opening_text))]
pub fn write_header(alloc: Global, header: &Header) -> Result<Vec<u8>, Refusal>
    ensures text { IfOk result (λ bytes. bytes.items ≡ opening_text (OpeningLine.Open header.now)) }
    ensures memory { IsOkUnless result Refusal.OutOfMemory }
{
    let value = open_json(alloc, header);
    Ok(json_line(alloc, value)?)
}

/// The line of an item with its first value, and the stamp at which an epoch before wrote that. The line of a missing
/// value can be written, and not read.
///
/// # Errors
///
/// `OutOfMemory`.
#[tactic(auto, unfolding(crate::specs::OpeningJson::opening_text))]
pub fn write_first_value(
    alloc: Global,
    item: ItemId,
    stamp: Stamp,
    value: &album_items::Value,
) -> Result<Vec<u8>, Refusal>
    ensures text { IfOk result (λ bytes. bytes.items ≡ opening_text (OpeningLine.Item item stamp value.now)) }
    ensures memory { IsOkUnless result Refusal.OutOfMemory }
{
    let value = first_value_json(alloc, item, stamp, value);
    Ok(json_line(alloc, value)?)
}

/// The line that says that the items are all there.
///
/// # Errors
///
/// `OutOfMemory`.
#[tactic(auto, unfolding(crate::specs::OpeningJson::opening_text))]
pub fn write_begin(alloc: Global) -> Result<Vec<u8>, Refusal>
    ensures text { IfOk result (λ bytes. bytes.items ≡ opening_text OpeningLine.Begin) }
    ensures memory { IsOkUnless result Refusal.OutOfMemory }
{
    let value = begin_json(alloc);
    Ok(json_line(alloc, value)?)
}

/// A law: lines of openings that were worked out by hand.
pub fn worked_opening_texts()
    ensures open { opening_text (OpeningLine.Open (record {
      parts = 3;
      limit = 1000;
      policy = 3;
      checked = true;
      root = None;
      first = 0;
      trace = false;
    })) ≡ codes "{\"open\":{\"checked\":true,\"first\":0,\"limit\":1000,\"parts\":3,\"policy\":3,\"trace\":false}}\n" }
    ensures rooted { opening_text (OpeningLine.Open (record {
      parts = 3;
      limit = 1000;
      policy = 3;
      checked = false;
      root = Some (codes "amy");
      first = 7;
      trace = false;
    })) ≡ codes "{\"open\":{\"checked\":false,\"first\":7,\"limit\":1000,\"parts\":3,\"policy\":3,"
        ++ codes "\"root\":\"amy@users\",\"trace\":false}}\n" }
    ensures item { opening_text (OpeningLine.Item (picture 0) 65537 (ItemValue.Picture (record {
      title = codes "Sea";
      content = 115 ∷ 101 ∷ 97 ∷ [];
      head = record { owner = codes "amy"; group = 0; list = 0 };
      home = 0;
    }))) ≡ codes "{\"item\":\"picture/0\",\"stamp\":65537,\"value\":{\"content\":\"736561\",\"group\":0,"
        ++ codes "\"home\":0,\"list\":0,\"owner\":\"amy@users\",\"title\":\"Sea\"}}\n" }
    ensures begin { opening_text OpeningLine.Begin ≡ codes "{\"begin\":true}\n" }
{}

fn open_json(alloc: Global, header: &Header) -> Result<Value, AllocError>
    ensures { IfOk result (λ v. view v ≡ opening_json (OpeningLine.Open header.now)) }
{
    let header = header_json(alloc, header);
    object_of(with_member(alloc, Ok(Map::new(alloc)), "open", header))
}

fn header_json(alloc: Global, header: &Header) -> Result<Value, AllocError>
    ensures { IfOk result (λ v. view v ≡ header_json header.now) }
{
    let fields = header_fields(alloc, header);
    match &header.root {
        None => object_of(fields),
        Some(root) => object_of(with_member(alloc, fields, "root", owner_json(alloc, root))),
    }
}

/// The members of a header without a root.
fn header_fields(alloc: Global, header: &Header) -> Result<Map<String, Value>, AllocError>
    ensures { IfOk result (λ fields. members_view fields.entries ≡ members_named (header_fields header.now [])) }
{
    let fields = Ok(Map::new(alloc));
    let fields = with_member(alloc, fields, "checked", Ok(Value::from(header.checked)));
    let fields = with_member(alloc, fields, "first", Ok(Value::from(header.first)));
    let fields = with_member(alloc, fields, "limit", Ok(Value::from(header.limit)));
    let fields = with_member(alloc, fields, "parts", Ok(Value::from(header.parts)));
    let fields = with_member(alloc, fields, "policy", Ok(Value::from(header.policy)));
    with_member(alloc, fields, "trace", Ok(Value::from(header.trace)))
}

fn first_value_json(
    alloc: Global,
    item: ItemId,
    stamp: Stamp,
    value: &album_items::Value,
) -> Result<Value, AllocError>
    ensures { IfOk result (λ v. view v ≡ opening_json (OpeningLine.Item item stamp value.now)) }
{
    let fields = with_member(alloc, Ok(Map::new(alloc)), "item", item_json(alloc, item));
    let fields = with_member(alloc, fields, "stamp", Ok(Value::from(stamp.value())));
    object_of(with_member(alloc, fields, "value", value_json(alloc, value)))
}

fn begin_json(alloc: Global) -> Result<Value, AllocError>
    ensures { IfOk result (λ v. view v ≡ opening_json OpeningLine.Begin) }
{
    let fields = Ok(Map::new(alloc));
    object_of(with_member(alloc, fields, "begin", Ok(Value::from(true))))
}
