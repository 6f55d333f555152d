//! The lines of what is served: {answer, client, object, stamp}, and beside these what was asked for.
ghost use Rattle.std.specs.Prelude.{◌≡◌, ◌++◌, ◌∷◌, codes, IfOk, OnOk};
ghost use Rattle.json.specs.Token.{key};
ghost use Rattle.json.specs.Tree.{json_tokens};
ghost use Rattle.serde_json.specs.View.{view, members_view};
ghost use Rattle.serde_json.specs.Written.{outline};
ghost use Rattle.album_wire.specs.ValueJson.{members_named, item_json, item_list_json};
ghost use Rattle.album_wire.specs.ServedJson.{answer_fields, answer_about, row_json, rows_json, picture_served, group_served, entries_served, listed_json, head_json, children_json, served_json};
ghost use Rattle.album_wire.specs.ShownStamps.{stamp_shown, served_shown};
ghost use Rattle.album_lines.specs.Output.{line_text};

use crate::object_text::{begin_answer, begin_line, end_line, put_number, put_text};
use crate::value_json::{entries_json, item_json, item_text, members_json, with_head};
use album_items::{Content, FirstStamps, ItemId, Title};
use album_lines::{json_line, object_of, with_member};
use album_listing::Row;
use album_lists::{Ace, Member};
use album_permits::{Attributes, Served};
use album_stamps::{ClientNo, Stamp};
use json::Writer;
use serde_json::{Map, Value};
use std::alloc::{AllocError, Global};

/// The line of what is served to this client, in an epoch whose first values have these stamps.
pub(crate) fn served_line(
    alloc: Global,
    stamps: &FirstStamps,
    client: ClientNo,
    served: &Served,
) -> Result<Vec<u8>, AllocError>
    ensures { IfOk result
        (λ bytes. bytes.items ≡ line_text (served_json client (served_shown stamps.now served.now))) }
{
    let stamp = stamp_shown(stamps, served);
    match served {
        Served::Picture {
            object,
            title,
            content,
            ..
        } => picture_line(alloc, client, *object, stamp, title, content),
        Served::Group {
            object,
            members,
            ..
        } => {
            let served = group_served(alloc, client, *object, stamp, members.as_slice());
            json_line(alloc, served)
        }
        Served::Entries { object, list, .. } => {
            let served = entries_served(alloc, client, *object, stamp, list.entries());
            json_line(alloc, served)
        }
        Served::Listed { album, rows, .. } => {
            listed_line(alloc, client, *album, stamp, rows.as_slice())
        }
        Served::Head {
            object,
            attributes,
            ..
        } => json_line(alloc, head_json(alloc, client, *object, stamp, attributes)),
        Served::Children {
            album,
            children,
            ..
        } => children_line(alloc, client, *album, stamp, children.as_slice()),
    }
}

/// The stamp of the version that is served, as it is shown.
fn stamp_shown(stamps: &FirstStamps, served: &Served) -> Stamp
    ensures { result ≡ stamp_shown stamps.now served.now }
{
    match served {
        Served::Picture { object, stamp, .. } => stamps.shown(*object, *stamp),
        Served::Group { object, stamp, .. } => stamps.shown(*object, *stamp),
        Served::Entries { of, stamp, .. } => stamps.shown(*of, *stamp),
        Served::Listed { album, stamp, .. } => stamps.shown(*album, *stamp),
        Served::Head { object, stamp, .. } => stamps.shown(*object, *stamp),
        Served::Children { album, stamp, .. } => stamps.shown(*album, *stamp),
    }
}

/// Most answers are pictures and writes that ended, and those about albums have the most parts. These are written
/// straight.
fn picture_line(
    alloc: Global,
    client: ClientNo,
    object: ItemId,
    stamp: Stamp,
    title: &Title,
    content: &Content,
) -> Result<Vec<u8>, AllocError>
    ensures { IfOk result
        (λ bytes. bytes.items ≡ line_text (picture_served client object stamp title.now content.now)) }
{
    let content = hex::encode(alloc, content.as_slice())?;
    let object = item_text(alloc, object)?;
    let mut out = begin_answer(alloc, "served", client)?;
    put_text(&mut out, "content", content.as_str())?;
    put_text(&mut out, "object", object.as_str())?;
    put_number(&mut out, "stamp", stamp.value())?;
    put_text(&mut out, "title", title.as_str())?;
    end_line(out)
}

fn group_served(
    alloc: Global,
    client: ClientNo,
    object: ItemId,
    stamp: Stamp,
    members: &[Member],
) -> Result<Value, AllocError>
    ensures { IfOk result (λ v. view v ≡ group_served client object stamp members.now) }
{
    let fields = answer_about(alloc, "served", client, object, stamp);
    object_of(with_member(alloc, fields, "members", members_json(alloc, members)))
}

/// The stamp is that of the list.
fn entries_served(
    alloc: Global,
    client: ClientNo,
    object: ItemId,
    stamp: Stamp,
    entries: &[Ace],
) -> Result<Value, AllocError>
    ensures { IfOk result (λ v. view v ≡ entries_served client object stamp entries.now) }
{
    let fields = answer_about(alloc, "served", client, object, stamp);
    object_of(with_member(alloc, fields, "entries", entries_json(alloc, entries)))
}

fn listed_line(
    alloc: Global,
    client: ClientNo,
    album: ItemId,
    stamp: Stamp,
    rows: &[Row],
) -> Result<Vec<u8>, AllocError>
    ensures { IfOk result
        (λ bytes. bytes.items ≡ line_text (listed_json client album stamp rows.now)) }
{
    let object = item_text(alloc, album)?;
    let mut out = begin_answer(alloc, "listed", client)?;
    put_text(&mut out, "object", object.as_str())?;
    put_rows(alloc, &mut out, rows)?;
    put_number(&mut out, "stamp", stamp.value())?;
    end_line(out)
}

/// Adds the rows, as a member.
fn put_rows(alloc: Global, out: &mut Writer, rows: &[Row]) -> Result<(), AllocError>
    ensures before { OnOk result (out.new.before ≡ out.old.before) }
    ensures tokens { OnOk result (out.new.tokens
        ≡ out.old.tokens ++ key (codes "rows") ∷ json_tokens (outline (rows_json rows.now))) }
{
    out.key("rows")?;
    out.begin_array()?;
    for row in rows {
        put_row(alloc, out, row)?;
    }
    out.end_array()
}

/// [item, title]
fn put_row(alloc: Global, out: &mut Writer, row: &Row) -> Result<(), AllocError>
    ensures before { OnOk result (out.new.before ≡ out.old.before) }
    ensures tokens { OnOk result (out.new.tokens
        ≡ out.old.tokens ++ json_tokens (outline (row_json row.now))) }
{
    out.begin_array()?;
    put_item(alloc, out, row.item)?;
    out.string(row.title.as_str())?;
    out.end_array()
}

/// What the object is by its attributes.
fn head_json(
    alloc: Global,
    client: ClientNo,
    object: ItemId,
    stamp: Stamp,
    attributes: &Attributes,
) -> Result<Value, AllocError>
    ensures { IfOk result (λ v. view v ≡ head_json client object stamp attributes.now) }
{
    let fields = answer_about(alloc, "served", client, object, stamp);
    match attributes {
        Attributes::Nothing => object_of(fields),
        Attributes::Picture { head, title, home } => {
            let fields = with_head(alloc, fields, head);
            let fields = with_member(alloc, fields, "home", Ok(Value::from(*home)));
            let title = Value::try_from_str(alloc, title.as_str());
            object_of(with_member(alloc, fields, "title", title))
        }
        Attributes::Album {
            head,
            title,
            home,
            count,
        } => {
            let fields = with_head(alloc, fields, head);
            let fields = with_member(alloc, fields, "count", Ok(Value::from(*count)));
            let fields = with_member(alloc, fields, "home", Ok(Value::from(*home)));
            let title = Value::try_from_str(alloc, title.as_str());
            object_of(with_member(alloc, fields, "title", title))
        }
        Attributes::Group { head, count } => {
            let fields = with_head(alloc, fields, head);
            object_of(with_member(alloc, fields, "count", Ok(Value::from(*count))))
        }
    }
}

fn children_line(
    alloc: Global,
    client: ClientNo,
    album: ItemId,
    stamp: Stamp,
    children: &[ItemId],
) -> Result<Vec<u8>, AllocError>
    ensures { IfOk result
        (λ bytes. bytes.items ≡ line_text (children_json client album stamp children.now)) }
{
    let object = item_text(alloc, album)?;
    let mut out = begin_line(alloc)?;
    put_text(&mut out, "answer", "served")?;
    put_children(alloc, &mut out, children)?;
    put_number(&mut out, "client", u64::from(client.number()))?;
    put_text(&mut out, "object", object.as_str())?;
    put_number(&mut out, "stamp", stamp.value())?;
    end_line(out)
}

/// Adds the children, as a member.
fn put_children(alloc: Global, out: &mut Writer, children: &[ItemId]) -> Result<(), AllocError>
    ensures before { OnOk result (out.new.before ≡ out.old.before) }
    ensures tokens { OnOk result (out.new.tokens
        ≡ out.old.tokens ++ key (codes "children") ∷ json_tokens (outline (item_list_json children.now))) }
{
    out.key("children")?;
    out.begin_array()?;
    for child in children {
        put_item(alloc, out, *child)?;
    }
    out.end_array()
}

fn put_item(alloc: Global, out: &mut Writer, item: ItemId) -> Result<(), AllocError>
    ensures before { OnOk result (out.new.before ≡ out.old.before) }
    ensures tokens { OnOk result (out.new.tokens ≡ out.old.tokens ++ json_tokens (outline (item_json item))) }
{
    let text = item_text(alloc, item)?;
    out.string(text.as_str())
}

/// What an answer begins with, and the object and the stamp that it is of.
fn answer_about(
    alloc: Global,
    word: &str,
    client: ClientNo,
    object: ItemId,
    stamp: Stamp,
) -> Result<Map<String, Value>, AllocError>
    ensures { IfOk result
        (λ fields. members_view fields.entries ≡ members_named (answer_about word.now client object stamp)) }
{
    let fields = answer_fields(alloc, word, client);
    let fields = with_member(alloc, fields, "object", item_json(alloc, object));
    with_member(alloc, fields, "stamp", Ok(Value::from(stamp.value())))
}

/// What an answer begins with: the word that says which, and the client.
pub(crate) fn answer_fields(
    alloc: Global,
    word: &str,
    client: ClientNo,
) -> Result<Map<String, Value>, AllocError>
    ensures { IfOk result (λ fields. members_view fields.entries ≡ members_named (answer_fields word.now client)) }
{
    let answer = Value::try_from_str(alloc, word);
    let fields = with_member(alloc, Ok(Map::new(alloc)), "answer", answer);
    with_member(alloc, fields, "client", Ok(Value::from(client.number())))
}
