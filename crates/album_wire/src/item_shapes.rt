//! The shapes of items and of their values: item = text, value = {title, content, owner, group, home, list} of a
//! picture, {title, owner, group, home, list, children} of an album, {entries} or {owner, group, list, members}.
ghost use Rattle.std.specs.Prelude.{◌≡◌, map};
ghost use Rattle.album_stamps.specs.Outcome.{Gives};
ghost use Rattle.album_lines.specs.Fields.{each, under};
ghost use Rattle.album_wire.specs.ItemShapes.{item_named, may_be_child, child_of, spelled_head, spelled_value, head_shape_of, home_shape_of, picture_shape_of, album_shape_of, list_shape_of, group_shape_of, value_shape_of};
ghost use Rattle.album_lines.specs.Trees.{value_data, items_data};

use album_items::{ItemId, Kind, read_item};
use album_lines::{
    EntryShape, entry_shapes, field, has, is_nothing, list_under, only, text, text_under, texts,
    whole, whole_under,
};
use album_stamps::Refusal;
use json::Value;
use std::alloc::Global;

/// The head of an object as a line spells it.
#[derive(Clone, Copy)]
pub(crate) struct HeadShape<'a> {
    pub(crate) owner: &'a str,
    pub(crate) group: u64,
    pub(crate) list: u64,
}

/// A value as a line spells it. No line spells one that is missing.
#[derive(Drop)]
pub(crate) enum ValueShape<'a> {
    Picture {
        title: &'a str,
        content: &'a str,
        head: HeadShape<'a>,
        home: u64,
    },
    Album {
        title: &'a str,
        head: HeadShape<'a>,
        home: Option<u64>,
        children: Vec<ItemId>,
    },
    Entries {
        entries: Vec<EntryShape<'a>>,
    },
    Group {
        head: HeadShape<'a>,
        members: Vec<&'a str>,
    },
}

/// An item, by its text.
pub(crate) fn item_named(value: &Value<'_>) -> Result<ItemId, Refusal>
    ensures { Gives (λ item. item) result (item_named (value_data value.now)) }
{
    read_item(text(value)?).ok_or(Refusal::BadRequest)
}

/// The item under a name.
pub(crate) fn item_under(value: &Value<'_>, name: &str) -> Result<ItemId, Refusal>
    ensures { Gives (λ item. item) result (under item_named name.now (value_data value.now)) }
{
    item_named(field(value, name)?)
}

/// A value. Its names say whose it is: only a list has entries, only a group members, only an album children.
pub(crate) fn value_shape<'a>(alloc: Global, value: &Value<'a>) -> Result<ValueShape<'a>, Refusal>
    ensures { Gives spelled_value result (value_shape_of (value_data value.now)) }
{
    if has(value, "entries") {
        list_shape(alloc, value)
    } else if has(value, "members") {
        group_shape(alloc, value)
    } else if has(value, "children") {
        album_shape(alloc, value)
    } else {
        picture_shape(value)
    }
}

#[tactic(auto, unfolding(crate::specs::ItemShapes::picture_shape_of))]
fn picture_shape<'a>(value: &Value<'a>) -> Result<ValueShape<'a>, Refusal>
    ensures { Gives spelled_value result (picture_shape_of (value_data value.now)) }
{
    only(
        value,
        &["title", "content", "owner", "group", "home", "list"],
    )?;
    let title = text_under(value, "title")?;
    let content = text_under(value, "content")?;
    let head = head_shape(value)?;
    let home = whole_under(value, "home")?;
    Ok(ValueShape::Picture {
        title,
        content,
        head,
        home,
    })
}

#[tactic(auto, unfolding(crate::specs::ItemShapes::album_shape_of))]
fn album_shape<'a>(alloc: Global, value: &Value<'a>) -> Result<ValueShape<'a>, Refusal>
    ensures { Gives spelled_value result (album_shape_of (value_data value.now)) }
{
    only(
        value,
        &["title", "owner", "group", "home", "list", "children"],
    )?;
    let title = text_under(value, "title")?;
    let head = head_shape(value)?;
    let home = home_under(value, "home")?;
    let children = each_child(alloc, list_under(value, "children")?)?;
    Ok(ValueShape::Album {
        title,
        head,
        home,
        children,
    })
}

#[tactic(auto, unfolding(crate::specs::ItemShapes::list_shape_of))]
fn list_shape<'a>(alloc: Global, value: &Value<'a>) -> Result<ValueShape<'a>, Refusal>
    ensures { Gives spelled_value result (list_shape_of (value_data value.now)) }
{
    only(value, &["entries"])?;
    let entries = entry_shapes(alloc, field(value, "entries")?)?;
    Ok(ValueShape::Entries { entries })
}

#[tactic(auto, unfolding(crate::specs::ItemShapes::group_shape_of))]
fn group_shape<'a>(alloc: Global, value: &Value<'a>) -> Result<ValueShape<'a>, Refusal>
    ensures { Gives spelled_value result (group_shape_of (value_data value.now)) }
{
    only(value, &["owner", "group", "list", "members"])?;
    let head = head_shape(value)?;
    let members = texts(alloc, field(value, "members")?)?;
    Ok(ValueShape::Group { head, members })
}

/// The members of an object that are its head.
#[tactic(auto, unfolding(crate::specs::ItemShapes::head_shape_of))]
fn head_shape<'a>(value: &Value<'a>) -> Result<HeadShape<'a>, Refusal>
    ensures { Gives spelled_head result (head_shape_of (value_data value.now)) }
{
    let owner = text_under(value, "owner")?;
    let group = whole_under(value, "group")?;
    let list = whole_under(value, "list")?;
    Ok(HeadShape { owner, group, list })
}

/// An album's home, or nothing.
fn home_under(value: &Value<'_>, name: &str) -> Result<Option<u64>, Refusal>
    ensures { Gives (λ home. home) result (under home_shape_of name.now (value_data value.now)) }
{
    let home = field(value, name)?;
    if is_nothing(home) {
        return Ok(None);
    }
    let number = whole(home)?;
    Ok(Some(number))
}

fn each_child(alloc: Global, values: &[Value<'_>]) -> Result<Vec<ItemId>, Refusal>
    ensures { Gives (λ children. children.items) result (each child_of (items_data values.now)) }
{
    let mut children = Vec::with_capacity(alloc, values.len())?;
    for value in values {
        children.push(child(value)?)?;
    }
    Ok(children)
}

/// A child of an album: a picture or an album.
#[tactic(auto, unfolding(crate::specs::ItemShapes::child_of))]
fn child(value: &Value<'_>) -> Result<ItemId, Refusal>
    ensures { Gives (λ child. child) result (child_of (value_data value.now)) }
{
    let item = item_named(value)?;
    if !may_be_child(item) {
        return Err(Refusal::BadRequest);
    }
    Ok(item)
}

pub(crate) fn may_be_child(item: ItemId) -> bool
    ensures { result ≡ may_be_child item }
{
    matches!(item.kind(), Kind::Picture | Kind::Album)
}
