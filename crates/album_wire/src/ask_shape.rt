//! The shape of an ask in a line: {do = the ask's word, and its fields}.
ghost use Rattle.std.specs.Prelude.{◌≡◌, map};
ghost use Rattle.album_stamps.specs.Outcome.{Gives};
ghost use Rattle.album_lines.specs.Fields.{each};
ghost use Rattle.album_wire.specs.AskShape.{spelled_new_list, spelled_new_membership, spelled_ask, read_shape_of, list_shape_of, get_list_shape_of, head_ask_shape_of, children_shape_of, add_picture_shape_of, add_album_shape_of, add_group_shape_of, retitle_shape_of, replace_shape_of, delete_shape_of, move_shape_of, new_list_shape_of, set_lists_shape_of, set_owner_shape_of, set_members_shape_of, new_membership_shape_of, share_shape_of, shape_by_word, ask_shape_of};
ghost use Rattle.album_lines.specs.Trees.{value_data, items_data};

use crate::item_shapes::{item_named, item_under};
use album_items::ItemId;
use album_lines::{
    EntryShape, entry_shapes, field, item, list_under, only, sized_list, text_under, texts,
    whole_under,
};
use album_stamps::Refusal;
use json::Value;
use std::alloc::Global;

/// An object, and the list that it is to have, as a line spells them.
#[derive(Drop)]
pub(crate) struct NewListShape<'a> {
    pub(crate) object: ItemId,
    pub(crate) entries: Vec<EntryShape<'a>>,
}

/// A group, and the members that it is to have, as a line spells them.
#[derive(Drop)]
pub(crate) struct NewMembershipShape<'a> {
    pub(crate) object: ItemId,
    pub(crate) members: Vec<&'a str>,
}

/// An ask as a line spells it.
#[derive(Drop)]
pub(crate) enum AskShape<'a> {
    Read {
        object: ItemId,
    },
    List {
        album: ItemId,
    },
    GetList {
        object: ItemId,
    },
    Head {
        object: ItemId,
    },
    Children {
        album: ItemId,
    },
    AddPicture {
        album: ItemId,
        title: &'a str,
        content: &'a str,
    },
    AddAlbum {
        album: ItemId,
        title: &'a str,
    },
    AddGroup {
        album: ItemId,
        members: Vec<&'a str>,
    },
    Retitle {
        object: ItemId,
        title: &'a str,
    },
    Replace {
        object: ItemId,
        content: &'a str,
    },
    Delete {
        object: ItemId,
    },
    Move {
        object: ItemId,
        to: ItemId,
    },
    SetLists {
        lists: Vec<NewListShape<'a>>,
    },
    SetOwner {
        object: ItemId,
        owner: &'a str,
        group: u64,
    },
    SetMembers {
        object: ItemId,
        members: Vec<&'a str>,
    },
    Share {
        lists: Vec<NewListShape<'a>>,
        members: Vec<NewMembershipShape<'a>>,
    },
}

/// The fields of an ask, each of its shape, or `BadRequest`. The word under `do` says which ask it is.
pub(crate) fn ask_shape<'a>(alloc: Global, value: &Value<'a>) -> Result<AskShape<'a>, Refusal>
    ensures { Gives spelled_ask result (ask_shape_of (value_data value.now)) }
{
    let word = text_under(value, "do")?;
    shape_by_word(alloc, word, value)
}

fn shape_by_word<'a>(alloc: Global, word: &str, value: &Value<'a>) -> Result<AskShape<'a>, Refusal>
    ensures { Gives spelled_ask result (shape_by_word word.now (value_data value.now)) }
{
    match word {
        "read" => read_shape(value),
        "list" => list_shape(value),
        "get_list" => get_list_shape(value),
        "head" => head_ask_shape(value),
        "children" => children_shape(value),
        "add_picture" => add_picture_shape(value),
        "add_album" => add_album_shape(value),
        "add_group" => add_group_shape(alloc, value),
        "retitle" => retitle_shape(value),
        "replace" => replace_shape(value),
        "delete" => delete_shape(value),
        "move" => move_shape(value),
        "set_lists" => set_lists_shape(alloc, value),
        "set_owner" => set_owner_shape(value),
        "set_members" => set_members_shape(alloc, value),
        "share" => share_shape(alloc, value),
        _ => Err(Refusal::BadRequest),
    }
}

#[tactic(auto, unfolding(crate::specs::AskShape::read_shape_of))]
fn read_shape<'a>(value: &Value<'a>) -> Result<AskShape<'a>, Refusal>
    ensures { Gives spelled_ask result (read_shape_of (value_data value.now)) }
{
    only(value, &["do", "object"])?;
    let object = item_under(value, "object")?;
    Ok(AskShape::Read { object })
}

#[tactic(auto, unfolding(crate::specs::AskShape::list_shape_of))]
fn list_shape<'a>(value: &Value<'a>) -> Result<AskShape<'a>, Refusal>
    ensures { Gives spelled_ask result (list_shape_of (value_data value.now)) }
{
    only(value, &["do", "album"])?;
    let album = item_under(value, "album")?;
    Ok(AskShape::List { album })
}

#[tactic(auto, unfolding(crate::specs::AskShape::get_list_shape_of))]
fn get_list_shape<'a>(value: &Value<'a>) -> Result<AskShape<'a>, Refusal>
    ensures { Gives spelled_ask result (get_list_shape_of (value_data value.now)) }
{
    only(value, &["do", "object"])?;
    let object = item_under(value, "object")?;
    Ok(AskShape::GetList { object })
}

#[tactic(auto, unfolding(crate::specs::AskShape::head_ask_shape_of))]
fn head_ask_shape<'a>(value: &Value<'a>) -> Result<AskShape<'a>, Refusal>
    ensures { Gives spelled_ask result (head_ask_shape_of (value_data value.now)) }
{
    only(value, &["do", "object"])?;
    let object = item_under(value, "object")?;
    Ok(AskShape::Head { object })
}

#[tactic(auto, unfolding(crate::specs::AskShape::children_shape_of))]
fn children_shape<'a>(value: &Value<'a>) -> Result<AskShape<'a>, Refusal>
    ensures { Gives spelled_ask result (children_shape_of (value_data value.now)) }
{
    only(value, &["do", "album"])?;
    let album = item_under(value, "album")?;
    Ok(AskShape::Children { album })
}

#[tactic(auto, unfolding(crate::specs::AskShape::add_picture_shape_of))]
fn add_picture_shape<'a>(value: &Value<'a>) -> Result<AskShape<'a>, Refusal>
    ensures { Gives spelled_ask result (add_picture_shape_of (value_data value.now)) }
{
    only(value, &["do", "album", "title", "content"])?;
    let album = item_under(value, "album")?;
    let title = text_under(value, "title")?;
    let content = text_under(value, "content")?;
    Ok(AskShape::AddPicture {
        album,
        title,
        content,
    })
}

#[tactic(auto, unfolding(crate::specs::AskShape::add_album_shape_of))]
fn add_album_shape<'a>(value: &Value<'a>) -> Result<AskShape<'a>, Refusal>
    ensures { Gives spelled_ask result (add_album_shape_of (value_data value.now)) }
{
    only(value, &["do", "album", "title"])?;
    let album = item_under(value, "album")?;
    let title = text_under(value, "title")?;
    Ok(AskShape::AddAlbum { album, title })
}

#[tactic(auto, unfolding(crate::specs::AskShape::add_group_shape_of))]
fn add_group_shape<'a>(alloc: Global, value: &Value<'a>) -> Result<AskShape<'a>, Refusal>
    ensures { Gives spelled_ask result (add_group_shape_of (value_data value.now)) }
{
    only(value, &["do", "album", "members"])?;
    let album = item_under(value, "album")?;
    let members = texts(alloc, field(value, "members")?)?;
    Ok(AskShape::AddGroup { album, members })
}

#[tactic(auto, unfolding(crate::specs::AskShape::retitle_shape_of))]
fn retitle_shape<'a>(value: &Value<'a>) -> Result<AskShape<'a>, Refusal>
    ensures { Gives spelled_ask result (retitle_shape_of (value_data value.now)) }
{
    only(value, &["do", "object", "title"])?;
    let object = item_under(value, "object")?;
    let title = text_under(value, "title")?;
    Ok(AskShape::Retitle { object, title })
}

#[tactic(auto, unfolding(crate::specs::AskShape::replace_shape_of))]
fn replace_shape<'a>(value: &Value<'a>) -> Result<AskShape<'a>, Refusal>
    ensures { Gives spelled_ask result (replace_shape_of (value_data value.now)) }
{
    only(value, &["do", "object", "content"])?;
    let object = item_under(value, "object")?;
    let content = text_under(value, "content")?;
    Ok(AskShape::Replace { object, content })
}

#[tactic(auto, unfolding(crate::specs::AskShape::delete_shape_of))]
fn delete_shape<'a>(value: &Value<'a>) -> Result<AskShape<'a>, Refusal>
    ensures { Gives spelled_ask result (delete_shape_of (value_data value.now)) }
{
    only(value, &["do", "object"])?;
    let object = item_under(value, "object")?;
    Ok(AskShape::Delete { object })
}

#[tactic(auto, unfolding(crate::specs::AskShape::move_shape_of))]
fn move_shape<'a>(value: &Value<'a>) -> Result<AskShape<'a>, Refusal>
    ensures { Gives spelled_ask result (move_shape_of (value_data value.now)) }
{
    only(value, &["do", "object", "to"])?;
    let object = item_under(value, "object")?;
    let to = item_under(value, "to")?;
    Ok(AskShape::Move { object, to })
}

#[tactic(auto, unfolding(crate::specs::AskShape::set_lists_shape_of))]
fn set_lists_shape<'a>(alloc: Global, value: &Value<'a>) -> Result<AskShape<'a>, Refusal>
    ensures { Gives spelled_ask result (set_lists_shape_of (value_data value.now)) }
{
    only(value, &["do", "lists"])?;
    let lists = each_new_list_shape(alloc, list_under(value, "lists")?)?;
    Ok(AskShape::SetLists { lists })
}

fn each_new_list_shape<'a>(
    alloc: Global,
    values: &[Value<'a>],
) -> Result<Vec<NewListShape<'a>>, Refusal>
    ensures { Gives (λ shapes. map spelled_new_list shapes.items) result
        (each new_list_shape_of (items_data values.now)) }
{
    let mut shapes = Vec::with_capacity(alloc, values.len())?;
    for value in values {
        shapes.push(new_list_shape(alloc, value)?)?;
    }
    Ok(shapes)
}

/// [object, entries]
#[tactic(auto, unfolding(crate::specs::AskShape::new_list_shape_of))]
fn new_list_shape<'a>(alloc: Global, value: &Value<'a>) -> Result<NewListShape<'a>, Refusal>
    ensures { Gives spelled_new_list result (new_list_shape_of (value_data value.now)) }
{
    sized_list(value, 2)?;
    let object = item_named(item(value, 0)?)?;
    let entries = entry_shapes(alloc, item(value, 1)?)?;
    Ok(NewListShape { object, entries })
}

#[tactic(auto, unfolding(crate::specs::AskShape::set_owner_shape_of))]
fn set_owner_shape<'a>(value: &Value<'a>) -> Result<AskShape<'a>, Refusal>
    ensures { Gives spelled_ask result (set_owner_shape_of (value_data value.now)) }
{
    only(value, &["do", "object", "owner", "group"])?;
    let object = item_under(value, "object")?;
    let owner = text_under(value, "owner")?;
    let group = whole_under(value, "group")?;
    Ok(AskShape::SetOwner {
        object,
        owner,
        group,
    })
}

#[tactic(auto, unfolding(crate::specs::AskShape::set_members_shape_of))]
fn set_members_shape<'a>(alloc: Global, value: &Value<'a>) -> Result<AskShape<'a>, Refusal>
    ensures { Gives spelled_ask result (set_members_shape_of (value_data value.now)) }
{
    only(value, &["do", "object", "members"])?;
    let object = item_under(value, "object")?;
    let members = texts(alloc, field(value, "members")?)?;
    Ok(AskShape::SetMembers { object, members })
}

#[tactic(auto, unfolding(crate::specs::AskShape::share_shape_of))]
fn share_shape<'a>(alloc: Global, value: &Value<'a>) -> Result<AskShape<'a>, Refusal>
    ensures { Gives spelled_ask result (share_shape_of (value_data value.now)) }
{
    only(value, &["do", "lists", "members"])?;
    let lists = each_new_list_shape(alloc, list_under(value, "lists")?)?;
    let members = each_new_membership_shape(alloc, list_under(value, "members")?)?;
    Ok(AskShape::Share { lists, members })
}

fn each_new_membership_shape<'a>(
    alloc: Global,
    values: &[Value<'a>],
) -> Result<Vec<NewMembershipShape<'a>>, Refusal>
    ensures { Gives (λ shapes. map spelled_new_membership shapes.items) result
        (each new_membership_shape_of (items_data values.now)) }
{
    let mut shapes = Vec::with_capacity(alloc, values.len())?;
    for value in values {
        shapes.push(new_membership_shape(alloc, value)?)?;
    }
    Ok(shapes)
}

/// [group, members]
#[tactic(auto, unfolding(crate::specs::AskShape::new_membership_shape_of))]
fn new_membership_shape<'a>(
    alloc: Global,
    value: &Value<'a>,
) -> Result<NewMembershipShape<'a>, Refusal>
    ensures { Gives spelled_new_membership result (new_membership_shape_of (value_data value.now)) }
{
    sized_list(value, 2)?;
    let object = item_named(item(value, 0)?)?;
    let members = texts(alloc, item(value, 1)?)?;
    Ok(NewMembershipShape { object, members })
}
