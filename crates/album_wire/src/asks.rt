//! What an ask says whose shape is known: the values of its fields, of a line of events or of a connection.
ghost use Rattle.std.specs.Prelude.{◌≡◌, Ok, Err, map};
ghost use Rattle.album_stamps.specs.Outcome.{Gives};
ghost use Rattle.album_lines.specs.Values.{each_of};
ghost use Rattle.album_wire.specs.AskShape.{AddPicture, AddAlbum, AddGroup, Retitle, Replace, SetLists, SetOwner, SetMembers, Share, spelled_new_list, spelled_new_membership, spelled_ask};
ghost use Rattle.album_wire.specs.Asks.{new_list_read, new_membership_read, ask_read};

use crate::ask_shape::{AskShape, NewListShape, NewMembershipShape};
use crate::item_texts::{content, owner, title};
use album_items::{ItemId, Members};
use album_lines::{access_list, members};
use album_stamps::Refusal;
use album_views::{Ask, NewList, NewLists, NewMembership, NewMemberships};
use std::alloc::Global;

/// The ask of this shape.
///
/// # Errors
///
/// What the reader of a field says, field after field in the order of FORMATS. `OutOfMemory` where memory ran out.
#[tactic(auto, unfolding(crate::specs::Asks::ask_read))]
pub(crate) fn ask_of(alloc: Global, shape: &AskShape) -> Result<Ask, Refusal>
    ensures { Gives (λ ask. ask) result (ask_read (spelled_ask shape.now)) }
{
    match shape {
        AskShape::Read { object } => Ok(Ask::Read { object: *object }),
        AskShape::List { album } => Ok(Ask::List { album: *album }),
        AskShape::GetList { object } => Ok(Ask::GetList { object: *object }),
        AskShape::Head { object } => Ok(Ask::Head { object: *object }),
        AskShape::Children { album } => Ok(Ask::Children { album: *album }),
        AskShape::AddPicture {
            album,
            title,
            content,
        } => add_picture(alloc, *album, title, content),
        AskShape::AddAlbum { album, title } => add_album(alloc, *album, title),
        AskShape::AddGroup { album, members } => add_group(alloc, *album, members),
        AskShape::Retitle { object, title } => retitle(alloc, *object, title),
        AskShape::Replace { object, content } => replace(alloc, *object, content),
        AskShape::Delete { object } => Ok(Ask::Delete { object: *object }),
        AskShape::Move { object, to } => Ok(Ask::Move {
            object: *object,
            to: *to,
        }),
        AskShape::SetLists { lists } => set_lists(alloc, lists),
        AskShape::SetOwner {
            object,
            owner,
            group,
        } => set_owner(*object, owner, *group),
        AskShape::SetMembers { object, members } => set_members(alloc, *object, members),
        AskShape::Share { lists, members } => share(alloc, lists, members),
    }
}

#[tactic(auto, unfolding(crate::specs::Asks::ask_read))]
fn add_picture(alloc: Global, album: ItemId, text: &str, digits: &str) -> Result<Ask, Refusal>
    ensures { Gives (λ ask. ask) result (ask_read (AddPicture album text.now digits.now)) }
{
    let title = title(alloc, text)?;
    let content = content(alloc, digits)?;
    Ok(Ask::AddPicture {
        album,
        title,
        content,
    })
}

#[tactic(auto, unfolding(crate::specs::Asks::ask_read))]
fn add_album(alloc: Global, album: ItemId, text: &str) -> Result<Ask, Refusal>
    ensures { Gives (λ ask. ask) result (ask_read (AddAlbum album text.now)) }
{
    let title = title(alloc, text)?;
    Ok(Ask::AddAlbum { album, title })
}

#[tactic(auto, unfolding(crate::specs::Asks::ask_read))]
fn add_group(alloc: Global, album: ItemId, texts: &[&str]) -> Result<Ask, Refusal>
    ensures { Gives (λ ask. ask) result (ask_read (AddGroup album (map (λ text. text.now) texts.now))) }
{
    let members = members(alloc, texts)?;
    Ok(Ask::AddGroup {
        album,
        members: Members::of(members),
    })
}

#[tactic(auto, unfolding(crate::specs::Asks::ask_read))]
fn retitle(alloc: Global, object: ItemId, text: &str) -> Result<Ask, Refusal>
    ensures { Gives (λ ask. ask) result (ask_read (Retitle object text.now)) }
{
    let title = title(alloc, text)?;
    Ok(Ask::Retitle { object, title })
}

#[tactic(auto, unfolding(crate::specs::Asks::ask_read))]
fn replace(alloc: Global, object: ItemId, digits: &str) -> Result<Ask, Refusal>
    ensures { Gives (λ ask. ask) result (ask_read (Replace object digits.now)) }
{
    let content = content(alloc, digits)?;
    Ok(Ask::Replace { object, content })
}

#[tactic(auto, unfolding(crate::specs::Asks::ask_read))]
fn set_lists(alloc: Global, shapes: &[NewListShape]) -> Result<Ask, Refusal>
    ensures { Gives (λ ask. ask) result (ask_read (SetLists (map spelled_new_list shapes.now))) }
{
    let lists = each_new_list(alloc, shapes)?;
    Ok(Ask::SetLists {
        lists: NewLists::of(lists),
    })
}

#[tactic(auto, unfolding(crate::specs::Asks::ask_read))]
fn set_owner(object: ItemId, text: &str, group: u64) -> Result<Ask, Refusal>
    ensures { Gives (λ ask. ask) result (ask_read (SetOwner object text.now group)) }
{
    let owner = owner(text)?;
    Ok(Ask::SetOwner {
        object,
        owner,
        group,
    })
}

#[tactic(auto, unfolding(crate::specs::Asks::ask_read))]
fn set_members(alloc: Global, object: ItemId, texts: &[&str]) -> Result<Ask, Refusal>
    ensures { Gives (λ ask. ask) result (ask_read (SetMembers object (map (λ text. text.now) texts.now))) }
{
    let members = members(alloc, texts)?;
    Ok(Ask::SetMembers {
        object,
        members: Members::of(members),
    })
}

#[tactic(auto, unfolding(crate::specs::Asks::ask_read))]
fn share(
    alloc: Global,
    list_shapes: &[NewListShape],
    member_shapes: &[NewMembershipShape],
) -> Result<Ask, Refusal>
    ensures { Gives (λ ask. ask) result (ask_read
        (Share (map spelled_new_list list_shapes.now) (map spelled_new_membership member_shapes.now))) }
{
    let lists = each_new_list(alloc, list_shapes)?;
    let members = each_new_membership(alloc, member_shapes)?;
    Ok(Ask::Share {
        lists: NewLists::of(lists),
        members: NewMemberships::of(members),
    })
}

fn each_new_list(alloc: Global, shapes: &[NewListShape]) -> Result<Vec<NewList>, Refusal>
    ensures { Gives (λ lists. lists.items) result (each_of new_list_read (map spelled_new_list shapes.now)) }
{
    let mut lists = Vec::with_capacity(alloc, shapes.len())?;
    for shape in shapes {
        lists.push(new_list(alloc, shape)?)?;
    }
    Ok(lists)
}

#[tactic(auto, unfolding(crate::specs::Asks::new_list_read))]
fn new_list(alloc: Global, shape: &NewListShape) -> Result<NewList, Refusal>
    ensures { Gives (λ new. new) result (new_list_read (spelled_new_list shape.now)) }
{
    let list = access_list(alloc, &shape.entries)?;
    Ok(NewList {
        object: shape.object,
        list,
    })
}

fn each_new_membership(
    alloc: Global,
    shapes: &[NewMembershipShape],
) -> Result<Vec<NewMembership>, Refusal>
    ensures { Gives (λ members. members.items) result
        (each_of new_membership_read (map spelled_new_membership shapes.now)) }
{
    let mut members = Vec::with_capacity(alloc, shapes.len())?;
    for shape in shapes {
        members.push(new_membership(alloc, shape)?)?;
    }
    Ok(members)
}

#[tactic(auto, unfolding(crate::specs::Asks::new_membership_read))]
fn new_membership(alloc: Global, shape: &NewMembershipShape) -> Result<NewMembership, Refusal>
    ensures { Gives (λ new. new) result (new_membership_read (spelled_new_membership shape.now)) }
{
    let members = members(alloc, &shape.members)?;
    Ok(NewMembership {
        object: shape.object,
        members: Members::of(members),
    })
}
