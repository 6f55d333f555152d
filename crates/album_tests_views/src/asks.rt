//! Asks that a table spells.
use crate::store::{ALLOW, groups, item_of, list_of};
use album_items::{Content, ItemId, Kind, Title};
use album_lists::Name;
use album_stamps::Refusal;
use album_views::{Ask, NewList, NewLists, NewMembership, NewMemberships};
use bytes::Bytes;
use std::alloc::Global;

/// What is asked of one item.
#[derive(Clone, Copy)]
pub enum Verb {
    Read,
    List,
    GetList,
    Head,
    Children,
    AddPicture,
    AddAlbum,
    AddGroup,
    Retitle,
    Replace,
    Delete,
    /// It moves to album/7.
    Move,
    /// picture/7 moves to it.
    MoveTo,
    SetLists,
    SetOwner,
    SetMembers,
    /// Another list, and other members.
    Share,
}

/// The object, and a list that lets everyone read it.
fn new_list(alloc: Global, object: ItemId) -> Result<NewList, Refusal> {
    let list = list_of(alloc, &[(ALLOW, "EVERYONE@", 1, 0)])?;
    Ok(NewList { object, list })
}

/// Another list of the one object.
fn one_list(alloc: Global, object: ItemId) -> Result<NewLists, Refusal> {
    let mut lists = Vec::new(alloc);
    lists.push(new_list(alloc, object)?)?;
    Ok(NewLists::of(lists))
}

/// Other lists of so many pictures.
pub fn many_lists(alloc: Global, len: u64) -> Result<Vec<NewList>, Refusal> {
    let mut lists = Vec::new(alloc);
    for number in 0..len {
        lists.push(new_list(alloc, ItemId::new(Kind::Picture, number))?)?;
    }
    Ok(lists)
}

/// Other lists, as an ask.
pub fn set_lists(lists: Vec<NewList>) -> Ask {
    let lists = NewLists::of(lists);
    Ask::SetLists { lists }
}

/// A group that is to have so many members.
pub fn set_members(alloc: Global, object: ItemId, len: u64) -> Result<Ask, Refusal> {
    let members = groups(alloc, 1000, len)?;
    Ok(Ask::SetMembers { object, members })
}

/// A group that is to have another list, and so many members.
pub fn share(alloc: Global, object: ItemId, len: u64) -> Result<Ask, Refusal> {
    let lists = one_list(alloc, object)?;
    let mut members = Vec::new(alloc);
    members.push(NewMembership {
        object,
        members: groups(alloc, 1000, len)?,
    })?;
    let members = NewMemberships::of(members);
    Ok(Ask::Share { lists, members })
}

fn add_picture(alloc: Global, album: ItemId) -> Result<Ask, Refusal> {
    let title = Title::of(alloc, "Bay")?;
    let content = Content::of(Bytes::new())?;
    Ok(Ask::AddPicture {
        album,
        title,
        content,
    })
}

fn add_album(alloc: Global, album: ItemId) -> Result<Ask, Refusal> {
    let title = Title::of(alloc, "Bay")?;
    Ok(Ask::AddAlbum { album, title })
}

/// A new group of so many members.
pub fn add_group(alloc: Global, album: ItemId, len: u64) -> Result<Ask, Refusal> {
    let members = groups(alloc, 1000, len)?;
    Ok(Ask::AddGroup { album, members })
}

fn retitle(alloc: Global, object: ItemId) -> Result<Ask, Refusal> {
    let title = Title::of(alloc, "Bay")?;
    Ok(Ask::Retitle { object, title })
}

fn replace(object: ItemId) -> Result<Ask, Refusal> {
    let content = Content::of(Bytes::new())?;
    Ok(Ask::Replace { object, content })
}

fn set_owner(object: ItemId) -> Result<Ask, Refusal> {
    let owner = Name::of("bo")?;
    Ok(Ask::SetOwner {
        object,
        owner,
        group: 5,
    })
}

/// The ask of this item.
pub fn ask_of(alloc: Global, verb: Verb, text: &str) -> Result<Ask, Refusal> {
    let item = item_of(text)?;
    match verb {
        Verb::Read => Ok(Ask::Read { object: item }),
        Verb::List => Ok(Ask::List { album: item }),
        Verb::GetList => Ok(Ask::GetList { object: item }),
        Verb::Head => Ok(Ask::Head { object: item }),
        Verb::Children => Ok(Ask::Children { album: item }),
        Verb::AddPicture => add_picture(alloc, item),
        Verb::AddAlbum => add_album(alloc, item),
        Verb::AddGroup => add_group(alloc, item, 2),
        Verb::Retitle => retitle(alloc, item),
        Verb::Replace => replace(item),
        Verb::Delete => Ok(Ask::Delete { object: item }),
        Verb::Move => Ok(Ask::Move {
            object: item,
            to: ItemId::new(Kind::Album, 7),
        }),
        Verb::MoveTo => Ok(Ask::Move {
            object: ItemId::new(Kind::Picture, 7),
            to: item,
        }),
        Verb::SetLists => {
            let lists = one_list(alloc, item)?;
            Ok(Ask::SetLists { lists })
        }
        Verb::SetOwner => set_owner(item),
        Verb::SetMembers => set_members(alloc, item, 2),
        Verb::Share => share(alloc, item, 2),
    }
}
