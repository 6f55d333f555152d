//! Where an ask is refused that is read, but fails its check: the object or the list that fails the first test.
use album_items::{ItemId, Kind};
use album_lists::Holder;
use album_stamps::Refusal;
use album_views::{Ask, NewList, NewMembership};
use std::alloc::{AllocError, Global};

/// The part of the ask that is refused so. An ask that is refused for who asks is so as a whole.
pub(crate) fn place_in(alloc: Global, ask: &Ask, refusal: Refusal) -> Result<String, AllocError> {
    match (refusal, ask) {
        (Refusal::BadRequest, Ask::SetLists { lists }) => bad_pair(alloc, lists.as_slice(), &[]),
        (Refusal::BadRequest, Ask::Share { lists, members }) => {
            bad_pair(alloc, lists.as_slice(), members.as_slice())
        }
        (Refusal::BadRequest, ask) => String::from_str(alloc, bad_object(ask)),
        (Refusal::BadFlags, Ask::SetLists { lists }) => bad_list(alloc, lists.as_slice()),
        (Refusal::BadFlags, Ask::Share { lists, .. }) => bad_list(alloc, lists.as_slice()),
        (Refusal::TooManyItems, _) => String::from_str(alloc, "ask.lists"),
        _ => String::from_str(alloc, "ask"),
    }
}

/// The object that an ask of one or two has, and that is of a kind which it doesn't allow.
fn bad_object(ask: &Ask) -> &'static str {
    match ask {
        Ask::Move { object, .. } if is_of(*object, Kind::Picture) => "ask.to",
        Ask::List { .. } | Ask::Children { .. } => "ask.album",
        Ask::AddPicture { .. } | Ask::AddAlbum { .. } | Ask::AddGroup { .. } => "ask.album",
        Ask::Read { .. } | Ask::GetList { .. } | Ask::Head { .. } => "ask.object",
        Ask::Retitle { .. } | Ask::Replace { .. } | Ask::Delete { .. } => "ask.object",
        Ask::Move { .. } | Ask::SetOwner { .. } | Ask::SetMembers { .. } => "ask.object",
        Ask::SetLists { .. } | Ask::Share { .. } => "ask.lists",
    }
}

/// Of lists and memberships the first that is for no object which may have it, or else the first whose object has one
/// before it. Where there is none at all, the lists are missing.
fn bad_pair(
    alloc: Global,
    lists: &[NewList],
    members: &[NewMembership],
) -> Result<String, AllocError> {
    if let Some(index) = lists.iter().position(|new| is_of(new.object, Kind::List)) {
        return format!(in alloc; "ask.lists[{index}].object");
    }
    if let Some(index) = members
        .iter()
        .position(|new| !is_of(new.object, Kind::Group))
    {
        return format!(in alloc; "ask.members[{index}].object");
    }
    if let Some(index) = second_list(lists) {
        return format!(in alloc; "ask.lists[{index}].object");
    }
    match second_membership(members) {
        Some(index) => format!(in alloc; "ask.members[{index}].object"),
        None => String::from_str(alloc, "ask.lists"),
    }
}

/// The first list whose object has one before it.
fn second_list(lists: &[NewList]) -> Option<usize> {
    (0..lists.len()).find(|index| {
        let object = lists[*index].object;
        lists[..*index].iter().any(|other| other.object.is(object))
    })
}

/// The first membership whose group has one before it.
fn second_membership(members: &[NewMembership]) -> Option<usize> {
    (0..members.len()).find(|index| {
        let object = members[*index].object;
        members[..*index]
            .iter()
            .any(|other| other.object.is(object))
    })
}

/// The first list that its object can't carry.
fn bad_list(alloc: Global, lists: &[NewList]) -> Result<String, AllocError> {
    match lists
        .iter()
        .position(|new| !new.list.fits(holder_of(new.object)))
    {
        Some(index) => format!(in alloc; "ask.lists[{index}].entries"),
        None => String::from_str(alloc, "ask.lists"),
    }
}

fn holder_of(object: ItemId) -> Holder {
    if is_of(object, Kind::Album) {
        Holder::Folder
    } else {
        Holder::Plain
    }
}

fn is_of(object: ItemId, kind: Kind) -> bool {
    object.kind().code() == kind.code()
}
