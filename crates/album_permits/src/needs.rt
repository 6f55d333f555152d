//! What an ask needs.
ghost use Rattle.std.specs.Prelude.{◌≡◌, [], ◌∷◌, ◌++◌, map, IfOk, OnOk};
ghost use Rattle.album_listing.specs.Masks.{WRITE_ACL, WRITE_DATA};
ghost use Rattle.album_views.specs.Seen.{seen};
ghost use Rattle.album_permits.specs.Needs.{just, deletion, needs_of};

use album_access::Mask;
use album_items::ItemId;
use album_listing::{Alternative, ViewLookup};
use album_views::{Ask, NewList, NewMembership};
use std::alloc::{AllocError, Global};
use std::marker::Model;

/// Alternatives: one of them has to be granted. Contracts see them in order.
#[derive(Debug, Drop)]
pub(crate) struct Need {
    alternatives: Vec<Alternative>,
}

impl Model for Need {
    ghost use Rattle.std.specs.Prelude.{List};
    ghost use Rattle.album_listing.specs.declared.reasons.Alternative.{Alternative};

    ghost Value = { List Alternative };

    ghost view = { λ n. n.alternatives.items };
}

impl Need {
    /// The alternatives, in order.
    pub(crate) fn as_slice(&self) -> &[Alternative]
        ensures { result.now ≡ self.now }
    {
        self.alternatives.as_slice()
    }
}

/// What the ask needs, in order. Each alternative of a need is a bit of an object's mask (RFC 7530, section
/// 6.2.1.3.1). Where the bit has another name for an album, that name is written above it.
pub(crate) fn needs(alloc: Global, lookup: &ViewLookup, ask: &Ask) -> Result<Vec<Need>, AllocError>
    ensures { IfOk result (λ needs. needs.items ≡ needs_of (seen lookup.now.view.now.rows) ask.now) }
{
    match ask {
        Ask::Read { object } => one(alloc, *object, Mask::READ_DATA),
        // LIST_DIRECTORY
        Ask::List { album } => one(alloc, *album, Mask::READ_DATA),
        Ask::GetList { object } => one(alloc, *object, Mask::READ_ACL),
        Ask::Head { object } => one(alloc, *object, Mask::READ_ATTRIBUTES),
        // LIST_DIRECTORY
        Ask::Children { album } => one(alloc, *album, Mask::READ_DATA),
        // ADD_FILE
        Ask::AddPicture { album, .. } => one(alloc, *album, Mask::WRITE_DATA),
        // ADD_SUBDIRECTORY
        Ask::AddAlbum { album, .. } => one(alloc, *album, Mask::APPEND_DATA),
        // Who may set the album's list may make a group for it.
        Ask::AddGroup { album, .. } => one(alloc, *album, Mask::WRITE_ACL),
        Ask::Retitle { object, .. } => one(alloc, *object, Mask::WRITE_ATTRIBUTES),
        Ask::Replace { object, .. } => one(alloc, *object, Mask::WRITE_DATA),
        Ask::Delete { object } => Ok(vec![in alloc; deletion(alloc, lookup, *object)?]?),
        Ask::Move { object, to } => {
            let deletion = deletion(alloc, lookup, *object)?;
            // ADD_FILE
            let addition = just(alloc, *to, Mask::WRITE_DATA)?;
            Ok(vec![in alloc; deletion, addition]?)
        }
        Ask::SetLists { lists } => each_list(alloc, lists.as_slice()),
        Ask::SetOwner { object, .. } => one(alloc, *object, Mask::WRITE_OWNER),
        Ask::SetMembers { object, .. } => one(alloc, *object, Mask::WRITE_DATA),
        Ask::Share { lists, members } => {
            let mut needs = each_list(alloc, lists.as_slice())?;
            add_each_group(alloc, &mut needs, members.as_slice())?;
            Ok(needs)
        }
    }
}

/// This need, and no other.
fn one(alloc: Global, object: ItemId, mask: Mask) -> Result<Vec<Need>, AllocError>
    ensures { IfOk result (λ needs. needs.items ≡ just object mask ∷ []) }
{
    Ok(vec![in alloc; just(alloc, object, mask)?]?)
}

/// A need that has one alternative.
fn just(alloc: Global, object: ItemId, mask: Mask) -> Result<Need, AllocError>
    ensures { IfOk result (λ need. need ≡ just object mask) }
{
    let alternatives = vec![in alloc; Alternative { object, mask }]?;
    Ok(Need { alternatives })
}

/// DELETE on the picture, or DELETE_CHILD on its home.
fn deletion(alloc: Global, lookup: &ViewLookup, picture: ItemId) -> Result<Need, AllocError>
    ensures { IfOk result (λ need. need ≡ deletion (seen lookup.now.view.now.rows) picture) }
{
    let itself = Alternative {
        object: picture,
        mask: Mask::DELETE,
    };
    match lookup.value(picture).home() {
        Some(home) => {
            let from_home = Alternative {
                object: home,
                mask: Mask::DELETE_CHILD,
            };
            let alternatives = vec![in alloc; itself, from_home]?;
            Ok(Need { alternatives })
        }
        // The picture is missing.
        None => {
            let alternatives = vec![in alloc; itself]?;
            Ok(Need { alternatives })
        }
    }
}

/// WRITE_ACL on each of the objects.
fn each_list(alloc: Global, lists: &[NewList]) -> Result<Vec<Need>, AllocError>
    ensures { IfOk result (λ needs. needs.items ≡ map (λ new. just new.object WRITE_ACL) lists.now) }
{
    let mut needs = Vec::new(alloc);
    for new in lists {
        needs.push(just(alloc, new.object, Mask::WRITE_ACL)?)?;
    }
    Ok(needs)
}

/// Adds WRITE_DATA on each of the groups.
fn add_each_group(
    alloc: Global,
    needs: &mut Vec<Need>,
    members: &[NewMembership],
) -> Result<(), AllocError>
    ensures { OnOk result (needs.new.items
        ≡ needs.old.items ++ map (λ new. just new.object WRITE_DATA) members.now) }
{
    for new in members {
        needs.push(just(alloc, new.object, Mask::WRITE_DATA)?)?;
    }
    Ok(())
}
