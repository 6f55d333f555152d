//! New objects in an album.
ghost use Rattle.std.specs.Prelude.{◌≡◌, ◌∷◌, [], Some, IfOk, IsOkUnless, IsTrue};
ghost use Rattle.album_lists.specs.declared.lists.Holder.TheVariants.{Plain, Folder};
ghost use Rattle.album_eval.specs.Matching.{is_known};
ghost use Rattle.album_items.specs.ItemIds.{picture, album, list, group, number_of};
ghost use Rattle.album_views.specs.Seen.{seen};
ghost use Rattle.album_permits.specs.Changes.{with_child};
ghost use Rattle.album_permits.specs.Effects.{head_group_seen, new_head, heritage, owners_entry, owners_list};

use crate::changes::with_child;
use album_access::{AceFlags, AceType, Mask};
use album_eval::Principal;
use album_items::{
    Album, Content, Group, Head, ItemId, Items, Kind, Members, Picture, Title, Value,
};
use album_listing::ViewLookup;
use album_lists::{AccessList, Ace, Holder, Who};
use album_stamps::{Refusal, Stamp};
use bitflags::Flags;
use std::alloc::Global;

/// A new picture of this title and content in the album, with its list; and the album with it.
pub(crate) fn picture_added(
    alloc: Global,
    lookup: &ViewLookup,
    principal: &Principal,
    stamp: Stamp,
    into: ItemId,
    title: &Title,
    content: &Content,
) -> Result<Vec<(ItemId, Value)>, Refusal>
    requires known { IsTrue (is_known principal.now) }
    ensures writes { IfOk result (λ writes. writes.items ≡ (
      picture stamp,
      Value.Picture (record {
        title = title.now;
        content = content.now;
        head = new_head (seen lookup.now.view.now.rows) principal.now stamp into;
        home = number_of into;
      }),
    )
        ∷ (list stamp, Value.List (heritage (seen lookup.now.view.now.rows) Plain into))
        ∷ (into, with_child (picture stamp) (seen lookup.now.view.now.rows into))
        ∷ []) }
    ensures memory { IsOkUnless result Refusal.OutOfMemory }
{
    let picture = new_picture(lookup, principal, stamp, into, title, content)?;
    let child = (picture_at(stamp), Value::Picture(picture));
    added(alloc, lookup, stamp, into, Holder::Plain, child)
}

fn new_picture(
    lookup: &ViewLookup,
    principal: &Principal,
    stamp: Stamp,
    into: ItemId,
    title: &Title,
    content: &Content,
) -> Result<Picture, Refusal>
    requires known { IsTrue (is_known principal.now) }
    ensures picture { IfOk result (λ picture. picture ≡ record {
      title = title.now;
      content = content.now;
      head = new_head (seen lookup.now.view.now.rows) principal.now stamp into;
      home = number_of into;
    }) }
    ensures memory { IsOkUnless result Refusal.OutOfMemory }
{
    let head = new_head(lookup, principal, stamp, into)?;
    let title = title.copy()?;
    match content.copy() {
        Ok(content) => Ok(Picture {
            title,
            content,
            head,
            home: into.number(),
        }),
        Err(refusal) => {
            drop(title);
            drop(head);
            Err(refusal)
        }
    }
}

/// A new album of this title in the album, with its list; and the album with it.
pub(crate) fn album_added(
    alloc: Global,
    lookup: &ViewLookup,
    principal: &Principal,
    stamp: Stamp,
    into: ItemId,
    title: &Title,
) -> Result<Vec<(ItemId, Value)>, Refusal>
    requires known { IsTrue (is_known principal.now) }
    ensures writes { IfOk result (λ writes. writes.items ≡ (
      album stamp,
      Value.Album (record {
        title = title.now;
        head = new_head (seen lookup.now.view.now.rows) principal.now stamp into;
        home = Some (number_of into);
        children = [];
      }),
    )
        ∷ (list stamp, Value.List (heritage (seen lookup.now.view.now.rows) Folder into))
        ∷ (into, with_child (album stamp) (seen lookup.now.view.now.rows into))
        ∷ []) }
    ensures memory { IsOkUnless result Refusal.OutOfMemory }
{
    let inner = new_album(alloc, lookup, principal, stamp, into, title)?;
    let child = (album_at(stamp), Value::Album(inner));
    added(alloc, lookup, stamp, into, Holder::Folder, child)
}

fn new_album(
    alloc: Global,
    lookup: &ViewLookup,
    principal: &Principal,
    stamp: Stamp,
    into: ItemId,
    title: &Title,
) -> Result<Album, Refusal>
    requires known { IsTrue (is_known principal.now) }
    ensures album { IfOk result (λ album. album ≡ record {
      title = title.now;
      head = new_head (seen lookup.now.view.now.rows) principal.now stamp into;
      home = Some (number_of into);
      children = [];
    }) }
    ensures memory { IsOkUnless result Refusal.OutOfMemory }
{
    Ok(Album {
        title: title.copy()?,
        head: new_head(lookup, principal, stamp, into)?,
        home: Some(into.number()),
        children: Items::of(Vec::new(alloc)),
    })
}

/// A new group of these members, for the album, with a list by which its owner alone has rights.
pub(crate) fn group_added(
    alloc: Global,
    lookup: &ViewLookup,
    principal: &Principal,
    stamp: Stamp,
    into: ItemId,
    members: &Members,
) -> Result<Vec<(ItemId, Value)>, Refusal>
    requires known { IsTrue (is_known principal.now) }
    ensures writes { IfOk result (λ writes. writes.items ≡ (
      group stamp,
      Value.Group (record {
        head = new_head (seen lookup.now.view.now.rows) principal.now stamp into;
        members = members.now;
      }),
    )
        ∷ (list stamp, Value.List owners_list)
        ∷ []) }
    ensures memory { IsOkUnless result Refusal.OutOfMemory }
{
    let group = new_group(lookup, principal, stamp, into, members)?;
    let item = ItemId::new(Kind::Group, stamp.value());
    let mut writes = vec![in alloc; (item, Value::Group(group))]?;
    writes.push((list_at(stamp), Value::List(owners_list(alloc)?)))?;
    Ok(writes)
}

fn new_group(
    lookup: &ViewLookup,
    principal: &Principal,
    stamp: Stamp,
    into: ItemId,
    members: &Members,
) -> Result<Group, Refusal>
    requires known { IsTrue (is_known principal.now) }
    ensures group { IfOk result (λ group. group ≡ record {
      head = new_head (seen lookup.now.view.now.rows) principal.now stamp into;
      members = members.now;
    }) }
    ensures memory { IsOkUnless result Refusal.OutOfMemory }
{
    Ok(Group {
        head: new_head(lookup, principal, stamp, into)?,
        members: members.clone()?,
    })
}

/// All rights for the owner, and none for anybody else.
fn owners_list(alloc: Global) -> Result<AccessList, Refusal>
    ensures list { IfOk result (λ list. list ≡ owners_list) }
    ensures memory { IsOkUnless result Refusal.OutOfMemory }
{
    match AccessList::new(vec![in alloc; owners_entry()]?) {
        Ok(list) => Ok(list),
        // One entry that a line can spell is a list.
        Err(_) => unreachable!(),
    }
}

fn owners_entry() -> Ace
    ensures { result ≡ owners_entry }
{
    Ace {
        sort: AceType::Allowed,
        who: Who::Owner,
        mask: Mask::all(),
        flags: AceFlags::empty(),
    }
}

/// A new child with its list, and the album with it.
fn added(
    alloc: Global,
    lookup: &ViewLookup,
    stamp: Stamp,
    into: ItemId,
    holder: Holder,
    child: (ItemId, Value),
) -> Result<Vec<(ItemId, Value)>, Refusal>
    ensures writes { IfOk result (λ writes. writes.items ≡ child
        ∷ (list stamp, Value.List (heritage (seen lookup.now.view.now.rows) holder into))
        ∷ (into, with_child child.0 (seen lookup.now.view.now.rows into))
        ∷ []) }
    ensures memory { IsOkUnless result Refusal.OutOfMemory }
{
    let item = child.0;
    let mut writes = vec![in alloc; child]?;
    let list = heritage(alloc, lookup, holder, into)?;
    writes.push((list_at(stamp), Value::List(list)))?;
    let album = with_child(alloc, lookup.value(into), item)?;
    writes.push((into, album))?;
    Ok(writes)
}

/// A new picture has the stamp's number.
pub(crate) fn picture_at(stamp: Stamp) -> ItemId
    ensures { result ≡ picture stamp }
{
    ItemId::new(Kind::Picture, stamp.value())
}

/// A new album has the stamp's number.
pub(crate) fn album_at(stamp: Stamp) -> ItemId
    ensures { result ≡ album stamp }
{
    ItemId::new(Kind::Album, stamp.value())
}

/// The list of a new object has the stamp's number.
fn list_at(stamp: Stamp) -> ItemId
    ensures { result ≡ list stamp }
{
    ItemId::new(Kind::List, stamp.value())
}

/// A new object in the album is the principal's, in the album's head group.
fn new_head(
    lookup: &ViewLookup,
    principal: &Principal,
    stamp: Stamp,
    into: ItemId,
) -> Result<Head, Refusal>
    requires known { IsTrue (is_known principal.now) }
    ensures head { IfOk result (λ head.
        head ≡ new_head (seen lookup.now.view.now.rows) principal.now stamp into) }
    ensures memory { IsOkUnless result Refusal.OutOfMemory }
{
    match principal {
        Principal::User(name) | Principal::Root(name) => Ok(Head {
            owner: name.copy()?,
            group: head_group_seen(lookup, into),
            list: stamp.value(),
        }),
        // The check of an ask that adds an object refuses a principal without a name.
        Principal::Anonymous => unreachable!(),
    }
}

/// The head group of the item.
fn head_group_seen(lookup: &ViewLookup, item: ItemId) -> u64
    ensures { result ≡ head_group_seen (seen lookup.now.view.now.rows) item }
{
    match lookup.value(item).head() {
        Some(head) => head.group,
        None => 0,
    }
}

/// What a new object inherits of the list of the album.
fn heritage(
    alloc: Global,
    lookup: &ViewLookup,
    holder: Holder,
    into: ItemId,
) -> Result<AccessList, Refusal>
    ensures list { IfOk result (λ list. list ≡ heritage (seen lookup.now.view.now.rows) holder into) }
    ensures memory { IsOkUnless result Refusal.OutOfMemory }
{
    lookup.list_of(into).inherit(alloc, holder)
}
