//! What a permit is spent on when its ask writes.
ghost use Rattle.std.specs.Prelude.{◌≡◌, ◌++◌, ◌∷◌, [], None, IfOk, IfErr, OnOk, IsTrue, IsOkUnless, false, not, ◌==◌, count_by, map, if◌then◌else◌};
ghost use Rattle.std.specs.List.{flat_map};
ghost use Rattle.album_stamps.specs.declared.refusals.Refusal.TheVariants.{OutOfMemory, AlbumFull};
ghost use Rattle.album_views.specs.Asks.{is_write};
ghost use Rattle.album_views.specs.Checks.{owner_flaw};
ghost use Rattle.album_views.specs.Seen.{seen};
ghost use Rattle.album_items.specs.ItemIds.{number_of};
ghost use Rattle.album_items.specs.Transactions.{items_written, are_items};
ghost use Rattle.album_permits.specs.Changes.{with_home, with_child};
ghost use Rattle.album_permits.specs.Effects.{written, list_dropped, taken_out, list_written, members_written, effect_of, has_most_others, is_album_full, is_full_for};

use crate::additions::{album_added, album_at, group_added, picture_added, picture_at};
use crate::changes::{
    with_child, with_content, with_home, with_members, with_owner, with_title, without_child,
};
use crate::merging::merged;
use crate::permits::Permit;
use crate::writes::Writes;
use album_eval::Principal;
use album_items::{ItemId, ItemValues, Kind, Value};
use album_listing::ViewLookup;
use album_stamps::{MAX_CHILDREN, Refusal, Refused, Stamp};
use album_views::{Ask, NewList, NewMembership};
use std::alloc::{AllocError, Global};

impl Permit {
    /// Whether the ask writes.
    pub fn writes(&self) -> bool
        ensures { result ≡ is_write self.now.view.ask }
    {
        self.view().ask().is_write()
    }

    /// Spends the permit on what its ask writes at the stamp.
    ///
    /// # Errors
    ///
    /// `AlbumFull` where the album that gets a child has `MAX_CHILDREN` others, and only there; else
    /// `OutOfMemory`. The permit is handed back.
    pub fn effect(self, alloc: Global, stamp: Stamp) -> Result<Writes, Refused<Permit>>
        requires change { IsTrue (is_write self.view.ask) }
        ensures writes { IfOk result (λ writes. writes ≡ record { permit = self; stamp = stamp }) }
        ensures room { IfOk result (λ _. is_full_for self stamp ≡ false) }
        ensures items { IfOk result (λ _. IsTrue (are_items (items_written (effect_of self stamp)))) }
        ensures refused { IfErr result (λ e.
            e.refusal ≡ (if is_full_for self stamp then AlbumFull else OutOfMemory)) }
        ensures given { IfErr result (λ e. e.given ≡ self) }
    {
        if is_full_for(alloc, &self, stamp) {
            return Err(Refused {
                refusal: Refusal::AlbumFull,
                given: self,
            });
        }
        match effect_of(alloc, &self, stamp) {
            Ok(writes) => Ok(Writes::of(self, stamp, writes)),
            Err(refusal) => Err(Refused {
                refusal,
                given: self,
            }),
        }
    }
}

/// Whether the album that gets a child by the permit's ask is full.
fn is_full_for(alloc: Global, permit: &Permit, stamp: Stamp) -> bool
    ensures { result ≡ is_full_for permit.now stamp }
{
    let lookup = ViewLookup::of(alloc, permit.view());
    let full = is_album_full(&lookup, stamp, permit.view().ask());
    drop(lookup);
    full
}

/// Whether the album that gets a child by the ask is full.
fn is_album_full(lookup: &ViewLookup, stamp: Stamp, ask: &Ask) -> bool
    ensures { result ≡ is_album_full (seen lookup.now.view.now.rows) stamp ask.now }
{
    match ask {
        Ask::AddPicture { album, .. } => has_most_others(picture_at(stamp), lookup.value(*album)),
        Ask::AddAlbum { album, .. } => has_most_others(album_at(stamp), lookup.value(*album)),
        Ask::Move { object, to } => has_most_others(*object, lookup.value(*to)),
        Ask::Read { .. } | Ask::List { .. } | Ask::GetList { .. } => false,
        Ask::Head { .. } | Ask::Children { .. } | Ask::AddGroup { .. } => false,
        Ask::Retitle { .. } | Ask::Replace { .. } | Ask::Delete { .. } => false,
        Ask::SetLists { .. } | Ask::SetOwner { .. } | Ask::SetMembers { .. } => false,
        Ask::Share { .. } => false,
    }
}

/// Whether the album has `MAX_CHILDREN` children other than this one.
fn has_most_others(child: ItemId, album: &Value) -> bool
    ensures { result ≡ has_most_others child album.now }
{
    count_of_others(child, album.children()) >= MAX_CHILDREN
}

fn count_of_others(child: ItemId, children: &[ItemId]) -> usize
    ensures { result ≡ count_by (λ other. not (child == other)) children.now }
{
    children.iter().filter(|other| !child.is(**other)).count()
}

/// What the ask of the permit writes at the stamp.
fn effect_of(alloc: Global, permit: &Permit, stamp: Stamp) -> Result<ItemValues, Refusal>
    requires change { IsTrue (is_write permit.now.view.ask) }
    ensures items { IfOk result (λ _. IsTrue (are_items (items_written (effect_of permit.now stamp)))) }
    ensures writes { IfOk result (λ writes. writes ≡ effect_of permit.now stamp) }
    ensures memory { IsOkUnless result Refusal.OutOfMemory }
{
    let writes = merged(alloc, written_by(alloc, permit, stamp)?)?;
    Ok(ItemValues::of(writes))
}

/// What the ask of the permit writes at the stamp, in order; an item may occur twice. Merged, that is what one
/// transaction may write.
#[tactic(auto, using(crate::proofs::Transacting::effect_items))]
fn written_by(alloc: Global, permit: &Permit, stamp: Stamp) -> Result<Vec<(ItemId, Value)>, Refusal>
    requires change { IsTrue (is_write permit.now.view.ask) }
    ensures items { IfOk result (λ _. IsTrue (are_items (items_written (effect_of permit.now stamp)))) }
    ensures writes { IfOk result (λ writes.
        writes.items ≡ written (seen permit.now.view.rows) permit.now.principal stamp permit.now.view.ask) }
    ensures memory { IsOkUnless result Refusal.OutOfMemory }
{
    let lookup = ViewLookup::of(alloc, permit.view());
    let written = written(
        alloc,
        &lookup,
        permit.principal(),
        stamp,
        permit.view().ask(),
    );
    drop(lookup);
    written
}

/// What the ask writes at the stamp, in order; an item may occur twice.
fn written(
    alloc: Global,
    lookup: &ViewLookup,
    principal: &Principal,
    stamp: Stamp,
    ask: &Ask,
) -> Result<Vec<(ItemId, Value)>, Refusal>
    requires owned { owner_flaw ask.now principal.now ≡ None }
    ensures writes { IfOk result (λ writes.
        writes.items ≡ written (seen lookup.now.view.now.rows) principal.now stamp ask.now) }
    ensures memory { IsOkUnless result Refusal.OutOfMemory }
{
    match ask {
        Ask::Read { .. } | Ask::List { .. } | Ask::GetList { .. } => Ok(Vec::new(alloc)),
        Ask::Head { .. } | Ask::Children { .. } => Ok(Vec::new(alloc)),
        Ask::AddPicture {
            album,
            title,
            content,
        } => picture_added(alloc, lookup, principal, stamp, *album, title, content),
        Ask::AddAlbum { album, title } => {
            album_added(alloc, lookup, principal, stamp, *album, title)
        }
        Ask::AddGroup { album, members } => {
            group_added(alloc, lookup, principal, stamp, *album, members)
        }
        Ask::Retitle { object, title } => {
            one(alloc, *object, with_title(lookup.value(*object), title)?)
        }
        Ask::Replace { object, content } => {
            one(
                alloc,
                *object,
                with_content(lookup.value(*object), content)?,
            )
        }
        Ask::Delete { object } => deleted(alloc, lookup, *object),
        Ask::Move { object, to } => moved(alloc, lookup, *object, *to),
        Ask::SetLists { lists } => lists_written(alloc, lookup, lists.as_slice()),
        Ask::SetOwner {
            object,
            owner,
            group,
        } => one(
            alloc,
            *object,
            with_owner(lookup.value(*object), owner, *group)?,
        ),
        Ask::SetMembers { object, members } => {
            one(
                alloc,
                *object,
                with_members(lookup.value(*object), members)?,
            )
        }
        Ask::Share { lists, members } => {
            shared(alloc, lookup, lists.as_slice(), members.as_slice())
        }
    }
}

/// The item with its value, and no other.
fn one(alloc: Global, item: ItemId, value: Value) -> Result<Vec<(ItemId, Value)>, Refusal>
    ensures write { IfOk result (λ writes. writes.items ≡ (item, value) ∷ []) }
    ensures memory { IsOkUnless result Refusal.OutOfMemory }
{
    Ok(vec![in alloc; (item, value)]?)
}

/// The picture and its list are no more, and its home has it no more.
fn deleted(
    alloc: Global,
    lookup: &ViewLookup,
    picture: ItemId,
) -> Result<Vec<(ItemId, Value)>, Refusal>
    ensures writes { IfOk result (λ writes. writes.items ≡ (picture, Value.Missing)
        ∷ (list_dropped (seen lookup.now.view.now.rows) picture ++ taken_out (seen lookup.now.view.now.rows) picture)) }
    ensures memory { IsOkUnless result Refusal.OutOfMemory }
{
    let mut writes = one(alloc, picture, Value::Missing)?;
    add_list_dropped(&mut writes, lookup, picture)?;
    add_taken_out(alloc, &mut writes, lookup, picture)?;
    Ok(writes)
}

/// The picture has another home, that it had has it no more, and the new one has it last.
fn moved(
    alloc: Global,
    lookup: &ViewLookup,
    picture: ItemId,
    to: ItemId,
) -> Result<Vec<(ItemId, Value)>, Refusal>
    ensures writes { IfOk result (λ writes.
        writes.items ≡ (picture, with_home (number_of to) (seen lookup.now.view.now.rows picture))
        ∷ (taken_out (seen lookup.now.view.now.rows) picture
        ++ (to, with_child picture (seen lookup.now.view.now.rows to)) ∷ [])) }
    ensures memory { IsOkUnless result Refusal.OutOfMemory }
{
    let mut writes = one(
        alloc,
        picture,
        with_home(lookup.value(picture), to.number())?,
    )?;
    add_taken_out(alloc, &mut writes, lookup, picture)?;
    writes.push((to, with_child(alloc, lookup.value(to), picture)?))?;
    Ok(writes)
}

/// Adds that the list of the item is no more.
fn add_list_dropped(
    writes: &mut Vec<(ItemId, Value)>,
    lookup: &ViewLookup,
    item: ItemId,
) -> Result<(), AllocError>
    ensures { OnOk result (writes.new.items
        ≡ writes.old.items ++ list_dropped (seen lookup.now.view.now.rows) item) }
{
    if let Some(head) = lookup.value(item).head() {
        writes.push((ItemId::new(Kind::List, head.list), Value::Missing))?;
    }
    Ok(())
}

/// Adds that the home of the picture has it no more.
fn add_taken_out(
    alloc: Global,
    writes: &mut Vec<(ItemId, Value)>,
    lookup: &ViewLookup,
    picture: ItemId,
) -> Result<(), Refusal>
    ensures write { OnOk result (writes.new.items
        ≡ writes.old.items ++ taken_out (seen lookup.now.view.now.rows) picture) }
    ensures memory { IsOkUnless result Refusal.OutOfMemory }
{
    if let Some(home) = lookup.value(picture).home() {
        let value = without_child(alloc, lookup.value(home), picture)?;
        writes.push((home, value))?;
    }
    Ok(())
}

/// Each of the lists, as the value of the item that the head of its object names.
fn lists_written(
    alloc: Global,
    lookup: &ViewLookup,
    lists: &[NewList],
) -> Result<Vec<(ItemId, Value)>, Refusal>
    ensures writes { IfOk result (λ writes.
        writes.items ≡ flat_map (list_written (seen lookup.now.view.now.rows)) lists.now) }
    ensures memory { IsOkUnless result Refusal.OutOfMemory }
{
    let mut writes = Vec::new(alloc);
    for new in lists {
        add_list(&mut writes, lookup, new)?;
    }
    Ok(writes)
}

fn add_list(
    writes: &mut Vec<(ItemId, Value)>,
    lookup: &ViewLookup,
    new: &NewList,
) -> Result<(), Refusal>
    ensures write { OnOk result (writes.new.items
        ≡ writes.old.items ++ list_written (seen lookup.now.view.now.rows) new.now) }
    ensures memory { IsOkUnless result Refusal.OutOfMemory }
{
    if let Some(head) = lookup.value(new.object).head() {
        let list = new.list.copy()?;
        writes.push((ItemId::new(Kind::List, head.list), Value::List(list)))?;
    }
    Ok(())
}

/// Each of the lists, and then each of the groups with its members.
fn shared(
    alloc: Global,
    lookup: &ViewLookup,
    lists: &[NewList],
    members: &[NewMembership],
) -> Result<Vec<(ItemId, Value)>, Refusal>
    ensures writes { IfOk result (λ writes.
        writes.items ≡ flat_map (list_written (seen lookup.now.view.now.rows)) lists.now
        ++ map (members_written (seen lookup.now.view.now.rows)) members.now) }
    ensures memory { IsOkUnless result Refusal.OutOfMemory }
{
    let mut writes = lists_written(alloc, lookup, lists)?;
    add_members(&mut writes, lookup, members)?;
    Ok(writes)
}

/// Adds each of the groups with its members.
fn add_members(
    writes: &mut Vec<(ItemId, Value)>,
    lookup: &ViewLookup,
    members: &[NewMembership],
) -> Result<(), Refusal>
    ensures writes { OnOk result (writes.new.items
        ≡ writes.old.items ++ map (members_written (seen lookup.now.view.now.rows)) members.now) }
    ensures memory { IsOkUnless result Refusal.OutOfMemory }
{
    for new in members {
        let value = with_members(lookup.value(new.object), &new.members)?;
        writes.push((new.object, value))?;
    }
    Ok(())
}
