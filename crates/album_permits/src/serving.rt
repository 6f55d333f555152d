//! What a granted ask is served that writes nothing.
ghost use Rattle.std.specs.Prelude.{◌≡◌, IfOk, IfErr, IsOkUnless, IsTrue, false};
ghost use Rattle.album_items.specs.Values.{members_of};
ghost use Rattle.album_views.specs.Asks.{is_list, is_write};
ghost use Rattle.album_views.specs.Seen.{seen};
ghost use Rattle.album_views.specs.declared.asks.Ask.TheVariants as Ask;
ghost use Rattle.album_listing.specs.ViewLookups.{entries_named};
ghost use Rattle.album_permits.specs.Serving.{read_of, IsServed, IsServedFor};

use crate::attributes::{Attributes, attributes_of};
use crate::permits::Permit;
use album_items::{Content, ItemId, Items, Members, Title, Value};
use album_listing::{Rows, ViewLookup, list_with};
use album_lists::AccessList;
use album_stamps::{Refusal, Refused, Stamp};
use album_views::Ask;
use std::alloc::Global;

/// What is served.
#[derive(Debug, Drop)]
pub enum Served {
    Picture {
        object: ItemId,
        stamp: Stamp,
        title: Title,
        content: Content,
    },
    Group {
        object: ItemId,
        stamp: Stamp,
        members: Members,
    },
    /// The object's list, with its stamp.
    Entries {
        object: ItemId,
        /// The item of that list.
        of: ItemId,
        stamp: Stamp,
        list: AccessList,
    },
    Listed {
        album: ItemId,
        stamp: Stamp,
        rows: Rows,
    },
    /// Whose the object is and what it is called.
    Head {
        object: ItemId,
        stamp: Stamp,
        attributes: Attributes,
    },
    /// All children of the album, in order.
    Children {
        album: ItemId,
        stamp: Stamp,
        children: Items,
    },
}

impl Permit {
    /// Spends the permit on what its ask is served.
    ///
    /// # Errors
    ///
    /// `OutOfMemory`, with the permit handed back.
    pub fn serve(self, alloc: Global) -> Result<Served, Refused<Permit>>
        requires { is_write self.view.ask ≡ false }
        ensures served { IfOk result (IsServed self) }
        ensures memory { IfErr result (λ e. e.refusal ≡ Refusal.OutOfMemory) }
        ensures given { IfErr result (λ e. e.given ≡ self) }
    {
        match serve_ask(alloc, &self) {
            Ok(served) => {
                drop(self.give_back());
                Ok(served)
            }
            Err(refusal) => Err(Refused {
                refusal,
                given: self,
            }),
        }
    }
}

/// What the ask of the permit is served.
fn serve_ask(alloc: Global, permit: &Permit) -> Result<Served, Refusal>
    requires { is_write permit.now.view.ask ≡ false }
    ensures served { IfOk result (IsServed permit.now) }
    ensures memory { IsOkUnless result Refusal.OutOfMemory }
{
    match permit.view().ask() {
        Ask::Read { object } => object_served(alloc, permit, *object),
        Ask::List { album } => rows_served(alloc, permit, *album),
        Ask::GetList { object } => list_served(alloc, permit, *object),
        Ask::Head { object } => head_served(alloc, permit, *object),
        Ask::Children { album } => children_served(alloc, permit, *album),
        // The ask of a permit that is served writes nothing, and these write.
        Ask::AddPicture { .. } | Ask::AddAlbum { .. } | Ask::AddGroup { .. } => unreachable!(),
        Ask::Retitle { .. } | Ask::Replace { .. } => unreachable!(),
        Ask::Delete { .. } | Ask::Move { .. } => unreachable!(),
        Ask::SetLists { .. } | Ask::SetOwner { .. } | Ask::SetMembers { .. } => unreachable!(),
        Ask::Share { .. } => unreachable!(),
    }
}

/// The object as the permit's view has it.
fn object_served(alloc: Global, permit: &Permit, object: ItemId) -> Result<Served, Refusal>
    ensures served { IfOk result (λ served. IsServedFor permit.now served (Ask.Read object)) }
    ensures memory { IsOkUnless result Refusal.OutOfMemory }
{
    let lookup = ViewLookup::of(alloc, permit.view());
    let served = read(alloc, object, lookup.stamp(object), lookup.value(object));
    drop(lookup);
    served
}

/// The rows of the permit's listing, with the album's stamp.
fn rows_served(alloc: Global, permit: &Permit, album: ItemId) -> Result<Served, Refusal>
    requires { IsTrue (is_list permit.now.view.ask) }
    ensures served { IfOk result (λ served. IsServedFor permit.now served (Ask.List album)) }
    ensures memory { IsOkUnless result Refusal.OutOfMemory }
{
    let lookup = ViewLookup::of(alloc, permit.view());
    let stamp = lookup.stamp(album);
    drop(lookup);
    let rows = list_with(alloc, permit.view(), permit.principal(), permit.groups())?;
    Ok(Served::Listed { album, stamp, rows })
}

/// The attributes of the object.
fn head_served(alloc: Global, permit: &Permit, object: ItemId) -> Result<Served, Refusal>
    ensures served { IfOk result (λ served. IsServedFor permit.now served (Ask.Head object)) }
    ensures memory { IsOkUnless result Refusal.OutOfMemory }
{
    let lookup = ViewLookup::of(alloc, permit.view());
    let stamp = lookup.stamp(object);
    let attributes = attributes_of(lookup.value(object));
    drop(lookup);
    Ok(Served::Head {
        object,
        stamp,
        attributes: attributes?,
    })
}

/// The children of the album.
fn children_served(alloc: Global, permit: &Permit, album: ItemId) -> Result<Served, Refusal>
    ensures served { IfOk result (λ served. IsServedFor permit.now served (Ask.Children album)) }
    ensures memory { IsOkUnless result Refusal.OutOfMemory }
{
    let lookup = ViewLookup::of(alloc, permit.view());
    let stamp = lookup.stamp(album);
    let children = Vec::from_slice(alloc, lookup.value(album).children());
    drop(lookup);
    Ok(Served::Children {
        album,
        stamp,
        children: Items::of(children?),
    })
}

/// The list of the object, with its own stamp.
fn list_served(alloc: Global, permit: &Permit, object: ItemId) -> Result<Served, Refusal>
    ensures served { IfOk result (λ served. IsServedFor permit.now served (Ask.GetList object)) }
    ensures memory { IsOkUnless result Refusal.OutOfMemory }
{
    let lookup = ViewLookup::of(alloc, permit.view());
    let of = lookup.list_named(object);
    let stamp = lookup.stamp_of_list(object);
    drop(lookup);
    let list = list_of(alloc, permit, object)?;
    Ok(Served::Entries {
        object,
        of,
        stamp,
        list,
    })
}

/// The list of the object.
fn list_of(alloc: Global, permit: &Permit, object: ItemId) -> Result<AccessList, Refusal>
    ensures list { IfOk result (λ list. list ≡ entries_named (seen permit.now.view.rows) object) }
    ensures memory { IsOkUnless result Refusal.OutOfMemory }
{
    let lookup = ViewLookup::of(alloc, permit.view());
    let list = lookup.list_of(object).copy();
    drop(lookup);
    list
}

/// The title and the content of a picture, or the members of a group.
fn read(alloc: Global, object: ItemId, stamp: Stamp, value: &Value) -> Result<Served, Refusal>
    ensures served { IfOk result (λ served. served ≡ read_of object stamp value.now) }
    ensures memory { IsOkUnless result Refusal.OutOfMemory }
{
    match value {
        Value::Picture(picture) => Ok(Served::Picture {
            object,
            stamp,
            title: picture.title.copy()?,
            content: picture.content.copy()?,
        }),
        Value::Group(group) => Ok(Served::Group {
            object,
            stamp,
            members: group.members.clone()?,
        }),
        Value::Missing | Value::Album(_) | Value::List(_) => Ok(Served::Group {
            object,
            stamp,
            members: Members::of(Vec::new(alloc)),
        }),
    }
}
