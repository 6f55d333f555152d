//! Values with one thing changed.
ghost use Rattle.std.specs.Prelude.{◌≡◌, ◌++◌, ◌∷◌, [], IfOk, OnOk, IsOkUnless};
ghost use Rattle.album_permits.specs.Changes.{with_title, with_content, with_home, owned, with_owner, with_members, with_children, others, without_child, with_child};

use album_items::{Content, Head, ItemId, Items, Members, Title, Value};
use album_lists::Name;
use album_stamps::Refusal;
use std::alloc::{AllocError, Global};

/// The value with another title.
pub(crate) fn with_title(value: &Value, title: &Title) -> Result<Value, Refusal>
    ensures value { IfOk result (λ new. new ≡ with_title title.now value.now) }
    ensures memory { IsOkUnless result Refusal.OutOfMemory }
{
    let mut new = value.copy()?;
    match set_title(&mut new, title) {
        Ok(()) => Ok(new),
        Err(refusal) => {
            drop(new);
            Err(refusal)
        }
    }
}

/// The value gets another title.
fn set_title(value: &mut Value, title: &Title) -> Result<(), Refusal>
    ensures value { OnOk result (value.new ≡ with_title title.now value.old) }
    ensures memory { IsOkUnless result Refusal.OutOfMemory }
{
    match value {
        Value::Picture(picture) => picture.title = title.copy()?,
        Value::Album(album) => album.title = title.copy()?,
        Value::Missing | Value::List(_) | Value::Group(_) => {}
    }
    Ok(())
}

/// The picture with another content.
pub(crate) fn with_content(value: &Value, content: &Content) -> Result<Value, Refusal>
    ensures value { IfOk result (λ new. new ≡ with_content content.now value.now) }
    ensures memory { IsOkUnless result Refusal.OutOfMemory }
{
    match value {
        Value::Picture(picture) => {
            let mut picture = picture.clone()?;
            picture.content = content.copy()?;
            Ok(Value::Picture(picture))
        }
        Value::Missing | Value::Album(_) | Value::List(_) | Value::Group(_) => value.copy(),
    }
}

/// The picture with the album of this number as its home.
pub(crate) fn with_home(value: &Value, home: u64) -> Result<Value, Refusal>
    ensures value { IfOk result (λ new. new ≡ with_home home value.now) }
    ensures memory { IsOkUnless result Refusal.OutOfMemory }
{
    match value {
        Value::Picture(picture) => {
            let mut picture = picture.clone()?;
            picture.home = home;
            Ok(Value::Picture(picture))
        }
        Value::Missing | Value::Album(_) | Value::List(_) | Value::Group(_) => value.copy(),
    }
}

/// The value with another owner and another head group.
pub(crate) fn with_owner(value: &Value, owner: &Name, group: u64) -> Result<Value, Refusal>
    ensures value { IfOk result (λ new. new ≡ with_owner owner.now group value.now) }
    ensures memory { IsOkUnless result Refusal.OutOfMemory }
{
    let mut new = value.copy()?;
    match set_owner(&mut new, owner, group) {
        Ok(()) => Ok(new),
        Err(refusal) => {
            drop(new);
            Err(refusal)
        }
    }
}

/// The value gets another owner and another head group.
fn set_owner(value: &mut Value, owner: &Name, group: u64) -> Result<(), Refusal>
    ensures value { OnOk result (value.new ≡ with_owner owner.now group value.old) }
    ensures memory { IsOkUnless result Refusal.OutOfMemory }
{
    match value {
        Value::Picture(picture) => picture.head = owned(&picture.head, owner, group)?,
        Value::Album(album) => album.head = owned(&album.head, owner, group)?,
        Value::Group(other) => other.head = owned(&other.head, owner, group)?,
        Value::Missing | Value::List(_) => {}
    }
    Ok(())
}

/// The head with another owner and another group.
fn owned(head: &Head, owner: &Name, group: u64) -> Result<Head, Refusal>
    ensures head { IfOk result (λ new. new ≡ owned owner.now group head.now) }
    ensures memory { IsOkUnless result Refusal.OutOfMemory }
{
    Ok(Head {
        owner: owner.copy()?,
        group,
        list: head.list,
    })
}

/// The group with other members.
pub(crate) fn with_members(value: &Value, members: &Members) -> Result<Value, Refusal>
    ensures value { IfOk result (λ new. new ≡ with_members members.now value.now) }
    ensures memory { IsOkUnless result Refusal.OutOfMemory }
{
    match value {
        Value::Group(group) => {
            let mut group = group.clone()?;
            group.members = members.clone()?;
            Ok(Value::Group(group))
        }
        Value::Missing | Value::Picture(_) | Value::Album(_) | Value::List(_) => value.copy(),
    }
}

/// The album without the child.
pub(crate) fn without_child(alloc: Global, value: &Value, child: ItemId) -> Result<Value, Refusal>
    ensures value { IfOk result (λ new. new ≡ without_child child value.now) }
    ensures memory { IsOkUnless result Refusal.OutOfMemory }
{
    let children = others(alloc, child, value.children())?;
    with_children(value, children)
}

/// The album with the child, as its last.
pub(crate) fn with_child(alloc: Global, value: &Value, child: ItemId) -> Result<Value, Refusal>
    ensures value { IfOk result (λ new. new ≡ with_child child value.now) }
    ensures memory { IsOkUnless result Refusal.OutOfMemory }
{
    let mut children = others(alloc, child, value.children())?;
    children.push(child)?;
    with_children(value, children)
}

/// The album with other children.
fn with_children(value: &Value, children: Vec<ItemId>) -> Result<Value, Refusal>
    ensures value { IfOk result (λ new. new ≡ with_children children.items value.now) }
    ensures memory { IsOkUnless result Refusal.OutOfMemory }
{
    match value {
        Value::Album(album) => {
            let mut album = album.clone()?;
            album.children = Items::of(children);
            Ok(Value::Album(album))
        }
        Value::Missing | Value::Picture(_) | Value::List(_) | Value::Group(_) => value.copy(),
    }
}

/// The children but this one.
fn others(alloc: Global, child: ItemId, children: &[ItemId]) -> Result<Vec<ItemId>, AllocError>
    ensures { IfOk result (λ kept. kept.items ≡ others child children.now) }
{
    children
        .iter()
        .copied()
        .filter(|other| !child.is(*other))
        .collect(alloc)
}
