//! Which values have a line that is read back as what they are. Most of that their types say, and it is gathered here,
//! part by part; the rest is tested.
ghost use Rattle.std.specs.Prelude.{◌≡◌, All, IsTrue, length, nat_le};
ghost use Rattle.std.specs.List.{list_all};
ghost use Rattle.hex.specs.Hex.{IsBytes};
ghost use Rattle.album_wire.specs.ItemShapes.{may_be_child};
ghost use Rattle.album_wire.specs.Spellable.{IsSpellableItem, IsSpellableTitle, IsSpellableContent, IsSpellableWho, IsSpellableMember, IsSpellableHome, IsSpellableHead, IsSpellablePicture, IsSpellableAlbum, IsSpellableList, IsSpellableGroup, IsSpellable, IsSpellableRoot, IsSpellableLine, IsSpellableWrite, IsSpellableMark, is_spellable, is_spellable_write};

use crate::item_shapes::may_be_child;
use crate::opening_line::OpeningLine;
use crate::opening_shape::Header;
use album_items::{Album, Content, Group, Head, ItemId, Picture, Title, Value};
use album_lists::{AccessList, Ace, Member, Name, Who};
use album_stamps::{MAX_MEMBERS, Stamp};

/// Whether the value has a text in an opening that is read back: the value is there, the children of an
/// album are pictures and albums, and a group has at most `MAX_MEMBERS` members.
pub fn is_spellable(value: &Value) -> bool
    ensures test { result ≡ is_spellable value.now }
    ensures spellable { IsTrue result → IsSpellable value.now }
{
    value_fits(value);
    passes(value)
}

/// Whether the item with this first value, of any stamp, has a line in an opening that is read back.
pub fn is_spellable_first_value(item: ItemId, stamp: Stamp, value: &Value) -> bool
    ensures test { result ≡ is_spellable value.now }
    ensures spellable { IsTrue result → IsSpellableLine (OpeningLine.Item item stamp value.now) }
{
    item_fits(item);
    let _value = stamp.value();
    is_spellable(value)
}

/// A law: each header has a line that is read back.
pub fn headers_are_spellable(header: &Header)
    ensures { IsSpellableLine (OpeningLine.Open header.now) }
{
    let _parts = header.parts;
    let _limit = header.limit;
    let _policy = header.policy;
    let _first = header.first;
    root_fits(&header.root);
}

/// Whether the mark has a line that is read back: each value that its writes have could have one in an opening.
pub fn is_spellable_mark(
    part: u16,
    stamp: Stamp,
    writes: &[(ItemId, Value)],
    items: &[ItemId],
) -> bool
    ensures test { result ≡ list_all is_spellable_write writes.now }
    ensures spellable { IsTrue result → IsSpellableMark
        (record { part = part; stamp = stamp; writes = writes.now; items = items.now }) }
{
    items_fit(items);
    writes_fit(writes);
    let _value = stamp.value();
    are_spellable(writes)
}

fn are_spellable(writes: &[(ItemId, Value)]) -> bool
    ensures { result ≡ list_all is_spellable_write writes.now }
{
    writes.iter().all(is_spellable_write)
}

fn is_spellable_write(write: &(ItemId, Value)) -> bool
    ensures { result ≡ is_spellable_write write.now }
{
    !write.1.is_there() || passes(&write.1)
}

/// What no type says.
fn passes(value: &Value) -> bool
    ensures { result ≡ is_spellable value.now }
{
    match value {
        Value::Missing => false,
        Value::Picture(_) | Value::List(_) => true,
        Value::Album(album) => are_children(album.children.as_slice()),
        Value::Group(group) => group.members.as_slice().len() <= MAX_MEMBERS,
    }
}

fn are_children(items: &[ItemId]) -> bool
    ensures { result ≡ list_all may_be_child items.now }
{
    items.iter().all(|item| may_be_child(*item))
}

// ---- what the types say

fn writes_fit(writes: &[(ItemId, Value)])
    ensures { All (λ w. IsTrue (is_spellable_write w) → IsSpellableWrite w) writes.now }
{
    for write in writes {
        write_fits(write);
    }
}

fn write_fits(write: &(ItemId, Value))
    ensures { IsTrue (is_spellable_write write.now) → IsSpellableWrite write.now }
{
    item_fits(write.0);
    value_fits(&write.1);
}

fn value_fits(value: &Value)
    ensures { IsTrue (is_spellable value.now) → IsSpellable value.now }
{
    match value {
        Value::Missing => {}
        Value::Picture(picture) => picture_fits(picture),
        Value::Album(album) => album_fits(album),
        Value::List(list) => list_fits(list),
        Value::Group(group) => group_fits(group),
    }
}

fn picture_fits(picture: &Picture)
    ensures { IsSpellablePicture picture.now }
{
    title_fits(&picture.title);
    content_fits(&picture.content);
    head_fits(&picture.head);
    let _home = picture.home;
}

fn album_fits(album: &Album)
    ensures { IsTrue (list_all may_be_child album.now.children) → IsSpellableAlbum album.now }
{
    title_fits(&album.title);
    head_fits(&album.head);
    home_fits(album.home);
    items_fit(album.children.as_slice());
}

fn list_fits(list: &AccessList)
    ensures { IsSpellableList list.now }
{
    entries_fit(list.entries());
}

fn group_fits(group: &Group)
    ensures { IsTrue (nat_le (length group.now.members) MAX_MEMBERS) → IsSpellableGroup group.now }
{
    head_fits(&group.head);
    members_fit(group.members.as_slice());
}

fn head_fits(head: &Head)
    ensures { IsSpellableHead head.now }
{
    let _owner = head.owner.as_str();
    let _group = head.group;
    let _list = head.list;
}

fn root_fits(root: &Option<Name>)
    ensures { IsSpellableRoot root.now }
{
    if let Some(name) = root {
        let _text = name.as_str();
    }
}

fn title_fits(title: &Title)
    ensures { IsSpellableTitle title.now }
{
    let _text = title.as_str();
}

fn content_fits(content: &Content)
    ensures { IsSpellableContent content.now }
{
    bytes_fit(content.as_slice());
}

fn bytes_fit(bytes: &[u8])
    ensures { IsBytes bytes.now }
{}

fn home_fits(home: Option<u64>)
    ensures { IsSpellableHome home }
{
    if let Some(number) = home {
        let _number = number;
    }
}

fn items_fit(items: &[ItemId])
    ensures { All IsSpellableItem items.now }
{
    for item in items {
        item_fits(*item);
    }
}

fn item_fits(item: ItemId)
    ensures { IsSpellableItem item }
{
    let _number = item.number();
}

fn entries_fit(entries: &[Ace])
    ensures { All (λ e. IsSpellableWho e.who) entries.now }
{
    for entry in entries {
        who_fits(&entry.who);
    }
}

fn who_fits(who: &Who)
    ensures { IsSpellableWho who.now }
{
    match who {
        Who::User(name) => {
            let _text = name.as_str();
        }
        Who::Group(number) => {
            let _number = *number;
        }
        Who::Owner | Who::OwnerGroup | Who::Everyone | Who::Anonymous | Who::Authenticated => {}
    }
}

fn members_fit(members: &[Member])
    ensures { All IsSpellableMember members.now }
{
    for member in members {
        member_fits(member);
    }
}

fn member_fits(member: &Member)
    ensures { IsSpellableMember member.now }
{
    match member {
        Member::User(name) => {
            let _text = name.as_str();
        }
        Member::Group(number) => {
            let _number = *number;
        }
    }
}
