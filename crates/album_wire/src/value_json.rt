//! The JSON values of what items hold: whos, entries and members, and the values of items.
ghost use Rattle.std.specs.Prelude.{◌≡◌, string_bytes, IfOk, IsOkAnd};
ghost use Rattle.hex.specs.Hex.{encode_lower};
ghost use Rattle.album_items.specs.ItemIds.{text_of};
ghost use Rattle.serde_json.specs.Data.{string};
ghost use Rattle.serde_json.specs.View.{view, members_view};
ghost use Rattle.album_lines.specs.Spelling.{type_word};
ghost use Rattle.album_wire.specs.ValueJson.{members_named, owner_text, group_text, who_text, member_text, item_json, item_list_json, content_json, entry_json, entries_json, member_json, members_json, head_fields, with_head, picture_json, album_json, list_json, group_json, value_json};

use album_access::AceType;
use album_items::{Album, Content, Group, Head, ItemId, Kind, Picture};
use album_lines::{array_of, object_of, with_item, with_member};
use album_lists::{AccessList, Ace, Member, Name, Who};
use bitflags::Flags;
use serde_json::{Map, Value};
use std::alloc::{AllocError, Global};

/// The value of an item: nothing, where it is missing.
pub(crate) fn value_json(alloc: Global, value: &album_items::Value) -> Result<Value, AllocError>
    ensures { IfOk result (λ v. view v ≡ value_json value.now) }
{
    match value {
        album_items::Value::Missing => Ok(Value::Null),
        album_items::Value::Picture(picture) => picture_json(alloc, picture),
        album_items::Value::Album(album) => album_json(alloc, album),
        album_items::Value::List(list) => list_json(alloc, list),
        album_items::Value::Group(group) => group_json(alloc, group),
    }
}

fn picture_json(alloc: Global, picture: &Picture) -> Result<Value, AllocError>
    ensures { IfOk result (λ v. view v ≡ picture_json picture.now) }
{
    let fields = head_fields(alloc, &picture.head);
    let content = content_json(alloc, &picture.content);
    let fields = with_member(alloc, fields, "content", content);
    let fields = with_member(alloc, fields, "home", Ok(Value::from(picture.home)));
    let title = Value::try_from_str(alloc, picture.title.as_str());
    object_of(with_member(alloc, fields, "title", title))
}

fn album_json(alloc: Global, album: &Album) -> Result<Value, AllocError>
    ensures { IfOk result (λ v. view v ≡ album_json album.now) }
{
    let fields = head_fields(alloc, &album.head);
    let children = item_list_json(alloc, album.children.as_slice());
    let fields = with_member(alloc, fields, "children", children);
    let fields = with_member(alloc, fields, "home", Ok(Value::from(album.home)));
    let title = Value::try_from_str(alloc, album.title.as_str());
    object_of(with_member(alloc, fields, "title", title))
}

fn list_json(alloc: Global, list: &AccessList) -> Result<Value, AllocError>
    ensures { IfOk result (λ v. view v ≡ list_json list.now) }
{
    let entries = entries_json(alloc, list.entries());
    object_of(with_member(alloc, Ok(Map::new(alloc)), "entries", entries))
}

fn group_json(alloc: Global, group: &Group) -> Result<Value, AllocError>
    ensures { IfOk result (λ v. view v ≡ group_json group.now) }
{
    let fields = head_fields(alloc, &group.head);
    let members = members_json(alloc, group.members.as_slice());
    object_of(with_member(alloc, fields, "members", members))
}

/// What every object has of its head.
fn head_fields(alloc: Global, head: &Head) -> Result<Map<String, Value>, AllocError>
    ensures { IfOk result (λ fields. members_view fields.entries ≡ members_named (head_fields head.now)) }
{
    with_head(alloc, Ok(Map::new(alloc)), head)
}

/// The members and what every object has of its head.
pub(crate) fn with_head(
    alloc: Global,
    fields: Result<Map<String, Value>, AllocError>,
    head: &Head,
) -> Result<Map<String, Value>, AllocError>
    ensures { IfOk result (λ new. IsOkAnd fields (λ old.
        members_view new.entries ≡ with_head head.now (members_view old.entries))) }
{
    let fields = with_member(alloc, fields, "group", Ok(Value::from(head.group)));
    let fields = with_member(alloc, fields, "list", Ok(Value::from(head.list)));
    with_member(alloc, fields, "owner", owner_json(alloc, &head.owner))
}

pub(crate) fn owner_json(alloc: Global, owner: &Name) -> Result<Value, AllocError>
    ensures { IfOk result (λ v. view v ≡ string (owner_text owner.now)) }
{
    let text = owner_text(alloc, owner)?;
    Ok(Value::String(text))
}

/// A content, in hexadecimal.
fn content_json(alloc: Global, content: &Content) -> Result<Value, AllocError>
    ensures { IfOk result (λ v. view v ≡ content_json content.now) }
{
    let digits = hex::encode(alloc, content.as_slice())?;
    Ok(Value::String(digits))
}

/// An item, by its text.
pub(crate) fn item_json(alloc: Global, item: ItemId) -> Result<Value, AllocError>
    ensures { IfOk result (λ v. view v ≡ item_json item) }
{
    let text = item_text(alloc, item)?;
    Ok(Value::String(text))
}

/// The text of an item, as `ItemId::text` gives it. To format the word with the rest takes more.
pub(crate) fn item_text(alloc: Global, item: ItemId) -> Result<String, AllocError>
    ensures { IfOk result (λ text. string_bytes text ≡ text_of item) }
{
    let number = item.number();
    match item.kind() {
        Kind::Picture => format!(in alloc; "picture/{number}"),
        Kind::Album => format!(in alloc; "album/{number}"),
        Kind::List => format!(in alloc; "list/{number}"),
        Kind::Group => format!(in alloc; "group/{number}"),
    }
}

/// Items, by their texts.
pub(crate) fn item_list_json(alloc: Global, items: &[ItemId]) -> Result<Value, AllocError>
    ensures { IfOk result (λ v. view v ≡ item_list_json items.now) }
{
    let mut values = Vec::with_capacity(alloc, items.len());
    for item in items {
        values = with_item(values, item_json(alloc, *item));
    }
    array_of(values)
}

/// The entries of a list.
pub(crate) fn entries_json(alloc: Global, entries: &[Ace]) -> Result<Value, AllocError>
    ensures { IfOk result (λ v. view v ≡ entries_json entries.now) }
{
    let mut values = Vec::with_capacity(alloc, entries.len());
    for entry in entries {
        values = with_item(values, entry_json(alloc, entry));
    }
    array_of(values)
}

/// [type, who, mask, flags]
fn entry_json(alloc: Global, entry: &Ace) -> Result<Value, AllocError>
    ensures { IfOk result (λ v. view v ≡ entry_json entry.now) }
{
    let sort = Value::try_from_str(alloc, type_word(entry.sort));
    let parts = with_item(Ok(Vec::new(alloc)), sort);
    let parts = with_item(parts, who_json(alloc, &entry.who));
    let parts = with_item(parts, Ok(Value::from(entry.mask.bits())));
    array_of(with_item(parts, Ok(Value::from(entry.flags.bits()))))
}

fn type_word(sort: AceType) -> &'static str
    ensures { result.now ≡ type_word sort }
{
    match sort {
        AceType::Allowed => "allow",
        AceType::Denied => "deny",
        AceType::Audit => "audit",
        AceType::Alarm => "alarm",
    }
}

/// The members of a group.
pub(crate) fn members_json(alloc: Global, members: &[Member]) -> Result<Value, AllocError>
    ensures { IfOk result (λ v. view v ≡ members_json members.now) }
{
    let mut values = Vec::with_capacity(alloc, members.len());
    for member in members {
        values = with_item(values, member_json(alloc, member));
    }
    array_of(values)
}

fn member_json(alloc: Global, member: &Member) -> Result<Value, AllocError>
    ensures { IfOk result (λ v. view v ≡ member_json member.now) }
{
    let text = member_text(alloc, member)?;
    Ok(Value::String(text))
}

fn member_text(alloc: Global, member: &Member) -> Result<String, AllocError>
    ensures { IfOk result (λ text. string_bytes text ≡ member_text member.now) }
{
    match member {
        Member::User(name) => owner_text(alloc, name),
        Member::Group(number) => group_text(alloc, *number),
    }
}

/// The who of an entry.
fn who_json(alloc: Global, who: &Who) -> Result<Value, AllocError>
    ensures { IfOk result (λ v. view v ≡ string (who_text who.now)) }
{
    let text = who_text(alloc, who)?;
    Ok(Value::String(text))
}

fn who_text(alloc: Global, who: &Who) -> Result<String, AllocError>
    ensures { IfOk result (λ text. string_bytes text ≡ who_text who.now) }
{
    match who {
        Who::User(name) => owner_text(alloc, name),
        Who::Group(number) => group_text(alloc, *number),
        Who::Owner => String::from_str(alloc, "OWNER@"),
        Who::OwnerGroup => String::from_str(alloc, "GROUP@"),
        Who::Everyone => String::from_str(alloc, "EVERYONE@"),
        Who::Anonymous => String::from_str(alloc, "ANONYMOUS@"),
        Who::Authenticated => String::from_str(alloc, "AUTHENTICATED@"),
    }
}

/// An owner.
pub(crate) fn owner_text(alloc: Global, name: &Name) -> Result<String, AllocError>
    ensures { IfOk result (λ text. string_bytes text ≡ owner_text name.now) }
{
    let name = name.as_str();
    format!(in alloc; "{name}@users")
}

fn group_text(alloc: Global, number: u64) -> Result<String, AllocError>
    ensures { IfOk result (λ text. string_bytes text ≡ group_text number) }
{
    format!(in alloc; "{number}@groups")
}
