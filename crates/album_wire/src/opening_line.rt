//! Lines of an opening: how the store is to be opened, the items with their first values and the stamps of these, and
//! that this is all.
ghost use Rattle.std.specs.Prelude.{◌≡◌, ◌++◌, [], ◌∷◌, true, false, Some, None, option_map, Ok, Err, codes};
ghost use Rattle.album_stamps.specs.Outcome.{Gives};
ghost use Rattle.album_items.specs.ItemIds.{picture, album, list};
ghost use Rattle.album_wire.specs.ItemShapes.{spelled_head, spelled_value};
ghost use Rattle.album_wire.specs.OpeningLine.{head_with, header_with, root_read, value_read, opening_read, opening_line_of};
ghost use Rattle.album_wire.specs.OpeningShape.{spelled_header, spelled_opening};

use crate::item_shapes::{HeadShape, ValueShape};
use crate::item_texts::{content, owner, title};
use crate::opening_shape::{Header, HeaderShape, OpeningShape, opening_shape};
use album_items::{Album, Group, Head, ItemId, Items, Members, Picture, Value};
use album_lines::{access_list, data, members};
use album_lists::Name;
use album_stamps::{Refusal, Stamp};
use json::Scratch;
use std::alloc::Global;

/// A line of an opening.
#[derive(Debug, Drop)]
pub enum OpeningLine {
    /// How the store is to be opened. It is the first line.
    Open(Header),
    /// An item, with the stamp at which an epoch before wrote its first value, which is zero where none did, and that
    /// value.
    Item(ItemId, Stamp, Value),
    /// The items are all there.
    Begin,
}

/// Reads a line of an opening. The scratch is room that is kept from line to line, whatever was in it.
///
/// # Errors
///
/// `BadLine` where the bytes are no text or no JSON; `BadRequest` where the shape is wrong; then, field after field in
/// the order of FORMATS, what the field's reader says (`BadWho`, `BadMask`, `BadFlags`, `ListFull`,
/// `BadText`). `OutOfMemory` where memory ran out.
#[tactic(auto, unfolding(crate::specs::OpeningLine::opening_line_of))]
pub fn read_opening_line(
    alloc: Global,
    scratch: &mut Scratch,
    bytes: &[u8],
) -> Result<OpeningLine, Refusal>
    ensures { Gives (λ line. line) result (opening_line_of bytes.now) }
{
    let value = data(alloc, scratch, bytes)?;
    let shape = opening_shape(alloc, &value)?;
    line_of(alloc, shape)
}

/// A law: lines of openings that were worked out by hand.
pub fn worked_openings()
    ensures opens { opening_line_of
        (codes "{\"open\":{\"limit\":1000,\"parts\":3,\"trace\":true}}")
        ≡ Ok (OpeningLine.Open (record {
          parts = 3;
          limit = 1000;
          policy = 1;
          checked = false;
          root = None;
          first = 0;
          trace = true;
        })) }
    ensures open_with_parts_alone { opening_line_of
        (codes "{\"open\":{\"parts\":16}}")
        ≡ Ok (OpeningLine.Open (record {
          parts = 16;
          limit = 100000;
          policy = 1;
          checked = false;
          root = None;
          first = 0;
          trace = false;
        })) }
    ensures open_checked { opening_line_of
        (codes "{\"open\":{\"checked\":true,\"parts\":16}}")
        ≡ Ok (OpeningLine.Open (record {
          parts = 16;
          limit = 100000;
          policy = 1;
          checked = true;
          root = None;
          first = 0;
          trace = false;
        })) }
    ensures not_checked { opening_line_of
        (codes "{\"open\":{\"checked\":false,\"parts\":16,\"trace\":true}}")
        ≡ Ok (OpeningLine.Open (record {
          parts = 16;
          limit = 100000;
          policy = 1;
          checked = false;
          root = None;
          first = 0;
          trace = true;
        })) }
    ensures after_epochs { opening_line_of
        (codes "{\"open\":{\"first\":7,\"parts\":16}}")
        ≡ Ok (OpeningLine.Open (record {
          parts = 16;
          limit = 100000;
          policy = 1;
          checked = false;
          root = None;
          first = 7;
          trace = false;
        })) }
    ensures after_nothing { opening_line_of (codes "{\"open\":{\"first\":null,\"parts\":16}}")
        ≡ Err Refusal.BadRequest }
    // What is no truth is none of the two.
    ensures checked_by_number { opening_line_of (codes "{\"open\":{\"checked\":1,\"parts\":16}}")
        ≡ Err Refusal.BadRequest }
    ensures checked_by_nothing { opening_line_of (codes "{\"open\":{\"checked\":null,\"parts\":16}}")
        ≡ Err Refusal.BadRequest }
    ensures open_with_root { opening_line_of
        (codes "{\"open\":{\"parts\":16,\"policy\":3,\"root\":\"amy@users\"}}")
        ≡ Ok (OpeningLine.Open (record {
          parts = 16;
          limit = 100000;
          policy = 3;
          checked = false;
          root = Some (codes "amy");
          first = 0;
          trace = false;
        })) }
    // Whether the policy is one that has a root isn't asked of the line by itself.
    ensures root_of_policy_1 { opening_line_of (codes "{\"open\":{\"parts\":16,\"root\":\"bo@users\"}}")
        ≡ Ok (OpeningLine.Open (record {
          parts = 16;
          limit = 100000;
          policy = 1;
          checked = false;
          root = Some (codes "bo");
          first = 0;
          trace = false;
        })) }
    // No text is left out by nothing.
    ensures root_of_nothing { opening_line_of (codes "{\"open\":{\"parts\":16,\"policy\":3,\"root\":null}}")
        ≡ Err Refusal.BadRequest }
    ensures root_by_number { opening_line_of (codes "{\"open\":{\"parts\":16,\"policy\":3,\"root\":7}}")
        ≡ Err Refusal.BadRequest }
    ensures root_by_name { opening_line_of (codes "{\"open\":{\"parts\":16,\"policy\":3,\"root\":\"amy\"}}")
        ≡ Err Refusal.BadWho }
    ensures root_by_group { opening_line_of
        (codes "{\"open\":{\"parts\":16,\"policy\":3,\"root\":\"3@groups\"}}") ≡ Err Refusal.BadWho }
    ensures root_by_anonymous { opening_line_of
        (codes "{\"open\":{\"parts\":16,\"policy\":3,\"root\":\"ANONYMOUS@\"}}") ≡ Err Refusal.BadWho }
    // The root is none, and the trace isn't a truth.
    ensures header_shape_first { opening_line_of
        (codes "{\"open\":{\"parts\":16,\"root\":\"amy\",\"trace\":1}}") ≡ Err Refusal.BadRequest }
    ensures picture_line { opening_line_of
        (codes "{\"item\":\"picture/0\",\"value\":{\"content\":\"736561\",\"group\":0,\"home\":0,\"list\":0,"
        ++ codes "\"owner\":\"amy@users\",\"title\":\"Sea\"}}")
        ≡ Ok (OpeningLine.Item (picture 0) 0 (Value.Picture (record {
          title = codes "Sea";
          content = 115 ∷ 101 ∷ 97 ∷ [];
          head = record { owner = codes "amy"; group = 0; list = 0 };
          home = 0;
        }))) }
    ensures album_line { opening_line_of
        (codes "{\"item\":\"album/0\",\"value\":{\"children\":[\"picture/0\"],\"group\":0,\"home\":null,"
        ++ codes "\"list\":1,\"owner\":\"amy@users\",\"title\":\"Trip\"}}")
        ≡ Ok (OpeningLine.Item (album 0) 0 (Value.Album (record {
          title = codes "Trip";
          head = record { owner = codes "amy"; group = 0; list = 1 };
          home = None;
          children = picture 0 ∷ [];
        }))) }
    ensures of_an_epoch_before { opening_line_of
        (codes "{\"item\":\"list/65537\",\"stamp\":131073,\"value\":{\"entries\":[]}}")
        ≡ Ok (OpeningLine.Item (list 65537) 131073 (Value.List [])) }
    ensures of_none { opening_line_of (codes "{\"item\":\"list/7\",\"stamp\":0,\"value\":{\"entries\":[]}}")
        ≡ Ok (OpeningLine.Item (list 7) 0 (Value.List [])) }
    // No client has the number 0.
    ensures no_stamp { opening_line_of
        (codes "{\"item\":\"list/7\",\"stamp\":65536,\"value\":{\"entries\":[]}}") ≡ Err Refusal.BadRequest }
    ensures stamp_of_nothing { opening_line_of
        (codes "{\"item\":\"list/7\",\"stamp\":null,\"value\":{\"entries\":[]}}") ≡ Err Refusal.BadRequest }
    // A value of another kind than its item's is read.
    ensures another_kind { opening_line_of
        (codes "{\"item\":\"list/0\",\"value\":{\"content\":\"736561\",\"group\":0,\"home\":0,\"list\":0,"
        ++ codes "\"owner\":\"amy@users\",\"title\":\"Sea\"}}")
        ≡ Ok (OpeningLine.Item (list 0) 0 (Value.Picture (record {
          title = codes "Sea";
          content = 115 ∷ 101 ∷ 97 ∷ [];
          head = record { owner = codes "amy"; group = 0; list = 0 };
          home = 0;
        }))) }
    ensures nothing { opening_line_of (codes "{\"item\":\"list/0\",\"value\":null}") ≡ Err Refusal.BadRequest }
    ensures no_home { opening_line_of
        (codes "{\"item\":\"picture/0\",\"value\":{\"content\":\"736561\",\"group\":0,\"home\":null,"
        ++ codes "\"list\":0,\"owner\":\"amy@users\",\"title\":\"Sea\"}}")
        ≡ Err Refusal.BadRequest }
    // The owner is none, and the title has a tab.
    ensures title_first { opening_line_of
        (codes "{\"item\":\"picture/0\",\"value\":{\"content\":\"736561\",\"group\":0,\"home\":0,\"list\":0,"
        ++ codes "\"owner\":\"amy\",\"title\":\"S\\t\"}}")
        ≡ Err Refusal.BadText }
    ensures owner_last { opening_line_of
        (codes "{\"item\":\"picture/0\",\"value\":{\"content\":\"736561\",\"group\":0,\"home\":0,\"list\":0,"
        ++ codes "\"owner\":\"amy\",\"title\":\"Sea\"}}")
        ≡ Err Refusal.BadWho }
    ensures begin { opening_line_of (codes "{\"begin\":true}") ≡ Ok OpeningLine.Begin }
    ensures no_begin { opening_line_of (codes "{\"begin\":false}") ≡ Err Refusal.BadRequest }
{}

#[tactic(auto, unfolding(crate::specs::OpeningLine::opening_read))]
fn line_of(alloc: Global, shape: OpeningShape) -> Result<OpeningLine, Refusal>
    ensures { Gives (λ line. line) result (opening_read (spelled_opening shape.entry)) }
{
    match shape {
        OpeningShape::Open(header) => {
            let root = root_of(header.root)?;
            Ok(OpeningLine::Open(header_with(header, root)))
        }
        OpeningShape::Item(item, stamp, value) => {
            Ok(OpeningLine::Item(item, stamp, value_of(alloc, value)?))
        }
        OpeningShape::Begin => Ok(OpeningLine::Begin),
    }
}

/// The root, if there is one.
fn root_of(text: Option<&str>) -> Result<Option<Name>, Refusal>
    ensures { result ≡ root_read (option_map (λ t. t.now) text.entry) }
{
    match text {
        None => Ok(None),
        Some(text) => {
            let name = owner(text)?;
            Ok(Some(name))
        }
    }
}

/// The header with this root.
fn header_with(shape: HeaderShape, root: Option<Name>) -> Header
    ensures { result ≡ header_with (spelled_header shape.entry) root }
{
    Header {
        parts: shape.parts,
        limit: shape.limit,
        policy: shape.policy,
        checked: shape.checked,
        root,
        first: shape.first,
        trace: shape.trace,
    }
}

/// The values of the fields, in their order.
#[tactic(auto, unfolding(crate::specs::OpeningLine::value_read))]
pub(crate) fn value_of(alloc: Global, shape: ValueShape) -> Result<Value, Refusal>
    ensures { Gives (λ value. value) result (value_read (spelled_value shape.entry)) }
{
    match shape {
        ValueShape::Picture {
            title: text,
            content: digits,
            head,
            home,
        } => {
            let title = title(alloc, text)?;
            let content = content(alloc, digits)?;
            let owner = owner(head.owner)?;
            Ok(Value::Picture(Picture {
                title,
                content,
                head: head_with(head, owner),
                home,
            }))
        }
        ValueShape::Album {
            title: text,
            head,
            home,
            children,
        } => {
            let title = title(alloc, text)?;
            let owner = owner(head.owner)?;
            Ok(Value::Album(Album {
                title,
                head: head_with(head, owner),
                home,
                children: Items::of(children),
            }))
        }
        ValueShape::Entries { entries } => {
            let list = access_list(alloc, &entries)?;
            Ok(Value::List(list))
        }
        ValueShape::Group {
            head,
            members: texts,
        } => {
            let owner = owner(head.owner)?;
            let members = members(alloc, &texts)?;
            Ok(Value::Group(Group {
                head: head_with(head, owner),
                members: Members::of(members),
            }))
        }
    }
}

/// The head with this owner.
fn head_with(shape: HeadShape, owner: Name) -> Head
    ensures { result ≡ head_with (spelled_head shape.entry) owner }
{
    Head {
        owner,
        group: shape.group,
        list: shape.list,
    }
}
