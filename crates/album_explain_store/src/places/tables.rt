//! What each line has: the names of its members, and of those of the objects within it, in the order in which their
//! forms are tested.
ghost use Rattle.std.specs.Prelude.{◌≡◌};
ghost use Rattle.album_lines.specs.Trees.{value_data};
ghost use Rattle.album_explain_store.specs.Tables.{kind_explained};

use crate::places::forms::item_in;
use album_items::Kind;
use album_lines::{field, has, member, text};
use json::Value;

/// The form of the value under a name.
#[derive(Clone, Copy, Debug)]
pub(crate) enum Form {
    /// The word of an ask, or another text that nothing more is asked of.
    Word,
    Title,
    Content,
    Owner,
    /// A user who may be left out.
    PerhapsOwner,
    /// A principal.
    Who,
    /// A number.
    Whole,
    /// A number that may be left out.
    PerhapsWhole,
    /// True or false, which may be left out.
    PerhapsTruth,
    /// True.
    True,
    /// A number, or null.
    Home,
    /// The number of a client, or of a partition.
    Client,
    Part,
    Stamp,
    Item,
    /// Pictures and albums.
    Children,
    Members,
    Entries,
    /// Objects with the entries that they are to have.
    Lists,
    /// Groups with the members that they are to have.
    Memberships,
    /// The number of a message, or a range of them.
    Deliver,
}

/// What a whole line has under a name.
#[derive(Clone, Copy, Debug)]
pub(crate) enum Part {
    Plain(Form),
    Open,
    Sweep,
    Trim,
    /// An ask, whose word says which members it has.
    Ask,
    /// The value of an item. Its names say which members it has, or else its item does.
    Value,
}

pub(crate) type Rows = &'static [(&'static str, Form)];

pub(crate) type Parts = &'static [(&'static str, Part)];

/// Which lines are tested.
#[derive(Clone, Copy, Debug)]
pub(crate) enum Table {
    Opening,
    Event,
    /// The first line of a connection.
    Hello,
    /// A later one.
    Talk,
}

const OPEN: Rows = &[
    ("parts", Form::Whole),
    ("limit", Form::PerhapsWhole),
    ("policy", Form::PerhapsWhole),
    ("checked", Form::PerhapsTruth),
    ("root", Form::PerhapsOwner),
    ("first", Form::PerhapsWhole),
    ("trace", Form::PerhapsTruth),
];

const SWEEP: Rows = &[("part", Form::Part), ("stamp", Form::Stamp)];

const TRIM: Rows = &[("item", Form::Item), ("part", Form::Part)];

const PICTURE: Rows = &[
    ("title", Form::Title),
    ("content", Form::Content),
    ("owner", Form::Owner),
    ("group", Form::Whole),
    ("list", Form::Whole),
    ("home", Form::Whole),
];

const ALBUM: Rows = &[
    ("title", Form::Title),
    ("owner", Form::Owner),
    ("group", Form::Whole),
    ("list", Form::Whole),
    ("home", Form::Home),
    ("children", Form::Children),
];

const LIST: Rows = &[("entries", Form::Entries)];

const GROUP: Rows = &[
    ("owner", Form::Owner),
    ("group", Form::Whole),
    ("list", Form::Whole),
    ("members", Form::Members),
];

const OF_OBJECT: Rows = &[("do", Form::Word), ("object", Form::Item)];

const OF_ALBUM: Rows = &[("do", Form::Word), ("album", Form::Item)];

const ADD_PICTURE: Rows = &[
    ("do", Form::Word),
    ("album", Form::Item),
    ("title", Form::Title),
    ("content", Form::Content),
];

const ADD_ALBUM: Rows = &[
    ("do", Form::Word),
    ("album", Form::Item),
    ("title", Form::Title),
];

const ADD_GROUP: Rows = &[
    ("do", Form::Word),
    ("album", Form::Item),
    ("members", Form::Members),
];

const RETITLE: Rows = &[
    ("do", Form::Word),
    ("object", Form::Item),
    ("title", Form::Title),
];

const REPLACE: Rows = &[
    ("do", Form::Word),
    ("object", Form::Item),
    ("content", Form::Content),
];

const MOVE: Rows = &[
    ("do", Form::Word),
    ("object", Form::Item),
    ("to", Form::Item),
];

const SET_LISTS: Rows = &[("do", Form::Word), ("lists", Form::Lists)];

const SHARE: Rows = &[
    ("do", Form::Word),
    ("lists", Form::Lists),
    ("members", Form::Memberships),
];

const SET_OWNER: Rows = &[
    ("do", Form::Word),
    ("object", Form::Item),
    ("owner", Form::Owner),
    ("group", Form::Whole),
];

const SET_MEMBERS: Rows = &[
    ("do", Form::Word),
    ("object", Form::Item),
    ("members", Form::Members),
];

/// The members of a line, in the order in which their forms are tested. Its names say which line it is.
pub(crate) fn parts_of(table: Table, line: &Value<'_>) -> Parts {
    match table {
        Table::Opening if has(line, "open") => &[("open", Part::Open)],
        Table::Opening if has(line, "item") && has(line, "stamp") => &[
            ("item", Part::Plain(Form::Item)),
            ("stamp", Part::Plain(Form::Stamp)),
            ("value", Part::Value),
        ],
        Table::Opening if has(line, "item") => {
            &[("item", Part::Plain(Form::Item)), ("value", Part::Value)]
        }
        Table::Opening => &[("begin", Part::Plain(Form::True))],
        Table::Event if has(line, "ask") => &[
            ("ask", Part::Ask),
            ("client", Part::Plain(Form::Client)),
            ("who", Part::Plain(Form::Who)),
        ],
        Table::Event if has(line, "deliver") => &[("deliver", Part::Plain(Form::Deliver))],
        Table::Event if has(line, "sweep") => &[("sweep", Part::Sweep)],
        Table::Event if has(line, "stop") => &[("stop", Part::Plain(Form::Client))],
        Table::Event if has(line, "restart") => &[("restart", Part::Plain(Form::True))],
        Table::Event => &[("trim", Part::Trim)],
        Table::Hello => &[("who", Part::Plain(Form::Who))],
        Table::Talk if has(line, "ask") => &[("ask", Part::Ask)],
        Table::Talk if has(line, "pending") => &[("pending", Part::Plain(Form::Part))],
        Table::Talk if has(line, "sweep") => &[("sweep", Part::Sweep)],
        Table::Talk if has(line, "dump") => &[("dump", Part::Plain(Form::True))],
        Table::Talk => &[("trim", Part::Trim)],
    }
}

/// The same, in the order in which their values are tested: the principal comes before the ask.
pub(crate) fn valued_parts_of(table: Table, line: &Value<'_>) -> Parts {
    match table {
        Table::Event if has(line, "ask") => {
            &[("who", Part::Plain(Form::Who)), ("ask", Part::Ask)]
        }
        _ => parts_of(table, line),
    }
}

/// The members of a part of the line, in the order in which they are tested. None are known of an ask whose word is
/// none, and a plain part has none.
pub(crate) fn rows_of(line: &Value<'_>, part: Part, value: &Value<'_>) -> Option<Rows> {
    match part {
        Part::Plain(_) => None,
        Part::Open => Some(OPEN),
        Part::Sweep => Some(SWEEP),
        Part::Trim => Some(TRIM),
        Part::Ask => ask_rows(value),
        Part::Value => Some(value_rows(line, value)),
    }
}

fn ask_rows(ask: &Value<'_>) -> Option<Rows> {
    let word = text(field(ask, "do").ok()?).ok()?;
    match word {
        "read" | "get_list" | "head" | "delete" => Some(OF_OBJECT),
        "list" | "children" => Some(OF_ALBUM),
        "add_picture" => Some(ADD_PICTURE),
        "add_album" => Some(ADD_ALBUM),
        "add_group" => Some(ADD_GROUP),
        "retitle" => Some(RETITLE),
        "replace" => Some(REPLACE),
        "move" => Some(MOVE),
        "set_lists" => Some(SET_LISTS),
        "share" => Some(SHARE),
        "set_owner" => Some(SET_OWNER),
        "set_members" => Some(SET_MEMBERS),
        _ => None,
    }
}

/// The members of an item's value. The item is one, since its form is tested before that of the value.
fn value_rows(line: &Value<'_>, value: &Value<'_>) -> Rows {
    match kind_explained(kind_of_item(line).unwrap_or(Kind::Picture), value) {
        Kind::Picture => PICTURE,
        Kind::Album => ALBUM,
        Kind::List => LIST,
        Kind::Group => GROUP,
    }
}

/// The kind that an item's value is explained as. With entries it is a list, with members a group, with children an
/// album, and with a content a picture. With none of these it is explained as one of its item's kind.
fn kind_explained(item: Kind, value: &Value<'_>) -> Kind
    ensures { result ≡ kind_explained item (value_data value.now) }
{
    if has(value, "entries") {
        Kind::List
    } else if has(value, "members") {
        Kind::Group
    } else if has(value, "children") {
        Kind::Album
    } else if has(value, "content") {
        Kind::Picture
    } else {
        item
    }
}

fn kind_of_item(line: &Value<'_>) -> Option<Kind> {
    let item = item_in(member(line, "item")?)?;
    Some(item.kind())
}
