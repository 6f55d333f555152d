//! The shape of a line of an opening: {open: {parts, and perhaps limit, policy, checked, root, first, trace}}, {item,
//! value} or {begin}.
ghost use Rattle.std.specs.Prelude.{◌≡◌, None, option_map};
ghost use Rattle.album_stamps.specs.Outcome.{Gives};
ghost use Rattle.album_lines.specs.Fields.{member_or, whole_of, truth_of};
ghost use Rattle.album_wire.specs.EventShape.{stamp_named};
ghost use Rattle.album_wire.specs.OpeningShape.{spelled_header, spelled_opening, root_shape_of, header_of, open_shape_of, item_shape_of, begin_shape_of, opening_shape_of};
ghost use Rattle.album_lines.specs.Trees.{value_data};

use crate::event_shape::stamp_named;
use crate::item_shapes::{ValueShape, item_under, value_shape};
use album_items::ItemId;
use album_lines::{field, has, member, only, text, truth, whole, whole_under};
use album_lists::Name;
use album_stamps::{Refusal, Stamp};
use json::Value;
use std::alloc::Global;

/// How many marks the history of a partition has room for, where the opening doesn't say it.
pub const DEFAULT_LIMIT: u64 = 100_000;

/// The policy that lists are judged by, where the opening doesn't say it.
pub const DEFAULT_POLICY: u64 = 1;

/// How the store is to be opened.
#[derive(Debug, Drop)]
pub struct Header {
    /// How many partitions there are.
    pub parts: u64,
    /// For how many marks the history of each has room.
    pub limit: u64,
    /// The number of the policy that lists are judged by: 1 to 3.
    pub policy: u64,
    /// Whether each write is kept only on the versions that its author saw.
    pub checked: bool,
    /// Who has on each object what its owner has.
    pub root: Option<Name>,
    /// The greatest counter of the stamps that the epochs before drew.
    pub first: u64,
    /// Whether each message that is sent is to be written.
    pub trace: bool,
}

impl Header {
    /// Takes the header out, and leaves it without a root.
    pub fn take_out(&mut self) -> Header
        ensures { result ≡ self.old }
    {
        Header {
            parts: self.parts,
            limit: self.limit,
            policy: self.policy,
            checked: self.checked,
            root: self.root.take(),
            first: self.first,
            trace: self.trace,
        }
    }
}

/// A header as a line spells it.
#[derive(Clone, Copy)]
pub(crate) struct HeaderShape<'a> {
    pub(crate) parts: u64,
    pub(crate) limit: u64,
    pub(crate) policy: u64,
    pub(crate) checked: bool,
    pub(crate) root: Option<&'a str>,
    pub(crate) first: u64,
    pub(crate) trace: bool,
}

/// A line of an opening as it is spelled.
#[derive(Drop)]
pub(crate) enum OpeningShape<'a> {
    Open(HeaderShape<'a>),
    Item(ItemId, Stamp, ValueShape<'a>),
    Begin,
}

/// The fields of a line of an opening, each of its shape, or `BadRequest`. Its names say which line it is.
pub(crate) fn opening_shape<'a>(
    alloc: Global,
    value: &Value<'a>,
) -> Result<OpeningShape<'a>, Refusal>
    ensures { Gives spelled_opening result (opening_shape_of (value_data value.now)) }
{
    if has(value, "open") {
        open_shape(value)
    } else if has(value, "item") {
        item_shape(alloc, value)
    } else {
        begin_shape(value)
    }
}

#[tactic(auto, unfolding(crate::specs::OpeningShape::open_shape_of))]
fn open_shape<'a>(value: &Value<'a>) -> Result<OpeningShape<'a>, Refusal>
    ensures { Gives spelled_opening result (open_shape_of (value_data value.now)) }
{
    only(value, &["open"])?;
    let header = header_named(field(value, "open")?)?;
    Ok(OpeningShape::Open(header))
}

#[tactic(auto, unfolding(crate::specs::OpeningShape::header_of))]
fn header_named<'a>(value: &Value<'a>) -> Result<HeaderShape<'a>, Refusal>
    ensures { Gives spelled_header result (header_of (value_data value.now)) }
{
    only(
        value,
        &[
            "parts", "limit", "policy", "checked", "root", "first", "trace",
        ],
    )?;
    let parts = whole_under(value, "parts")?;
    let limit = whole_or(DEFAULT_LIMIT, member(value, "limit"))?;
    let policy = whole_or(DEFAULT_POLICY, member(value, "policy"))?;
    let checked = truth_or(false, member(value, "checked"))?;
    let root = root_or_none(member(value, "root"))?;
    let first = whole_or(0, member(value, "first"))?;
    let trace = truth_or(false, member(value, "trace"))?;
    Ok(HeaderShape {
        parts,
        limit,
        policy,
        checked,
        root,
        first,
        trace,
    })
}

/// A number that may be left out.
fn whole_or(other: u64, value: Option<&Value<'_>>) -> Result<u64, Refusal>
    ensures { Gives (λ n. n) result (member_or other whole_of (option_map (λ v. value_data v.now) value.entry)) }
{
    match value {
        None => Ok(other),
        Some(value) => whole(value),
    }
}

fn truth_or(other: bool, value: Option<&Value<'_>>) -> Result<bool, Refusal>
    ensures { Gives (λ b. b) result (member_or other truth_of (option_map (λ v. value_data v.now) value.entry)) }
{
    match value {
        None => Ok(other),
        Some(value) => truth(value),
    }
}

/// The text of a root, if there is one.
fn root_or_none<'a>(value: Option<&Value<'a>>) -> Result<Option<&'a str>, Refusal>
    ensures { Gives (λ root. option_map (λ t. t.now) root) result
        (member_or None root_shape_of (option_map (λ v. value_data v.now) value.entry)) }
{
    match value {
        None => Ok(None),
        Some(value) => {
            let text = text(value)?;
            Ok(Some(text))
        }
    }
}

#[tactic(auto, unfolding(crate::specs::OpeningShape::item_shape_of))]
fn item_shape<'a>(alloc: Global, value: &Value<'a>) -> Result<OpeningShape<'a>, Refusal>
    ensures { Gives spelled_opening result (item_shape_of (value_data value.now)) }
{
    only(value, &["item", "stamp", "value"])?;
    let item = item_under(value, "item")?;
    let stamp = first_stamp(member(value, "stamp"))?;
    let shape = value_shape(alloc, field(value, "value")?)?;
    Ok(OpeningShape::Item(item, stamp, shape))
}

/// The stamp at which an epoch before wrote a first value. Where it is left out, none did.
fn first_stamp(value: Option<&Value<'_>>) -> Result<Stamp, Refusal>
    ensures { Gives (λ stamp. stamp) result
        (member_or 0 stamp_named (option_map (λ v. value_data v.now) value.entry)) }
{
    match value {
        None => Ok(Stamp::zero()),
        Some(value) => stamp_named(value),
    }
}

#[tactic(auto, unfolding(crate::specs::OpeningShape::begin_shape_of))]
fn begin_shape<'a>(value: &Value<'a>) -> Result<OpeningShape<'a>, Refusal>
    ensures { Gives spelled_opening result (begin_shape_of (value_data value.now)) }
{
    only(value, &["begin"])?;
    if !truth(field(value, "begin")?)? {
        return Err(Refusal::BadRequest);
    }
    Ok(OpeningShape::Begin)
}
