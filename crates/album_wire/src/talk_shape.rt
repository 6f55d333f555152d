//! The shapes of the lines of a connection: {who} of the first; {ask: {..}}, {pending = part}, {sweep: {part, stamp}},
//! {dump} or {trim: {item, part}} of those after it.
ghost use Rattle.album_stamps.specs.Outcome.{Gives};
ghost use Rattle.album_wire.specs.TalkShape.{spelled_talk, hello_shape_of, talk_ask_shape_of, pending_shape_of, talk_sweep_shape_of, dump_shape_of, talk_trim_shape_of, talk_shape_of};
ghost use Rattle.album_lines.specs.Trees.{value_data};

use crate::ask_shape::{AskShape, ask_shape};
use crate::event_shape::{part_under, sweep, trim};
use album_items::ItemId;
use album_lines::{field, has, only, text_under, truth};
use album_stamps::{Refusal, Stamp};
use json::Value;
use std::alloc::Global;

/// A later line of a connection as it is spelled.
#[derive(Drop)]
pub(crate) enum TalkShape<'a> {
    Ask { ask: AskShape<'a> },
    Pending { part: u16 },
    Sweep { part: u16, stamp: Stamp },
    Dump,
    Trim { part: u16, item: ItemId },
}

/// The principal, as it is spelled, or `BadRequest`.
#[tactic(auto, unfolding(crate::specs::TalkShape::hello_shape_of))]
pub(crate) fn hello_shape<'a>(value: &Value<'a>) -> Result<&'a str, Refusal>
    ensures { Gives (λ who. who.now) result (hello_shape_of (value_data value.now)) }
{
    only(value, &["who"])?;
    text_under(value, "who")
}

/// The fields of a later line, each of its shape, or `BadRequest`. Its names say which line it is.
pub(crate) fn talk_shape<'a>(alloc: Global, value: &Value<'a>) -> Result<TalkShape<'a>, Refusal>
    ensures { Gives spelled_talk result (talk_shape_of (value_data value.now)) }
{
    if has(value, "ask") {
        talk_ask_shape(alloc, value)
    } else if has(value, "pending") {
        pending_shape(value)
    } else if has(value, "sweep") {
        talk_sweep_shape(value)
    } else if has(value, "dump") {
        dump_shape(value)
    } else {
        talk_trim_shape(value)
    }
}

#[tactic(auto, unfolding(crate::specs::TalkShape::talk_ask_shape_of))]
fn talk_ask_shape<'a>(alloc: Global, value: &Value<'a>) -> Result<TalkShape<'a>, Refusal>
    ensures { Gives spelled_talk result (talk_ask_shape_of (value_data value.now)) }
{
    only(value, &["ask"])?;
    let ask = ask_shape(alloc, field(value, "ask")?)?;
    Ok(TalkShape::Ask { ask })
}

#[tactic(auto, unfolding(crate::specs::TalkShape::pending_shape_of))]
fn pending_shape<'a>(value: &Value<'a>) -> Result<TalkShape<'a>, Refusal>
    ensures { Gives spelled_talk result (pending_shape_of (value_data value.now)) }
{
    only(value, &["pending"])?;
    let part = part_under(value, "pending")?;
    Ok(TalkShape::Pending { part })
}

#[tactic(auto, unfolding(crate::specs::TalkShape::talk_sweep_shape_of))]
fn talk_sweep_shape<'a>(value: &Value<'a>) -> Result<TalkShape<'a>, Refusal>
    ensures { Gives spelled_talk result (talk_sweep_shape_of (value_data value.now)) }
{
    only(value, &["sweep"])?;
    let (part, stamp) = sweep(field(value, "sweep")?)?;
    Ok(TalkShape::Sweep { part, stamp })
}

#[tactic(auto, unfolding(crate::specs::TalkShape::dump_shape_of))]
fn dump_shape<'a>(value: &Value<'a>) -> Result<TalkShape<'a>, Refusal>
    ensures { Gives spelled_talk result (dump_shape_of (value_data value.now)) }
{
    only(value, &["dump"])?;
    if !truth(field(value, "dump")?)? {
        return Err(Refusal::BadRequest);
    }
    Ok(TalkShape::Dump)
}

#[tactic(auto, unfolding(crate::specs::TalkShape::talk_trim_shape_of))]
fn talk_trim_shape<'a>(value: &Value<'a>) -> Result<TalkShape<'a>, Refusal>
    ensures { Gives spelled_talk result (talk_trim_shape_of (value_data value.now)) }
{
    only(value, &["trim"])?;
    let (part, item) = trim(field(value, "trim")?)?;
    Ok(TalkShape::Trim { part, item })
}
