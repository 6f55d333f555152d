//! The shape of an event's line: {ask, client, who}, {deliver = number or [first, last]}, {sweep: {part, stamp}},
//! {stop = client}, {restart} or {trim: {item, part}}.
ghost use Rattle.std.specs.Prelude.{◌≡◌, ◌-◌, suc, nat_le};
ghost use Rattle.std.specs.Option.{ok_or};
ghost use Rattle.album_stamps.specs.Outcome.{Gives};
ghost use Rattle.album_stamps.specs.Stamps.{client_of_number};
ghost use Rattle.album_lines.specs.Fields.{under};
ghost use Rattle.album_wire.specs.EventShape.{spelled_event, client_named, stamp_named, part_named, asked_shape_of, range_of, delivered_of, deliver_shape_of, sweep_of, sweep_shape_of, stop_shape_of, restart_shape_of, trim_of, trim_shape_of, event_shape_of};
ghost use Rattle.album_lines.specs.Trees.{value_data};

use crate::ask_shape::{AskShape, ask_shape};
use crate::item_shapes::item_under;
use album_items::ItemId;
use album_lines::{
    field, has, is_list, item, only, sized_list, text_under, truth, whole, whole_under,
};
use album_permits::Event;
use album_stamps::{ClientNo, Refusal, Stamp};
use json::Value;
use std::alloc::Global;

/// How many deliveries a range may spell.
pub const MAX_DELIVERIES: u64 = 10_000;

/// The greatest number that a line may give a partition.
const MAX_PART: u64 = 65_535;

/// The events that a line spells, or a restart.
#[derive(Debug, Drop)]
pub enum Spelled {
    One(Event),
    /// The deliveries from the first number up to the last: at most `MAX_DELIVERIES`, and none where the first
    /// is greater.
    Range(u64, u64),
    /// The epoch ends, and the next one opens on what it leaves.
    Restart,
}

/// The line of an event as it is spelled. Of every event but an ask, its shape is all.
#[derive(Drop)]
pub(crate) enum EventShape<'a> {
    Asked {
        client: ClientNo,
        who: &'a str,
        ask: AskShape<'a>,
    },
    Whole(Spelled),
}

/// The fields of an event's line, each of its shape, or `BadRequest`. Its names say which event it is.
pub(crate) fn event_shape<'a>(alloc: Global, value: &Value<'a>) -> Result<EventShape<'a>, Refusal>
    ensures { Gives spelled_event result (event_shape_of (value_data value.now)) }
{
    if has(value, "ask") {
        asked_shape(alloc, value)
    } else if has(value, "deliver") {
        deliver_shape(value)
    } else if has(value, "sweep") {
        sweep_shape(value)
    } else if has(value, "stop") {
        stop_shape(value)
    } else if has(value, "restart") {
        restart_shape(value)
    } else {
        trim_shape(value)
    }
}

#[tactic(auto, unfolding(crate::specs::EventShape::asked_shape_of))]
fn asked_shape<'a>(alloc: Global, value: &Value<'a>) -> Result<EventShape<'a>, Refusal>
    ensures { Gives spelled_event result (asked_shape_of (value_data value.now)) }
{
    only(value, &["ask", "client", "who"])?;
    let ask = ask_shape(alloc, field(value, "ask")?)?;
    let client = client_under(value, "client")?;
    let who = text_under(value, "who")?;
    Ok(EventShape::Asked { client, who, ask })
}

#[tactic(auto, unfolding(crate::specs::EventShape::deliver_shape_of))]
fn deliver_shape<'a>(value: &Value<'a>) -> Result<EventShape<'a>, Refusal>
    ensures { Gives spelled_event result (deliver_shape_of (value_data value.now)) }
{
    only(value, &["deliver"])?;
    let events = delivered(field(value, "deliver")?)?;
    Ok(EventShape::Whole(events))
}

/// The number of one message, or a range.
fn delivered(value: &Value<'_>) -> Result<Spelled, Refusal>
    ensures { Gives (λ events. events) result (delivered_of (value_data value.now)) }
{
    if is_list(value) {
        return range(value);
    }
    let number = whole(value)?;
    Ok(Spelled::One(Event::Deliver(number)))
}

#[tactic(auto, unfolding(crate::specs::EventShape::range_of))]
fn range(value: &Value<'_>) -> Result<Spelled, Refusal>
    ensures { Gives (λ events. events) result (range_of (value_data value.now)) }
{
    sized_list(value, 2)?;
    let first = whole(item(value, 0)?)?;
    let last = whole(item(value, 1)?)?;
    if !are_few(first, last) {
        return Err(Refusal::BadRequest);
    }
    Ok(Spelled::Range(first, last))
}

/// Whether there are no more numbers from the first up to the last than a range may spell.
fn are_few(first: u64, last: u64) -> bool
    ensures { result ≡ nat_le (suc last - first) MAX_DELIVERIES }
{
    last < first || last - first < MAX_DELIVERIES
}

#[tactic(auto, unfolding(crate::specs::EventShape::sweep_shape_of))]
fn sweep_shape<'a>(value: &Value<'a>) -> Result<EventShape<'a>, Refusal>
    ensures { Gives spelled_event result (sweep_shape_of (value_data value.now)) }
{
    only(value, &["sweep"])?;
    let (part, stamp) = sweep(field(value, "sweep")?)?;
    Ok(EventShape::Whole(Spelled::One(Event::Sweep(part, stamp))))
}

/// Where is swept, and what.
#[tactic(auto, unfolding(crate::specs::EventShape::sweep_of))]
pub(crate) fn sweep(value: &Value<'_>) -> Result<(u16, Stamp), Refusal>
    ensures { Gives (λ sweep. sweep) result (sweep_of (value_data value.now)) }
{
    only(value, &["part", "stamp"])?;
    let part = part_under(value, "part")?;
    let stamp = stamp_named(field(value, "stamp")?)?;
    Ok((part, stamp))
}

#[tactic(auto, unfolding(crate::specs::EventShape::stop_shape_of))]
fn stop_shape<'a>(value: &Value<'a>) -> Result<EventShape<'a>, Refusal>
    ensures { Gives spelled_event result (stop_shape_of (value_data value.now)) }
{
    only(value, &["stop"])?;
    let client = client_under(value, "stop")?;
    Ok(EventShape::Whole(Spelled::One(Event::Stop(client))))
}

#[tactic(auto, unfolding(crate::specs::EventShape::restart_shape_of))]
fn restart_shape<'a>(value: &Value<'a>) -> Result<EventShape<'a>, Refusal>
    ensures { Gives spelled_event result (restart_shape_of (value_data value.now)) }
{
    only(value, &["restart"])?;
    if !truth(field(value, "restart")?)? {
        return Err(Refusal::BadRequest);
    }
    Ok(EventShape::Whole(Spelled::Restart))
}

#[tactic(auto, unfolding(crate::specs::EventShape::trim_shape_of))]
fn trim_shape<'a>(value: &Value<'a>) -> Result<EventShape<'a>, Refusal>
    ensures { Gives spelled_event result (trim_shape_of (value_data value.now)) }
{
    only(value, &["trim"])?;
    let (part, item) = trim(field(value, "trim")?)?;
    Ok(EventShape::Whole(Spelled::One(Event::Trim(part, item))))
}

/// Where versions are let go, and of what.
#[tactic(auto, unfolding(crate::specs::EventShape::trim_of))]
pub(crate) fn trim(value: &Value<'_>) -> Result<(u16, ItemId), Refusal>
    ensures { Gives (λ trim. trim) result (trim_of (value_data value.now)) }
{
    only(value, &["item", "part"])?;
    let item = item_under(value, "item")?;
    let part = part_under(value, "part")?;
    Ok((part, item))
}

/// The number of a client, from 1.
fn client_under(value: &Value<'_>, name: &str) -> Result<ClientNo, Refusal>
    ensures { Gives (λ client. client) result (under client_named name.now (value_data value.now)) }
{
    client_of(whole_under(value, name)?).ok_or(Refusal::BadRequest)
}

fn client_of(number: u64) -> Option<ClientNo>
    ensures { result ≡ client_of_number number }
{
    match u16::try_from(number) {
        Ok(number) => ClientNo::of(number),
        Err(_) => None,
    }
}

/// A stamp.
pub(crate) fn stamp_named(value: &Value<'_>) -> Result<Stamp, Refusal>
    ensures { Gives (λ stamp. stamp) result (stamp_named (value_data value.now)) }
{
    Stamp::read(whole(value)?).ok_or(Refusal::BadRequest)
}

/// The number of a partition, also of one that is not there.
#[tactic(auto, unfolding(crate::specs::EventShape::part_named))]
pub(crate) fn part_under(value: &Value<'_>, name: &str) -> Result<u16, Refusal>
    ensures { Gives (λ part. part) result (under part_named name.now (value_data value.now)) }
{
    let part = whole_under(value, name)?;
    if part > MAX_PART {
        return Err(Refusal::BadRequest);
    }
    Ok(part as u16)
}
