//! Lines of events: what has its shape, with the values of its fields.
ghost use Rattle.std.specs.Prelude.{◌≡◌, ◌++◌, [], ◌∷◌, Ok, Err, codes};
ghost use Rattle.album_stamps.specs.Outcome.{Gives};
ghost use Rattle.album_items.specs.ItemIds.{picture, album, group};
ghost use Rattle.album_lists.specs.declared.whos.Member.TheVariants as member;
ghost use Rattle.album_wire.specs.AskShape.{spelled_ask};
ghost use Rattle.album_wire.specs.EventLine.{event_read, event_line_of};
ghost use Rattle.album_wire.specs.EventShape.{Asked, spelled_event};

use crate::ask_shape::AskShape;
use crate::asks::ask_of;
use crate::event_shape::{EventShape, Spelled, event_shape};
use album_eval::Principal;
use album_lines::data;
use album_permits::Event;
use album_stamps::{ClientNo, Refusal};
use album_views::Ask;
use json::Scratch;
use std::alloc::Global;

/// Reads the line of an event, and gives the events that it spells. The scratch is room that is kept from line to line,
/// whatever was in it.
///
/// # Errors
///
/// `BadLine` where the bytes are no text or no JSON; `BadRequest` where the shape is wrong; then, field after field in
/// the order of FORMATS, what the field's reader says (`BadWho`, `BadMask`, `BadFlags`, `ListFull`,
/// `BadText`). `OutOfMemory` where memory ran out.
#[tactic(auto, unfolding(crate::specs::EventLine::event_line_of))]
pub fn read_event(alloc: Global, scratch: &mut Scratch, bytes: &[u8]) -> Result<Spelled, Refusal>
    ensures { Gives (λ events. events) result (event_line_of bytes.now) }
{
    let value = data(alloc, scratch, bytes)?;
    let shape = event_shape(alloc, &value)?;
    events_of(alloc, shape)
}

/// A law: lines of events that were worked out by hand.
pub fn worked_events()
    // The deliveries of a range.
    ensures range { event_line_of (codes "{\"deliver\":[1,20]}") ≡ Ok (Spelled.Range 1 20) }
    // A range that spells none.
    ensures backwards { event_line_of
        (codes "{\"deliver\":[18446744073709551615,0]}")
        ≡ Ok (Spelled.Range 18446744073709551615 0) }
    // A range of 2^64 deliveries.
    ensures wide { event_line_of (codes "{\"deliver\":[0,18446744073709551615]}") ≡ Err Refusal.BadRequest }
    // Of two equal keys the last counts.
    ensures last_counts { event_line_of
        (codes "{\"deliver\":1,\"deliver\":2}")
        ≡ Ok (Spelled.One (Event.Deliver 2)) }
    // Keys of two events.
    ensures two_events { event_line_of (codes "{\"deliver\":1,\"stop\":1}") ≡ Err Refusal.BadRequest }
    ensures sweep { event_line_of
        (codes "{\"sweep\":{\"part\":0,\"stamp\":65537}}")
        ≡ Ok (Spelled.One (Event.Sweep 0 65537)) }
    // 65536 has the client 0.
    ensures no_stamp { event_line_of (codes "{\"sweep\":{\"part\":0,\"stamp\":65536}}") ≡ Err Refusal.BadRequest }
    ensures stop { event_line_of (codes "{\"stop\":65535}") ≡ Ok (Spelled.One (Event.Stop 65535)) }
    ensures restart { event_line_of (codes "{\"restart\":true}") ≡ Ok Spelled.Restart }
    ensures no_restart { event_line_of (codes "{\"restart\":false}") ≡ Err Refusal.BadRequest }
    ensures restart_with_more { event_line_of (codes "{\"restart\":true,\"epoch\":2}") ≡ Err Refusal.BadRequest }
    ensures trim { event_line_of
        (codes "{\"trim\":{\"item\":\"album/3\",\"part\":2}}")
        ≡ Ok (Spelled.One (Event.Trim 2 (album 3))) }
    ensures asked { event_line_of
        (codes "{\"ask\":{\"do\":\"retitle\",\"object\":\"picture/0\",\"title\":\"Bay\"},\"client\":1,"
        ++ codes "\"who\":\"amy@users\"}")
        ≡ Ok (Spelled.One (Event.Ask 1 (Principal.User (codes "amy")) (Ask.Retitle (picture 0) (codes "Bay")))) }
    ensures head { event_line_of
        (codes "{\"ask\":{\"do\":\"head\",\"object\":\"picture/1\"},\"client\":1,\"who\":\"amy@users\"}")
        ≡ Ok (Spelled.One (Event.Ask 1 (Principal.User (codes "amy")) (Ask.Head (picture 1)))) }
    ensures children { event_line_of
        (codes "{\"ask\":{\"album\":\"album/1\",\"do\":\"children\"},\"client\":1,\"who\":\"amy@users\"}")
        ≡ Ok (Spelled.One (Event.Ask 1 (Principal.User (codes "amy")) (Ask.Children (album 1)))) }
    // The album is named as an object.
    ensures children_of_object { event_line_of
        (codes "{\"ask\":{\"do\":\"children\",\"object\":\"album/1\"},\"client\":1,\"who\":\"amy@users\"}")
        ≡ Err Refusal.BadRequest }
    ensures group_added { event_line_of
        (codes "{\"ask\":{\"album\":\"album/1\",\"do\":\"add_group\",\"members\":[\"amy@users\",\"7@groups\"]},"
        ++ codes "\"client\":1,\"who\":\"amy@users\"}")
        ≡ Ok (Spelled.One (Event.Ask 1 (Principal.User (codes "amy")) (Ask.AddGroup (album 1)
        (member.User (codes "amy") ∷ member.Group 7 ∷ [])))) }
    // A group is named for its list and for its members.
    ensures shared { event_line_of
        (codes "{\"ask\":{\"do\":\"share\",\"lists\":[[\"group/7\",[]]],\"members\":[[\"group/7\",[\"3@groups\"]]]},"
        ++ codes "\"client\":1,\"who\":\"amy@users\"}")
        ≡ Ok (Spelled.One (Event.Ask 1 (Principal.User (codes "amy")) (Ask.Share
        (record { object = group 7; list = [] } ∷ [])
        (record { object = group 7; members = member.Group 3 ∷ [] } ∷ [])))) }
    // A share without members says so.
    ensures half_shared { event_line_of
        (codes "{\"ask\":{\"do\":\"share\",\"lists\":[[\"group/7\",[]]]},\"client\":1,\"who\":\"amy@users\"}")
        ≡ Err Refusal.BadRequest }
    // The client is 0, the who is none, and the content has one digit.
    ensures shape_first { event_line_of
        (codes "{\"ask\":{\"content\":\"0\",\"do\":\"replace\",\"object\":\"picture/0\"},\"client\":0,"
        ++ codes "\"who\":\"nobody\"}")
        ≡ Err Refusal.BadRequest }
    ensures who_second { event_line_of
        (codes "{\"ask\":{\"content\":\"0\",\"do\":\"replace\",\"object\":\"picture/0\"},\"client\":1,"
        ++ codes "\"who\":\"nobody\"}")
        ≡ Err Refusal.BadWho }
    ensures content_last { event_line_of
        (codes "{\"ask\":{\"content\":\"0\",\"do\":\"replace\",\"object\":\"picture/0\"},\"client\":1,"
        ++ codes "\"who\":\"bo@users\"}")
        ≡ Err Refusal.BadText }
{}

/// The principal, and then the fields of the ask, in their order.
#[tactic(auto, unfolding(crate::specs::EventLine::event_read))]
fn events_of(alloc: Global, shape: EventShape) -> Result<Spelled, Refusal>
    ensures { Gives (λ events. events) result (event_read (spelled_event shape.entry)) }
{
    match shape {
        EventShape::Asked {
            client,
            who: text,
            ask: shape,
        } => { asked(alloc, client, text, &shape) }
        EventShape::Whole(events) => Ok(events),
    }
}

#[tactic(auto, unfolding(crate::specs::EventLine::event_read))]
fn asked(alloc: Global, client: ClientNo, text: &str, shape: &AskShape) -> Result<Spelled, Refusal>
    ensures { Gives (λ events. events) result (event_read (Asked client text.now (spelled_ask shape.now))) }
{
    let who = Principal::read(text)?;
    let ask = ask_of(alloc, shape)?;
    Ok(Spelled::One(Event::Ask(client, who, ask)))
}
