//! Lines of connections, the first and those after it: what has its shape, with the values of its fields.
ghost use Rattle.std.specs.Prelude.{◌≡◌, Ok, Err, codes};
ghost use Rattle.album_stamps.specs.Outcome.{Gives};
ghost use Rattle.album_items.specs.ItemIds.{picture};
ghost use Rattle.album_wire.specs.TalkLine.{hello_line_of, talk_line_of, talk_read};
ghost use Rattle.album_wire.specs.TalkShape.{spelled_talk};

use crate::asks::ask_of;
use crate::talk_shape::{TalkShape, hello_shape, talk_shape};
use album_eval::Principal;
use album_items::ItemId;
use album_lines::data;
use album_stamps::{Refusal, Stamp};
use album_views::Ask;
use json::Scratch;
use std::alloc::Global;

/// What a line of a connection says, once the principal is known.
#[derive(Debug, Drop)]
pub enum TalkLine {
    Ask(Ask),
    /// Which stamps are pending at the partition is asked.
    Pending(u16),
    /// The stamp is to be swept at the partition.
    Sweep(u16, Stamp),
    /// All that is stored is asked for, as an opening.
    Dump,
    /// Versions of the item are to be let go at the partition.
    Trim(u16, ItemId),
}

/// Reads the first line of a connection, and gives the principal that asks from then on.
///
/// # Errors
///
/// `BadLine` where the bytes are no text or no JSON; `BadRequest` where the shape is wrong; then, field after field in
/// the order of FORMATS, what the field's reader says (`BadWho`). `OutOfMemory` where memory ran out.
#[tactic(auto, unfolding(crate::specs::TalkLine::hello_line_of))]
pub fn read_hello(alloc: Global, scratch: &mut Scratch, bytes: &[u8]) -> Result<Principal, Refusal>
    ensures { Gives (λ who. who) result (hello_line_of bytes.now) }
{
    let value = data(alloc, scratch, bytes)?;
    let who = hello_shape(&value)?;
    Principal::read(who)
}

/// Reads a later line of a connection. The scratch is room that is kept from line to line, whatever was in it.
///
/// # Errors
///
/// `BadLine` where the bytes are no text or no JSON; `BadRequest` where the shape is wrong; then, field after field in
/// the order of FORMATS, what the field's reader says (`BadWho`, `BadMask`, `BadFlags`, `ListFull`,
/// `BadText`). `OutOfMemory` where memory ran out.
#[tactic(auto, unfolding(crate::specs::TalkLine::talk_line_of))]
pub fn read_talk(alloc: Global, scratch: &mut Scratch, bytes: &[u8]) -> Result<TalkLine, Refusal>
    ensures { Gives (λ line. line) result (talk_line_of bytes.now) }
{
    let value = data(alloc, scratch, bytes)?;
    let shape = talk_shape(alloc, &value)?;
    said(alloc, &shape)
}

/// A law: lines of connections that were worked out by hand.
pub fn worked_talks()
    ensures hello { hello_line_of (codes "{\"who\":\"amy@users\"}") ≡ Ok (Principal.User (codes "amy")) }
    ensures anonymous { hello_line_of (codes "{\"who\":\"ANONYMOUS@\"}") ≡ Ok Principal.Anonymous }
    ensures nobody { hello_line_of (codes "{\"who\":\"amy\"}") ≡ Err Refusal.BadWho }
    // Nothing is asked before the principal is named.
    ensures asked_first { hello_line_of (codes "{\"pending\":0}") ≡ Err Refusal.BadRequest }
    ensures asked_at_once { hello_line_of
        (codes "{\"ask\":{\"do\":\"read\",\"object\":\"picture/0\"},\"who\":\"amy@users\"}")
        ≡ Err Refusal.BadRequest }
    // The principal is named once.
    ensures who_again { talk_line_of (codes "{\"who\":\"bo@users\"}") ≡ Err Refusal.BadRequest }
    ensures nobody_again { talk_line_of (codes "{\"who\":\"bo\"}") ≡ Err Refusal.BadRequest }
    ensures asked { talk_line_of (codes "{\"ask\":{\"do\":\"read\",\"object\":\"picture/0\"}}")
        ≡ Ok (TalkLine.Ask (Ask.Read (picture 0))) }
    ensures asked_by { talk_line_of
        (codes "{\"ask\":{\"do\":\"read\",\"object\":\"picture/0\"},\"who\":\"amy@users\"}")
        ≡ Err Refusal.BadRequest }
    ensures pending { talk_line_of (codes "{\"pending\":65535}") ≡ Ok (TalkLine.Pending 65535) }
    ensures pending_past_the_last { talk_line_of (codes "{\"pending\":65536}") ≡ Err Refusal.BadRequest }
    ensures sweep { talk_line_of (codes "{\"sweep\":{\"part\":0,\"stamp\":65537}}")
        ≡ Ok (TalkLine.Sweep 0 65537) }
    // 65536 has the client 0.
    ensures no_stamp { talk_line_of (codes "{\"sweep\":{\"part\":0,\"stamp\":65536}}") ≡ Err Refusal.BadRequest }
    ensures dump { talk_line_of (codes "{\"dump\":true}") ≡ Ok TalkLine.Dump }
    ensures no_dump { talk_line_of (codes "{\"dump\":false}") ≡ Err Refusal.BadRequest }
    ensures dump_of { talk_line_of (codes "{\"dump\":true,\"part\":0}") ≡ Err Refusal.BadRequest }
    ensures trim { talk_line_of (codes "{\"trim\":{\"item\":\"picture/0\",\"part\":2}}")
        ≡ Ok (TalkLine.Trim 2 (picture 0)) }
    // An event of a replay that is none here.
    ensures deliver { talk_line_of (codes "{\"deliver\":1}") ≡ Err Refusal.BadRequest }
{}

/// The values of the fields of the shape.
#[tactic(auto, unfolding(crate::specs::TalkLine::talk_read))]
fn said(alloc: Global, shape: &TalkShape) -> Result<TalkLine, Refusal>
    ensures { Gives (λ line. line) result (talk_read (spelled_talk shape.now)) }
{
    match shape {
        TalkShape::Ask { ask: shape } => {
            let ask = ask_of(alloc, shape)?;
            Ok(TalkLine::Ask(ask))
        }
        TalkShape::Pending { part } => Ok(TalkLine::Pending(*part)),
        TalkShape::Sweep { part, stamp } => Ok(TalkLine::Sweep(*part, *stamp)),
        TalkShape::Dump => Ok(TalkLine::Dump),
        TalkShape::Trim { part, item } => Ok(TalkLine::Trim(*part, *item)),
    }
}
