//! Sightings: what partitions have replied in the first round of a read, to Gets without stamps. By them a session
//! knows in the second round that a version is new enough, though its partition has committed a newer one since. And
//! where none of the stamps of the second round was pending at a partition, it knows what that one would reply, and
//! need not ask.
ghost use Rattle.std.specs.Prelude.{◌≡◌, ◌<◌, ◌≤◌, ℕ, All, None, length, IsTrue, IfOk, IfSome};
ghost use Rattle.album_passes.specs.Cuts.{Cut, prefix_at};
ghost use Rattle.album_keepers.specs.Envelopes.{IsAnswered, IsSettledBelow, IsUpToDate};
ghost use Rattle.album_channels.specs.Sightings.{repeated, IfSighted, IsRepeatedBy, IsShownBy, IsVersion};

use crate::reads::asks_latest;
use album_calls::{Body, Message, Node, Reply, Request};
use album_items::ItemId;
use album_keepers::DeskNames;
use album_passes::Pass;
use album_stamps::{MAX_PARTS, Stamp};
use std::alloc::AllocError;

/// A partition's reply to a Get without stamps, how many marks the partition had then, and a number below which no
/// stamp was pending there.
#[derive(Drop)]
pub(crate) struct Sighting {
    reply: Message,
    marks: u64,
    /// A low watermark: no stamp below it was pending at the partition.
    settled_below: u64,
}

impl Sighting {
    /// Whether the version that is replied is no older than the sighted one, and whoever had seen no more than `begun`
    /// of the partition's marks had seen none that the sighting lacks.
    pub(crate) fn shows(&self, begun: &Pass, reply: &Message) -> bool
        ensures { IsTrue result → IsShownBy self.now begun.now.cut reply.now }
    {
        let Some((part, item, seen)) = version_in(&self.reply) else {
            return false;
        };
        let Some((from, of, stamp)) = version_in(reply) else {
            return false;
        };
        from == part && of.is(item) && seen.value() <= stamp.value() && self.has_all(begun, part)
    }

    /// Whether the partition would reply the same to this Get, as it was then; and whoever had seen no more than
    /// `begun` of its marks had seen none that the sighting lacks.
    pub(crate) fn repeats(&self, begun: &Pass, message: &Message) -> bool
        ensures { IsTrue result → IsRepeatedBy self.now begun.now.cut message.now }
    {
        let Some((part, sighted, stamp)) = version_in(&self.reply) else {
            return false;
        };
        let Body::Request(Request::Get(item, stamps)) = message.body() else {
            return false;
        };
        sighted.is(*item)
            && message.to().is_part(part)
            && stamps.as_slice().contains(&stamp)
            && are_below(stamps.as_slice(), self.settled_below)
            && self.has_all(begun, part)
    }

    /// Whether there are as many marks as `begun` has of the partition.
    fn has_all(&self, begun: &Pass, part: u16) -> bool
        ensures { IsTrue result → length (prefix_at begun.now.cut part) ≤ self.now.marks }
    {
        part < MAX_PARTS && begun.length(part) <= self.marks
    }

    /// What the partition would reply to the message.
    pub(crate) fn repeat(&self, message: &Message) -> Result<Message, AllocError>
        ensures { IfOk result (λ reply. reply ≡ repeated self.now message.now) }
    {
        let body = self.reply.body().clone()?;
        Ok(Message::new(message.to(), message.from(), message.tag(), body))
    }
}

/// What the reply shows, if it is one to a Get without stamps, and there is memory for it.
pub(crate) fn sighting_of<J: DeskNames>(
    request: &Message,
    reply: &Message,
    settled_below: u64,
    pass: &Pass,
) -> Option<Sighting>
    requires answered { IsAnswered J.terms.limit pass.now.cut request.now reply.now }
    requires latest { IsUpToDate pass.now.cut reply.now }
    requires settled { IsSettledBelow settled_below pass.now.cut reply.now }
    ensures { IfSighted J.terms.limit pass.now.cut result }
{
    if !asks_latest(request.body()) {
        return None;
    }
    let Node::Part(part) = reply.from() else {
        return None;
    };
    if part >= MAX_PARTS {
        return None;
    }
    let marks = pass.length(part);
    let Ok(reply) = reply.copy() else {
        return None;
    };
    Some(Sighting {
        reply,
        marks,
        settled_below,
    })
}

/// Lets all of them go, and makes room for so many. Where there is no memory there is less.
pub(crate) fn clear(sightings: &mut Vec<Option<Sighting>>, count: usize)
    ensures { All (λ sighting. sighting ≡ None) sightings.new.items }
{
    sightings.clear();
    for _ in 0..count {
        if sightings.push(None).is_err() {
            return;
        }
    }
}

/// Puts it at the index, if there is room.
#[tactic(auto, using(crate::proofs::SightingLemmas::sighted_put))]
pub(crate) fn put(sightings: &mut Vec<Option<Sighting>>, index: usize, sighting: Option<Sighting>)
    ensures { (limit : ℕ) (cut : Cut) → IfSighted limit cut sighting → All (IfSighted limit cut) sightings.old.items
        → All (IfSighted limit cut) sightings.new.items }
{
    if index < sightings.len() {
        sightings[index] = sighting;
    }
}

/// Whether all of the stamps are below the number.
fn are_below(stamps: &[Stamp], below: u64) -> bool
    ensures { IsTrue result → All (λ stamp. stamp < below) stamps.now }
{
    stamps.iter().all(|stamp| stamp.value() < below)
}

/// The partition, the item and the stamp of the version that the message replies, if it replies one.
fn version_in(reply: &Message) -> Option<(u16, ItemId, Stamp)>
    ensures { IfSome result (λ found. IsVersion reply.now found.0 found.1 found.2) }
{
    let Node::Part(part) = reply.from() else {
        return None;
    };
    match reply.body() {
        Body::Reply(Reply::Version(item, stamp, _)) => Some((part, *item, *stamp)),
        Body::Reply(_) | Body::Request(_) => None,
    }
}
