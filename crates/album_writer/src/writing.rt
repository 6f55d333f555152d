//! One round of a write.
ghost use Rattle.std.specs.Prelude.{◌≡◌, ◌≤◌, ◌+◌, ◌<◌, ◌^◌, ◌==◌, IfOk, IfErr, length};
ghost use Rattle.std.specs.List.{list_any};
ghost use Rattle.album_items.specs.Places.{places_of};
ghost use Rattle.album_items.specs.Transactions.{items_written};
ghost use Rattle.album_calls.specs.Nodes.{is_part};
ghost use Rattle.album_permits.specs.Effects.{effect_of};
ghost use Rattle.album_writer.specs.Rounds.{answered_by};
ghost use Rattle.album_writer.specs.WriteReplies.{is_from_participant, reply_in};
ghost use Rattle.album_writer.specs.Writing.{writes_in, places_in, prepare_round, commit_round};

use crate::sending::items_written;
use crate::write_replies::WriteReply;
use album_calls::{Message, Node};
use album_items::{ItemId, Value, places_of};
use album_permits::{Permit, Writes};
use album_stamps::{ClientNo, MAX_PARTS, Refusal, Refused, Stamp};
use std::alloc::{AllocError, Global};
use std::marker::Model;

/// One round of a write. Contracts see whether the store is checked, its permit and its stamp, its client and its tag,
/// how many partitions there are, and the participants whose replies are outstanding.
#[derive(Debug)]
pub struct Writing {
    checked: bool,
    writes: Writes,
    client: ClientNo,
    tag: u64,
    parts: u16,
    places: Vec<u16>,
    outstanding: Vec<u16>,
}

impl Model for Writing {
    ghost use Rattle.album_writer.specs.Ready.{HasPlaces};
    ghost use Rattle.album_writer.specs.Writing.{WritingState};

    ghost Value = { WritingState };

    ghost view = { λ w. record {
      checked = w.checked;
      permit = w.writes.permit;
      stamp = w.writes.stamp;
      client = w.client;
      tag = w.tag;
      parts = w.parts;
      outstanding = w.outstanding.items;
    } };

    ghost invariant = { λ w. HasPlaces (record {
      checked = w.checked;
      permit = w.writes.permit;
      stamp = w.writes.stamp;
      client = w.client;
      tag = w.tag;
      parts = w.parts;
      outstanding = w.outstanding.items;
    }) w.places.items };
}

// By hand, since a permit has to be spent: a dropped write is neither committed nor discarded by that.
impl Drop for Writing {
    fn drop(self) {
        drop(self.give_up().give_back());
    }
}

impl Writing {
    /// The round of the Prepares of these writes, checked or not, or `OutOfMemory` and the permit.
    pub fn first(
        alloc: Global,
        checked: bool,
        writes: Writes,
        client: ClientNo,
        tag: u64,
        parts: u16,
    ) -> Result<Writing, Refused<Permit>>
        requires low { 1 ≤ parts }
        requires high { parts ≤ MAX_PARTS }
        ensures writing { IfOk result (λ writing.
            writing ≡ prepare_round checked writes.permit writes.stamp client tag parts) }
        ensures refusal { IfErr result (λ e. e.refusal ≡ Refusal.OutOfMemory) }
        ensures given { IfErr result (λ e. e.given ≡ writes.permit) }
    {
        match places(alloc, &writes, parts) {
            Ok((places, outstanding)) => Ok(Writing {
                checked,
                writes,
                client,
                tag,
                parts,
                places,
                outstanding,
            }),
            Err(_) => Err(Refused {
                refusal: Refusal::OutOfMemory,
                given: writes.back(),
            }),
        }
    }

    /// The round of the Commits of the same write, in which the replies of these are outstanding.
    pub fn next(self, outstanding: Vec<u16>) -> Writing
        requires all { outstanding.items ≡ places_in self }
        requires tag { self.tag + 1 < 2 ^ 64 }
        ensures { result ≡ commit_round self }
    {
        let Writing {
            checked,
            writes,
            client,
            tag,
            parts,
            places,
            outstanding: answered,
        } = self;
        drop(answered);
        Writing {
            checked,
            writes,
            client,
            tag: tag + 1,
            parts,
            places,
            outstanding,
        }
    }

    /// What the message replies to the write.
    pub fn reply_in(&self, message: &Message) -> WriteReply
        ensures { result ≡ reply_in self.now message.now }
    {
        if self.is_from_participant(message) {
            WriteReply::from_body(self.stamp(), message.body())
        } else {
            WriteReply::Nothing
        }
    }

    /// Whether a participant sends the message to the write's client, under the tag of the round.
    fn is_from_participant(&self, message: &Message) -> bool
        ensures { result ≡ is_from_participant self.now message.now }
    {
        message.tag() == self.tag
            && message.to().is_client(self.client)
            && self.has_place(message.from())
    }

    fn has_place(&self, node: Node) -> bool
        ensures { result ≡ list_any (is_part node) (places_in self.now) }
    {
        self.places.iter().any(|place| node.is_part(*place))
    }

    /// The node has replied: its reply is no longer outstanding.
    pub fn answered_by(&mut self, node: Node)
        ensures { self.new ≡ answered_by self.old node }
    {
        self.outstanding.retain(|place| !node.is_part(*place));
    }

    /// Whether no reply is outstanding.
    pub fn is_over(&self) -> bool
        ensures { result ≡ (length self.now.outstanding == 0) }
    {
        self.outstanding.is_empty()
    }

    /// Whether the store is checked.
    pub fn is_checked(&self) -> bool
        ensures { result ≡ self.now.checked }
    {
        self.checked
    }

    /// What is written, in order.
    pub fn list(&self) -> &[(ItemId, Value)]
        ensures { result.now ≡ writes_in self.now }
    {
        self.writes.list()
    }

    /// The participants, rising. There are neither too few partitions nor too many.
    pub fn places(&self) -> &[u16]
        ensures places { result.now ≡ places_in self.now }
        ensures low { 1 ≤ self.now.parts }
        ensures high { self.now.parts ≤ MAX_PARTS }
    {
        self.places.as_slice()
    }

    /// The permit that was spent on it.
    pub fn permit(&self) -> &Permit
        ensures { result.now ≡ self.now.permit }
    {
        self.writes.permit()
    }

    /// The stamp at which it writes.
    pub fn stamp(&self) -> Stamp
        ensures { result ≡ self.now.stamp }
    {
        self.writes.stamp()
    }

    /// The client that writes.
    pub fn client(&self) -> ClientNo
        ensures { result ≡ self.now.client }
    {
        self.client
    }

    /// The tag of the round.
    pub fn tag(&self) -> u64
        ensures { result ≡ self.now.tag }
    {
        self.tag
    }

    /// How many partitions there are.
    pub fn parts(&self) -> u16
        ensures { result ≡ self.now.parts }
    {
        self.parts
    }

    /// Gives the permit back, and the write up.
    pub fn give_up(self) -> Permit
        ensures { result ≡ self.permit }
    {
        let Writing {
            checked: _,
            writes,
            client: _,
            tag: _,
            parts: _,
            places,
            outstanding,
        } = self;
        drop(places);
        drop(outstanding);
        writes.back()
    }
}

/// The partitions of the items that are written, rising, twice.
fn places(alloc: Global, writes: &Writes, parts: u16) -> Result<(Vec<u16>, Vec<u16>), AllocError>
    requires low { 1 ≤ parts }
    requires high { parts ≤ MAX_PARTS }
    ensures places { IfOk result (λ r.
        r.0.items ≡ places_of parts (items_written (effect_of writes.now.permit writes.now.stamp))) }
    ensures twice { IfOk result (λ r. r.1.items ≡ r.0.items) }
{
    let items = items_written(alloc, writes.list())?;
    let places = places_of(alloc, parts, items.as_slice())?;
    let again = places.clone()?;
    Ok((places, again))
}
