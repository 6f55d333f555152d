//! What a world keeps, and what each event does to it.
ghost use Rattle.std.specs.Prelude.{◌≡◌, ◌≢◌, ◌<◌, ℕ, length, slice_get, option_copied, Some, None, Ok, Err, IsOk, IfOk, IfErr, IfSome, OnErr, IfNone, IsOkUnless};
ghost use Rattle.album_calls.specs.declared.messages.Message.{Message as Sent};
ghost use Rattle.album_world.specs.Changes.{asks, change_of, client_takes, delivers, part_takes, stops, sweeps, trims};
ghost use Rattle.album_world.specs.Seen.{IsChanged, IsMade};
ghost use Rattle.album_world.specs.State.{message_of, client_at};

use crate::clients::Clients;
use crate::sending::{send, send_all, send_reply};
use crate::stopped::Stopped;
use album_calls::{Message, Node};
use album_client::Terms;
use album_eval::Principal;
use album_items::ItemId;
use album_partition::Partition;
use album_permits::{Event, Out};
use album_stamps::{ClientNo, MAX_READ_ITEMS, Refusal, Stamp};
use album_views::Ask;
use std::alloc::Global;
use std::marker::Model;

/// What a world keeps: the partitions, all messages that were ever sent, the clients that have asked, and those that
/// were stopped.
///
/// This is a struct of its own below `World`, since that some past leads to a world is an invariant of `World`. Each
/// method there would have to prove it anew. Here the work is done without it, and `World::step` proves it once.
#[derive(Drop)]
pub(crate) struct State {
    pub partitions: Vec<Partition>,
    pub messages: Vec<Message>,
    pub clients: Clients,
    pub stopped: Stopped,
}

impl Model for State {
    ghost use Rattle.album_world.specs.State.{Now};

    ghost Value = { Now };

    ghost view = { λ s. record {
      partitions = s.partitions.items;
      messages = s.messages.items;
      clients = s.clients;
      stopped = s.stopped;
    } };
}

impl State {
    /// Does what the event says, and gives its outputs. `World::step` names the errors.
    pub fn step(&mut self, alloc: Global, terms: Terms, event: &Event) -> Result<Vec<Out>, Refusal>
        ensures stop { IfErr result
            (λ e. e ≡ Refusal.OutOfMemory → (client : ℕ) → event.now ≢ Event.Stop client) }
        ensures done { IfOk result (λ outs. IsMade (change_of terms self.old event.now) self.old self.new outs.items) }
        ensures refused { IfErr result (λ e. e ≢ Refusal.OutOfMemory → change_of terms self.old event.now ≡ Err e) }
        ensures memory { IfErr result (λ e. e ≡ Refusal.OutOfMemory → IsOk (change_of terms self.old event.now)) }
        ensures unchanged { OnErr result (self.new ≡ self.old) }
    {
        match event {
            Event::Ask(client, principal, ask) => self.ask(alloc, terms, *client, principal, ask),
            Event::Deliver(number) => self.deliver(alloc, terms, *number),
            Event::Sweep(part, stamp) => self.sweep(alloc, *part, *stamp),
            Event::Stop(client) => self.stop(alloc, *client),
            Event::Trim(part, item) => self.trim(alloc, *part, *item),
        }
    }

    /// A client asks.
    #[tactic(auto, using(crate::proofs::StateLemmas::asking))]
    fn ask(
        &mut self,
        alloc: Global,
        terms: Terms,
        client: ClientNo,
        principal: &Principal,
        ask: &Ask,
    ) -> Result<Vec<Out>, Refusal>
        ensures done { IfOk result
            (λ outs. IsMade (asks terms self.old client principal.now ask.now) self.old self.new outs.items) }
        ensures refused { IfErr result
            (λ e. e ≢ Refusal.OutOfMemory → asks terms self.old client principal.now ask.now ≡ Err e) }
        ensures memory { IfErr result
            (λ e. e ≡ Refusal.OutOfMemory → IsOk (asks terms self.old client principal.now ask.now)) }
        ensures unchanged { OnErr result (self.new ≡ self.old) }
    {
        if self.stopped.has(client) {
            return Err(Refusal::Stopped);
        }
        self.clients.may_ask(terms, client, principal, ask)?;
        // Room first, for the most messages that a client sends at one event.
        self.messages.reserve(MAX_READ_ITEMS)?;
        let before = self.messages.len() as u64;
        let (sent, outs) = self
            .clients
            .ask(alloc, terms, client, principal, ask, before)?;
        send(&mut self.messages, sent);
        Ok(outs)
    }

    /// The message of this number is delivered to its receiver.
    #[tactic(auto, using(crate::proofs::StateLemmas::delivering))]
    fn deliver(&mut self, alloc: Global, terms: Terms, number: u64) -> Result<Vec<Out>, Refusal>
        ensures done { IfOk result
            (λ outs. IsMade (delivers terms self.old (message_of self.old.messages number))
            self.old self.new outs.items) }
        ensures refused { IfErr result
            (λ e. e ≢ Refusal.OutOfMemory → delivers terms self.old (message_of self.old.messages number) ≡ Err e) }
        ensures memory { IfErr result
            (λ e. e ≡ Refusal.OutOfMemory → IsOk (delivers terms self.old (message_of self.old.messages number))) }
        ensures unchanged { OnErr result (self.new ≡ self.old) }
    {
        let Some(index) = self.index_of(number) else {
            return Err(Refusal::NoSuchMessage);
        };
        let outs = match self.messages[index].to() {
            Node::Part(part) => self.deliver_to_partition(alloc, part, index)?,
            Node::Client(client) => self.deliver_to_client(alloc, terms, client, index)?,
        };
        Ok(outs)
    }

    /// The index of the message of this number.
    fn index_of(&self, number: u64) -> Option<usize>
        ensures found { IfSome result
            (λ index. message_of self.now.messages number ≡ slice_get self.now.messages index) }
        ensures inside { IfSome result (λ index. index < length self.now.messages) }
        ensures missing { IfNone result (message_of self.now.messages number ≡ None) }
    {
        if number == 0 || number > self.messages.len() as u64 {
            return None;
        }
        Some(number as usize - 1)
    }

    /// The message of this number.
    pub fn message(&self, number: u64) -> Option<&Message>
        ensures { option_copied result ≡ message_of self.now.messages number }
    {
        match self.index_of(number) {
            Some(index) => Some(&self.messages[index]),
            None => None,
        }
    }

    /// The message at this index is delivered to a partition. One that isn't there takes nothing.
    #[tactic(auto, using(crate::proofs::StateLemmas::changing_a_part))]
    fn deliver_to_partition(
        &mut self,
        alloc: Global,
        part: u16,
        index: usize,
    ) -> Result<Vec<Out>, Refusal>
        requires { index < length self.old.messages }
        ensures changed { (message : Sent) → slice_get self.old.messages index ≡ Some message → IfOk result
            (λ outs. IsChanged self.old (part_takes part message (slice_get self.old.partitions part))
            self.new outs.items) }
        ensures unchanged { OnErr result (self.new ≡ self.old) }
        ensures memory { IsOkUnless result Refusal.OutOfMemory }
    {
        let part = usize::from(part);
        if part >= self.partitions.len() {
            return Ok(Vec::new(alloc));
        }
        // Room first: once the partition has received the message, nothing may fail.
        self.messages.reserve(1)?;
        let outs = Vec::with_capacity(alloc, 1)?;
        match self.partitions[part].receive(&self.messages[index]) {
            Ok(reply) => Ok(send_reply(&mut self.messages, outs, reply)),
            Err(refusal) => {
                drop(outs);
                Err(refusal)
            }
        }
    }

    /// The message at this index is delivered to a client. A stopped one takes nothing.
    #[tactic(auto, using(crate::proofs::StateLemmas::changing_a_client))]
    fn deliver_to_client(
        &mut self,
        alloc: Global,
        terms: Terms,
        client: ClientNo,
        index: usize,
    ) -> Result<Vec<Out>, Refusal>
        requires { index < length self.old.messages }
        ensures changed { (message : Sent) → slice_get self.old.messages index ≡ Some message → IfOk result
            (λ outs. IsChanged self.old (client_takes terms self.old client (client_at self.old.clients client) message)
            self.new outs.items) }
        ensures unchanged { OnErr result (self.new ≡ self.old) }
        ensures memory { IsOkUnless result Refusal.OutOfMemory }
    {
        if self.stopped.has(client) {
            return Ok(Vec::new(alloc));
        }
        // Room first, for the most messages that a client sends at one event.
        self.messages.reserve(MAX_READ_ITEMS)?;
        let before = self.messages.len() as u64;
        let (sent, outs) = self
            .clients
            .take(alloc, terms, client, &self.messages[index], before)?;
        send(&mut self.messages, sent);
        Ok(outs)
    }

    /// The partition asks the other participants for their votes on the stamp.
    #[tactic(auto, using(crate::proofs::StateLemmas::sweeping))]
    fn sweep(&mut self, alloc: Global, part: u16, stamp: Stamp) -> Result<Vec<Out>, Refusal>
        ensures done { IfOk result
            (λ outs. IsMade (sweeps part stamp (slice_get self.old.partitions part)) self.old self.new outs.items) }
        ensures refused { IfErr result
            (λ e. e ≢ Refusal.OutOfMemory → sweeps part stamp (slice_get self.old.partitions part) ≡ Err e) }
        ensures memory { IfErr result
            (λ e. e ≡ Refusal.OutOfMemory → IsOk (sweeps part stamp (slice_get self.old.partitions part))) }
        ensures unchanged { OnErr result (self.new ≡ self.old) }
    {
        let part = usize::from(part);
        if part >= self.partitions.len() {
            return Err(Refusal::NoSuchPart);
        }
        let sent = self.partitions[part].sweep(stamp)?;
        let outs = send_all(&mut self.messages, alloc, sent)?;
        Ok(outs)
    }

    /// The client stops for good.
    #[tactic(auto, using(crate::proofs::StateLemmas::stopped_done, crate::proofs::StateLemmas::stopped_refused))]
    fn stop(&mut self, alloc: Global, client: ClientNo) -> Result<Vec<Out>, Refusal>
        ensures done { IfOk result (λ outs. IsMade (stops self.old client) self.old self.new outs.items) }
        ensures refused { IfErr result (λ e. e ≢ Refusal.OutOfMemory → stops self.old client ≡ Err e) }
        ensures memory { IfErr result (λ e. e ≢ Refusal.OutOfMemory) }
        ensures unchanged { OnErr result (self.new ≡ self.old) }
    {
        if self.stopped.has(client) {
            return Err(Refusal::Stopped);
        }
        self.stopped.add(client);
        Ok(Vec::new(alloc))
    }

    /// The partition drops versions of the item below its latest stamp.
    #[tactic(auto, using(crate::proofs::StateLemmas::trimming))]
    fn trim(&mut self, alloc: Global, part: u16, item: ItemId) -> Result<Vec<Out>, Refusal>
        ensures done { IfOk result
            (λ outs. IsMade (trims part item (slice_get self.old.partitions part)) self.old self.new outs.items) }
        ensures refused { IfErr result
            (λ e. e ≢ Refusal.OutOfMemory → trims part item (slice_get self.old.partitions part) ≡ Err e) }
        ensures memory { IfErr result
            (λ e. e ≡ Refusal.OutOfMemory → IsOk (trims part item (slice_get self.old.partitions part))) }
        ensures unchanged { OnErr result (self.new ≡ self.old) }
    {
        let part = usize::from(part);
        if part >= self.partitions.len() {
            return Err(Refusal::NoSuchPart);
        }
        self.partitions[part].trim(item)?;
        Ok(Vec::new(alloc))
    }
}
