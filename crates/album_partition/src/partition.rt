//! A partition, and what it does with a message.
ghost use Rattle.std.specs.Prelude.{[], ◌≡◌, ◌≤◌, true, IfOk, IfErr, OnOk, OnErr, IfSome, is_some, ◌||◌, ◌≢◌, ℕ, false, nat_lt, length, IsOk, Some, IsOkUnless, Ok, Err};
ghost use Rattle.std.specs.Option.{option_copied};
ghost use Rattle.album_stamps.specs.Outcome.{Makes};
ghost use Rattle.album_partition.specs.Answers.{with_action, action_of, after, answer, reply_to, wants_memory};
ghost use Rattle.album_partition.specs.History.{kept_mark};
ghost use Rattle.album_partition.specs.Marks.{ArePending, state_of, is_legal, load, pending_stamps, latest};
ghost use Rattle.album_partition.specs.Partition.{IsPartition, may_open, opening_state, opened};
ghost use Rattle.album_partition.specs.Proper.{are_proper_marks};
ghost use Rattle.album_partition.specs.Stored.{CanFollow, HasVersions};
ghost use Rattle.album_partition.specs.Sweeps.{swept};
ghost use Rattle.album_partition.specs.Trims.{trim_mark, trimmed};

mod answers;
mod openings;
mod sweeps;
mod trims;

use crate::figures::Figures;
use crate::first_values::FirstValues;
use crate::marks::{Mark, decided};
use crate::places::Seat;
use crate::stored::Stored;
use crate::votes::{Noted, let_go};
use album_calls::{Body, Message, Node, Reply};
use album_items::{ItemId, ItemValues};
use album_stamps::{Refusal, Refused, Stamp};
use album_terminate::StampState;
use answers::Action;
use std::alloc::{AllocError, Global};
use std::marker::Model;

/// A partition: a state machine over messages. Contracts see its number, what it opened with, its
/// marks and the votes that it noted.
#[derive(Debug)]
pub struct Partition {
    alloc: Global,
    /// Which partition this is, and of how many.
    seat: Seat,
    /// How many marks the history may have.
    limit: u64,
    /// The items that are placed here, with the values that the service opened with.
    items: FirstValues,
    stored: Stored,
    /// In the order in which they came, at most one of each partition on each pending stamp: as a
    /// stamp is decided, those on it are let go.
    votes: Vec<Noted>,
    /// Whether it takes checked Prepares alone.
    checked: bool,
}

impl Model for Partition {
    ghost use Rattle.album_partition.specs.Partition.{PartitionState, IsPartition};

    ghost Value = { PartitionState };

    ghost view = { λ p. record {
      number = p.seat.number;
      parts = p.seat.parts;
      limit = p.limit;
      items = p.items;
      marks = p.stored;
      votes = p.votes.items;
      checked = p.checked;
    } };

    ghost invariant = { λ p. IsPartition (record {
      number = p.seat.number;
      parts = p.seat.parts;
      limit = p.limit;
      items = p.items;
      marks = p.stored;
      votes = p.votes.items;
      checked = p.checked;
    }) };
}

// By hand, so that what lets it go is proved here, and not again in each crate above.
impl Drop for Partition {
    fn drop(self) {
        let Partition {
            alloc: _,
            seat: _,
            limit: _,
            items,
            stored,
            votes,
            checked: _,
        } = self;
        drop(items);
        drop(stored);
        drop(votes);
    }
}

impl Partition {
    /// The partition of this number, from 0, among so many. The items are those that are placed at
    /// it, with their first values, and its history may have so many marks.
    ///
    /// # Errors
    ///
    /// `NoSuchPart` where there are not as many partitions. Else `BadOpening` where there are not 1
    /// to 16 partitions, or the limit is not 2 to 1,000,000 marks. It is also `BadOpening` where an
    /// item occurs twice, is placed elsewhere, or has a value that is missing or of another kind. Else
    /// `OutOfMemory`. The items are handed back.
    pub fn new(
        alloc: Global,
        number: u16,
        parts: u16,
        items: ItemValues,
        limit: u64,
    ) -> Result<Partition, Refused<ItemValues>>
        ensures opened { IfOk result (λ partition. opened number parts items limit ≡ Ok partition) }
        ensures refused { IfErr result
            (λ e. e.refusal ≢ Refusal.OutOfMemory → opened number parts items limit ≡ Err e.refusal) }
        ensures memory { IfErr result
            (λ e. e.refusal ≡ Refusal.OutOfMemory → IsOk (opened number parts items limit)) }
        ensures given { IfErr result (λ e. e.given ≡ items) }
    {
        match Seat::at(number, parts, items.as_slice(), limit) {
            Ok(seat) => Partition::at(alloc, seat, items, limit),
            Err(refusal) => Err(Refused {
                refusal,
                given: items,
            }),
        }
    }

    /// The same partition, which has no mark yet. One that is checked takes checked Prepares alone, and another takes
    /// none of them.
    pub fn with_checks(self, checked: bool) -> Partition
        requires { self.marks ≡ [] }
        ensures { result ≡ record self { checked = checked } }
    {
        let mut partition = self;
        partition.checked = checked;
        partition
    }

    /// Does what the message asks, and gives the reply, if there is one: the table of answers. A
    /// message to another node does nothing.
    ///
    /// # Errors
    ///
    /// `OutOfMemory`, where something is kept or copied. Nothing changes then.
    pub fn receive(&mut self, message: &Message) -> Result<Option<Message>, Refusal>
        ensures changed { OnOk result (self.new ≡ after self.old message.now) }
        ensures answered { IfOk result (λ reply. reply ≡ answer self.old message.now) }
        ensures unchanged { OnErr result (self.new ≡ self.old) }
        ensures memory { IsOkUnless result Refusal.OutOfMemory }
        ensures wanted { OnErr result (wants_memory (action_of self.old message.now) ≡ true) }
    {
        if !message.to().is_part(self.seat.number) {
            return Ok(None);
        }
        // Of a Prepare `answers` asks first whether it is well-formed: `proper` decides that.
        let action = self.on_body(message.from(), message.body())?;
        match self.apply(action)? {
            None => Ok(None),
            Some(reply) => Ok(Some(self.reply_to(message, reply))),
        }
    }

    /// What is to be sent for a stamp that is pending here: a Check to each other partition of its
    /// items, in rising order, or where there is none, this partition's own vote to itself.
    ///
    /// # Errors
    ///
    /// `NotPrepared` where the stamp is not pending here. Else `OutOfMemory`.
    pub fn sweep(&self, stamp: Stamp) -> Result<Vec<Message>, Refusal>
        ensures { Makes (λ messages. messages.items) result (swept self.now stamp) }
    {
        match self.state(stamp) {
            StampState::Pending => self.ask_others(stamp),
            StampState::Unknown | StampState::Committed | StampState::Discarded => {
                Err(Refusal::NotPrepared)
            }
        }
    }

    /// Lets the versions of the item go that are below its latest stamp, which from then on is its
    /// floor: a Get with stamps that finds none kept is answered Gone. Where the floor is the latest
    /// stamp already, nothing is done.
    ///
    /// # Errors
    ///
    /// `Clash` where the item is placed elsewhere. Else `Full` where there is no room for the mark, as
    /// for a Prepare, and else `OutOfMemory`, both only where there is something to do. Nothing
    /// changes then.
    pub fn trim(&mut self, item: ItemId) -> Result<(), Refusal>
        ensures trimmed { OnOk result (trimmed self.old item ≡ Ok self.new) }
        ensures refused { IfErr result (λ e. e ≢ Refusal.OutOfMemory → trimmed self.old item ≡ Err e) }
        ensures memory { IfErr result
            (λ e. e ≡ Refusal.OutOfMemory → trim_mark self.old item ≡ Ok (Some (Mark.Trimmed item))) }
        ensures unchanged { OnErr result (self.new ≡ self.old) }
    {
        let action = self.on_trim(item)?;
        self.apply(action)?;
        Ok(())
    }

    /// The stamps that are pending here, rising.
    ///
    /// # Errors
    ///
    /// `OutOfMemory`.
    pub fn pending(&self) -> Result<Vec<Stamp>, Refusal>
        ensures stamps { IfOk result (λ stamps. ArePending self.now.marks stamps.items) }
        ensures memory { IsOkUnless result Refusal.OutOfMemory }
    {
        Ok(self.stored.pending(self.alloc)?)
    }

    /// Whether some stamp is pending here.
    pub fn has_pending(&self) -> bool
        ensures count { result ≡ nat_lt 0 (length (pending_stamps self.now.marks)) }
        ensures none { result ≡ false → (stamp : ℕ) → state_of self.now.marks stamp ≢ StampState.Pending }
    {
        self.stored.pending_count() > 0
    }

    /// How much it holds, and how many marks it may have.
    pub fn figures(&self) -> Figures
        ensures marks { result.marks ≡ length self.now.marks }
        ensures limit { result.limit ≡ self.now.limit }
        ensures pending { result.pending ≡ length (pending_stamps self.now.marks) }
        ensures versions { HasVersions self.now.marks result.versions }
    {
        Figures {
            marks: self.stored.marks().len() as u64,
            limit: self.limit,
            pending: self.stored.pending_count() as u64,
            versions: self.stored.version_count(),
        }
    }

    /// How many marks it has, and will have once each stamp that is pending is decided. It isn't counted what it holds.
    pub fn load(&self) -> u64
        ensures { result ≡ load self.now.marks }
    {
        self.stored.load()
    }

    /// How many marks it may have.
    pub fn limit(&self) -> u64
        ensures { result ≡ self.now.limit }
    {
        self.limit
    }

    /// The latest committed stamp of the item.
    pub fn latest(&self, item: ItemId) -> Stamp
        ensures { result ≡ latest self.now.marks item }
    {
        self.stored.latest(item)
    }

    /// The state of the stamp here.
    pub fn state(&self, stamp: Stamp) -> StampState
        ensures { result ≡ state_of self.now.marks stamp }
    {
        self.stored.state(stamp)
    }

    /// The mark that prepared the stamp, where it is pending or committed.
    pub fn prepared(&self, stamp: Stamp) -> Option<&Mark>
        ensures { option_copied result ≡ kept_mark self.now.marks stamp }
    {
        self.stored.prepared(stamp)
    }

    /// The marks that were made, in order.
    pub fn history(&self) -> &[Mark]
        ensures marks { result.now ≡ self.now.marks }
        ensures legal { is_legal result.now ≡ true }
        ensures room { load result.now ≤ self.now.limit }
        ensures proper { are_proper_marks self.now.number self.now.parts result.now ≡ true }
        ensures partition { IsPartition self.now }
    {
        self.stored.marks()
    }
}

impl Partition {
    /// The partition at the seat, which may open so.
    fn at(
        alloc: Global,
        seat: Seat,
        mut items: ItemValues,
        limit: u64,
    ) -> Result<Partition, Refused<ItemValues>>
        requires { may_open seat.number seat.parts limit items ≡ true }
        ensures partition { IfOk result (λ partition. partition ≡ opening_state seat.number seat.parts items limit) }
        ensures memory { IfErr result (λ e. e.refusal ≡ Refusal.OutOfMemory) }
        ensures given { IfErr result (λ e. e.given ≡ items) }
    {
        // The answers share the memory of the first values.
        if let Err(refusal) = items.make_shared() {
            return Err(Refused {
                refusal,
                given: items,
            });
        }
        match FirstValues::of(alloc, items.as_slice()) {
            Ok(values) => Ok(Partition {
                alloc,
                seat,
                limit,
                items: values,
                stored: Stored::new(alloc),
                votes: Vec::new(alloc),
                checked: false,
            }),
            Err(_) => Err(Refused {
                refusal: Refusal::OutOfMemory,
                given: items,
            }),
        }
    }

    /// Keeps what the action adds, and gives its reply. The votes on a stamp that it decides are let go.
    fn apply(&mut self, action: Action) -> Result<Option<Reply>, AllocError>
        requires follows { IfSome action.mark (CanFollow self.old.marks) }
        requires partition { IsPartition (with_action self.old action) }
        ensures ok { OnOk result (self.new ≡ with_action self.old action) }
        ensures reply { IfOk result (λ reply. reply ≡ action.reply) }
        ensures err { OnErr result (self.new ≡ self.old) }
        ensures wanted { OnErr result ((is_some action.mark || is_some action.vote) ≡ true) }
    {
        let Action { mark, vote, reply } = action;
        let stamp = decided(&mark);
        match vote {
            None => self.stored.add(mark)?,
            Some(vote) => {
                // Room first: once the mark is made, nothing may fail.
                self.votes.reserve(1)?;
                self.stored.add(mark)?;
                self.votes.push_reserved(vote);
            }
        }
        let_go(&mut self.votes, stamp);
        Ok(reply)
    }

    /// The reply goes to the sender, with the request's tag.
    fn reply_to(&self, message: &Message, reply: Reply) -> Message
        ensures { result ≡ reply_to self.now message.now reply }
    {
        let number = Node::Part(self.seat.number);
        Message::new(number, message.from(), message.tag(), Body::Reply(reply))
    }
}
