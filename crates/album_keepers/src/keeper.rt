//! A partition, with the owner of its history.
ghost use Rattle.std.specs.Prelude.{◌≡◌, ◌≢◌, ◌<◌, ◌≤◌, ℕ, false, length, map, take, All, option_map, None, Ok, Err, IfOk, IfErr, IfSome, OnOk, OnErr, IsOkUnless};
ghost use Rattle.album_items.specs.declared.values.Value.{Value};
ghost use Rattle.album_partition.specs.Answers.{after, answer};
ghost use Rattle.album_partition.specs.Marks.{pending_stamps, latest, load, state_of};
ghost use Rattle.album_partition.specs.Partition.{PartitionState};
ghost use Rattle.album_partition.specs.Sweeps.{swept};
ghost use Rattle.album_passes.specs.Cuts.{Extends, IsSound, prefix_at};
ghost use Rattle.album_keepers.specs.Controls.{Answers, AnswersHistory, AnswersPending, AnswersTrimmed};
ghost use Rattle.album_keepers.specs.Keepers.{IsKeeper, IsNext};
ghost use Rattle.album_passes.specs.Reads.{IsCommitted};
ghost use Rattle.album_keepers.specs.Envelopes.{Shows, IsAnswered};
ghost use Rattle.album_keepers.specs.Held.{stamp_prepared, IsCoveredAmong, IsCoveredBy};
ghost use Rattle.album_keepers.specs.Rounds.{RepliesTo};
ghost use Rattle.album_keepers.specs.Settling.{stamps_in, own_commit, is_unsettled, settle_one, settled, AreSettledIn};

use crate::control::{Control, ControlAnswer, ControlReply, ControlRequest};
use crate::envelopes::{ReplyEnvelope, RequestEnvelope};
use crate::log_entries::LogEntry;
use crate::names::DeskNames;
use crate::round_reply::RoundReply;
use album_calls::{Body, Message, Node, Reply, Request, Stamps, Vote};
use album_items::ItemId;
use album_partition::{Figures, Mark, Partition};
use album_passes::{Desk, Owner, Pass};
use album_stamps::{Refusal, Stamp};
use album_terminate::StampState;
use std::alloc::{AllocError, Global};
use std::marker::{Model, PhantomData};

/// A partition, with the owner of its history: what a partition's thread keeps. Each mark is made in
/// both, so the owner's cut shows the partition as it is. Contracts see both.
#[derive(Drop)]
pub(crate) struct PartitionKeeper<J: DeskNames> {
    /// The partition's number.
    part: u16,
    partition: Partition,
    owner: Owner,
    of: PhantomData<J>,
}

impl<J: DeskNames> Model for PartitionKeeper<J> {
    ghost use Rattle.std.specs.Prelude.{◌≡◌};
    ghost use Rattle.album_keepers.specs.Keepers.{KeeperState, IsKeeper};

    ghost Value = { KeeperState };

    ghost view = { λ k. record { partition = k.partition; owner = k.owner } };

    ghost invariant = { λ k. (k.part ≡ k.partition.number)
        × IsKeeper J.table J.terms.limit (record { partition = k.partition; owner = k.owner }) };
}

impl<J: DeskNames> PartitionKeeper<J> {
    /// The partition of this number with this owner.
    pub(crate) fn new(part: u16, partition: Partition, owner: Owner) -> PartitionKeeper<J>
        requires number { part ≡ partition.number }
        requires is { IsKeeper J.table J.terms.limit (record { partition = partition; owner = owner }) }
        ensures { result ≡ record { partition = partition; owner = owner } }
    {
        PartitionKeeper {
            part,
            partition,
            owner,
            of: PhantomData,
        }
    }

    /// Takes in the envelope's pass, settles the stamps of a Get, does what the message asks, and gives the reply, if
    /// there is one: the table of answers. The reply's pass shows the partition as it is then, and all that the
    /// envelope's pass has seen.
    ///
    /// # Errors
    ///
    /// `OutOfMemory`. The partition stays as it is, but for stamps that are settled by then.
    pub(crate) fn receive(
        &mut self,
        desk: &Desk,
        envelope: RequestEnvelope<J>,
    ) -> Result<Option<ReplyEnvelope<J>>, Refusal>
        requires table { desk.now.table ≡ J.table }
        requires terms { desk.now.terms ≡ J.terms }
        ensures changed { OnOk result (self.new.partition
            ≡ after (settled self.old.partition (stamps_in envelope.message.body)) envelope.message) }
        ensures answered { IfOk result (λ reply. option_map (λ some. some.reply) reply
            ≡ answer (settled self.old.partition (stamps_in envelope.message.body)) envelope.message) }
        ensures request { IfOk result (λ reply. IfSome reply (λ some. some.request ≡ envelope.message)) }
        ensures point { IfOk result (λ reply. IfSome reply (λ some. some.pass.cut ≡ self.new.owner.cut)) }
        ensures grown { Extends self.old.owner.cut self.new.owner.cut }
        ensures heard { Extends envelope.pass.cut self.new.owner.cut }
        ensures unchanged { OnErr result ((count : ℕ)
            × (self.new.partition ≡ settled self.old.partition (take count (stamps_in envelope.message.body)))) }
        ensures memory { IsOkUnless result Refusal.OutOfMemory }
    {
        let (message, pass) = envelope.open();
        self.hear(desk, pass);
        match self.answer_at(desk, 0, &message) {
            Ok(Some(given)) => Ok(Some(envelope_of(message, given))),
            Ok(None) => {
                drop(message);
                Ok(None)
            }
            Err(refusal) => {
                drop(message);
                Err(refusal)
            }
        }
    }

    /// The same of a message that stays with whoever has sent it. All that its sender had seen was heard before, and
    /// the reply has the message's index.
    ///
    /// # Errors
    ///
    /// As `receive`.
    pub(crate) fn answer_at(
        &mut self,
        desk: &Desk,
        index: usize,
        message: &Message,
    ) -> Result<Option<RoundReply<J>>, Refusal>
        requires table { desk.now.table ≡ J.table }
        requires terms { desk.now.terms ≡ J.terms }
        requires sound { IsSound self.old.owner.cut }
        requires inside { self.old.owner.part < self.old.owner.cut.parts }
        requires shown { Shows self.old.owner.cut message.now }
        ensures changed { OnOk result (self.new.partition
            ≡ after (settled self.old.partition (stamps_in message.now.body)) message.now) }
        ensures answered { IfOk result (λ reply. option_map (λ some. some.reply) reply
            ≡ answer (settled self.old.partition (stamps_in message.now.body)) message.now) }
        ensures index { IfOk result (λ reply. IfSome reply (λ some. some.index ≡ index)) }
        ensures replies { IfOk result (λ reply. IfSome reply (RepliesTo J.terms.limit message.now)) }
        ensures point { IfOk result (λ reply. IfSome reply (λ some. some.pass.cut ≡ self.new.owner.cut)) }
        ensures grown { Extends self.old.owner.cut self.new.owner.cut }
        ensures sound { IsSound self.new.owner.cut }
        ensures inside { self.new.owner.part < self.new.owner.cut.parts }
        ensures unchanged { OnErr result ((count : ℕ)
            × (self.new.partition ≡ settled self.old.partition (take count (stamps_in message.now.body)))) }
        ensures memory { IsOkUnless result Refusal.OutOfMemory }
    {
        match self.reply_to(desk, message) {
            Ok(Some(reply)) => Ok(Some(self.round_reply_of(desk, index, message, reply))),
            Ok(None) => Ok(None),
            Err(refusal) => Err(refusal),
        }
    }

    /// The reply to the message, if there is one, once the stamps of a Get are settled, and what the message asks is
    /// done.
    ///
    /// # Errors
    ///
    /// `OutOfMemory`. What is settled by then stays so.
    fn reply_to(&mut self, desk: &Desk, message: &Message) -> Result<Option<Message>, Refusal>
        requires table { desk.now.table ≡ J.table }
        requires terms { desk.now.terms ≡ J.terms }
        requires sound { IsSound self.old.owner.cut }
        requires inside { self.old.owner.part < self.old.owner.cut.parts }
        requires shown { Shows self.old.owner.cut message.now }
        ensures changed { OnOk result (self.new.partition
            ≡ after (settled self.old.partition (stamps_in message.now.body)) message.now) }
        ensures answered { IfOk result (λ reply. reply
            ≡ answer (settled self.old.partition (stamps_in message.now.body)) message.now) }
        ensures replied { IfOk result (λ reply. IfSome reply
            (IsAnswered J.terms.limit self.new.owner.cut message.now)) }
        ensures sender { IfOk result (λ reply. IfSome reply
            (λ some. some.from ≡ Node.Part self.new.partition.number)) }
        ensures grown { Extends self.old.owner.cut self.new.owner.cut }
        ensures sound { IsSound self.new.owner.cut }
        ensures inside { self.new.owner.part < self.new.owner.cut.parts }
        ensures unchanged { OnErr result ((count : ℕ)
            × (self.new.partition ≡ settled self.old.partition (take count (stamps_in message.now.body)))) }
        ensures memory { IsOkUnless result Refusal.OutOfMemory }
    {
        self.settle(desk, message)?;
        let taken = self.take(desk, message);
        self.owner.is_sound();
        taken
    }

    /// The reply to the message of this index, with a pass of the owner's.
    fn round_reply_of(
        &mut self,
        desk: &Desk,
        index: usize,
        message: &Message,
        reply: Message,
    ) -> RoundReply<J>
        requires table { desk.now.table ≡ J.table }
        requires answered { IsAnswered J.terms.limit self.old.owner.cut message.now reply }
        requires sender { reply.from ≡ Node.Part self.old.partition.number }
        ensures reply { result.reply ≡ reply }
        ensures index { result.index ≡ index }
        ensures replies { RepliesTo J.terms.limit message.now result }
        ensures point { result.pass.cut ≡ self.new.owner.cut }
        ensures same { self.new ≡ self.old }
    {
        // What was asked is for the contract alone.
        let _message = message;
        let overtaken = self.has_newer(&reply);
        let below = self.settled_below();
        let pass = self.owner.split(desk);
        RoundReply::new(index, reply, overtaken, below, pass)
    }

    /// What a log is to keep before the reply leaves: where it says that a stamp is prepared here, the mark that has
    /// prepared it.
    ///
    /// # Errors
    ///
    /// As `entry_for`.
    pub(crate) fn entry_of(&self, reply: &ReplyEnvelope<J>) -> Result<Option<LogEntry>, AllocError>
        requires { reply.now.pass.cut ≡ self.now.owner.cut }
        ensures { IfOk result (λ entry. IsCoveredBy entry reply.now) }
    {
        self.entry_for(reply.reply())
    }

    /// The same of a message that the partition sends.
    ///
    /// # Errors
    ///
    /// `AllocError`, also where there is no such mark, which can't be.
    pub(crate) fn entry_for(&self, message: &Message) -> Result<Option<LogEntry>, AllocError>
        ensures among { IfOk result (λ entry. IsCoveredAmong self.now.partition.marks entry message.now) }
        ensures part { IfOk result (λ entry. IfSome entry (λ entry. entry.part ≡ self.now.partition.number)) }
        ensures shown { self.now.partition.marks ≡ prefix_at self.now.owner.cut self.now.partition.number }
    {
        let part = self.part;
        let Some(stamp) = stamp_prepared(message) else {
            return Ok(None);
        };
        if !message.from().is_part(part) {
            return Err(AllocError);
        }
        match self.partition.prepared(stamp) {
            None => Err(AllocError),
            Some(mark) => Ok(Some(LogEntry {
                part,
                mark: mark.copy()?,
            })),
        }
    }

    /// Whether the message goes to this partition.
    pub(crate) fn takes(&self, message: &Message) -> bool {
        message.to().is_part(self.part)
    }

    /// How much the partition has.
    pub(crate) fn figures(&self) -> Figures
        ensures marks { result.marks ≡ length self.now.partition.marks }
        ensures limit { result.limit ≡ self.now.partition.limit }
        ensures pending { result.pending ≡ length (pending_stamps self.now.partition.marks) }
    {
        self.partition.figures()
    }

    /// How many marks it has and will have, and how many it may have.
    pub(crate) fn load(&self) -> (u64, u64)
        ensures marks { result.0 ≡ load self.now.partition.marks }
        ensures limit { result.1 ≡ self.now.partition.limit }
    {
        (self.partition.load(), self.partition.limit())
    }

    /// Whether a newer version of the item is committed here than the one that the message replies.
    fn has_newer(&self, message: &Message) -> bool
        ensures { result ≡ false → (item stamp : ℕ) (value : Value)
            → message.now.body ≡ Body.Reply (Reply.Version item stamp value)
            → latest self.now.partition.marks item ≤ stamp }
    {
        match message.body() {
            Body::Reply(Reply::Version(item, stamp, _)) => {
                stamp.value() < self.partition.latest(*item).value()
            }
            Body::Reply(_) | Body::Request(_) => false,
        }
    }

    /// The least stamp that is pending here, or else the greatest number. Without memory to list them it is 0, which
    /// says nothing.
    fn settled_below(&self) -> u64
        ensures { (stamp : ℕ) → stamp < result → state_of self.now.partition.marks stamp ≢ StampState.Pending }
    {
        // Mostly nothing is pending, and then there is nothing to list.
        if !self.partition.has_pending() {
            return u64::MAX;
        }
        match self.partition.pending() {
            Ok(stamps) => least_of(&stamps),
            Err(_) => 0,
        }
    }

    /// Takes in all that the pass has seen.
    pub(crate) fn hear(&mut self, desk: &Desk, pass: Pass)
        requires table { desk.now.table ≡ J.table }
        requires of { pass.table ≡ J.table }
        requires unnumbered { pass.number ≡ None }
        ensures partition { self.new.partition ≡ self.old.partition }
        ensures grown { Extends self.old.owner.cut self.new.owner.cut }
        ensures heard { Extends pass.cut self.new.owner.cut }
        ensures sound { IsSound self.new.owner.cut }
        ensures inside { self.new.owner.part < self.new.owner.cut.parts }
    {
        self.owner.join(desk, pass);
    }

    /// Commits those stamps of a Get that are pending here. The sender of the Get has seen each committed at some
    /// partition; so each participant has prepared it, and it will be committed here too. Committed now, it is found by
    /// whoever reads later, whether or not the writer's Commit has come by then.
    ///
    /// # Errors
    ///
    /// `OutOfMemory`. What is committed by then stays so.
    fn settle(&mut self, desk: &Desk, message: &Message) -> Result<(), Refusal>
        requires table { desk.now.table ≡ J.table }
        requires terms { desk.now.terms ≡ J.terms }
        requires sound { IsSound self.old.owner.cut }
        requires inside { self.old.owner.part < self.old.owner.cut.parts }
        requires shown { Shows self.old.owner.cut message.now }
        ensures settled { OnOk result (self.new.partition
            ≡ settled self.old.partition (stamps_in message.now.body)) }
        ensures none { OnOk result (AreSettledIn self.new.partition.marks (stamps_in message.now.body)) }
        ensures unchanged { OnErr result ((count : ℕ)
            × (self.new.partition ≡ settled self.old.partition (take count (stamps_in message.now.body)))) }
        ensures memory { IsOkUnless result Refusal.OutOfMemory }
        ensures grown { Extends self.old.owner.cut self.new.owner.cut }
        ensures sound { IsSound self.new.owner.cut }
        ensures inside { self.new.owner.part < self.new.owner.cut.parts }
    {
        // Mostly nothing is pending, and then no stamp has to be looked up.
        if !self.partition.has_pending() {
            return Ok(());
        }
        for stamp in stamps_in(message) {
            self.settle_one(desk, *stamp)?;
        }
        Ok(())
    }

    /// Commits the stamp, if it is a write's and pending here.
    ///
    /// # Errors
    ///
    /// `OutOfMemory`. Nothing changes then.
    fn settle_one(&mut self, desk: &Desk, stamp: Stamp) -> Result<(), Refusal>
        requires table { desk.now.table ≡ J.table }
        requires terms { desk.now.terms ≡ J.terms }
        requires sound { IsSound self.old.owner.cut }
        requires inside { self.old.owner.part < self.old.owner.cut.parts }
        requires committed { stamp ≢ 0 → IsCommitted self.old.owner.cut stamp }
        ensures settled { OnOk result (self.new.partition ≡ settle_one self.old.partition stamp) }
        ensures unchanged { OnErr result (self.new ≡ self.old) }
        ensures memory { IsOkUnless result Refusal.OutOfMemory }
        ensures grown { Extends self.old.owner.cut self.new.owner.cut }
        ensures sound { IsSound self.new.owner.cut }
        ensures inside { self.new.owner.part < self.new.owner.cut.parts }
    {
        if !self.is_unsettled(stamp) {
            return Ok(());
        }
        drop(self.take_own_commit(desk, stamp)?);
        self.owner.is_sound();
        Ok(())
    }

    /// Takes a Commit of the stamp from the partition itself, and gives the reply, if there is one.
    ///
    /// # Errors
    ///
    /// `OutOfMemory`. Nothing changes then.
    fn take_own_commit(&mut self, desk: &Desk, stamp: Stamp) -> Result<Option<Message>, Refusal>
        requires table { desk.now.table ≡ J.table }
        requires terms { desk.now.terms ≡ J.terms }
        requires sound { IsSound self.old.owner.cut }
        requires inside { self.old.owner.part < self.old.owner.cut.parts }
        requires committed { IsCommitted self.old.owner.cut stamp }
        ensures changed { OnOk result
            (self.new.partition ≡ after self.old.partition (own_commit self.old.partition stamp)) }
        ensures unchanged { OnErr result (self.new ≡ self.old) }
        ensures memory { IsOkUnless result Refusal.OutOfMemory }
        ensures grown { Extends self.old.owner.cut self.new.owner.cut }
    {
        let commit = own_commit(self.part, stamp);
        let taken = self.take(desk, &commit);
        drop(commit);
        taken
    }

    /// Whether the stamp is a write's, and pending here.
    fn is_unsettled(&self, stamp: Stamp) -> bool
        ensures { result ≡ is_unsettled self.now.partition stamp }
    {
        stamp.value() != 0 && matches!(self.partition.state(stamp), StampState::Pending)
    }

    /// Does what the message asks, and makes its mark, if it makes one, in the owner's history too.
    fn take(&mut self, desk: &Desk, message: &Message) -> Result<Option<Message>, Refusal>
        requires table { desk.now.table ≡ J.table }
        requires terms { desk.now.terms ≡ J.terms }
        requires sound { IsSound self.old.owner.cut }
        requires inside { self.old.owner.part < self.old.owner.cut.parts }
        requires shown { Shows self.old.owner.cut message.now }
        requires settled { AreSettledIn self.old.partition.marks (stamps_in message.now.body) }
        ensures changed { OnOk result (self.new.partition ≡ after self.old.partition message.now) }
        ensures answered { IfOk result (λ reply. reply ≡ answer self.old.partition message.now) }
        ensures replied { IfOk result (λ reply. IfSome reply
            (IsAnswered J.terms.limit self.new.owner.cut message.now)) }
        ensures grown { Extends self.old.owner.cut self.new.owner.cut }
        ensures unchanged { OnErr result (self.new ≡ self.old) }
        ensures memory { IsOkUnless result Refusal.OutOfMemory }
    {
        let before = self.partition.history().len();
        match self.partition.receive(message) {
            Err(refusal) => Err(refusal),
            Ok(reply) => {
                append_next(&mut self.owner, desk, &self.partition, before);
                Ok(reply)
            }
        }
    }
}

impl<J: DeskNames> PartitionKeeper<J> {
    /// Joins the request's pass, carries the request out, and gives the reply. Envelopes to other partitions are put
    /// into `envelopes`. The reply's pass has seen all that the request's has.
    pub(crate) fn inquire(
        &mut self,
        alloc: Global,
        desk: &Desk,
        request: ControlRequest<J>,
        envelopes: &mut Vec<RequestEnvelope<J>>,
    ) -> ControlReply<J>
        requires table { desk.now.table ≡ J.table }
        requires terms { desk.now.terms ≡ J.terms }
        ensures part { result.part ≡ self.old.partition.number }
        ensures tag { result.tag ≡ request.tag }
        ensures control { result.control ≡ request.control }
        ensures point { result.pass.cut ≡ self.new.owner.cut }
        ensures grown { Extends self.old.owner.cut self.new.owner.cut }
        ensures heard { Extends request.pass.cut self.new.owner.cut }
        ensures asked { (stamp : ℕ) → request.control ≡ Control.Sweep stamp → OnOk result.answer
            (swept self.old.partition stamp ≡ Ok (map (λ envelope. envelope.message) envelopes.new.items)) }
    {
        // The control is wanted twice: it is carried out, and goes back with the reply.
        let asked = request.control();
        let (tag, control, pass) = request.open();
        self.hear(desk, pass);
        let answer = self.answer(alloc, desk, asked, envelopes);
        let pass = self.owner.split(desk);
        ControlReply::new(self.part, tag, control, answer, pass)
    }

    /// Carries the request out, and gives the answer. Envelopes to other partitions are put into `envelopes`.
    fn answer(
        &mut self,
        alloc: Global,
        desk: &Desk,
        control: Control,
        envelopes: &mut Vec<RequestEnvelope<J>>,
    ) -> Result<ControlAnswer, Refusal>
        requires table { desk.now.table ≡ J.table }
        requires terms { desk.now.terms ≡ J.terms }
        requires sound { IsSound self.old.owner.cut }
        ensures answered { Answers J.terms.limit self.new.owner.cut self.new.partition.number control result }
        ensures number { self.new.partition.number ≡ self.old.partition.number }
        ensures grown { Extends self.old.owner.cut self.new.owner.cut }
        ensures asked { (stamp : ℕ) → control ≡ Control.Sweep stamp → OnOk result
            (swept self.old.partition stamp ≡ Ok (map (λ envelope. envelope.message) envelopes.new.items)) }
    {
        match control {
            Control::Pending => self.pending(),
            Control::History => self.history(alloc),
            Control::Trim(item) => self.trim(desk, item),
            Control::Sweep(stamp) => match self.sweep(alloc, desk, stamp) {
                Err(refusal) => Err(refusal),
                Ok(asked) => {
                    *envelopes = asked;
                    Ok(ControlAnswer::Swept)
                }
            },
        }
    }

    /// The stamps that are pending.
    fn pending(&self) -> Result<ControlAnswer, Refusal>
        ensures { AnswersPending (prefix_at self.now.owner.cut self.now.partition.number) result }
    {
        match self.partition.pending() {
            Ok(stamps) => Ok(ControlAnswer::Pending(Stamps::of(stamps))),
            Err(refusal) => Err(refusal),
        }
    }

    /// All marks that were made.
    fn history(&self, alloc: Global) -> Result<ControlAnswer, Refusal>
        ensures { AnswersHistory (prefix_at self.now.owner.cut self.now.partition.number) result }
    {
        match copies_of(alloc, self.partition.history()) {
            Ok(marks) => Ok(ControlAnswer::History(marks)),
            Err(AllocError) => Err(Refusal::OutOfMemory),
        }
    }

    /// What goes to other partitions for a stamp that is pending, as envelopes.
    fn sweep(
        &mut self,
        alloc: Global,
        desk: &Desk,
        stamp: Stamp,
    ) -> Result<Vec<RequestEnvelope<J>>, Refusal>
        requires table { desk.now.table ≡ J.table }
        requires sound { IsSound self.old.owner.cut }
        ensures envelopes { IfOk result (λ envelopes. swept self.old.partition stamp
            ≡ Ok (map (λ envelope. envelope.message) envelopes.items)) }
        ensures refused { IfErr result (λ e. e ≢ Refusal.OutOfMemory → swept self.old.partition stamp ≡ Err e) }
        ensures shown { prefix_at self.old.owner.cut self.old.partition.number ≡ self.old.partition.marks }
        ensures same { self.new ≡ self.old }
    {
        let messages = self.partition.sweep(stamp)?;
        envelopes_of(alloc, desk, &mut self.owner, &messages)
    }

    /// Trims the item.
    fn trim(&mut self, desk: &Desk, item: ItemId) -> Result<ControlAnswer, Refusal>
        requires table { desk.now.table ≡ J.table }
        requires terms { desk.now.terms ≡ J.terms }
        ensures answered { AnswersTrimmed J.terms.limit self.new.owner.cut self.new.partition.number item result }
        ensures number { self.new.partition.number ≡ self.old.partition.number }
        ensures grown { Extends self.old.owner.cut self.new.owner.cut }
    {
        let before = self.partition.history().len();
        match self.partition.trim(item) {
            Err(refusal) => Err(refusal),
            Ok(()) => {
                append_next(&mut self.owner, desk, &self.partition, before);
                Ok(ControlAnswer::Trimmed)
            }
        }
    }
}

/// The same marks once more. They share the memory of the values.
///
/// # Errors
///
/// `AllocError`.
fn copies_of(alloc: Global, marks: &[Mark]) -> Result<Vec<Mark>, AllocError>
    ensures { IfOk result (λ copies. copies.items ≡ marks.now) }
{
    let mut copies = Vec::with_capacity(alloc, marks.len())?;
    for mark in marks {
        copies.push(mark.copy()?)?;
    }
    Ok(copies)
}

/// The stamp of which the message says that its sender has prepared it: the answer to a Prepare, or a vote.
fn stamp_prepared(message: &Message) -> Option<Stamp>
    ensures { result ≡ stamp_prepared message.now.body }
{
    match message.body() {
        Body::Request(_) => None,
        Body::Reply(Reply::Prepared(stamp)) => Some(*stamp),
        Body::Reply(Reply::Status(stamp, Vote::Prepared)) => Some(*stamp),
        Body::Reply(_) => None,
    }
}

/// A number that is no greater than any of the stamps.
fn least_of(stamps: &[Stamp]) -> u64
    ensures { All (λ stamp. result ≤ stamp) stamps.now }
{
    let mut least = u64::MAX;
    for stamp in stamps {
        least = least.min(stamp.value());
    }
    least
}

/// The stamps with which the message asks: those of a Get.
fn stamps_in(message: &Message) -> &[Stamp]
    ensures { result.now ≡ stamps_in message.now.body }
{
    match message.body() {
        Body::Request(Request::Get(_, stamps)) => stamps.as_slice(),
        Body::Request(_) | Body::Reply(_) => &[],
    }
}

/// A Commit of the stamp, from the partition to itself.
fn own_commit(part: u16, stamp: Stamp) -> Message
    ensures { (partition : PartitionState) → part ≡ partition.number → result ≡ own_commit partition stamp }
{
    Message::new(
        Node::Part(part),
        Node::Part(part),
        0,
        Body::Request(Request::Commit(stamp)),
    )
}

/// The reply to the message as an envelope.
fn envelope_of<J: DeskNames>(message: Message, given: RoundReply<J>) -> ReplyEnvelope<J>
    requires { RepliesTo J.terms.limit message given }
    ensures reply { result.reply ≡ given.reply }
    ensures request { result.request ≡ message }
    ensures point { result.pass.cut ≡ given.pass.cut }
{
    let (overtaken, below) = (given.is_overtaken(), given.settled_below());
    let (reply, pass) = given.open();
    ReplyEnvelope::new(message, reply, overtaken, below, pass)
}

/// The messages as envelopes, with passes of the owner's.
fn envelopes_of<J: DeskNames>(
    alloc: Global,
    desk: &Desk,
    owner: &mut Owner,
    messages: &[Message],
) -> Result<Vec<RequestEnvelope<J>>, Refusal>
    requires table { desk.now.table ≡ J.table }
    requires own { owner.old.table ≡ J.table }
    requires shown { All (Shows owner.old.cut) messages.now }
    ensures envelopes { IfOk result (λ envelopes. map (λ envelope. envelope.message) envelopes.items ≡ messages.now) }
    ensures same { owner.new ≡ owner.old }
    ensures memory { IsOkUnless result Refusal.OutOfMemory }
{
    let mut envelopes = Vec::new(alloc);
    for message in messages {
        envelopes.push(RequestEnvelope::new(message.copy()?, owner.split(desk)))?;
    }
    Ok(envelopes)
}

/// Makes the mark in the owner's history that the partition's has beyond it, if it has one.
fn append_next(owner: &mut Owner, desk: &Desk, partition: &Partition, before: usize)
    requires table { owner.old.table ≡ desk.now.table }
    requires room { partition.now.limit ≡ desk.now.terms.limit }
    requires before { before ≡ length (prefix_at owner.old.cut owner.old.part) }
    requires next { IsNext owner.old.cut owner.old.part partition.now.marks }
    ensures marks { partition.now.marks ≡ prefix_at owner.new.cut owner.old.part }
    ensures grown { Extends owner.old.cut owner.new.cut }
    ensures table { owner.new.table ≡ owner.old.table }
    ensures part { owner.new.part ≡ owner.old.part }
{
    let marks = partition.history();
    if before < marks.len() {
        // It isn't `Full`: the partition had room for the mark, and both have one limit.
        owner.append(desk, &marks[before]).unwrap();
    }
}
