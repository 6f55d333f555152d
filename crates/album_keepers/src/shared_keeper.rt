//! A partition's keeper under a lock, which its thread and the sessions share. Whoever has the lock lets the keeper
//! take messages. So mostly a request waits for no other thread.
ghost use Rattle.std.specs.Prelude.{◌≡◌, ◌<◌, true, length, All, None, Some, IfOk, IfSome, IsOkUnless, IsTrue};
ghost use Rattle.album_stamps.specs.declared.refusals.Refusal.TheVariants.{OutOfMemory};
ghost use Rattle.album_partition.specs.Answers.{answer};
ghost use Rattle.album_partition.specs.Partition.{PartitionState};
ghost use Rattle.album_passes.specs.Cuts.{Cut, Extends, IsSound};
ghost use Rattle.album_keepers.specs.Envelopes.{Shows};
ghost use Rattle.album_keepers.specs.Held.{may_prepare, AreNeverPrepared};
ghost use Rattle.album_keepers.specs.Rounds.{Counts, SaysNonePrepared};

use crate::envelopes::{ReplyEnvelope, RequestEnvelope};
use crate::keeper::PartitionKeeper;
use crate::load::bytes_of;
use crate::names::DeskNames;
use crate::round_reply::RoundReply;
use album_calls::{Body, Message, Request};
use album_passes::{Desk, Pass};
use album_stamps::Refusal;
use std::collections::VecDeque;
use std::marker::Model;
use std::sync::{Mutex, MutexGuard, Wait};

/// A keeper, about how many bytes the writes take that it was asked to prepare, and whether its thread runs.
#[derive(Drop)]
pub(crate) struct Locked<J: DeskNames> {
    pub keeper: PartitionKeeper<J>,
    pub bytes: u64,
    pub runs: bool,
}

impl<J: DeskNames> Locked<J> {
    /// Lets the keeper take the envelope.
    ///
    /// # Errors
    ///
    /// As `PartitionKeeper::receive`.
    pub(crate) fn receive(
        &mut self,
        desk: &Desk,
        envelope: RequestEnvelope<J>,
    ) -> Result<Option<ReplyEnvelope<J>>, Refusal>
        requires table { desk.now.table ≡ J.table }
        requires terms { desk.now.terms ≡ J.terms }
        ensures answered { IfOk result (λ reply. IfSome reply (λ some. (partition : PartitionState)
            × (answer partition envelope.message ≡ Some some.reply))) }
        ensures point { IfOk result (λ reply. IfSome reply (λ some. some.pass.cut ≡ self.new.keeper.owner.cut)) }
        ensures memory { IsOkUnless result OutOfMemory }
    {
        self.bytes = self.bytes.saturating_add(bytes_of(envelope.message()));
        self.keeper.receive(desk, envelope)
    }

    /// Lets the keeper hear the pass, and then take those of the messages that go to its partition, one after another.
    /// Puts the replies behind these.
    ///
    /// # Errors
    ///
    /// `OutOfMemory`, where there is none for a message or a reply. The messages after it aren't taken.
    fn answer_all(
        &mut self,
        desk: &Desk,
        messages: &[Message],
        pass: Pass,
        replies: &mut VecDeque<RoundReply<J>>,
    ) -> Result<(), Refusal>
        requires table { desk.now.table ≡ J.table }
        requires terms { desk.now.terms ≡ J.terms }
        requires of { pass.table ≡ J.table }
        requires unnumbered { pass.number ≡ None }
        requires shown { All (Shows pass.cut) messages.now }
        ensures count { All (Counts J.terms.limit pass.cut messages.now) replies.old.items
            → All (Counts J.terms.limit pass.cut messages.now) replies.new.items }
        ensures free { AreNeverPrepared messages.now → All SaysNonePrepared replies.old.items
            → All SaysNonePrepared replies.new.items }
        ensures memory { IsOkUnless result OutOfMemory }
    {
        self.keeper.hear(desk, pass);
        for index in 0..messages.len() {
            if self.keeper.takes(&messages[index]) {
                self.answer_at(desk, index, messages, replies)?;
            }
        }
        Ok(())
    }

    /// Lets the keeper take the message of this index, once it has heard what its sender had seen, and puts the reply
    /// behind these, if there is one.
    ///
    /// # Errors
    ///
    /// `OutOfMemory`.
    fn answer_at(
        &mut self,
        desk: &Desk,
        index: usize,
        messages: &[Message],
        replies: &mut VecDeque<RoundReply<J>>,
    ) -> Result<(), Refusal>
        requires table { desk.now.table ≡ J.table }
        requires terms { desk.now.terms ≡ J.terms }
        requires within { index < length messages.now }
        requires sound { IsSound self.old.keeper.owner.cut }
        requires inside { self.old.keeper.owner.part < self.old.keeper.owner.cut.parts }
        requires shown { All (Shows self.old.keeper.owner.cut) messages.now }
        ensures grown { Extends self.old.keeper.owner.cut self.new.keeper.owner.cut }
        ensures sound { IsSound self.new.keeper.owner.cut }
        ensures inside { self.new.keeper.owner.part < self.new.keeper.owner.cut.parts }
        ensures count { (begun : Cut) → Extends begun self.old.keeper.owner.cut
            → All (Counts J.terms.limit begun messages.now) replies.old.items
            → All (Counts J.terms.limit begun messages.now) replies.new.items }
        ensures free { AreNeverPrepared messages.now → All SaysNonePrepared replies.old.items
            → All SaysNonePrepared replies.new.items }
        ensures memory { IsOkUnless result OutOfMemory }
    {
        let message = &messages[index];
        self.bytes = self.bytes.saturating_add(bytes_of(message));
        match self.keeper.answer_at(desk, index, message)? {
            None => Ok(()),
            Some(reply) => {
                replies.push_back(reply)?;
                Ok(())
            }
        }
    }
}

/// The keeper of a partition, under its lock. Contracts see whether the service has a log.
pub struct SharedKeeper<J: DeskNames> {
    /// Whether the service has a log. Then what may be prepared goes by the partition's mailbox, and its reply by the
    /// log.
    logged: bool,
    locked: Mutex<Locked<J>>,
}

impl<J: DeskNames> Model for SharedKeeper<J> {
    ghost use Rattle.std.specs.Prelude.{Bool};

    ghost Value = { Bool };

    ghost view = { λ k. k.logged };
}

// By hand, so that what lets it go is proved here, and not again in each crate above.
impl<J: DeskNames> Drop for SharedKeeper<J> {
    fn drop(self) {
        let SharedKeeper { logged: _, locked } = self;
        drop(locked);
    }
}

impl<J: DeskNames> SharedKeeper<J> {
    /// This keeper, whose thread is about to run.
    pub(crate) fn new(keeper: PartitionKeeper<J>, logged: bool) -> SharedKeeper<J>
        ensures { result ≡ logged }
    {
        SharedKeeper {
            logged,
            locked: Mutex::new(Locked {
                keeper,
                bytes: 0,
                runs: true,
            }),
        }
    }

    /// The keeper, for the partition's thread.
    pub(crate) fn lock<R: Wait>(&self, rt: &R) -> MutexGuard<'_, Locked<J>> {
        self.locked.lock(rt)
    }

    /// Lets the keeper take those of the messages that go to its partition, one after another, here and now, and puts
    /// the replies behind these. The pass shows what the messages rest on. Gives whether it did: all of them go by the
    /// partition's mailbox where its thread has ended; and in a service with a log where after one of them a stamp may
    /// be said to be prepared.
    ///
    /// # Errors
    ///
    /// `OutOfMemory`, where there is none for the replies, or for a message. Those after it aren't taken.
    pub fn answer_all<R: Wait>(
        &self,
        rt: &R,
        desk: &Desk,
        messages: &[Message],
        pass: Pass,
        replies: &mut VecDeque<RoundReply<J>>,
    ) -> Result<bool, Refusal>
        requires table { desk.now.table ≡ J.table }
        requires terms { desk.now.terms ≡ J.terms }
        requires of { pass.table ≡ J.table }
        requires unnumbered { pass.number ≡ None }
        requires shown { All (Shows pass.cut) messages.now }
        ensures count { All (Counts J.terms.limit pass.cut messages.now) replies.old.items
            → All (Counts J.terms.limit pass.cut messages.now) replies.new.items }
        ensures free { self.now ≡ true → All SaysNonePrepared replies.old.items
            → All SaysNonePrepared replies.new.items }
        ensures memory { IsOkUnless result OutOfMemory }
    {
        if self.logged && !are_never_prepared(messages) {
            return Ok(false);
        }
        // Each message has one reply at most. So there is room for the rest of them, and none is lost.
        replies.reserve(messages.len().saturating_sub(replies.len()))?;
        let mut locked = self.locked.lock(rt);
        if !locked.runs {
            return Ok(false);
        }
        locked.answer_all(desk, messages, pass, replies)?;
        Ok(true)
    }
}

/// Whether a partition says of no stamp that it is prepared, once it has taken one of these.
fn are_never_prepared(messages: &[Message]) -> bool
    ensures { IsTrue result → AreNeverPrepared messages.now }
{
    messages.iter().all(|message| !may_prepare(message))
}

/// Whether a partition may say of a stamp that it is prepared, once it has taken this: not after a Commit or a Get.
fn may_prepare(message: &Message) -> bool
    ensures { result ≡ may_prepare message.now.body }
{
    !matches!(
        message.body(),
        Body::Request(Request::Commit(_) | Request::Get(_, _))
    )
}
