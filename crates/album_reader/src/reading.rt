//! A read of items under way.
ghost use Rattle.std.specs.Prelude.{◌≡◌, ◌≢◌, ℕ, ◌+◌, ◌<◌, ◌≤◌, ◌^◌, ◌++◌, nat_lt, not, true, false, IsTrue, OnErr, List, [], ◌∷◌, IsOkAnd, IfOk, IfErr, IsOkUnless, length, if◌then◌else◌};
ghost use Rattle.album_stamps.specs.Distinct.{are_distinct};
ghost use Rattle.album_reader.specs.Ends.{step_by};
ghost use Rattle.album_reader.specs.Rounds.{IsOpen, StaysOpen, is_end};
ghost use Rattle.album_reader.specs.Steps.{step_of};

use crate::asker::Asker;
use crate::round::{End, Round};
use crate::snapshot::Snapshot;
use album_calls::Message;
use album_items::Items;
use album_stamps::{ClientNo, MAX_PARTS, MAX_READ_ITEMS, Refusal, Refused};
use std::alloc::Global;
use std::marker::Model;

/// A read of items under way. Contracts see its items, client, tag and number of partitions, the
/// stamps that it asks with in its second round, and of each item the first answer.
#[derive(Debug)]
pub struct Reading {
    round: Round,
}

impl Model for Reading {
    ghost use Rattle.album_reader.specs.Rounds.{RoundState, IsOpen};

    ghost Value = { RoundState };

    ghost view = { λ a. a.round };

    ghost invariant = { λ a. IsOpen a.round };
}

// By hand, so that what lets it go is proved here, and not again in each crate above.
impl Drop for Reading {
    fn drop(self) {
        let Reading { round } = self;
        drop(round);
    }
}

/// The read after a message.
#[derive(Debug, Drop)]
pub enum Step {
    /// The read waits for more answers.
    Same(Reading),
    /// The first round is over, and these messages ask in the second one.
    Next(Reading, Vec<Message>),
    /// The read is done.
    Done(Snapshot),
    /// The read is over, since one of its items is no longer kept as the first round found it. These
    /// are its items: a new read of them finds what is kept.
    Gone(Items),
}

impl Reading {
    ghost use Rattle.album_reader.specs.Others.{IsOther, IsGone};
    ghost use Rattle.album_reader.specs.Rounds.{first_round, gets_of, stepped, after_replies, open_step_after};
    ghost use Rattle.album_reader.specs.Rounds.Step.{Same, Gone};

    /// Asks each item's partition for its latest version.
    ///
    /// This begins GET_ALL of RAMP-Small (Bailis et al., SIGMOD 2014, Algorithm 2). In the first round a Get without
    /// stamps gives each item's latest committed stamp. In the second a Get with all these stamps gives the version at
    /// the greatest of them that the item has. Both rounds are always made, as there, and of the first only the stamps
    /// count. It differs where versions were trimmed: an item whose version is gone ends the read, and it has to be
    /// made again.
    ///
    /// # Errors
    ///
    /// `TooManyItems` exactly where there are more than `MAX_READ_ITEMS`, and else `OutOfMemory`, with the items
    /// handed back.
    pub fn start(
        alloc: Global,
        items: Items,
        client: ClientNo,
        tag: u64,
        parts: u16,
    ) -> Result<(Reading, Vec<Message>), Refused<Items>>
        requires low { 1 ≤ parts }
        requires high { parts ≤ MAX_PARTS }
        requires some { items ≢ [] }
        requires single { IsTrue (are_distinct items) }
        requires low_tag { 1 ≤ tag }
        requires high_tag { tag + 1 < 2 ^ 64 }
        ensures reading { IfOk result
            (λ r. r.0 ≡ first_round (record { client = client; tag = tag; parts = parts }) items) }
        ensures messages { IfOk result
            (λ r. r.1.items ≡ gets_of (record { client = client; tag = tag; parts = parts }) [] items) }
        ensures few { IfOk result (λ _. length items ≤ MAX_READ_ITEMS) }
        ensures refusal { IfErr result (λ e. e.refusal
            ≡ (if nat_lt MAX_READ_ITEMS (length items) then Refusal.TooManyItems else Refusal.OutOfMemory)) }
        ensures given { IfErr result (λ e. e.given ≡ items) }
    {
        if items.as_slice().len() > MAX_READ_ITEMS {
            return Err(Refused {
                refusal: Refusal::TooManyItems,
                given: items,
            });
        }
        let round = Round::first(alloc, Asker::new(client, tag, parts), items)?;
        // Only memory can refuse from here on.
        match round.gets() {
            Ok(messages) => Ok((Reading { round }, messages)),
            Err(_) => Err(Refused {
                refusal: Refusal::OutOfMemory,
                given: round.into_items(),
            }),
        }
    }

    /// Takes a message. Of the answers to what the round asks, the first one of each item counts,
    /// and nothing else does. A Gone in the second round ends the read.
    ///
    /// # Errors
    ///
    /// `OutOfMemory`, with the reading handed back unchanged: give it the message again.
    pub fn on_reply(self, message: &Message) -> Result<Step, Refused<Reading>>
        ensures step { IfOk result (λ step. step_of step ≡ stepped self message.now) }

        // The reading is the first step of its round by a list of replies: then this step is the one by these and the
        // message. The round is over once each item has an answer among them, and the read where in the second round
        // the message says that an item without one is gone.
        ensures all_given { IfOk result (λ step. (replies : List Message)
            → self ≡ after_replies self replies
            → step_of step ≡ open_step_after self replies message.now) }

        // An item that is gone ends the read, and that takes no memory.
        ensures gone { IsGone self message.now → IsOkAnd result (λ step. step_of step ≡ Gone self.items) }

        // Nothing else counts, and what doesn't count is never refused.
        ensures other { IsOther self message.now → IsOkAnd result (λ step. step_of step ≡ Same self) }

        ensures memory { IfErr result (λ e. e.refusal ≡ Refusal.OutOfMemory) }
        ensures given { IfErr result (λ e. e.given ≡ self) }
    {
        let Reading { mut round } = self;
        if round.is_gone(message) {
            return Ok(Step::Gone(round.into_items()));
        }
        match round.take(message) {
            Ok(last) => Ok(Step::of(round, last)),
            Err(_) => Err(Refused {
                refusal: Refusal::OutOfMemory,
                given: Reading { round },
            }),
        }
    }

    /// Takes the message in place, unless it ends the round, and says whether the read waits for more. Where the
    /// result is true, the message is taken. Where it is false, nothing has changed, and the message is `on_reply`'s.
    ///
    /// # Errors
    ///
    /// `OutOfMemory`. Nothing is changed then.
    pub fn waits(&mut self, message: &Message) -> Result<bool, Refusal>
        ensures test { IfOk result (λ waits. waits ≡ not (is_end (stepped self.old message.now))) }
        ensures taken { IfOk result (λ waits. waits ≡ true → stepped self.old message.now ≡ Same self.new) }
        ensures left { IfOk result (λ waits. waits ≡ false → self.new ≡ self.old) }
        ensures memory { IsOkUnless result Refusal.OutOfMemory }
        ensures unchanged { OnErr result (self.new ≡ self.old) }
    {
        if self.round.is_gone(message) {
            return Ok(false);
        }
        Ok(self.round.waits(message)?)
    }

    /// Whether the message ends the round, and with the second round the read. It takes no memory, and copies no
    /// answer.
    pub fn is_ended_by(&self, message: &Message) -> bool
        ensures { result ≡ is_end (stepped self.now message.now) }
    {
        self.round.is_gone(message) || self.round.is_completed_by(message)
    }

    /// The tag of the round.
    pub fn tag(&self) -> u64
        ensures tag { result ≡ self.now.asker.tag }
        ensures open { IsOpen self.now }
    {
        self.round.tag()
    }

    /// The same reading once more.
    ///
    /// # Errors
    ///
    /// `OutOfMemory`.
    pub fn copy(&self) -> Result<Reading, Refusal>
        ensures copy { IfOk result (λ reading. reading ≡ self.now) }
        ensures memory { IsOkUnless result Refusal.OutOfMemory }
    {
        let round = self.round.clone()?;
        Ok(Reading { round })
    }
}

impl Step {
    /// The step of a round that ends so, if it does.
    fn of(round: Round, last: Option<End>) -> Step
        requires { StaysOpen (step_by round last) }
        ensures { step_of result ≡ step_by round last }
    {
        match last {
            None => Step::Same(Reading { round }),
            Some(End::Next(next, messages)) => Step::Next(Reading { round: next }, messages),
            Some(End::Done(snapshot)) => Step::Done(snapshot),
        }
    }
}
