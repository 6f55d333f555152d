//! What a client does in a read.
ghost use Rattle.std.specs.Prelude.{◌≡◌, ◌+◌, ◌<◌, ◌^◌, None, IfOk, IsOkUnless};
ghost use Rattle.album_reader.specs.Rounds.{stepped};
ghost use Rattle.album_reader.specs.Steps.{step_of};
ghost use Rattle.album_views.specs.Asks.{objects_of};
ghost use Rattle.album_views.specs.Checks.{refusal_of};
ghost use Rattle.album_views.specs.ReadSets.{looker_of};
ghost use Rattle.album_views.specs.Steps.{AreReadable, AsksReadable, stepped as viewed};
ghost use Rattle.album_client.specs.Transitions.{client_of, IsMoved, IsTakenOf};
ghost use Rattle.album_client.specs.Steps.{read_begins, read_transition, transition_of, views_by};

use crate::clients::Phase;
use crate::pending_asks::PendingAsk;
use crate::transitions::{ClientStep, Transition};
use album_calls::Message;
use album_eval::Principal;
use album_items::Items;
use album_permits::Answer;
use album_reader::{Reading, Snapshot, Step};
use album_stamps::{Refusal, Refused};
use album_views::{Ask, ViewStep, Viewing, looker};

impl ClientStep {
    /// Begins an ask that the principal may ask, with a read of its objects.
    ///
    /// # Errors
    ///
    /// `OutOfMemory`.
    pub fn ask(self, tag: u64, principal: Principal, ask: Ask) -> Result<Transition, Refusal>
        requires taken { refusal_of ask principal ≡ None }
        ensures transition { IfOk result (IsMoved (read_begins self.terms (client_of self) tag
            (record { viewing = record { ask = ask; reads = 0 }; principal = principal }) (objects_of ask))) }
        ensures memory { IsOkUnless result Refusal.OutOfMemory }
    {
        let (viewing, objects) = Viewing::start(self.alloc, ask)?;
        self.ask_for(tag, principal, viewing, objects)
    }

    /// Begins an ask that the principal may ask, with a read of these items.
    ///
    /// # Errors
    ///
    /// `OutOfMemory`.
    pub fn ask_for(
        self,
        tag: u64,
        principal: Principal,
        viewing: Viewing,
        items: Items,
    ) -> Result<Transition, Refusal>
        requires taken { refusal_of viewing.ask principal ≡ None }
        requires readable { AreReadable items }
        ensures transition { IfOk result (IsMoved (read_begins self.terms (client_of self) tag
            (record { viewing = viewing; principal = principal }) items)) }
        ensures memory { IsOkUnless result Refusal.OutOfMemory }
    {
        check_tag(tag)?;
        self.begin_read(tag, PendingAsk::of(viewing, principal), items)
    }

    /// Begins a read of the items.
    fn begin_read(
        self,
        tag: u64,
        pending_ask: PendingAsk,
        items: Items,
    ) -> Result<Transition, Refusal>
        requires fits { tag + 2 < 2 ^ 64 }
        requires readable { AreReadable items }
        ensures transition { IfOk result (IsMoved (read_begins self.terms (client_of self) tag pending_ask items)) }
        ensures memory { IsOkUnless result Refusal.OutOfMemory }
    {
        let parts = self.terms.parts();
        match Reading::start(self.alloc, items, self.number, tag + 1, parts) {
            Ok((reading, gets)) => Ok(self.with(Phase::Reads(pending_ask, reading), gets, None)),
            Err(Refused { refusal, given }) => {
                drop(pending_ask);
                drop(given);
                Err(refusal)
            }
        }
    }

    /// Takes a message to a client in this phase. Where memory runs out the phase is lost. So a caller that continues
    /// from it keeps a copy.
    ///
    /// # Errors
    ///
    /// `OutOfMemory`, and only in a read: a write takes no memory.
    pub fn take(self, phase: Phase, message: &Message) -> Result<Transition, Refusal>
        ensures transition { IfOk result (IsMoved (transition_of self.terms (client_of self) message.now phase)) }
        ensures memory { IsOkUnless result Refusal.OutOfMemory }
    {
        match phase {
            Phase::Idle(tag) => Ok(self.with(Phase::Idle(tag), Vec::new(self.alloc), None)),
            Phase::Reads(pending_ask, reading) => self.read(pending_ask, reading, message),
            Phase::Prepares(preparing) => Ok(self.prepare(preparing, message)),
            Phase::Commits(committing) => Ok(self.commit(committing, message)),
        }
    }

    /// The transition of a read at a message.
    fn read(
        self,
        pending_ask: PendingAsk,
        reading: Reading,
        message: &Message,
    ) -> Result<Transition, Refusal>
        ensures transition { IfOk result (IsMoved
            (read_transition self.terms (client_of self) reading.asker.tag pending_ask (stepped reading message.now))) }
        ensures memory { IsOkUnless result Refusal.OutOfMemory }
    {
        let tag = reading.tag();
        match replied(reading, message)? {
            Step::Same(reading) => {
                Ok(self.with(
                    Phase::Reads(pending_ask, reading),
                    Vec::new(self.alloc),
                    None,
                ))
            }
            Step::Next(reading, gets) => Ok(self.with(
                Phase::Reads(pending_ask, reading),
                gets,
                None,
            )),
            Step::Done(snapshot) => self.see(tag, pending_ask, snapshot),
            Step::Gone(items) => {
                let (viewing, principal) = pending_ask.into_parts();
                self.end_read(tag, principal, viewing.on_gone(items))
            }
        }
    }

    /// The transition of a read that is done, by what its ask views in the snapshot.
    fn see(
        self,
        tag: u64,
        pending_ask: PendingAsk,
        snapshot: Snapshot,
    ) -> Result<Transition, Refusal>
        requires fits { tag + 2 < 2 ^ 64 }
        ensures transition { IfOk result (IsMoved (views_by self.terms (client_of self) tag pending_ask.principal
            (viewed (looker_of self.terms.policy pending_ask.principal) pending_ask.viewing snapshot))) }
        ensures memory { IsOkUnless result Refusal.OutOfMemory }
    {
        let (viewing, principal) = pending_ask.into_parts();
        let looker = looker(self.terms.policy(), &principal)?;
        let step = viewing.on_snapshot(self.alloc, looker, snapshot)?;
        self.end_read(tag, principal, step)
    }

    /// The transition at the end of a read for the principal's ask: another read, a ruling, or no view.
    fn end_read(self, tag: u64, principal: Principal, step: ViewStep) -> Result<Transition, Refusal>
        requires fits { tag + 2 < 2 ^ 64 }
        requires readable { AsksReadable step }
        requires taken { IsTakenOf self.terms.policy principal step }
        ensures transition { IfOk result (IsMoved (views_by self.terms (client_of self) tag principal step)) }
        ensures memory { IsOkUnless result Refusal.OutOfMemory }
    {
        match step {
            ViewStep::Again(viewing, items) => {
                self.begin_read(tag, PendingAsk::of(viewing, principal), items)
            }
            ViewStep::Closed(view) => self.rule(tag, &principal, view),
            ViewStep::Busy(why) => Ok(self.end_ask(tag, Answer::Busy(why))),
        }
    }
}

/// The step of a reading at a message, where two more rounds fit after its tag.
fn replied(reading: Reading, message: &Message) -> Result<Step, Refusal>
    ensures step { IfOk result (λ step. step_of step ≡ stepped reading message.now) }
    ensures fits { IfOk result (λ _. reading.asker.tag + 2 < 2 ^ 64) }
    ensures memory { IsOkUnless result Refusal.OutOfMemory }
{
    check_tag(reading.tag())?;
    Ok(reading.on_reply(message)?)
}

/// Two more rounds fit after the tag. Where tags near their end, it is said that memory ran out: each round
/// sends a message, so memory runs out long before.
fn check_tag(tag: u64) -> Result<(), Refusal>
    ensures fits { IfOk result (λ _. tag + 2 < 2 ^ 64) }
    ensures memory { IsOkUnless result Refusal.OutOfMemory }
{
    if tag < u64::MAX - 2 {
        Ok(())
    } else {
        Err(Refusal::OutOfMemory)
    }
}
