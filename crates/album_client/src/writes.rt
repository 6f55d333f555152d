//! What a client does in a write.
ghost use Rattle.std.specs.Prelude.{◌≡◌, ◌+◌, ◌<◌, ◌≤◌, ◌^◌, IfOk, IfErr, IsOkUnless, IsTrue, Some, false, if◌then◌else◌};
ghost use Rattle.album_stamps.specs.declared.limits.TheConstants.{MAX_PARTS};
ghost use Rattle.album_stamps.specs.declared.refusals.Refusal.TheVariants.{OutOfMemory, AlbumFull};
ghost use Rattle.album_permits.specs.Effects.{is_full_for};
ghost use Rattle.album_stamps.specs.Stamps.{client_of as drawer_of};
ghost use Rattle.album_views.specs.Asks.{is_write};
ghost use Rattle.album_client.specs.Transitions.{client_of, IsMoved};
ghost use Rattle.album_client.specs.Steps.{answer_of, commit_transition, draws, prepare_transition, round_for, writes_unless};
ghost use Rattle.album_writer.specs.Rounds.{commit_stepped, prepare_stepped};
ghost use Rattle.album_writer.specs.Writing.{prepares_of};

use crate::clients::Phase;
use crate::transitions::{ClientStep, Transition};
use album_calls::Message;
use album_permits::{Answer, Permit};
use album_stamps::{Refusal, Refused, Stamp};
use album_writer::{CommitStep, Committing, Outcome, PrepareStep, Preparing};

impl ClientStep {
    /// Draws a stamp for the write of the permit's ask.
    pub(crate) fn draw(mut self, tag: u64, permit: Permit) -> Result<Transition, Refusal>
        requires fits { tag + 2 < 2 ^ 64 }
        requires change { IsTrue (is_write permit.view.ask) }
        ensures transition { IfOk result (IsMoved (draws self.terms (client_of self) tag permit)) }
        ensures memory { IsOkUnless result Refusal.OutOfMemory }
    {
        match self.clock.next() {
            Ok(stamp) => self.begin_write(tag, permit, stamp),
            Err(refusal) => {
                drop(permit.give_back());
                Ok(self.end_ask(tag, Answer::Refused(refusal)))
            }
        }
    }

    /// Begins the write, unless the album that gets a child is full.
    fn begin_write(self, tag: u64, permit: Permit, stamp: Stamp) -> Result<Transition, Refusal>
        requires fits { tag + 2 < 2 ^ 64 }
        requires change { IsTrue (is_write permit.view.ask) }
        requires own { drawer_of stamp ≡ Some self.number }
        ensures transition { IfOk result
            (IsMoved (writes_unless self.terms (client_of self) tag permit stamp (is_full_for permit stamp))) }
        ensures memory { IsOkUnless result Refusal.OutOfMemory }
    {
        match self.begin_round(tag, permit, stamp) {
            Ok((preparing, prepares)) => {
                Ok(self.with(Phase::Prepares(preparing), prepares, None))
            }
            Err(Refused { refusal, given }) => {
                drop(given.give_back());
                match refusal {
                    Refusal::AlbumFull => Ok(self.end_ask(tag, Answer::Refused(refusal))),
                    _ => Err(refusal),
                }
            }
        }
    }

    /// Spends the permit on the round of the write's Prepares, which is checked where the terms say so.
    fn begin_round(
        &self,
        tag: u64,
        permit: Permit,
        stamp: Stamp,
    ) -> Result<(Preparing, Vec<Message>), Refused<Permit>>
        requires fits { tag + 2 < 2 ^ 64 }
        requires change { IsTrue (is_write permit.view.ask) }
        requires own { drawer_of stamp ≡ Some self.now.number }
        ensures preparing { IfOk result (λ r. r.0 ≡ round_for self.now.terms (client_of self.now) tag permit stamp) }
        ensures messages { IfOk result (λ r.
            r.1.items ≡ prepares_of (round_for self.now.terms (client_of self.now) tag permit stamp)) }
        ensures few { self.now.terms.parts ≤ MAX_PARTS }
        ensures room { IfOk result (λ _. is_full_for permit stamp ≡ false) }
        ensures refusal { IfErr result (λ e.
            e.refusal ≡ (if is_full_for permit stamp then AlbumFull else OutOfMemory)) }
        ensures given { IfErr result (λ e. e.given ≡ permit) }
    {
        let parts = self.terms.parts();
        if self.terms.checked() {
            Preparing::begin_checked(self.alloc, permit, stamp, self.number, tag + 1, parts)
        } else {
            Preparing::begin(self.alloc, permit, stamp, self.number, tag + 1, parts)
        }
    }

    /// The transition of a round of Prepares at a message.
    pub fn prepare(self, preparing: Preparing, message: &Message) -> Transition
        ensures { IsMoved
            (prepare_transition (client_of self) preparing.tag (prepare_stepped preparing message.now)) result }
    {
        let tag = preparing.tag();
        // How many Commits there may be is known once it is asked.
        let _few = preparing.count();
        match preparing.on_reply(message) {
            PrepareStep::Same(preparing) => {
                self.with(Phase::Prepares(preparing), Vec::new(self.alloc), None)
            }
            PrepareStep::Commit(committing, commits) => {
                self.with(Phase::Commits(committing), commits, None)
            }
            PrepareStep::Ended(outcome) => self.end_ask(tag, answer_of(outcome)),
        }
    }

    /// The transition of a round of Commits at a message.
    pub fn commit(self, committing: Committing, message: &Message) -> Transition
        ensures { IsMoved
            (commit_transition (client_of self) committing.tag (commit_stepped committing message.now)) result }
    {
        let tag = committing.tag();
        match committing.on_reply(message) {
            CommitStep::Same(committing) => {
                self.with(Phase::Commits(committing), Vec::new(self.alloc), None)
            }
            CommitStep::Ended(outcome) => self.end_ask(tag, answer_of(outcome)),
        }
    }
}

/// The answer to an ask whose write is over.
fn answer_of(outcome: Outcome) -> Answer
    ensures { result ≡ answer_of outcome }
{
    match outcome {
        Outcome::Committed(stamp) => Answer::Committed(stamp),
        Outcome::Aborted(stamp) => Answer::Aborted(stamp),
        Outcome::Full(stamp) => Answer::Unsettled(stamp, Refusal::Full),
    }
}
