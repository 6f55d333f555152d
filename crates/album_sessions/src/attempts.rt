//! Attempts: an ask whose write is aborted in a checked store asks again.
ghost use Rattle.std.specs.Prelude.{◌≡◌, ℕ, None, Ok, IfOk, IfErr, OnErr};
ghost use Rattle.album_views.specs.Checks.{refusal_of};
ghost use Rattle.album_channels.specs.Channels.{IsClosedOrOutOfMemory};
ghost use Rattle.album_permits.specs.declared.answers.Answer.TheVariants.{Aborted};
ghost use Rattle.album_sessions.specs.Asks.{IsOn};
ghost use Rattle.album_sessions.specs.Attempts.{RestsOnLast};
ghost use Rattle.album_sessions.specs.Resting.{RestsOn};
ghost use Rattle.album_sessions.specs.Sessions.{SessionState, AddsNothing};
ghost use Rattle.album_sessions.specs.Steps.{IsStill};

use crate::service_names::ServiceNames;
use crate::session::Session;
use album_calls::{Body, Message, Request};
use album_eval::Principal;
use album_items::{Items, place};
use album_permits::Answer;
use album_stamps::{Refusal, Stamp};
use album_views::Ask;
use std::alloc::Global;
use std::sync::{Arc, Wait};
use std::time;

/// How often one ask is attempted at most.
pub const MAX_ATTEMPTS: u8 = 8;

impl<J: ServiceNames> Session<J> {
    /// Answers the ask. In a checked store it is attempted anew where its write is aborted, with a new view, ruling and
    /// stamp: what came between is seen then. From the second attempt on it queues, and before that where others do.
    /// Where a later attempt is refused, the write is aborted still.
    ///
    /// # Errors
    ///
    /// `Closed` or `OutOfMemory`, of the first attempt alone.
    pub(crate) fn answer_at_last<R: Wait + time::Clock>(
        &mut self,
        rt: &R,
        principal: &Principal,
        ask: &Ask,
    ) -> Result<Answer, Refusal>
        requires taken { refusal_of ask.now principal.now ≡ None }
        ensures rests { IfOk result (RestsOnLast J.terms.limit J.policy principal.now ask.now self.old self.new) }
        ensures refused { IfErr result IsClosedOrOutOfMemory }
        ensures unbegun { OnErr result (AddsNothing self.old self.new) }
        ensures on { IsOn self.old self.new }
    {
        self.channel.is_sound();
        let queues = self.is_contended(ask);
        let mut answer = self.attempt(rt, principal, ask, queues)?;
        if !self.channel.checked() {
            return Ok(answer);
        }
        for _made in 1..MAX_ATTEMPTS {
            let Answer::Aborted(stamp) = answer else {
                return Ok(answer);
            };
            match self.attempt(rt, principal, ask, true) {
                Ok(next) => answer = next,
                Err(_) => return Ok(Answer::Aborted(stamp)),
            }
        }
        Ok(answer)
    }

    /// Whether a write in a checked store queues already for its first attempt: where somebody has the stripe of one of
    /// the ask's objects. So who queues isn't overtaken again and again. Without memory nobody is looked for.
    fn is_contended(&self, ask: &Ask) -> bool {
        if !ask.is_write() || !self.channel.checked() {
            return false;
        }
        match ask.objects(self.alloc) {
            Ok(objects) => objects.iter().any(|object| self.stripes.is_taken(*object)),
            Err(_) => false,
        }
    }

    /// Attempts the ask once. Where it queues, it has the stripes of its objects, and of the items that the last
    /// attempt wanted to write, until it is over; without memory it doesn't wait for them. What an aborted write has
    /// prepared is settled, so that it is in nobody's way.
    ///
    /// # Errors
    ///
    /// `Closed` or `OutOfMemory`.
    fn attempt<R: Wait + time::Clock>(
        &mut self,
        rt: &R,
        principal: &Principal,
        ask: &Ask,
        queues: bool,
    ) -> Result<Answer, Refusal>
        requires taken { refusal_of ask.now principal.now ≡ None }
        ensures rests { IfOk result (RestsOn J.terms.limit J.policy principal.now ask.now self.old self.new) }
        ensures refused { IfErr result IsClosedOrOutOfMemory }
        ensures unbegun { OnErr result (AddsNothing self.old self.new) }
        ensures on { IsOn self.old self.new }
    {
        let stripes = if queues {
            Arc::try_clone(&self.stripes).ok()
        } else {
            None
        };
        let taken = match &stripes {
            Some(stripes) => stripes
                .take(rt, self.alloc, ask, self.contested.as_slice())
                .ok(),
            None => None,
        };
        let answer = self.answer(rt, principal, ask);
        self.settle_after(rt, &answer);
        drop(taken);
        drop(stripes);
        answer
    }

    /// Settles the write that is aborted, if the answer says so.
    fn settle_after<R: Wait + time::Clock>(&mut self, rt: &R, answer: &Result<Answer, Refusal>)
        ensures still { IsStill self.old self.new }
        ensures others { ((t : ℕ) → answer.now ≡ Ok (Aborted t) → ⊥) → self.new ≡ self.old }
    {
        self.channel.is_sound();
        match answer {
            Ok(Answer::Aborted(stamp)) => self.settle(rt, *stamp),
            Ok(_) | Err(_) => {}
        }
    }

    /// Has each participant of the aborted write ask the others for their votes, one of which is that the stamp is
    /// never prepared. In a store that isn't checked a pending version is in nobody's way, and nothing is done.
    fn settle<R: Wait + time::Clock>(&mut self, rt: &R, stamp: Stamp)
        ensures { IsStill self.old self.new }
    {
        self.channel.is_sound();
        if !self.channel.checked() {
            return;
        }
        for part in 0..self.channel.parts() {
            self.settle_at(rt, part, stamp);
        }
    }

    /// Has the partition do so, if it is a participant.
    fn settle_at<R: Wait + time::Clock>(&mut self, rt: &R, part: u16, stamp: Stamp)
        ensures { (session : SessionState) → IsStill session self.old → IsStill session self.new }
    {
        if !self.is_contested_at(part) {
            return;
        }
        // A partition that has not prepared the stamp says so, and that is all.
        let _ = self.sweep(rt, part, stamp);
    }

    /// Whether an item is placed there that the last aborted write wanted to write, as far as that is known.
    fn is_contested_at(&self, part: u16) -> bool {
        let parts = self.channel.parts();
        let items = self.contested.as_slice();
        items.is_empty() || items.iter().any(|item| place(*item, parts) == part)
    }
}

/// Keeps the items of a checked write, whose Prepares these are, for its next attempt.
pub(crate) fn contest(alloc: Global, contested: &mut Items, sent: &[Message]) {
    let Some(first) = sent.first() else {
        return;
    };
    if let Body::Request(Request::PrepareOn(_, _, items, _)) = first.body() {
        *contested = items.clone().unwrap_or(Items::of(Vec::new(alloc)));
    }
}
