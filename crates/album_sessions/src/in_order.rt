//! Requests in the order of the board: what was published before one begins is in the cut with which it begins, and
//! what its answer rests on is published before the answer is given.
ghost use Rattle.std.specs.Prelude.{◌≡◌, ◌≤◌, ◌⊎◌, Some, Err, IfOk, IfErr, IfSome, OnErr};
ghost use Rattle.album_passes.specs.Cuts.{Extends, IsSound};
ghost use Rattle.album_sessions.specs.InOrder.{IsInOrder};
ghost use Rattle.album_sessions.specs.Attempts.{RestsOnLast};
ghost use Rattle.album_channels.specs.Channels.{IsClosedOrOutOfMemory};
ghost use Rattle.album_sessions.specs.Sessions.{AddsNothing};
ghost use Rattle.album_sessions.specs.Steps.{IsStill};
ghost use Rattle.album_views.specs.Checks.{refusal_of};

use crate::service_names::ServiceNames;
use crate::session::Session;
use album_board::{Listened, Published};
use album_eval::Principal;
use album_permits::Answer;
use album_stamps::Refusal;
use album_views::Ask;
use std::sync::Wait;
use std::time;

/// An answer, with what its request listened to before it began, and the publication that came before the answer.
pub struct Acknowledged<J: ServiceNames> {
    pub answer: Answer,
    pub listened: Listened<J>,
    pub published: Published<J>,
}

// By hand, so that what lets it go is proved here, and not again in each crate above.
impl<J: ServiceNames> Drop for Acknowledged<J> {
    fn drop(self) {
        let Acknowledged {
            answer,
            listened,
            published,
        } = self;
        drop(answer);
        drop(listened);
        drop(published);
    }
}

impl<J: ServiceNames> Acknowledged<J> {
    /// The answer. What was listened to and published is let go.
    pub fn into_answer(self) -> Answer
        ensures { result ≡ self.answer }
    {
        let Acknowledged {
            answer,
            listened: _,
            published: _,
        } = self;
        answer
    }
}

impl<J: ServiceNames> Session<J> {
    /// As `ask`, in the order of the service's board. The request begins with a cut that has all that was published
    /// before, by whichever session of the service; and what it has seen is published before its answer is given.
    ///
    /// # Errors
    ///
    /// As `ask`. Nothing is published then.
    pub fn ask_in_order<R: Wait + time::Clock>(
        &mut self,
        rt: &R,
        principal: &Principal,
        ask: Ask,
    ) -> Result<Acknowledged<J>, Refusal>
        ensures in_order { IfOk result (λ given. IsInOrder J.terms.limit J.policy principal.now ask
            self.old given.listened given.answer given.published self.new) }
        ensures rests { IfOk result (λ given.
            RestsOnLast J.terms.limit J.policy principal.now ask self.old self.new given.answer) }
        ensures checked { IfSome (refusal_of ask principal.now) (λ e. (result ≡ Err e) × (self.new ≡ self.old)) }
        ensures refused { IfErr result (λ e. (refusal_of ask principal.now ≡ Some e) ⊎ IsClosedOrOutOfMemory e) }
        ensures unbegun { OnErr result (AddsNothing self.old self.new) }
        ensures grown { Extends self.old.cut self.new.cut }
        ensures sound { IsSound self.new.cut }
        ensures client { self.new.client ≡ self.old.client }
        ensures risen { self.old.counter ≤ self.new.counter }
    {
        // What is refused by its check has not listened either.
        self.channel.is_sound();
        if let Err(why) = ask.check(principal) {
            drop(ask);
            return Err(why);
        }
        let listened = self.listen(rt);
        let answer = self.ask(rt, principal, ask)?;
        let published = self.publish(rt);
        Ok(Acknowledged {
            answer,
            listened,
            published,
        })
    }

    /// Takes in all that was published so far, by whichever session of the service.
    pub fn listen<R: Wait>(&mut self, rt: &R) -> Listened<J>
        ensures listened { Extends result.cut self.new.cut }
        ensures still { IsStill self.old self.new }
    {
        self.channel.is_sound();
        self.channel.listen(rt, &self.board)
    }

    /// Publishes what the session has seen.
    fn publish<R: Wait>(&mut self, rt: &R) -> Published<J>
        ensures cut { result.cut ≡ self.old.cut }
        ensures same { self.new ≡ self.old }
    {
        self.channel.publish(rt, &self.board)
    }
}
