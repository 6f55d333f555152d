//! Transitions: a session takes a reply, and does what its client has come to.
ghost use Rattle.std.specs.Prelude.{◌≡◌, ◌≢◌, ◌≤◌, [], true, Some, None, Ok, Err, All, IfOk, IfErr, IfSome, IfNone, OnOk, OnErr, IsOkAnd, IsOkUnless};
ghost use Rattle.album_client.specs.Clients.{is_reading, stamp_at_work, IsProper};
ghost use Rattle.album_client.specs.Transitions.{client_of, IsMoved};
ghost use Rattle.album_client.specs.Steps.{is_waiting, transition_of, IsTakenBy};
ghost use Rattle.album_stamps.specs.Clocks.{next_of};
ghost use Rattle.album_stamps.specs.declared.limits.TheConstants.{MAX_COUNTER};
ghost use Rattle.album_sessions.specs.Asks.{IsHeard, IsOn, AreShared};
ghost use Rattle.album_keepers.specs.Envelopes.{Shows};
ghost use Rattle.album_sessions.specs.Phases.{Outset, IsUnderWay};
ghost use Rattle.album_keepers.specs.Replies.{IsReplied};
ghost use Rattle.album_passes.specs.Cuts.{Extends, IsSound};
ghost use Rattle.album_channels.specs.Sending.{announced_with};
ghost use Rattle.album_grounds.specs.Writes.{announcement_of};
ghost use Rattle.album_sessions.specs.Sending.{announced_by, to_announce, IsFree, IsFreeFor, IsAnnouncedBy};
ghost use Rattle.album_channels.specs.Channels.{IsClosedOrOutOfMemory, IsNoReply};
ghost use Rattle.album_sessions.specs.Steps.{client_step_in, terms_in, IsTaken, IsWaited, IsReaction, IsSent};

use crate::ask::Way;
use crate::attempts::contest;
use crate::service_names::ServiceNames;
use crate::session::Session;
use album_calls::Message;
use album_channels::{Asked, NoReply};
use album_client::{Client, ClientStep, Phase, Transition};
use album_passes::NamesWrites;
use album_permits::Answer;
use album_stamps::{Clock, Refusal, Stamp};
use album_writer::Preparing;
use std::marker::Brand;
use std::sync::Wait;
use std::time;

/// What the client has come to at one reply.
#[derive(Drop)]
pub(crate) enum Reaction {
    /// The ask is answered.
    Answers(Answer),
    /// It does this from now on, and sends these messages, if any.
    Sends(Phase, Vec<Message>),
}

impl<J: ServiceNames> Session<J> {
    /// Takes replies in place as long as they end no round of a read, which most don't, and gives the first other one.
    ///
    /// # Errors
    ///
    /// `Closed` or `OutOfMemory`; or the read is overtaken.
    pub(crate) fn wait<R: Wait + time::Clock>(
        &mut self,
        rt: &R,
        asked: &mut Asked<J>,
        phase: &mut Phase,
    ) -> Result<Message, NoReply>
        ensures way { (outset : Outset)
            → IsUnderWay J.policy outset self.old asked.old.begun.cut asked.old.sent phase.old
            → IsWaited J.policy outset self.new asked.new.begun.cut asked.new.sent phase.new }
        ensures replied { IfOk result
            (IsReplied J.terms.limit asked.new.begun.cut self.new.cut asked.new.sent) }
        ensures refused { IfErr result (IsNoReply (is_reading phase.new)) }
        ensures on { IsOn self.old self.new }
        ensures asked { asked.new ≡ asked.old }
    {
        self.channel.is_sound();
        for _ in rt.forever() {
            if let Some(heard) = self.wait_once(rt, asked, phase) {
                return heard;
            }
        }
        // `forever` has no end.
        unreachable!()
    }

    /// Hears one reply, and takes it, where it ends no round of a read; else gives it, or why none came or was taken.
    fn wait_once<R: Wait + time::Clock>(
        &mut self,
        rt: &R,
        asked: &mut Asked<J>,
        phase: &mut Phase,
    ) -> Option<Result<Message, NoReply>>
        ensures way { IfNone result ((outset : Outset)
            → IsUnderWay J.policy outset self.old asked.old.begun.cut asked.old.sent phase.old
            → IsUnderWay J.policy outset self.new asked.new.begun.cut asked.new.sent phase.new) }
        ensures left { IfSome result (λ _. phase.new ≡ phase.old) }
        ensures replied { IfSome result (λ heard. IfOk heard
            (IsReplied J.terms.limit asked.new.begun.cut self.new.cut asked.new.sent)) }
        ensures refused { IfSome result (λ heard. IfErr heard (IsNoReply (is_reading phase.new))) }
        ensures heard { IsHeard self.old self.new }
        ensures asked { asked.new ≡ asked.old }
    {
        let reads = phase.is_reading();
        let heard = self.hear(rt, asked, reads);
        waited(phase, heard)
    }

    /// Waits for one reply, of a read or not.
    ///
    /// # Errors
    ///
    /// `Closed` or `OutOfMemory`; or the read is overtaken.
    fn hear<R: Wait + time::Clock>(
        &mut self,
        rt: &R,
        asked: &mut Asked<J>,
        reads: bool,
    ) -> Result<Message, NoReply>
        ensures replied { IfOk result
            (IsReplied J.terms.limit asked.new.begun.cut self.new.cut asked.new.sent) }
        ensures refused { IfErr result (IsNoReply reads) }
        ensures heard { IsHeard self.old self.new }
        ensures asked { asked.new ≡ asked.old }
    {
        let heard = self.channel.hear(rt, asked, reads);
        self.channel.is_sound();
        // What is true of each session is known once it is looked at.
        let _client_step = self.client_step();
        heard
    }

    /// Gives the reply to the client.
    ///
    /// # Errors
    ///
    /// `Closed` or `OutOfMemory`; or the read is overtaken.
    pub(crate) fn give(
        &self,
        asked: &Asked<J>,
        phase: Phase,
        heard: Result<Message, NoReply>,
    ) -> Result<Transition, NoReply>
        requires replied { IfOk heard
            (IsReplied J.terms.limit asked.now.begun.cut self.now.cut asked.now.sent) }
        requires refused { IfErr heard (IsNoReply (is_reading phase)) }
        ensures taken { IfOk result (IsTaken J.terms.limit asked.now.begun.cut self.now.cut asked.now.sent
            (terms_in J.policy self.now) (client_step_in self.now) phase) }
        ensures proper { IfOk result (λ transition. IsProper transition.client.phase) }
        ensures refused { IfErr result (IsNoReply (is_reading phase)) }
    {
        // What was asked is for the contract alone.
        let _asked = asked;
        let transition = taken(self.client_step(), phase, heard)?;
        let _reads = transition.client.phase.is_reading();
        Ok(transition)
    }

    /// Adds what is noted to the audit book, before anything more is sent, and takes over the client's clock and tag.
    ///
    /// # Errors
    ///
    /// `OutOfMemory`.
    pub(crate) fn take_over<R: Wait>(
        &mut self,
        rt: &R,
        transition: Transition,
    ) -> Result<Reaction, Refusal>
        requires own { transition.client.clock.client ≡ self.old.client }
        requires risen { self.old.counter ≤ transition.client.clock.counter }
        ensures reaction { IfOk result (IsReaction transition.client.phase transition.sent.items transition.answer) }
        ensures shared { OnOk result (AreShared self.old.client self.old.share self.new.share transition.notes.items) }
        ensures counter { OnOk result (self.new.counter ≡ transition.client.clock.counter) }
        ensures spent { OnOk result (next_of transition.client.clock ≡ Err Refusal.StampsSpent
            → transition.client.clock.counter ≡ MAX_COUNTER) }
        ensures kept { OnErr result (self.new ≡ self.old) }
        ensures noted { OnErr result (transition.notes.items ≢ []) }
        ensures memory { IsOkUnless result Refusal.OutOfMemory }
        ensures client { self.new.client ≡ self.old.client }
        ensures cut { self.new.cut ≡ self.old.cut }
    {
        let Transition {
            client,
            notes,
            sent,
            answer,
        } = transition;
        let Client {
            number: _,
            clock,
            phase,
        } = client;
        let tag = phase.tag();
        let reaction = by_answer(phase, sent, answer);
        if let Err(why) = self.note_all(rt, notes) {
            let_go(reaction);
            return Err(why);
        }

        // That a clock which draws no more is at its end is known once it is asked.
        is_spent_at_its_end(clock);
        self.clock = clock;
        self.tag = tag;
        Ok(reaction)
    }

    /// Sends the messages, once the write is announced whose Prepares they are, if they are. Where there are none,
    /// replies to what was asked stay outstanding. Once a write has begun, what cuts it off is its answer.
    ///
    /// # Errors
    ///
    /// `Closed` or `OutOfMemory`.
    pub(crate) fn send<R: Wait>(
        &mut self,
        rt: &R,
        asked: Asked<J>,
        phase: Phase,
        sent: Vec<Message>,
    ) -> Result<Way<Asked<J>>, Refusal>
        requires free { IsFree J.policy self.old sent.items phase }
        requires shown { All (Shows (announced_by self.old.cut sent.items phase)) sent.items }
        ensures way { IfOk result (IsSent asked phase sent.items self.new.cut) }
        ensures refused { IfErr result IsClosedOrOutOfMemory }
        ensures unbegun { OnErr result (stamp_at_work phase ≡ None) }
        ensures announced { IsAnnouncedBy self.old self.new sent.items phase }
    {
        self.announce(&sent, &phase);
        let more = match self.channel.send_next_round(rt, asked, sent) {
            Ok(more) => more,
            Err(why) => return cut_off(stamp_of(phase), why),
        };
        Ok(Way::Awaits(more, phase))
    }

    /// Announces the write whose Prepares these messages are, if they are.
    fn announce(&mut self, sent: &[Message], phase: &Phase)
        requires { IsFree J.policy self.old sent.now phase.now }
        ensures { IsAnnouncedBy self.old self.new sent.now phase.now }
    {
        contest(self.alloc, &mut self.contested, sent);
        self.channel.is_sound();
        match begun(sent, phase) {
            Some(writing) => self.announce_write::<Brand>(writing),
            None => {}
        }
    }

    /// Announces the write, which N names: a proof finds it among the arguments.
    fn announce_write<N: NamesWrites>(&mut self, _writing: &Preparing)
        requires stamp { N.stamp ≡ (announcement_of _writing.now).0 }
        requires announced { N.announced ≡ (announcement_of _writing.now).1 }
        requires free { IsFreeFor J.policy self.old (Some (announcement_of _writing.now)) }
        ensures cut { self.new.cut ≡ announced_with self.old.cut (Some (announcement_of _writing.now)) }
        ensures grown { Extends self.old.cut self.new.cut }
        ensures client { self.new.client ≡ self.old.client }
        ensures counter { self.new.counter ≡ self.old.counter }
        ensures share { self.new.share ≡ self.old.share }
        ensures sound { IsSound self.new.cut }
    {
        self.channel.announce::<N>();
        self.channel.is_sound();
    }
}

/// The write whose Prepares these messages are, if they are: then it is to be announced before they leave.
fn begun<'a>(sent: &[Message], phase: &'a Phase) -> Option<&'a Preparing>
    ensures write { IfSome result (λ writing. to_announce sent.now phase.now ≡ Some (announcement_of writing.now)) }
    ensures none { IfNone result (to_announce sent.now phase.now ≡ None) }
{
    if sent.is_empty() {
        return None;
    }
    match phase {
        Phase::Prepares(writing) => Some(writing),
        Phase::Idle(_) | Phase::Reads(_, _) | Phase::Commits(_) => None,
    }
}

/// Takes the reply, where it ends no round of a read; else gives it, or why none came or was taken.
fn waited(phase: &mut Phase, heard: Result<Message, NoReply>) -> Option<Result<Message, NoReply>>
    requires { IfErr heard (IsNoReply (is_reading phase.old)) }
    ensures taken { IfNone result (IsOkAnd heard (λ reply.
        (is_waiting phase.old reply ≡ true) × IsTakenBy phase.old reply phase.new)) }
    ensures left { IfSome result (λ _. phase.new ≡ phase.old) }
    ensures same { IfSome result (λ given. IfOk given (λ reply. heard ≡ Ok reply)) }
    ensures refused { IfSome result (λ given. IfErr given (IsNoReply (is_reading phase.new))) }
{
    let reply = match heard {
        Ok(reply) => reply,
        Err(why) => return Some(Err(why)),
    };
    match phase.take_in_place(&reply) {
        Ok(true) => None,
        Ok(false) => Some(Ok(reply)),
        Err(why) => Some(Err(NoReply::Refused(why))),
    }
}

/// The transition that the reply makes. The reply is let go.
fn taken(
    client_step: ClientStep,
    phase: Phase,
    heard: Result<Message, NoReply>,
) -> Result<Transition, NoReply>
    requires { IfErr heard (IsNoReply (is_reading phase)) }
    ensures transition { IfOk result (λ transition. IsOkAnd heard (λ reply.
        IsMoved (transition_of client_step.terms (client_of client_step) reply phase) transition)) }
    ensures refused { IfErr result (IsNoReply (is_reading phase)) }
{
    let reply = match heard {
        Ok(reply) => reply,
        Err(why) => {
            drop(phase);
            return Err(why);
        }
    };
    let transition = client_step.take(phase, &reply);
    drop(reply);
    transition.map_err(NoReply::Refused)
}

/// What the client has come to is let go.
fn let_go(reaction: Reaction) {
    drop(reaction);
}

/// Says what is so of each clock: one that is spent is at the greatest counter.
fn is_spent_at_its_end(clock: Clock)
    ensures { next_of clock ≡ Err Refusal.StampsSpent → clock.counter ≡ MAX_COUNTER }
{
    let mut clock = clock;
    let _ = clock.next();
}

/// What the client has come to. A client that has answered does nothing more.
fn by_answer(phase: Phase, sent: Vec<Message>, answer: Option<Answer>) -> Reaction
    ensures { IsReaction phase sent.items answer result }
{
    match answer {
        Some(answer) => {
            drop(phase);
            Reaction::Answers(answer)
        }
        None => Reaction::Sends(phase, sent),
    }
}

/// The stamp of the write that is under way, if there is one. The write is let go.
fn stamp_of(phase: Phase) -> Option<Stamp>
    ensures { result ≡ stamp_at_work phase }
{
    let stamp = phase.stamp();
    drop(phase);
    stamp
}

/// The outcome of an ask that is cut off: where a write of this stamp has begun, the answer `Unsettled`, and else the
/// refusal.
pub(crate) fn cut_off<A>(stamp: Option<Stamp>, why: Refusal) -> Result<Way<A>, Refusal>
    ensures begun { IfSome stamp (λ t. result ≡ Ok (Way.Answered (Answer.Unsettled t why))) }
    ensures before { IfNone stamp (result ≡ Err why) }
    ensures unbegun { OnErr result (stamp ≡ None) }
{
    match stamp {
        Some(stamp) => Ok(Way::Answered(Answer::Unsettled(stamp, why))),
        None => Err(why),
    }
}
