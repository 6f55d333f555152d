//! Asks: a session's client, driven by what the partitions reply.
//!
//! What owns much is let go by a call of `drop`: the prover looks at its parts once, and not at each way out.
ghost use Rattle.std.specs.Prelude.{◌≡◌, ◌≤◌, ◌⊎◌, false, None, Some, Err, All, IsTrue, IfOk, IfErr, IfSome, OnErr, IsOkUnless};
ghost use Rattle.album_client.specs.Clients.{is_reading};
ghost use Rattle.album_client.specs.Steps.{read_begins};
ghost use Rattle.album_client.specs.Transitions.{client_of, IsMoved};
ghost use Rattle.album_passes.specs.Cuts.{Extends, IsSound};
ghost use Rattle.album_stamps.specs.Stamps.{is_client};
ghost use Rattle.album_views.specs.Asks.{objects_of};
ghost use Rattle.album_views.specs.Checks.{refusal_of};
ghost use Rattle.album_sessions.specs.Asks.{IsOn};
ghost use Rattle.album_sessions.specs.Attempts.{RestsOnLast};
ghost use Rattle.album_keepers.specs.Envelopes.{Shows};
ghost use Rattle.album_sessions.specs.Phases.{Outset, IsUnderWay};
ghost use Rattle.album_keepers.specs.Replies.{IsReplied};
ghost use Rattle.album_sessions.specs.Resting.{RestsOn};
ghost use Rattle.album_channels.specs.Channels.{IsClosedOrOutOfMemory, IsNoReply};
ghost use Rattle.album_sessions.specs.Sessions.{SessionState, AddsNothing};
ghost use Rattle.album_sessions.specs.Steps.{client_step_in, terms_in, IsBegunFor, IsDone, IsLed, IsSomehowUnderWay, IsSomehowWaited, IsStarted, IsStill, IsWaited};

use crate::hinted::{Course, given_up, is_in_vain};
use crate::hints::Topic;
use crate::service_names::ServiceNames;
use crate::session::Session;
use crate::step::Reaction;
use album_calls::Message;
use album_channels::{Asked, NoReply};
use album_client::{Client, ClientStep, Phase, Terms, Transition};
use album_eval::Principal;
use album_items::Items;
use album_permits::Answer;
use album_stamps::Refusal;
use album_views::Ask;
use std::sync::Wait;
use std::time;

/// How far an ask has come.
#[derive(Drop)]
pub(crate) enum Way<A> {
    /// It is answered.
    Answered(Answer),
    /// Replies to these messages are outstanding, and the client is in this phase.
    Awaits(A, Phase),
    /// It has come to no view: its hint was in vain, or its read is overtaken.
    InVain,
}

impl<J: ServiceNames> Session<J> {
    /// Reads what the ask looks at, rules on it by the service's policy, and serves it or writes it. In a checked store
    /// a write that is aborted is attempted anew: `MAX_ATTEMPTS` times in all at most.
    ///
    /// # Errors
    ///
    /// That of `Ask::check`; else `Closed` or `OutOfMemory`. A write that has begun is answered.
    pub fn ask<R: Wait + time::Clock>(
        &mut self,
        rt: &R,
        principal: &Principal,
        ask: Ask,
    ) -> Result<Answer, Refusal>
        ensures rests { IfOk result (RestsOnLast J.terms.limit J.policy principal.now ask self.old self.new) }
        ensures checked { IfSome (refusal_of ask principal.now) (λ e. (result ≡ Err e) × (self.new ≡ self.old)) }
        ensures refused { IfErr result (λ e. (refusal_of ask principal.now ≡ Some e) ⊎ IsClosedOrOutOfMemory e) }
        ensures unbegun { OnErr result (AddsNothing self.old self.new) }
        ensures grown { Extends self.old.cut self.new.cut }
        ensures sound { IsSound self.new.cut }
        ensures client { self.new.client ≡ self.old.client }
        ensures risen { self.old.counter ≤ self.new.counter }
    {
        self.channel.is_sound();
        ask.check(principal)?;
        self.contested = Items::of(Vec::new(self.alloc));
        let answer = self.answer_at_last(rt, principal, &ask);
        drop(ask);
        answer
    }

    /// Asks by a hint, if there is one that serves, and else with a read of the objects.
    ///
    /// # Errors
    ///
    /// `Closed` or `OutOfMemory`.
    pub(crate) fn answer<R: Wait + time::Clock>(
        &mut self,
        rt: &R,
        principal: &Principal,
        ask: &Ask,
    ) -> Result<Answer, Refusal>
        requires taken { refusal_of ask.now principal.now ≡ None }
        ensures rests { IfOk result (RestsOn J.terms.limit J.policy principal.now ask.now self.old self.new) }
        ensures refused { IfErr result IsClosedOrOutOfMemory }
        ensures unbegun { OnErr result (AddsNothing self.old self.new) }
        ensures on { IsOn self.old self.new }
    {
        self.channel.is_sound();
        let topic = Topic::of(ask);
        if let Some(answer) = self.ask_by_hint(rt, principal, ask, &topic)? {
            return Ok(answer);
        }
        self.ask_by_objects(rt, principal, ask, &topic)
    }

    /// Asks with a read of the objects at first, and anew where a read is overtaken: until one isn't, since whoever
    /// overtakes it has committed a write meanwhile.
    ///
    /// # Errors
    ///
    /// `Closed` or `OutOfMemory`.
    fn ask_by_objects<R: Wait + time::Clock>(
        &mut self,
        rt: &R,
        principal: &Principal,
        ask: &Ask,
        topic: &Topic,
    ) -> Result<Answer, Refusal>
        requires taken { refusal_of ask.now principal.now ≡ None }
        ensures rests { (session : SessionState) → IsStill session self.old
            → IfOk result (RestsOn J.terms.limit J.policy principal.now ask.now session self.new) }
        ensures refused { IfErr result IsClosedOrOutOfMemory }
        ensures unbegun { (session : SessionState) → IsStill session self.old
            → OnErr result (AddsNothing session self.new) }
        ensures on { IsOn self.old self.new }
    {
        self.channel.is_sound();
        for _ in rt.forever() {
            if let Some(answer) = self.ask_once(rt, principal, ask, topic)? {
                return Ok(answer);
            }
        }
        // `forever` has no end.
        unreachable!()
    }

    /// Asks so once: no answer where the read is overtaken.
    ///
    /// # Errors
    ///
    /// `Closed` or `OutOfMemory`.
    fn ask_once<R: Wait + time::Clock>(
        &mut self,
        rt: &R,
        principal: &Principal,
        ask: &Ask,
        topic: &Topic,
    ) -> Result<Option<Answer>, Refusal>
        requires taken { refusal_of ask.now principal.now ≡ None }
        ensures done { (session : SessionState) → IsStill session self.old → IfOk result (IsDone J.terms.limit J.policy
            (record { principal = principal.now; ask = ask.now; session = session; hinted = false }) self.new) }
        ensures refused { IfErr result IsClosedOrOutOfMemory }
        ensures unbegun { (session : SessionState) → IsStill session self.old
            → OnErr result (AddsNothing session self.new) }
        ensures on { IsOn self.old self.new }
    {
        self.channel.is_sound();
        let (asked, phase) = self.begin(rt, principal, ask)?;
        let course = Course::plain(topic);
        self.drive(rt, asked, phase, &course)
    }

    /// Takes replies until the ask is answered, or has come to no view.
    ///
    /// # Errors
    ///
    /// `Closed` or `OutOfMemory`.
    pub(crate) fn drive<R: Wait + time::Clock>(
        &mut self,
        rt: &R,
        mut asked: Asked<J>,
        mut phase: Phase,
        course: &Course,
    ) -> Result<Option<Answer>, Refusal>
        requires way { IsSomehowUnderWay J.policy course.now.hinted self.old asked.begun.cut asked.sent phase }
        ensures done { (outset : Outset) → outset.hinted ≡ course.now.hinted
            → IsUnderWay J.policy outset self.old asked.begun.cut asked.sent phase
            → IfOk result (IsDone J.terms.limit J.policy outset self.new) }
        ensures refused { IfErr result IsClosedOrOutOfMemory }
        ensures unbegun { (outset : Outset) → outset.hinted ≡ course.now.hinted
            → IsUnderWay J.policy outset self.old asked.begun.cut asked.sent phase
            → OnErr result (AddsNothing outset.session self.new) }
        ensures on { IsOn self.old self.new }
    {
        self.channel.is_sound();
        for _ in rt.forever() {
            let heard = self.wait(rt, &mut asked, &mut phase);
            match self.go_on(rt, asked, phase, heard, course)? {
                Way::Answered(answer) => return Ok(Some(answer)),
                Way::InVain => return Ok(None),
                Way::Awaits(more, next) => {
                    asked = more;
                    phase = next;
                }
            }
        }
        // `forever` has no end.
        unreachable!()
    }

    /// The ask begins: its first messages are sent.
    ///
    /// # Errors
    ///
    /// `Closed` or `OutOfMemory`.
    fn begin<R: Wait>(
        &mut self,
        rt: &R,
        principal: &Principal,
        ask: &Ask,
    ) -> Result<(Asked<J>, Phase), Refusal>
        requires taken { refusal_of ask.now principal.now ≡ None }
        ensures way { (session : SessionState) → IsStill session self.old
            → IfOk result (IsBegunFor J.policy principal.now ask.now session false self.new) }
        ensures refused { IfErr result IsClosedOrOutOfMemory }
        ensures same { self.new ≡ self.old }
    {
        self.channel.is_open()?;
        self.channel.is_sound();
        let transition = first_step(self.client_step(), self.tag, principal, ask)?;
        self.start(rt, transition)
    }

    /// Sends the first messages of an ask.
    ///
    /// # Errors
    ///
    /// `Closed` or `OutOfMemory`.
    pub(crate) fn start<R: Wait>(
        &mut self,
        rt: &R,
        transition: Transition,
    ) -> Result<(Asked<J>, Phase), Refusal>
        requires shown { All (Shows self.old.cut) transition.sent.items }
        ensures starts { IfOk result (IsStarted self.old.cut transition) }
        ensures refused { IfErr result IsClosedOrOutOfMemory }
        ensures same { self.new ≡ self.old }
    {
        // What is true of each phase is known once it is looked at.
        let _reads = transition.client.phase.is_reading();
        let (phase, sent) = work_of(transition);
        self.tag = phase.tag();
        match self.channel.send_round(rt, sent) {
            Ok(asked) => Ok((asked, phase)),
            Err(why) => {
                drop(phase);
                Err(why)
            }
        }
    }

    /// The client, and the terms on which it asks.
    pub(crate) fn client_step(&self) -> ClientStep
        ensures client { client_of result ≡ client_step_in self.now }
        ensures terms { result.terms ≡ terms_in J.policy self.now }
        ensures some { 1 ≤ self.now.cut.parts }
        ensures own { IsTrue (is_client self.now.client) }
    {
        let number = self.channel.client();

        // What is true of each client's number is known once it is looked at.
        let _number = number.number();
        ClientStep {
            alloc: self.alloc,
            // The session's clock began above the epochs before, so the terms needn't lift it.
            terms: Terms::new(self.channel.parts(), self.policy, self.channel.checked(), 0),
            number,
            clock: self.clock,
        }
    }

    /// Continues with what was heard. Once a write has begun, what cuts it off is its answer. A read that is overtaken
    /// comes to no view. While a hint is tried (`course` says whether one is), a read that comes to no view leaves the
    /// session as it was, and the ask isn't refused for it.
    ///
    /// # Errors
    ///
    /// `Closed` or `OutOfMemory`.
    fn go_on<R: Wait>(
        &mut self,
        rt: &R,
        asked: Asked<J>,
        phase: Phase,
        heard: Result<Message, NoReply>,
        course: &Course,
    ) -> Result<Way<Asked<J>>, Refusal>
        requires way { IsSomehowWaited J.policy course.now.hinted self.old asked.begun.cut asked.sent phase }
        requires replied { IfOk heard
            (IsReplied J.terms.limit asked.begun.cut self.old.cut asked.sent) }
        requires heard { IfErr heard (IsNoReply (is_reading phase)) }
        ensures way { (outset : Outset) → outset.hinted ≡ course.now.hinted
            → IsWaited J.policy outset self.old asked.begun.cut asked.sent phase
            → IfOk result (IsLed J.terms.limit J.policy outset self.new) }
        ensures refused { IfErr result IsClosedOrOutOfMemory }
        ensures unbegun { (outset : Outset) → outset.hinted ≡ course.now.hinted
            → IsWaited J.policy outset self.old asked.begun.cut asked.sent phase
            → OnErr result (AddsNothing outset.session self.new) }
        ensures on { IsOn self.old self.new }
    {
        self.channel.is_sound();
        let stamp = phase.stamp();
        let reads = phase.is_reading();
        let tries = course.tries(reads);
        let transition = match self.give(&asked, phase, heard) {
            Ok(transition) => transition,
            Err(why) => {
                drop(asked);
                return given_up(tries, stamp, why);
            }
        };
        if is_in_vain(tries, &transition) {
            drop(asked);
            drop(transition);
            return Ok(Way::InVain);
        }
        self.remember(course, reads, &asked, &transition);
        match self.take_over(rt, transition)? {
            Reaction::Answers(answer) => {
                drop(asked);
                Ok(Way::Answered(answer))
            }
            Reaction::Sends(phase, sent) => self.send(rt, asked, phase, sent),
        }
    }
}

/// The client's first step where it reads the objects of the ask.
fn first_step(
    client_step: ClientStep,
    tag: u64,
    principal: &Principal,
    ask: &Ask,
) -> Result<Transition, Refusal>
    requires taken { refusal_of ask.now principal.now ≡ None }
    ensures transition { IfOk result (IsMoved (read_begins client_step.terms (client_of client_step) tag
        (record { viewing = record { ask = ask.now; reads = 0 }; principal = principal.now }) (objects_of ask.now))) }
    ensures memory { IsOkUnless result Refusal.OutOfMemory }
{
    let principal = principal.copy()?;
    match ask.copy() {
        Ok(ask) => client_step.ask(tag, principal, ask),
        Err(why) => {
            drop(principal);
            Err(why)
        }
    }
}

/// What the client does from then on, and what it sends.
fn work_of(transition: Transition) -> (Phase, Vec<Message>)
    ensures phase { result.0 ≡ transition.client.phase }
    ensures sent { result.1.items ≡ transition.sent.items }
{
    let Transition {
        client,
        notes,
        sent,
        answer,
    } = transition;
    drop(notes);
    drop(answer);
    let Client {
        number: _,
        clock: _,
        phase,
    } = client;
    (phase, sent)
}
