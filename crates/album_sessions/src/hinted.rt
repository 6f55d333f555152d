//! Hinted reads: an ask whose first read has the items of an earlier view. Where what is read is closed, it is the
//! view. Where it isn't, it is dropped, and the ask begins with its objects.
ghost use Rattle.std.specs.Prelude.{◌≡◌, ◌==◌, ◌&&◌, false, true, None, Ok, Err, IfOk, IfErr, IfSome, IfNone, OnErr};
ghost use Rattle.std.specs.List.{list_any};
ghost use Rattle.album_stamps.specs.declared.refusals.Refusal.{Refusal};
ghost use Rattle.album_views.specs.Asks.{objects_of};
ghost use Rattle.album_views.specs.Checks.{flaw_of, refusal_of};
ghost use Rattle.album_views.specs.Steps.{AreReadable};
ghost use Rattle.album_sessions.specs.Asks.{IsOn};
ghost use Rattle.album_sessions.specs.Hints.{are_among, is_busy, is_without_view, item_asked, items_asked};
ghost use Rattle.album_channels.specs.Channels.{IsClosedOrOutOfMemory};
ghost use Rattle.album_sessions.specs.Sessions.{AddsNothing};
ghost use Rattle.album_sessions.specs.Steps.{IsBegunFor, IsBegunWith, IsDone};

use crate::ask::Way;
use crate::hints::{Hint, Topic};
use crate::service_names::ServiceNames;
use crate::session::Session;
use crate::step::cut_off;
use album_calls::{Body, Message, Request};
use album_channels::{Asked, NoReply, begins_read};
use album_client::{Phase, Transition};
use album_eval::Principal;
use album_items::{ItemId, Items, Kind};
use album_permits::Answer;
use album_stamps::{Refusal, Stamp};
use album_views::{Ask, Viewing};
use std::alloc::{AllocError, Global};
use std::sync::Wait;
use std::time;

/// How an ask goes, by a hint or else by its objects; and its topic.
#[derive(Clone, Copy)]
pub(crate) struct Course {
    pub(crate) hinted: bool,
    topic: Topic,
}

impl Course {
    /// By its objects.
    pub(crate) fn plain(topic: &Topic) -> Course
        ensures { result.hinted ≡ false }
    {
        Course {
            hinted: false,
            topic: *topic,
        }
    }

    /// By a hint.
    fn by_hint(topic: &Topic) -> Course
        ensures { result.hinted ≡ true }
    {
        Course {
            hinted: true,
            topic: *topic,
        }
    }

    /// Whether its hint is tried now: `reads` says whether the client is still in a read.
    pub(crate) fn tries(&self, reads: bool) -> bool
        ensures { result ≡ (self.now.hinted && reads) }
    {
        self.hinted && reads
    }
}

impl<J: ServiceNames> Session<J> {
    /// The answer to the ask, if there is a hint for it, and what is read by that is a view.
    ///
    /// # Errors
    ///
    /// `Closed` or `OutOfMemory`.
    pub(crate) fn ask_by_hint<R: Wait + time::Clock>(
        &mut self,
        rt: &R,
        principal: &Principal,
        ask: &Ask,
        topic: &Topic,
    ) -> Result<Option<Answer>, Refusal>
        requires taken { refusal_of ask.now principal.now ≡ None }
        ensures done { IfOk result (IsDone J.terms.limit J.policy
            (record { principal = principal.now; ask = ask.now; session = self.old; hinted = true }) self.new) }
        ensures refused { IfErr result IsClosedOrOutOfMemory }
        ensures unbegun { OnErr result (AddsNothing self.old self.new) }
        ensures on { IsOn self.old self.new }
    {
        self.channel.is_sound();
        let Some((asked, phase)) = self.begin_by_hint(rt, principal, ask, topic) else {
            return Ok(None);
        };
        let course = Course::by_hint(topic);
        let answer = self.drive(rt, asked, phase, &course)?;
        if answer.is_none() {
            self.hints.forget(topic);
        }
        Ok(answer)
    }

    /// The ask begins with a read of the hinted items, if there is a hint, and memory for it.
    fn begin_by_hint<R: Wait>(
        &mut self,
        rt: &R,
        principal: &Principal,
        ask: &Ask,
        topic: &Topic,
    ) -> Option<(Asked<J>, Phase)>
        requires taken { refusal_of ask.now principal.now ≡ None }
        ensures way { IfSome result (IsBegunFor J.policy principal.now ask.now self.old true self.new) }
        ensures same { self.new ≡ self.old }
    {
        self.channel.is_open().ok()?;
        self.channel.is_sound();
        let items = self.hints.find(topic)?;
        let transition = self.asks_with(principal, ask, items)?;
        match self.start(rt, transition) {
            Ok(started) => Some(started),
            Err(_) => None,
        }
    }

    /// The client's first step where it reads these items for the ask, if the ask's objects are among them.
    fn asks_with(&self, principal: &Principal, ask: &Ask, items: Items) -> Option<Transition>
        requires taken { refusal_of ask.now principal.now ≡ None }
        requires readable { AreReadable items }
        ensures { IfSome result (IsBegunWith J.policy principal.now ask.now self.now) }
    {
        let principal = principal.copy().ok()?;
        let viewing = viewing_of(self.alloc, ask, items.as_slice())?;
        self.client_step()
            .ask_for(self.tag, principal, viewing, items)
            .ok()
    }

    /// Keeps the items of a read as a hint, where the read has led to a view. What is denied replaces no hint.
    pub(crate) fn remember(
        &self,
        course: &Course,
        reads: bool,
        asked: &Asked<J>,
        transition: &Transition,
    )
        requires readable { reads ≡ true → AreReadable (items_asked asked.now.sent) }
    {
        if course.hinted
            || !reads
            || transition.client.phase.is_reading()
            || is_without_view(transition)
        {
            return;
        }
        if let Ok(items) = items_asked(self.alloc, asked.sent()) {
            let is_denied = matches!(transition.answer, Some(Answer::Denied(_)));
            self.hints.keep(Hint::new(course.topic, items), !is_denied);
        }
    }
}

/// The ask as it is viewed first, if its objects are among these items.
fn viewing_of(alloc: Global, ask: &Ask, items: &[ItemId]) -> Option<Viewing>
    requires sound { flaw_of ask.now ≡ None }
    ensures viewing { IfSome result (λ viewing. viewing ≡ record { ask = ask.now; reads = 0 }) }
    ensures objects { IfSome result (λ _. are_among (objects_of ask.now) items.now ≡ true) }
{
    let (viewing, objects) = Viewing::start(alloc, ask.copy().ok()?).ok()?;
    if are_among(objects.as_slice(), items) {
        Some(viewing)
    } else {
        drop(viewing);
        None
    }
}

/// The outcome of an ask that hears no more. A hint that is tried was in vain, and so was a read that is overtaken: the
/// ask is made anew. `stamp` is that of its write, if one has begun.
pub(crate) fn given_up<A>(
    tries: bool,
    stamp: Option<Stamp>,
    why: NoReply,
) -> Result<Way<A>, Refusal>
    ensures tried { tries ≡ true → result ≡ Ok Way.InVain }
    ensures overtaken { why ≡ NoReply.Overtaken → result ≡ Ok Way.InVain }
    ensures begun { tries ≡ false → (e : Refusal) → why ≡ NoReply.Refused e
        → IfSome stamp (λ t. result ≡ Ok (Way.Answered (Answer.Unsettled t e))) }
    ensures before { tries ≡ false → (e : Refusal) → why ≡ NoReply.Refused e → IfNone stamp (result ≡ Err e) }
    ensures unbegun { OnErr result (stamp ≡ None) }
    ensures refused { IfErr result (λ e. why ≡ NoReply.Refused e) }
{
    if tries {
        return Ok(Way::InVain);
    }
    match why {
        NoReply::Overtaken => Ok(Way::InVain),
        NoReply::Refused(why) => cut_off(stamp, why),
    }
}

/// Whether the hint that is tried has come to no view.
pub(crate) fn is_in_vain(tries: bool, transition: &Transition) -> bool
    ensures { result ≡ (tries && is_without_view transition.now.sent.items transition.now.answer) }
{
    tries && is_without_view(transition)
}

/// Whether a read has led to another one, or to the answer that the ask is busy.
fn is_without_view(transition: &Transition) -> bool
    ensures { result ≡ is_without_view transition.now.sent.items transition.now.answer }
{
    begins_read(transition.sent.as_slice()) || is_busy(&transition.answer)
}

/// Whether the ask is answered that it is busy.
fn is_busy(answer: &Option<Answer>) -> bool
    ensures { result ≡ is_busy answer.now }
{
    matches!(answer, Some(Answer::Busy(_)))
}

/// Whether each of these items is among the others.
fn are_among(items: &[ItemId], others: &[ItemId]) -> bool
    ensures { result ≡ are_among items.now others.now }
{
    items.iter().all(|item| is_among(*item, others))
}

fn is_among(item: ItemId, others: &[ItemId]) -> bool
    ensures { result ≡ list_any (λ other. item == other) others.now }
{
    others.iter().any(|other| item.is(*other))
}

/// The items that the messages of a read ask for.
fn items_asked(alloc: Global, sent: &[Message]) -> Result<Items, AllocError>
    ensures { IfOk result (λ items. items ≡ items_asked sent.now) }
{
    let items = sent
        .iter()
        .map(|message| item_asked(message.body()))
        .collect(alloc)?;
    Ok(Items::of(items))
}

/// The item of a Get. No other message comes here, and what it would get doesn't matter.
fn item_asked(body: &Body) -> ItemId
    ensures { result ≡ item_asked body.now }
{
    match body {
        Body::Request(Request::Get(item, _)) => *item,
        Body::Request(_) | Body::Reply(_) => ItemId::new(Kind::Picture, 0),
    }
}
