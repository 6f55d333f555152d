//! A world: its events, and their outputs.
ghost use Rattle.std.specs.Prelude.{◌≡◌, ◌≢◌, ◌≤◌, ℕ, true, [], length, slice_get, option_copied, Ok, Err, IsOk, IfOk, IfErr, OnErr, IsOkUnless};
ghost use Rattle.album_stamps.specs.Outcome.{Makes};
ghost use Rattle.album_stamps.specs.declared.limits.TheConstants.{MAX_COUNTER};
ghost use Rattle.album_items.specs.Openings.{is_base_opening};
ghost use Rattle.album_client.specs.Terms.{terms_of};
ghost use Rattle.album_world.specs.Atomic.{ViewsAreReadAtomic};
ghost use Rattle.album_world.specs.Busy.{BusyHasItsCause};
ghost use Rattle.album_world.specs.Changes.{change_of};
ghost use Rattle.album_world.specs.Fresh.{ViewsAreFresh};
ghost use Rattle.album_world.specs.Granted.{WritesAreGranted};
ghost use Rattle.album_world.specs.Outcomes.{OutcomesAreTrue};
ghost use Rattle.album_world.specs.Requests.{AnswersAreToRequests};
ghost use Rattle.album_world.specs.Rulings.{RulingsHold};
ghost use Rattle.album_world.specs.Seen.{AreStepped, IsExtendedBy, IsDone, IsReached, OfEachPast, AreExtendedBy, LeadsTo, first_world, opened};
ghost use Rattle.album_world.specs.State.{highest_counter, message_of};
ghost use Rattle.album_world.specs.Updates.{NoUpdateIsLost};

use crate::clients::Clients;
use crate::opening::terms_of;
use crate::state::State;
use crate::stopped::Stopped;
use album_calls::Message;
use album_client::Terms;
use album_items::Opening;
use album_partition::Partition;
use album_permits::{Event, Out};
use album_stamps::Refusal;
use std::alloc::Global;
use std::marker::Model;

/// The store as one machine: partitions, clients and the messages between them. Contracts see the terms on which it
/// opened, and what it keeps.
pub struct World {
    alloc: Global,
    terms: Terms,
    state: State,
}

impl Model for World {
    ghost use Rattle.album_world.specs.Seen.{WorldState, IsReached};

    ghost Value = { WorldState };

    ghost view = { λ w. record { terms = w.terms; kept = w.state } };

    ghost invariant = { λ w. IsReached (record { terms = w.terms; kept = w.state }) };
}

// By hand, so that what lets it go is proved here, and not again in each crate above.
impl Drop for World {
    fn drop(self) {
        let World {
            alloc: _,
            terms: _,
            state,
        } = self;
        drop(state);
    }
}

impl World {
    /// A world with no message yet, no client, and each partition as the opening has it.
    ///
    /// # Errors
    ///
    /// `BadOpening` exactly where the opening's check refuses it. Else `OutOfMemory`.
    #[tactic(auto, using(album_items::proofs::BaseLemmas::opening_is_base))]
    pub fn open(alloc: Global, opening: &Opening) -> Result<World, Refusal>
        ensures { Makes (λ world. world) result (opened opening.now) }
    {
        opening.check()?;
        World::open_on(alloc, opening)
    }

    /// A world that opens on what an epoch has left, or on an opening that passes its check: on a base.
    ///
    /// # Errors
    ///
    /// `OutOfMemory`.
    pub fn open_on(alloc: Global, opening: &Opening) -> Result<World, Refusal>
        requires base { is_base_opening opening.now ≡ true }
        ensures world { IfOk result (λ world. world ≡ first_world opening.now) }
        ensures leads { IfOk result (λ world. LeadsTo opening.now [] world) }
        ensures memory { IsOkUnless result Refusal.OutOfMemory }
    {
        let terms = terms_of(opening);
        let stopped = Stopped::new(alloc)?;
        let partitions = Partition::all_of(alloc, opening)?;
        let state = State {
            partitions,
            messages: Vec::new(alloc),
            clients: Clients::new(alloc),
            stopped,
        };
        Ok(World {
            alloc,
            terms,
            state,
        })
    }

    /// Lets the event happen, and gives its outputs: first the notes, then the numbers of the messages that are sent,
    /// then the answer.
    ///
    /// Its answers are right whatever past the world may have: see the clauses by their names.
    ///
    /// # Errors
    ///
    /// An ask: `Stopped` where its client was stopped, else `ClientBusy` where it has an ask already, else the first
    /// test of `Ask::check` that fails. A message: `NoSuchMessage`. A sweep: `NoSuchPart`, else `NotPrepared`. A stop:
    /// `Stopped`. A trim: `NoSuchPart`, else the error of `Partition::trim`. In each case `OutOfMemory` comes last.
    /// Nothing is changed then.
    #[tactic(auto, using(crate::proofs::StoryLemmas::reached_if, crate::proofs::StoryLemmas::extended_if))]
    pub fn step(&mut self, event: &Event) -> Result<Vec<Out>, Refusal>
        // The event is done as the definition says. Else it is refused for the definition's reason, or for memory.
        ensures done { IfOk result
            (λ outs. IsDone self.old.terms self.old.kept event.now self.new.kept outs.items) }
        ensures refused { IfErr result
            (λ e. e ≢ Refusal.OutOfMemory → change_of self.old.terms self.old.kept event.now ≡ Err e) }
        ensures memory { IfErr result
            (λ e. e ≡ Refusal.OutOfMemory → IsOk (change_of self.old.terms self.old.kept event.now)) }
        ensures unchanged { OnErr result (self.new ≡ self.old) }
        ensures terms { self.new.terms ≡ self.old.terms }
        // A stop takes no memory.
        ensures stop { IfErr result
            (λ e. e ≡ Refusal.OutOfMemory → (client : ℕ) → event.now ≢ Event.Stop client) }

        // Each past of the old world, extended by the event, is a past of the new one, and has the outputs.
        ensures extended { IfOk result (λ outs. IsExtendedBy self.old event.now self.new outs.items) }

        // Each past has these properties.
        ensures rulings_hold { OfEachPast self.new (λ opening past. RulingsHold (terms_of opening) past) }
        ensures writes_are_granted { OfEachPast self.new (λ opening past. WritesAreGranted (terms_of opening) past) }
        ensures views_are_read_atomic { OfEachPast self.new ViewsAreReadAtomic }
        ensures views_are_fresh { OfEachPast self.new (λ opening past. ViewsAreFresh (terms_of opening) past) }
        ensures outcomes_are_true { OfEachPast self.new (λ opening past. OutcomesAreTrue (terms_of opening) past) }
        ensures no_update_is_lost { OfEachPast self.new NoUpdateIsLost }
        ensures busy_has_its_cause { OfEachPast self.new (λ opening past. BusyHasItsCause (terms_of opening) past) }
        ensures answers_are_to_requests { OfEachPast self.new
            (λ opening past. AnswersAreToRequests (terms_of opening) past) }
    {
        self.state.step(self.alloc, self.terms, event)
    }

    /// Lets one event after the other happen, and gives for each the result of `step`.
    ///
    /// # Errors
    ///
    /// `OutOfMemory`, before any of them. Nothing is changed then.
    pub fn run(&mut self, events: &[Event]) -> Result<Vec<Result<Vec<Out>, Refusal>>, Refusal>
        ensures done { IfOk result (λ results.
            AreStepped (λ outs. outs.items) self.old.terms self.old.kept events.now self.new.kept results.items) }
        ensures memory { IsOkUnless result Refusal.OutOfMemory }
        ensures unchanged { OnErr result (self.new ≡ self.old) }
        ensures terms { self.new.terms ≡ self.old.terms }

        // Each past, extended by the events that are not refused, is a past of the new world, and has their outputs.
        ensures extended { IfOk result
            (λ results. AreExtendedBy (λ outs. outs.items) self.old events.now self.new results.items) }

        // Each past has these properties.
        ensures rulings_hold { OfEachPast self.new (λ opening past. RulingsHold (terms_of opening) past) }
        ensures writes_are_granted { OfEachPast self.new (λ opening past. WritesAreGranted (terms_of opening) past) }
        ensures views_are_read_atomic { OfEachPast self.new ViewsAreReadAtomic }
        ensures views_are_fresh { OfEachPast self.new (λ opening past. ViewsAreFresh (terms_of opening) past) }
        ensures outcomes_are_true { OfEachPast self.new (λ opening past. OutcomesAreTrue (terms_of opening) past) }
        ensures no_update_is_lost { OfEachPast self.new NoUpdateIsLost }
        ensures busy_has_its_cause { OfEachPast self.new (λ opening past. BusyHasItsCause (terms_of opening) past) }
        ensures answers_are_to_requests { OfEachPast self.new
            (λ opening past. AnswersAreToRequests (terms_of opening) past) }
    {
        let mut results = Vec::with_capacity(self.alloc, events.len())?;
        for event in events {
            results.push_reserved(self.step(event));
        }
        Ok(results)
    }

    /// The message of this number. The first that was sent is 1.
    pub fn message(&self, number: u64) -> Option<&Message>
        ensures { option_copied result ≡ message_of self.now.kept.messages number }
    {
        self.state.message(number)
    }

    /// The partition of this number, from 0.
    pub fn partition(&self, number: u16) -> Option<&Partition>
        ensures { option_copied result ≡ slice_get self.now.kept.partitions number }
    {
        self.state.partitions.get(usize::from(number))
    }

    /// How many messages were sent.
    pub fn sent(&self) -> u64
        ensures { result ≡ length self.now.kept.messages }
    {
        self.state.messages.len() as u64
    }

    /// The greatest counter of any client's clock, and 0 where none has asked: no stamp was drawn with a greater one.
    pub fn highest_counter(&self) -> u64
        ensures highest { result ≡ highest_counter self.now.kept.clients }
        ensures range { result ≤ MAX_COUNTER }
    {
        self.state.clients.highest_counter()
    }

    /// For contracts alone: some past leads to this world.
    pub fn is_reached(&self)
        ensures { IsReached self.now }
    {
        // The invariant is known once a field is looked at.
        let _state = &self.state;
    }
}
