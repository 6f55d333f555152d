//! A client's step: its number, clock and terms before, and the transition after.
ghost use Rattle.std.specs.Prelude.{◌≡◌, ◌≤◌, [], length};
ghost use Rattle.album_stamps.specs.declared.limits.TheConstants.{MAX_READ_ITEMS};

use crate::clients::{Client, Phase};
use crate::terms::Terms;
use album_calls::Message;
use album_permits::{Answer, Note};
use album_stamps::{ClientNo, Clock};
use std::alloc::Global;

/// A client's next state, with its outputs: notes, messages to send, and at most one answer.
#[derive(Drop)]
pub struct Transition {
    /// The next state.
    pub client: Client,
    /// Of a ruling, in their order.
    pub notes: Vec<Note>,
    /// The messages, in the order in which they are sent.
    pub sent: Vec<Message>,
    /// The answer to the request, if it is over.
    pub answer: Option<Answer>,
    ghost few: { length sent.items ≤ MAX_READ_ITEMS },
}

impl Transition {
    /// The same with these notes.
    pub(crate) fn with_notes(self, notes: Vec<Note>) -> Transition
        ensures client { result.client ≡ self.client }
        ensures notes { result.notes ≡ notes }
        ensures sent { result.sent ≡ self.sent }
        ensures answer { result.answer ≡ self.answer }
    {
        let Transition {
            client,
            notes: earlier,
            sent,
            answer,
        } = self;
        drop(earlier);
        Transition {
            client,
            notes,
            sent,
            answer,
        }
    }
}

/// A client with its clock, whatever it does, and the terms on which it asks.
#[derive(Clone, Copy)]
pub struct ClientStep {
    pub alloc: Global,
    pub terms: Terms,
    pub number: ClientNo,
    pub clock: Clock,
    ghost own: { clock.client ≡ number },
}

impl Client {
    ghost use Rattle.album_client.specs.Transitions.{client_of};

    /// The step of this client, on these terms.
    pub fn client_step(&self, alloc: Global, terms: Terms) -> ClientStep
        ensures client { client_of result ≡ record self.now { phase = Phase.Idle 0 } }
        ensures terms { result.terms ≡ terms }
    {
        ClientStep {
            alloc,
            terms,
            number: self.number,
            clock: self.clock,
        }
    }
}

impl ClientStep {
    ghost use Rattle.album_client.specs.Transitions.{client_of, IsMoved};
    ghost use Rattle.album_client.specs.Steps.{ask_ends};

    /// A copy, for a caller that may take several ways from here: a value that is `Copy` and holds one with a
    /// Model is not copied where it is passed.
    pub fn again(&self) -> ClientStep
        ensures client { client_of result ≡ client_of self.now }
        ensures terms { result.terms ≡ self.now.terms }
    {
        ClientStep {
            alloc: self.alloc,
            terms: self.terms,
            number: self.number,
            clock: self.clock,
        }
    }

    /// The transition to this phase, with these messages and this answer.
    pub(crate) fn with(self, phase: Phase, sent: Vec<Message>, answer: Option<Answer>) -> Transition
        requires { length sent.items ≤ MAX_READ_ITEMS }
        ensures client { result.client ≡ record (client_of self) { phase = phase } }
        ensures notes { result.notes.items ≡ [] }
        ensures sent { result.sent ≡ sent }
        ensures answer { result.answer ≡ answer }
    {
        let client = Client {
            number: self.number,
            clock: self.clock,
            phase,
        };
        Transition {
            client,
            notes: Vec::new(self.alloc),
            sent,
            answer,
        }
    }

    /// Ends the ask with this answer.
    pub(crate) fn end_ask(self, tag: u64, answer: Answer) -> Transition
        ensures { IsMoved (ask_ends (client_of self) tag answer) result }
    {
        self.with(Phase::Idle(tag), Vec::new(self.alloc), Some(answer))
    }
}
