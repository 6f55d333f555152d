//! What a client does between two events.
ghost use Rattle.std.specs.Prelude.{◌≡◌, false, true, IfOk, IsOkUnless, OnErr};
ghost use Rattle.album_client.specs.Steps.{is_waiting, IsTakenBy};

use crate::pending_asks::PendingAsk;
use album_calls::Message;
use album_reader::Reading;
use album_stamps::{ClientNo, Clock, Refusal, Stamp};
use album_writer::{Committing, Preparing};
use std::marker::Model;

/// What a client does. One that is idle keeps the tag of its last round.
#[derive(Drop)]
pub enum Phase {
    Idle(u64),
    /// It reads for an ask.
    Reads(PendingAsk, Reading),
    Prepares(Preparing),
    Commits(Committing),
}

/// A client, with the clock from which it draws its stamps.
#[derive(Drop)]
pub struct Client {
    pub number: ClientNo,
    /// Its stamps are this client's.
    pub clock: Clock,
    /// What it does for its last request.
    pub phase: Phase,
}

impl Model for Client {
    ghost use Rattle.album_client.specs.Clients.{Client as State, HasOwnClock};

    ghost Value = { State };

    ghost view = { λ c. record { number = c.number; clock = c.clock; phase = c.phase } };

    ghost invariant = { λ c. HasOwnClock (record { number = c.number; clock = c.clock; phase = c.phase }) };
}

impl Client {
    ghost use Rattle.album_client.specs.Clients.{newcomer};

    /// A client that never asked.
    pub fn new(number: ClientNo) -> Client
        ensures { result ≡ newcomer number }
    {
        Client {
            number,
            clock: Clock::new(number),
            phase: Phase::Idle(0),
        }
    }
}

impl Phase {
    ghost use Rattle.album_client.specs.Clients.{is_reading, stamp_at_work, tag_of, IsProper};

    /// Whether it reads.
    pub fn is_reading(&self) -> bool
        ensures reads { result ≡ is_reading self.now }
        ensures proper { IsProper self.now }
    {
        match self {
            Phase::Reads(_, reading) => {
                // The invariant of a reading is known once a method of it is called.
                let _tag = reading.tag();
                true
            }
            Phase::Idle(_) | Phase::Prepares(_) | Phase::Commits(_) => false,
        }
    }

    /// The stamp of the write that is under way, if there is one.
    pub fn stamp(&self) -> Option<Stamp>
        ensures { result ≡ stamp_at_work self.now }
    {
        match self {
            Phase::Idle(_) | Phase::Reads(_, _) => None,
            Phase::Prepares(preparing) => Some(preparing.stamp()),
            Phase::Commits(committing) => Some(committing.stamp()),
        }
    }

    /// The tag of its round; where it is idle, that of its last one.
    pub fn tag(&self) -> u64
        ensures { result ≡ tag_of self.now }
    {
        match self {
            Phase::Idle(tag) => *tag,
            Phase::Reads(_, reading) => reading.tag(),
            Phase::Prepares(preparing) => preparing.tag(),
            Phase::Commits(committing) => committing.tag(),
        }
    }
}

impl Phase {
    /// Takes a message that ends no round of a read. Most messages are of this kind, and change nothing but the phase,
    /// so it is done in place. True for one of this kind; any other is left to `ClientStep::take`.
    ///
    /// # Errors
    ///
    /// `OutOfMemory`. Nothing is changed then.
    pub fn take_in_place(&mut self, message: &Message) -> Result<bool, Refusal>
        ensures test { IfOk result (λ waits. waits ≡ is_waiting self.old message.now) }
        ensures taken { IfOk result (λ waits. waits ≡ true → IsTakenBy self.old message.now self.new) }
        ensures left { IfOk result (λ waits. waits ≡ false → self.new ≡ self.old) }
        ensures memory { IsOkUnless result Refusal.OutOfMemory }
        ensures unchanged { OnErr result (self.new ≡ self.old) }
    {
        match self {
            Phase::Reads(_, reading) => reading.waits(message),
            Phase::Idle(_) | Phase::Prepares(_) | Phase::Commits(_) => Ok(false),
        }
    }
}
