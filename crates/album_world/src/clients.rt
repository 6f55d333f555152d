//! The clients that have asked.
ghost use Rattle.std.specs.Prelude.{◌≡◌, ◌≢◌, ◌<◌, ◌≤◌, ◌^◌, ◌++◌, ◌∷◌, false, [], length, Err, IsOk, IsOkAnd, IsOkUnless, IfOk, IfErr, IfSome, IfNone, OnOk, OnErr, MatchResult};
ghost use Rattle.album_stamps.specs.declared.limits.TheConstants.{MAX_COUNTER, MAX_READ_ITEMS};
ghost use Rattle.album_client.specs.Clients.{newcomer};
ghost use Rattle.album_world.specs.Registers.{AreChangedBy, StandsAt, asks_of, has_number, takes_of};
ghost use Rattle.album_world.specs.State.{client_at, highest_counter};

use crate::client_events;
use album_calls::Message;
use album_client::{Client, Terms};
use album_eval::Principal;
use album_permits::Out;
use album_stamps::{ClientNo, Refusal};
use album_views::Ask;
use indexmap::IndexMap;
use std::alloc::{AllocError, Global};
use std::marker::Model;

/// The clients that have asked, each found by its number at once. Contracts see them in the order of their first
/// asks.
#[derive(Drop)]
pub(crate) struct Clients {
    by_number: IndexMap<u16, Client>,
}

impl Model for Clients {
    ghost use Rattle.std.specs.Prelude.{◌≡◌, List};
    ghost use Rattle.indexmap.specs.IndexMap.{keys, values};
    ghost use Rattle.album_client.specs.Clients.{Client as State};
    ghost use Rattle.album_world.specs.Registers.{numbers_of};

    ghost Value = { List State };

    ghost view = { λ r. values r.by_number };

    ghost invariant = { λ r. keys r.by_number ≡ numbers_of (values r.by_number) };
}

impl Clients {
    /// None has asked.
    pub fn new(alloc: Global) -> Clients
        ensures { result ≡ [] }
    {
        Clients {
            by_number: IndexMap::new(alloc),
        }
    }

    /// The greatest counter of any client's clock, and 0 where none has asked.
    pub fn highest_counter(&self) -> u64
        ensures highest { result ≡ highest_counter self.now }
        ensures range { result ≤ MAX_COUNTER }
    {
        let mut highest = 0;
        for index in 0..self.by_number.len() {
            let counter = self.by_number[index].clock.counter();
            if highest < counter {
                highest = counter;
            }
        }
        highest
    }

    /// The client's index, if it has asked.
    #[tactic(auto, using(crate::proofs::RegisterLemmas::stands_if))]
    fn index_of(&self, number: ClientNo) -> Option<usize>
        ensures found { IfSome result (StandsAt self.now number) }
        ensures missing { IfNone result (has_number self.now number ≡ false) }
    {
        self.by_number.get_index_of(&number.number())
    }

    /// Whether the client may ask this.
    ///
    /// # Errors
    ///
    /// `ClientBusy` where the client has an ask already; else the first test of the ask that fails.
    #[tactic(auto, using(crate::proofs::CheckLemmas::check_takes_none, crate::proofs::RegisterLemmas::new_client))]
    pub fn may_ask(
        &self,
        terms: Terms,
        number: ClientNo,
        principal: &Principal,
        ask: &Ask,
    ) -> Result<(), Refusal>
        ensures may { MatchResult result
            (λ _. IsOk (asks_of terms number (client_at self.now number) principal.now ask.now))
            (λ e. asks_of terms number (client_at self.now number) principal.now ask.now ≡ Err e) }
        ensures not_memory { IfErr result (λ e. e ≢ Refusal.OutOfMemory) }
    {
        match self.index_of(number) {
            Some(index) => client_events::may_ask(&self.by_number[index], terms, principal, ask),
            None => ask.check(principal),
        }
    }

    /// The client asks what it may ask. `before` messages were sent before.
    ///
    /// # Errors
    ///
    /// `OutOfMemory`. Nothing is changed then.
    #[tactic(auto, using(crate::proofs::RegisterLemmas::asking))]
    pub fn ask(
        &mut self,
        alloc: Global,
        terms: Terms,
        number: ClientNo,
        principal: &Principal,
        ask: &Ask,
        before: u64,
    ) -> Result<(Vec<Message>, Vec<Out>), Refusal>
        requires fits { before < 2 ^ 63 }
        requires may { IsOk (asks_of terms number (client_at self.old number) principal.now ask.now) }
        ensures done { IfOk result (λ r.
            IsOkAnd (asks_of terms number (client_at self.old number) principal.now ask.now)
            (λ change. AreChangedBy before self.old change self.new r.0.items r.1.items)) }
        ensures few { IfOk result (λ r. length r.0.items ≤ MAX_READ_ITEMS) }
        ensures memory { IsOkUnless result Refusal.OutOfMemory }
        ensures unchanged { OnErr result (self.new ≡ self.old) }
    {
        match self.index_of(number) {
            Some(index) => {
                let client = &mut self.by_number[index];
                client_events::ask(client, alloc, terms, principal, ask, before)
            }
            None => self.enter(alloc, terms, number, principal, ask, before),
        }
    }

    /// A client asks that has never asked before.
    #[tactic(auto, using(crate::proofs::RegisterLemmas::first_asked))]
    fn enter(
        &mut self,
        alloc: Global,
        terms: Terms,
        number: ClientNo,
        principal: &Principal,
        ask: &Ask,
        before: u64,
    ) -> Result<(Vec<Message>, Vec<Out>), Refusal>
        requires fits { before < 2 ^ 63 }
        requires new { has_number self.old number ≡ false }
        requires may { IsOk (asks_of terms number (newcomer number) principal.now ask.now) }
        ensures done { IfOk result (λ r.
            IsOkAnd (asks_of terms number (client_at self.old number) principal.now ask.now)
            (λ change. AreChangedBy before self.old change self.new r.0.items r.1.items)) }
        ensures few { IfOk result (λ r. length r.0.items ≤ MAX_READ_ITEMS) }
        ensures memory { IsOkUnless result Refusal.OutOfMemory }
        ensures unchanged { OnErr result (self.new ≡ self.old) }
    {
        let mut client = Client::new(number);
        match client_events::ask(&mut client, alloc, terms, principal, ask, before) {
            Ok(done) => match self.put(client) {
                Ok(()) => Ok(done),
                Err(_) => {
                    drop(done);
                    Err(Refusal::OutOfMemory)
                }
            },
            Err(refusal) => {
                drop(client);
                Err(refusal)
            }
        }
    }

    /// Puts a client after the others. None of them has its number.
    #[tactic(auto, using(crate::proofs::RegisterLemmas::pushed, crate::proofs::RegisterLemmas::pushed_keys))]
    fn put(&mut self, client: Client) -> Result<(), AllocError>
        requires { has_number self.old client.number ≡ false }
        ensures ok { OnOk result (self.new ≡ self.old ++ client ∷ []) }
        ensures unchanged { OnErr result (self.new ≡ self.old) }
    {
        self.by_number.insert(client.number.number(), client)?;
        Ok(())
    }

    /// The client takes a message. `before` messages were sent before.
    ///
    /// # Errors
    ///
    /// `OutOfMemory`. Nothing is changed then.
    #[tactic(auto, using(crate::proofs::RegisterLemmas::taking))]
    pub fn take(
        &mut self,
        alloc: Global,
        terms: Terms,
        number: ClientNo,
        message: &Message,
        before: u64,
    ) -> Result<(Vec<Message>, Vec<Out>), Refusal>
        requires { before < 2 ^ 63 }
        ensures done { IfOk result (λ r. AreChangedBy before self.old
            (takes_of terms number (client_at self.old number) message.now) self.new r.0.items r.1.items) }
        ensures few { IfOk result (λ r. length r.0.items ≤ MAX_READ_ITEMS) }
        ensures memory { IsOkUnless result Refusal.OutOfMemory }
        ensures unchanged { OnErr result (self.new ≡ self.old) }
    {
        match self.index_of(number) {
            Some(index) => client_events::take(
                &mut self.by_number[index],
                alloc,
                terms,
                message,
                before,
            ),
            None => Ok((Vec::new(alloc), Vec::new(alloc))),
        }
    }
}
