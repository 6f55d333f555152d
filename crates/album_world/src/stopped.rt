//! Which clients were stopped. A world looks here before a client asks, takes a message or is stopped: one that was
//! stopped asks nothing more, takes nothing, and isn't stopped again.
ghost use Rattle.std.specs.Prelude.{◌≡◌, ◌==◌, true, false, [], IfOk};
ghost use Rattle.std.specs.List.{list_any};
ghost use Rattle.album_stamps.specs.Stamps.{is_client};
ghost use Rattle.album_world.specs.State.{with_number};

use album_stamps::{CLIENTS, ClientNo};
use std::alloc::{AllocError, Global};
use std::marker::Model;

/// The clients that were stopped. Contracts see their numbers, rising. There is a flag for each number that a client
/// may have, so a stop takes no memory.
#[derive(Drop)]
pub(crate) struct Stopped {
    flags: Vec<bool>,
}

impl Model for Stopped {
    ghost use Rattle.std.specs.Prelude.{◌≡◌, List, ℕ, length};
    ghost use Rattle.album_stamps.specs.declared.limits.TheConstants.{CLIENTS};
    ghost use Rattle.album_world.specs.Flags.{flagged};

    ghost Value = { List ℕ };

    ghost view = { λ s. flagged 0 s.flags.items };

    ghost invariant = { λ s. length s.flags.items ≡ CLIENTS };
}

impl Stopped {
    /// None is stopped.
    #[tactic(auto, using(crate::proofs::FlagLemmas::flagged_none))]
    pub fn new(alloc: Global) -> Result<Stopped, AllocError>
        ensures { IfOk result (λ stopped. stopped ≡ []) }
    {
        let flags = vec![in alloc; false; CLIENTS as usize]?;
        Ok(Stopped { flags })
    }

    /// Whether the client was stopped.
    #[tactic(auto, using(crate::proofs::FlagLemmas::flag_is))]
    pub fn has(&self, client: ClientNo) -> bool
        ensures stopped { result ≡ list_any (λ stopped. stopped == client) self.now }
        ensures client { is_client client ≡ true }
    {
        self.flags[usize::from(client.number())]
    }

    /// Stops the client.
    #[tactic(auto, using(crate::proofs::FlagLemmas::flagged_more))]
    pub fn add(&mut self, client: ClientNo)
        requires { list_any (λ stopped. stopped == client) self.old ≡ false }
        ensures { self.new ≡ with_number client self.old }
    {
        self.flags[usize::from(client.number())] = true;
    }
}
