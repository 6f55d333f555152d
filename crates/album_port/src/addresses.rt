//! How many connections each address has open: none has more than one may have.
ghost use Rattle.std.specs.Prelude.{◌≡◌, ◌≢◌, ◌<◌, ◌≤◌, ◌+◌, ◌-◌, ◌↔◌, ℕ, Err, None, Some, IsTrue, OnOk, OnErr};
ghost use Rattle.std.specs.Ordering.{nat_cmp};
ghost use Rattle.std.specs.BTreeMap.{get};
ghost use Rattle.album_stamps.specs.declared.refusals.Refusal.TheVariants.{Closed};
ghost use Rattle.album_port.specs.Addresses.{open_of, IsSameBut};

use album_stamps::Refusal;
use std::alloc::Global;
use std::collections::BTreeMap;

/// The addresses that have connections open, and how many each has. One that has none isn't there.
#[derive(Drop)]
pub(crate) struct Addresses {
    counts: BTreeMap<u32, u32>,
    /// How many one may have.
    most: u32,
    ghost nobody: { (address : ℕ) → get nat_cmp counts address ≢ Some 0 },
}

impl Addresses {
    /// No connection is open.
    pub(crate) fn new(alloc: Global, most: u32) -> Addresses
        ensures none { (address : ℕ) → open_of result.counts address ≡ 0 }
        ensures most { result.most ≡ most }
    {
        Addresses {
            counts: BTreeMap::new(alloc),
            most,
        }
    }

    /// Whether one more connection of the address may begin.
    pub(crate) fn has_room(&self, address: u32) -> bool
        ensures { IsTrue result ↔ (open_of self.now.counts address < self.now.most) }
    {
        self.count(address) < self.most
    }

    /// How many connections the address has open.
    fn count(&self, address: u32) -> u32
        ensures { result ≡ open_of self.now.counts address }
    {
        match self.counts.get(&address) {
            Some(count) => *count,
            None => 0,
        }
    }

    /// One more connection of the address begins.
    ///
    /// # Errors
    ///
    /// `Closed`, where the address has as many as one may have; else `OutOfMemory`.
    pub(crate) fn enter(&mut self, address: u32) -> Result<(), Refusal>
        ensures one_more { OnOk result (open_of self.new.counts address ≡ open_of self.old.counts address + 1) }
        ensures room { OnOk result (open_of self.old.counts address < self.old.most) }
        ensures full { result ≡ Err Closed ↔ (self.old.most ≤ open_of self.old.counts address) }
        ensures others { IsSameBut address self.old.counts self.new.counts }
        ensures unchanged { OnErr result (open_of self.new.counts address ≡ open_of self.old.counts address) }
        ensures most { self.new.most ≡ self.old.most }
    {
        let count = self.count(address);
        if count >= self.most {
            return Err(Refusal::Closed);
        }
        match self.counts.insert(address, count + 1) {
            Ok(_) => Ok(()),
            Err(_) => Err(Refusal::OutOfMemory),
        }
    }

    /// A connection of the address has ended.
    pub(crate) fn leave(&mut self, address: u32)
        ensures one_less { open_of self.new.counts address ≡ open_of self.old.counts address - 1 }
        ensures gone { open_of self.old.counts address ≤ 1 → get nat_cmp self.new.counts address ≡ None }
        ensures others { IsSameBut address self.old.counts self.new.counts }
        ensures most { self.new.most ≡ self.old.most }
    {
        let count = self.count(address);
        if count <= 1 {
            let _ = self.counts.remove(&address);
        } else if let Some(open) = self.counts.get_mut(&address) {
            *open = count - 1;
        }
    }
}
