//! Who has a connection that is open.
use crate::addresses::Addresses;
use crate::connections::Conversation;
use crate::resumed::Peer;
use crate::silent::Silent;
use album_stamps::Refusal;
use std::alloc::Global;
use std::collections::BTreeMap;
use std::net::Shutdown;
use std::sync::Arc;
use std::time::Instant;

/// Whoever has a connection that is open, by its number.
#[derive(Drop)]
pub(crate) struct Peers {
    pub open: BTreeMap<u64, Arc<Peer, Global>>,
    pub addresses: Addresses,
    pub silent: Silent,
    /// Those that the epoch which turned has left to the next one.
    pub left: Vec<Conversation>,
    /// Whether no connection begins any more.
    pub is_closed: bool,
}

impl Peers {
    /// There are none. An address may have so many at once.
    pub(crate) fn new(alloc: Global, per_address: u32) -> Peers {
        Peers {
            open: BTreeMap::new(alloc),
            addresses: Addresses::new(alloc, per_address),
            silent: Silent::new(alloc),
            left: Vec::new(alloc),
            is_closed: false,
        }
    }

    /// The peer begins now, and hasn't said who it is. Where the clock can't be read, it never gives way.
    ///
    /// # Errors
    ///
    /// `Closed`, where none begins any more, or its address has as many as it may have; else `OutOfMemory`.
    pub(crate) fn begin(
        &mut self,
        number: u64,
        peer: Arc<Peer, Global>,
        now: Option<Instant>,
    ) -> Result<(), Refusal> {
        if self.is_closed {
            return Err(Refusal::Closed);
        }
        let address = peer.address;
        self.addresses.enter(address)?;
        let begun = self.open_silent(number, peer, now);
        if begun.is_err() {
            self.addresses.leave(address);
        }
        begun
    }

    fn open_silent(
        &mut self,
        number: u64,
        peer: Arc<Peer, Global>,
        now: Option<Instant>,
    ) -> Result<(), Refusal> {
        if let Some(now) = now {
            self.silent.add(number, now)?;
        }
        if self.open.insert(number, peer).is_ok() {
            return Ok(());
        }
        self.silent.remove(number);
        Err(Refusal::OutOfMemory)
    }

    /// The connection of this number has ended. Gives whoever had it.
    pub(crate) fn end(&mut self, number: u64) -> Option<Arc<Peer, Global>> {
        let peer = self.open.remove(&number)?;
        self.silent.remove(number);
        self.addresses.leave(peer.address);
        Some(peer)
    }

    /// The oldest that hasn't said who it is gives way, if it has had time for that. Gives its number.
    pub(crate) fn give_way(&mut self, now: Instant) -> Option<u64> {
        let number = self.silent.give_way(now)?;
        if let Some(peer) = self.open.get(&number) {
            let _ = peer.stream.shutdown(Shutdown::Both);
        }
        Some(number)
    }
}
