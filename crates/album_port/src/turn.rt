//! The turn of an epoch. What a connection has read by then is answered in it, and what it reads later in the next one.
ghost use Rattle.std.specs.Prelude.{IsErr};
ghost use Rattle.std.specs.Io.{ReadsAtMost};

use crate::first_words::FirstWords;
use crate::resumed::Peer;
use crate::waker::Waker;
use album_threads::Load;
use std::alloc::Global;
use std::io::{ErrorKind, Read};
use std::sync::atomic::{AtomicBool, AtomicU64, Ordering};
use std::sync::{Arc, Wait};
use std::{io, time};

/// How long an epoch may get.
#[derive(Drop)]
pub struct EpochBound {
    /// How many bytes its log has, if there is one. Else about those count that its writes take in memory.
    pub log: Option<Arc<AtomicU64, Global>>,
    /// With so many bytes the epoch turns.
    pub most: u64,
}

/// At so many looks the turn isn't due, once it was put off: some ten seconds.
const LOOKS_OFF: u64 = 200;

/// Whether the epoch turns, and how many connections have read what isn't answered yet.
#[derive(Drop)]
pub(crate) struct Turn {
    has_begun: AtomicBool,
    /// At how many looks more it isn't due.
    put_off: AtomicU64,
    busy: AtomicU64,
    /// Wakes the thread that accepts.
    waker: Waker,
    bound: EpochBound,
}

impl Turn {
    /// It hasn't begun.
    pub(crate) fn new(waker: Waker, bound: EpochBound) -> Turn {
        Turn {
            has_begun: AtomicBool::new(false),
            put_off: AtomicU64::new(0),
            busy: AtomicU64::new(0),
            waker,
            bound,
        }
    }

    /// Whether it is to begin: a partition has taken up nearly all of its marks, or there are as many bytes as there
    /// may be.
    pub(crate) fn is_due(&self, loads: &[Load]) -> bool {
        let off = self.put_off.load(Ordering::SeqCst);
        if off > 0 {
            self.put_off.store(off - 1, Ordering::SeqCst);
            return false;
        }
        let bytes = match &self.bound.log {
            Some(size) => size.load(Ordering::SeqCst),
            None => bytes_of(loads),
        };
        bytes >= self.bound.most || loads.iter().any(has_nearly_all)
    }

    /// From now on nothing that is read is answered in this epoch.
    pub(crate) fn begin(&self) {
        self.has_begun.store(true, Ordering::SeqCst);
        self.waker.wake();
    }

    /// The epoch goes on after all.
    pub(crate) fn cancel(&self) {
        self.has_begun.store(false, Ordering::SeqCst);
    }

    /// Not all that was read can be answered now, and the epoch goes on. It turns later.
    pub(crate) fn put_off(&self) {
        self.put_off.store(LOOKS_OFF, Ordering::SeqCst);
        self.cancel();
    }

    pub(crate) fn has_begun(&self) -> bool {
        self.has_begun.load(Ordering::SeqCst)
    }

    /// Whether all that was read is answered.
    pub(crate) fn is_quiet(&self) -> bool {
        self.busy.load(Ordering::SeqCst) == 0
    }

    /// The peer has read something. Returns whether that is answered in this epoch. It is counted before the turn is
    /// looked at: so where it is answered, whoever began the turn sees that it is busy.
    fn enter(&self, peer: &Peer) -> bool {
        peer.is_busy.store(true, Ordering::SeqCst);
        self.busy.fetch_add(1, Ordering::SeqCst);
        if self.has_begun() {
            self.leave(peer);
            return false;
        }
        true
    }

    /// All that the peer has read is answered, or will not be.
    pub(crate) fn leave(&self, peer: &Peer) {
        if peer.is_busy.swap(false, Ordering::SeqCst) {
            let before = self.busy.fetch_sub(1, Ordering::SeqCst);
            if before == 1 && self.has_begun() {
                self.waker.wake();
            }
        }
    }
}

/// About how many bytes the writes take, at all partitions.
fn bytes_of(loads: &[Load]) -> u64 {
    let mut bytes = 0u64;
    for load in loads {
        bytes = bytes.saturating_add(load.bytes);
    }
    bytes
}

/// Whether the partition has nine tenths of the marks that it may have, or no two more. Without a mark it has room for
/// what there is room for.
fn has_nearly_all(load: &Load) -> bool {
    load.marks > 0
        && (9 * u128::from(load.limit) <= 10 * u128::from(load.marks)
            || load.marks.saturating_add(2) > load.limit)
}

/// Reads a connection in an epoch. Once that turns, what is read is kept for the next one, and the read fails.
#[derive(Drop)]
pub(crate) struct EpochReader<'a, T> {
    pub from: FirstWords<'a, T>,
    /// The turn, where epochs turn.
    pub turn: Option<&'a Turn>,
    /// Whether it is kept for the next epoch.
    pub has_left: bool,
}

impl<T: Wait + time::Clock + Copy> Read for EpochReader<'_, T> {
    fn read(&mut self, buf: &mut [u8]) -> io::Result<usize> {
        match self.turn {
            None => self.from.read(buf),
            Some(turn) => self.next(turn, buf),
        }
    }
}

impl<T: Wait + time::Clock + Copy> EpochReader<'_, T> {
    /// What was kept comes first, and then what the connection says.
    ///
    /// # Errors
    ///
    /// `WouldBlock`, where the epoch turns, and all is kept; `OutOfMemory`; else that of the read.
    fn next(&mut self, turn: &Turn, buf: &mut [u8]) -> io::Result<usize>
        ensures bound { ReadsAtMost result buf.new }
    {
        turn.leave(self.from.peer);
        if !self.from.has_rest() {
            let len = self.from.read(buf)?;
            if !turn.enter(self.from.peer) {
                return self.hand_over(buf.get(..len).unwrap_or(&[]));
            }
            self.from.incoming.pass(buf.get(..len).unwrap_or(&[]))?;
            return Ok(len);
        }
        if !turn.enter(self.from.peer) {
            return self.hand_over(&[]);
        }
        let len = self.from.incoming.read_rest(buf)?;
        self.from.incoming.pass(buf.get(..len).unwrap_or(&[]))?;
        Ok(len)
    }

    /// This was read, and the next epoch has it.
    ///
    /// # Errors
    ///
    /// `WouldBlock`; `OutOfMemory`, and then nobody has it.
    fn hand_over(&mut self, piece: &[u8]) -> io::Result<usize>
        ensures never { IsErr result }
    {
        self.from.incoming.keep(piece)?;
        self.has_left = true;
        Err(io::Error::from(ErrorKind::WouldBlock))
    }
}
