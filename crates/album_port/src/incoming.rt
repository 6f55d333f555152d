//! What a connection has said, and what of it is still to be answered.
ghost use Rattle.std.specs.Io.{ReadsAtMost};

use crate::first_line::FirstLine;
use album_stamps::MAX_LINE;
use memchr::memrchr;
use std::alloc::{AllocError, Global};
use std::io::Read;
use std::time::Instant;
use std::{io, mem};

/// How many bytes the room for a line that has begun may have, after a longer one has ended.
const KEPT: usize = 4_096;

/// What comes of a connection, whatever epoch it is in.
#[derive(Drop)]
pub(crate) struct Incoming {
    alloc: Global,
    /// By when it has to say who it is, if there is a limit.
    pub until: Option<Instant>,
    pub first: FirstLine,
    /// What was read in the epoch before, and how much of it is read again.
    kept: Vec<u8>,
    taken: usize,
    /// The line that has begun: all of it, or as much as tells that it is too long.
    begun: Vec<u8>,
}

impl Incoming {
    /// Nothing has come yet.
    pub(crate) fn new(alloc: Global, until: Option<Instant>) -> Incoming {
        Incoming {
            alloc,
            until,
            first: FirstLine::new(),
            kept: Vec::new(alloc),
            taken: 0,
            begun: Vec::new(alloc),
        }
    }

    /// Whether something of what was read in the epoch before is still to be read again.
    pub(crate) fn has_rest(&self) -> bool {
        self.taken < self.kept.len()
    }

    /// Reads that again.
    ///
    /// # Errors
    ///
    /// None.
    pub(crate) fn read_rest(&mut self, buf: &mut [u8]) -> io::Result<usize>
        ensures bound { ReadsAtMost result buf.new }
    {
        let mut rest = self.kept.get(self.taken..).unwrap_or(&[]);
        let len = rest.read(buf)?;
        self.taken = self.taken.saturating_add(len);
        if !self.has_rest() {
            self.kept = Vec::new(self.alloc);
            self.taken = 0;
        }
        Ok(len)
    }

    /// This is read, and each line that ends in it is answered. What then begins is kept, in case that the epoch turns.
    ///
    /// # Errors
    ///
    /// `AllocError`.
    pub(crate) fn pass(&mut self, piece: &[u8]) -> Result<(), AllocError> {
        let rest = match memrchr(b'\n', piece) {
            None => piece,
            Some(end) => {
                self.begun.clear();
                if self.begun.capacity() > KEPT {
                    self.begun = Vec::new(self.alloc);
                }
                piece.get(end.saturating_add(1)..).unwrap_or(&[])
            }
        };
        let room = (MAX_LINE + 1).saturating_sub(self.begun.len());
        let fitting = rest.get(..room).unwrap_or(rest);
        self.begun.extend_from_slice(fitting)
    }

    /// This is read, and the epoch turns: it is for the next one, behind the line that has begun.
    ///
    /// # Errors
    ///
    /// `AllocError`.
    pub(crate) fn keep(&mut self, piece: &[u8]) -> Result<(), AllocError> {
        self.begun
            .extend_from_slice(self.kept.get(self.taken..).unwrap_or(&[]))?;
        self.begun.extend_from_slice(piece)?;
        self.kept = mem::replace(&mut self.begun, Vec::new(self.alloc));
        self.taken = 0;
        Ok(())
    }
}
