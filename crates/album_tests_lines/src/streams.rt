//! Readers and writers in memory: those that give and take little, or fail, and those of one who waits for each answer.
use std::alloc::Global;
use std::io;
use std::io::{Read, Write};
use std::sync::Arc;
use std::sync::atomic::{AtomicU64, Ordering};

/// A reader that gives a few bytes a read, and fails at one.
#[derive(Drop)]
pub(crate) struct Pieces<'a> {
    pub(crate) left: &'a [u8],
    pub(crate) most: usize,
    pub(crate) reads: u64,
    pub(crate) fails_at: u64,
}

impl Read for Pieces<'_> {
    fn read(&mut self, buf: &mut [u8]) -> io::Result<usize> {
        if self.reads == self.fails_at {
            return Err(io::Error::other("failed"));
        }
        self.reads = self.reads.wrapping_add(1);
        let len = self.most.min(self.left.len()).min(buf.len());
        let (front, left) = self.left.split_at(len);
        buf[..len].copy_from_slice(front);
        self.left = left;
        Ok(len)
    }
}

/// A writer that takes a few bytes a write, and at one write fails or takes none.
#[derive(Drop)]
pub(crate) struct Taking {
    pub(crate) taken: Vec<u8>,
    pub(crate) most: usize,
    pub(crate) writes: u64,
    pub(crate) stops_at: u64,
    pub(crate) fails: bool,
}

impl Write for Taking {
    fn write(&mut self, buf: &[u8]) -> io::Result<usize> {
        if self.writes == self.stops_at {
            if self.fails {
                return Err(io::Error::other("failed"));
            }
            return Ok(0);
        }
        self.writes = self.writes.wrapping_add(1);
        let len = self.most.min(buf.len());
        self.taken.extend_from_slice(&buf[..len])?;
        Ok(len)
    }

    fn flush(&mut self) -> io::Result<()> {
        Ok(())
    }
}

/// A reader that gives a line a read, and fails where a line before it isn't answered yet.
#[derive(Drop)]
pub(crate) struct Waiting<'a> {
    pub(crate) lines: &'a [&'a str],
    pub(crate) given: u64,
    pub(crate) answered: Arc<AtomicU64, Global>,
}

impl Read for Waiting<'_> {
    fn read(&mut self, buf: &mut [u8]) -> io::Result<usize> {
        if self.answered.load(Ordering::SeqCst) < self.given {
            return Err(io::Error::other("not answered yet"));
        }
        let Some(line) = self.lines.get(self.given as usize) else {
            return Ok(0);
        };
        let len = line.len().min(buf.len());
        buf[..len].copy_from_slice(&line.as_bytes()[..len]);
        self.given = self.given.wrapping_add(1);
        Ok(len)
    }
}

/// A writer that counts the lines that are written.
#[derive(Drop)]
pub(crate) struct Counted {
    pub(crate) answered: Arc<AtomicU64, Global>,
}

impl Write for Counted {
    fn write(&mut self, buf: &[u8]) -> io::Result<usize> {
        for byte in buf {
            if *byte == b'\n' {
                self.answered.fetch_add(1, Ordering::SeqCst);
            }
        }
        Ok(buf.len())
    }

    fn flush(&mut self) -> io::Result<()> {
        Ok(())
    }
}
