//! A replay that ends at the first line that is refused. Its reader gives one line at a time, so the output in between
//! is that line's; its writer looks for a refusal, and then the reader is at its end. Both note who waits for an
//! answer.
use crate::by_line::ByLine;
use crate::unanswered::Unanswered;
use std::alloc::{AllocError, Global};
use std::cell::{Cell, RefCell};
use std::io;
use std::io::{Read, Write};

/// How the text of a refusal begins, and of no other output.
const REFUSAL: &[u8] = b"{\"name\":";

/// What the reader and the writer know of each other.
#[derive(Drop)]
pub struct Watch {
    /// The number of the line that was given last, from 1.
    line: Cell<u64>,
    has_refused: Cell<bool>,
    unanswered: RefCell<Unanswered>,
}

impl Watch {
    /// Nothing is given yet.
    pub fn new(alloc: Global) -> Watch {
        Watch {
            line: Cell::new(0),
            has_refused: Cell::new(false),
            unanswered: RefCell::new(Unanswered::new(alloc)),
        }
    }

    /// The lines of asks that no output has answered, in order, each with its client.
    ///
    /// # Errors
    ///
    /// `AllocError`.
    pub fn unanswered(&self, alloc: Global) -> Result<Vec<(u64, u64)>, AllocError> {
        match self.unanswered.try_borrow() {
            Ok(unanswered) => unanswered.lines(),
            // Nobody else has it while no line is read or written.
            Err(_) => Ok(Vec::new(alloc)),
        }
    }

    /// A piece of the line of this number is read.
    fn hear(&self, piece: &[u8], number: u64, has_ended: bool) -> Result<(), AllocError> {
        match self.unanswered.try_borrow_mut() {
            Ok(mut unanswered) => unanswered.hear(piece, number, has_ended),
            Err(_) => Ok(()),
        }
    }

    /// These bytes are written.
    fn say(&self, written: &[u8]) -> Result<(), AllocError> {
        match self.unanswered.try_borrow_mut() {
            Ok(mut unanswered) => unanswered.say(written),
            Err(_) => Ok(()),
        }
    }

    /// The number of the line that was refused, if one was: it is one past the last where the end was refused.
    pub fn refused(&self) -> Option<u64> {
        if self.has_refused.get() {
            Some(self.line.get())
        } else {
            None
        }
    }
}

/// A reader that gives at most one line a read, and none once one was refused.
#[derive(Drop)]
pub struct WatchedReader<'a, R> {
    watch: &'a Watch,
    lines: ByLine<'a, R>,
    /// The number of the line that comes next.
    next: u64,
    /// Whether a part of that line was given.
    is_unfinished: bool,
}

impl<'a, R: Read> WatchedReader<'a, R> {
    /// The lines of this reader.
    pub fn new(watch: &'a Watch, reader: &'a mut R) -> WatchedReader<'a, R> {
        WatchedReader {
            watch,
            lines: ByLine::new(reader),
            next: 1,
            is_unfinished: false,
        }
    }
}

impl<R: Read> Read for WatchedReader<'_, R> {
    fn read(&mut self, buf: &mut [u8]) -> io::Result<usize> {
        if buf.is_empty() || self.watch.has_refused.get() {
            return Ok(0);
        }
        // (past the last line its number is one more)
        self.watch.line.set(self.next);
        let mut len = self.lines.read(buf)?;
        if len == 0 && self.is_unfinished {
            // The last line gets its newline, so that it is judged before the end is.
            buf[0] = b'\n';
            len = 1;
        }
        let has_ended = buf[..len].ends_with(b"\n");
        self.watch.hear(&buf[..len], self.next, has_ended)?;
        self.is_unfinished = len > 0 && !has_ended;
        if has_ended {
            self.next = self.next.saturating_add(1);
        }
        Ok(len)
    }
}

/// A writer that looks for a refusal.
#[derive(Drop)]
pub struct WatchedWriter<'a, W> {
    watch: &'a Watch,
    writer: &'a mut W,
    /// Whether the next byte begins a line.
    is_new: bool,
}

impl<'a, W: Write> WatchedWriter<'a, W> {
    /// Passes the output on to this writer.
    pub fn new(watch: &'a Watch, writer: &'a mut W) -> WatchedWriter<'a, W> {
        WatchedWriter {
            watch,
            writer,
            is_new: true,
        }
    }
}

impl<W: Write> Write for WatchedWriter<'_, W> {
    fn write(&mut self, buf: &[u8]) -> io::Result<usize> {
        if self.is_new && buf.starts_with(REFUSAL) {
            self.watch.has_refused.set(true);
        }
        let len = self.writer.write(buf)?;
        if let Some(written) = buf.get(..len) {
            self.watch.say(written)?;
        }
        self.is_new = len > 0 && len <= buf.len() && buf[len - 1] == b'\n';
        Ok(len)
    }

    fn flush(&mut self) -> io::Result<()> {
        self.writer.flush()
    }
}
