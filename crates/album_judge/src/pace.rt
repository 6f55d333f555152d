//! When an engine hands on what its writer holds: before a read, which may wait.
ghost use Rattle.std.specs.Prelude.{Option};
ghost use Rattle.std.specs.Io.KnownBytes.{Keeps};

use std::io::{BufReader, BufWriter, Read, Write};

/// What an engine does before each read. What is answered so far stays as it is.
pub(crate) trait Pace<R: Read, W: Write> {
    /// Whether the engine may read on.
    fn before_read(&self, reader: &R, writer: &mut W) -> bool
        ensures { Keeps (W.contents writer.old) (W.contents writer.new) };
}

/// Nothing: the writer is asked to hold nothing, and if it does, that is its own affair.
pub(crate) struct Straight;

impl<R: Read, W: Write> Pace<R, W> for Straight {
    fn before_read(&self, _reader: &R, _writer: &mut W) -> bool {
        true
    }
}

/// Answers are held until nothing is left of what was read ahead. Then they are written, so whoever sends a line and
/// waits is answered. Where they can't be, there is no use in reading on.
pub(crate) struct Held;

impl<R: Read, W: Write + Drop> Pace<BufReader<R>, BufWriter<W>> for Held {
    fn before_read(&self, reader: &BufReader<R>, writer: &mut BufWriter<W>) -> bool {
        !reader.buffer().is_empty() || writer.flush().is_ok()
    }
}
