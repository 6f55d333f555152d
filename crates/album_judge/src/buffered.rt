//! Judging with a buffer on both sides, as the programs do over standard input and output. A call of the operating
//! system takes the time of a line, and drives the program's own instructions out of the processor's cache.
//!
//! `with_buffers` gives both, and `judge_buffered` goes between them. What is read ahead is gone through in pieces, as
//! ever; answers are held until nothing is left of it.
ghost use Rattle.std.specs.Prelude.{◌≡◌, ◌≢◌, [], OnOk, OnErr, IfOk, IfErr, IfSome};
ghost use Rattle.std.specs.Io.Buffered.{reader_remaining, writer_contents, writer_buffer};
ghost use Rattle.std.specs.Io.KnownBytes.{IsAtEnd};
ghost use Rattle.album_lines.specs.Lines.{lines_of};
ghost use Rattle.album_judge.specs.Judge.{Answers};
ghost use Rattle.album_judge.specs.Writes.{HasRead, Writes, Exchanges, IsPrefixOf, IsEndedBy};

use crate::engine::judge_paced;
use crate::fault::Fault;
use crate::pace::Held;
use std::alloc::Global;
use std::io::{BufReader, BufWriter, Read, Write};

/// How many bytes each buffer has.
const BUFFER: usize = 65_536;

/// A buffer before the reader, and one before the writer.
///
/// # Errors
///
/// `Memory`, where there is none for the buffers.
pub fn with_buffers<R: Read + Drop, W: Write + Drop>(
    alloc: Global,
    reader: R,
    writer: W,
) -> Result<(BufReader<R>, BufWriter<W>), Fault>
    ensures remaining { IfOk result (λ both. reader_remaining R.remaining both.0 ≡ R.remaining reader) }
    ensures contents { IfOk result (λ both. writer_contents W.contents both.1 ≡ W.contents writer) }
    ensures held { IfOk result (λ both. writer_buffer both.1 ≡ []) }
    ensures memory { IfErr result (λ fault. fault ≡ Fault.Memory) }
{
    let Ok(reader) = BufReader::with_capacity(alloc, BUFFER, reader) else {
        return Err(Fault::Memory);
    };
    let Ok(writer) = BufWriter::with_capacity(alloc, BUFFER, writer) else {
        return Err(Fault::Memory);
    };
    Ok((reader, writer))
}

/// Answers each line that is read, as `judge` does, and writes what it holds before it waits for more, and at the end.
/// In the clauses a reader has what its buffer has, and then what is still to be read into it; a writer has what was
/// written through its buffer, and then what the buffer holds.
///
/// # Errors
///
/// Those of `judge`, but `Writing` also where answers were held that can't be written.
pub fn judge_buffered<R: Read, W: Write + Drop>(
    alloc: Global,
    reader: &mut BufReader<R>,
    writer: &mut BufWriter<W>,
    turns: u64,
) -> Result<(), Fault>
    // Without a fault the whole input was read, exactly the answers to its lines are written, and none is held.
    ensures ok { OnOk result (IfSome (reader_remaining R.remaining reader.old) (λ input.
        Writes (Answers (lines_of input))
        (writer_contents W.contents writer.old) (writer_contents W.contents writer.new))) }
    ensures whole { OnOk result (IsAtEnd (reader_remaining R.remaining reader.new)) }
    ensures heard { OnOk result (writer_buffer writer.new ≡ []) }

    // On a fault, a prefix of them is. None of it is held, unless writing failed.
    ensures err { OnErr result (IfSome (reader_remaining R.remaining reader.old) (λ input.
        Writes (IsPrefixOf (Answers (lines_of input)))
        (writer_contents W.contents writer.old) (writer_contents W.contents writer.new))) }
    ensures held { IfErr result (λ fault. fault ≢ Fault.Writing → writer_buffer writer.new ≡ []) }

    // What is written then answers what was read, as at `judge`, unless writing failed.
    ensures fault { IfErr result (λ fault. fault ≢ Fault.Writing → Exchanges (IsEndedBy fault Answers)
        (reader_remaining R.remaining reader.old) (reader_remaining R.remaining reader.new)
        (writer_contents W.contents writer.old) (writer_contents W.contents writer.new)) }

    // A turn reads one piece at most.
    ensures few { HasRead turns
        (reader_remaining R.remaining reader.old) (reader_remaining R.remaining reader.new) }
{
    let judged = judge_paced(alloc, &Held, reader, writer, turns);
    match writer.flush() {
        Ok(()) => judged,
        // What can't be written is the fault, also where it ended the reading.
        Err(_) => Err(Fault::Writing),
    }
}
