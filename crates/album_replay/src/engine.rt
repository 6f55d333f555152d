//! The engine that replays a script: read a piece, take the lines that end in it, and at the end the last line.
ghost use Rattle.std.specs.Prelude.{◌≡◌, ◌⊎◌, map, Err, OnOk, OnErr, IfErr, IfSome};
ghost use Rattle.std.specs.Io.KnownBytes.{IsAtEnd};
ghost use Rattle.album_lines.specs.Lines.{said, last};
ghost use Rattle.album_world.specs.Past.{Past};
ghost use Rattle.album_replay.specs.Promise.{IsAsPromised};
ghost use Rattle.album_replay.specs.Replay.{IsReplay, IsLeftOf, IsOverBy};
ghost use Rattle.album_replay.specs.Stages.{Replayed, Ends, IsLeftAmid, IsLeftAtEnd, stage_of};
ghost use Rattle.album_judge.specs.Writes.{HasRead, Writes, Exchanges, IsPrefixOf};

mod epochs;
mod events;
mod stages;

use crate::engine::stages::Stage;
use album_judge::{Fault, PIECE};
use album_lines::{LineIn, Lines};
use json::Scratch;
use std::alloc::Global;
use std::io::{Read, Write};

/// Opens a world by the first lines that are read, lets the events of the others happen in it, and writes the outputs
/// or the refusal of each line. Once an opening is refused, nothing more is read.
///
/// # Errors
///
/// `Reading`, where a read fails, or `turns` reads did not come to the end; `Memory`, where there is none for a line,
/// or for the text of what a line brings about; `Writing`, where a write fails or takes no byte. The first that comes
/// ends it.
pub fn replay<R: Read, W: Write>(
    alloc: Global,
    reader: &mut R,
    writer: &mut W,
    turns: u64,
) -> Result<(), Fault>
    // Without a fault, what is written is the text of the whole input.
    ensures ok { OnOk result (IfSome (R.remaining reader.old) (λ input.
        Writes (IsReplay input) (W.contents writer.old) (W.contents writer.new))) }
    // And that keeps the promise: each line printed as an answer is one, on the world that the lines before it spell.
    ensures promise { OnOk result (IfSome (R.remaining reader.old) (λ input.
        Writes (IsAsPromised input) (W.contents writer.old) (W.contents writer.new))) }
    // All of it was read, or so much that its opening was refused.
    ensures whole { OnOk result (IsAtEnd (R.remaining reader.new) ⊎ Exchanges IsOverBy
        (R.remaining reader.old) (R.remaining reader.new) (W.contents writer.old) (W.contents writer.new)) }

    // On a fault, a prefix of a text of the whole input is written.
    ensures err { OnErr result (IfSome (R.remaining reader.old) (λ input.
        Writes (IsPrefixOf (IsReplay input)) (W.contents writer.old) (W.contents writer.new))) }

    // It goes with what was read then. Reading: each line that has ended is taken, and nothing else. Writing: the text
    // is cut short. Memory: some line is not taken, or not wholly.
    ensures fault { IfErr result (λ fault. Exchanges (IsLeftOf fault)
        (R.remaining reader.old) (R.remaining reader.new) (W.contents writer.old) (W.contents writer.new)) }

    // A turn reads one piece at most.
    ensures few { HasRead turns (R.remaining reader.old) (R.remaining reader.new) }

    // No turn, no read.
    ensures none { turns ≡ 0 → result ≡ Err Fault.Reading }
    ensures unread { turns ≡ 0 → R.remaining reader.new ≡ R.remaining reader.old }
{
    let mut lines = Lines::new(alloc);
    let mut scratch = Scratch::new(alloc);
    let mut stage = Stage::Unopened;
    let mut piece = [0u8; PIECE];
    for _turn in 0..turns {
        let Ok(len) = reader.read(&mut piece) else {
            return Err(Fault::Reading);
        };
        if len == 0 {
            return finish(alloc, &mut scratch, &mut stage, lines, writer);
        }
        let ended = lines.feed(&piece[..len])?;
        take_lines(alloc, &mut scratch, &mut stage, &ended, writer)?;
        if stage.is_over() {
            return Ok(());
        }
    }
    Err(Fault::Reading)
}

/// Takes the lines, one after another.
fn take_lines<W: Write>(
    alloc: Global,
    scratch: &mut Scratch,
    stage: &mut Stage,
    lines: &[LineIn],
    writer: &mut W,
) -> Result<(), Fault>
    ensures ok { OnOk result ((past : Past) → Writes (Replayed stage.old past (map said lines.now) stage.new)
        (W.contents writer.old) (W.contents writer.new)) }
    ensures fault { IfErr result (λ fault. (past : Past) → Writes
        (IsLeftAmid fault (stage_of stage.old past) (map said lines.now))
        (W.contents writer.old) (W.contents writer.new)) }
{
    for line in lines {
        stage.take(alloc, scratch, line, writer)?;
    }
    Ok(())
}

/// Takes what the input ends in, and says that an opening is not whole.
fn finish<W: Write>(
    alloc: Global,
    scratch: &mut Scratch,
    stage: &mut Stage,
    lines: Lines,
    writer: &mut W,
) -> Result<(), Fault>
    ensures ok { OnOk result ((past : Past) → Writes (Ends (stage_of stage.old past) (last lines))
        (W.contents writer.old) (W.contents writer.new)) }
    ensures fault { IfErr result (λ fault. (past : Past) → Writes
        (IsLeftAtEnd fault (stage_of stage.old past) (last lines)) (W.contents writer.old) (W.contents writer.new)) }
{
    take_last(alloc, scratch, stage, lines, writer)?;
    stage.end(alloc, writer)
}

/// Takes the last line, where the input does not end in a newline.
fn take_last<W: Write>(
    alloc: Global,
    scratch: &mut Scratch,
    stage: &mut Stage,
    lines: Lines,
    writer: &mut W,
) -> Result<(), Fault>
    ensures ok { OnOk result ((past : Past) → Writes (Replayed stage.old past (last lines) stage.new)
        (W.contents writer.old) (W.contents writer.new)) }
    ensures fault { IfErr result (λ fault. (past : Past) → Writes
        (IsLeftAmid fault (stage_of stage.old past) (last lines))
        (W.contents writer.old) (W.contents writer.new)) }
{
    match lines.end() {
        None => Ok(()),
        Some(line) => take_lines(alloc, scratch, stage, &[line], writer),
    }
}
