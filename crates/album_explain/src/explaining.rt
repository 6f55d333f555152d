//! The engine that explains lines: read a piece, explain the lines that end in it, and at the end the last line. A
//! line's explanation is its `Explainer`'s.
ghost use Rattle.std.specs.Prelude.{◌≡◌, ◌∷◌, [], Err, OnOk, OnErr, IfOk, IfErr, IfSome, map};
ghost use Rattle.std.specs.Io.KnownBytes.{IsAtEnd};
ghost use Rattle.album_lines.specs.Lines.{said, lines_of, last};
ghost use Rattle.album_judge.specs.Writes.{HasRead, Writes, Gains, Exchanges, IsPrefixOf, IsLeftBy, IsEndedBy};
ghost use Rattle.album_explain.specs.Explain.{at_start, counted, Explains, ExplainsOn};

use crate::explainer::Explainer;
use album_judge::{Fault, PIECE, write_text};
use album_lines::{LineIn, Lines};
use album_stamps::Refusal;
use json::Scratch;
use std::alloc::Global;
use std::io::{Read, Write};

/// How far an explanation has come.
#[derive(Drop)]
pub struct Progress<E> {
    /// The number of the next line, from 1. It grows no further than it can.
    pub next: u64,
    /// Whether a line was refused.
    pub has_refused: bool,
    /// What explains the next line.
    pub explainer: E,
}

impl<E> Progress<E> {
    /// Counts a line, which the explainer knows by now.
    fn go_on(&mut self, is_refused: bool)
        ensures { self.new ≡ counted self.old is_refused }
    {
        self.next = self.next.saturating_add(1);
        self.has_refused = self.has_refused || is_refused;
    }
}

/// Explains each line that is read by one line, in order, and says how far that came. A line of spaces, tabs and
/// carriage returns alone is counted, and has no line.
///
/// # Errors
///
/// `Reading`, where a read fails, or `turns` reads did not come to the end; `Memory`, where there is none for a line or
/// for its explanation; `Writing`, where a write fails or takes no byte. The first that comes ends it.
pub fn explain<E: Explainer, R: Read, W: Write>(
    alloc: Global,
    reader: &mut R,
    writer: &mut W,
    explainer: E,
    turns: u64,
) -> Result<Progress<E>, Fault>
    // Without a fault the whole input was read, and exactly the explanations of its lines are written.
    ensures ok { IfOk result (λ end. IfSome (R.remaining reader.old) (λ input.
        Writes (Explains E.IsExplanation (at_start explainer) (lines_of input) end)
        (W.contents writer.old) (W.contents writer.new))) }
    ensures whole { OnOk result (IsAtEnd (R.remaining reader.new)) }

    // On a fault, a prefix of them is.
    ensures err { OnErr result (IfSome (R.remaining reader.old) (λ input.
        Writes (IsPrefixOf (ExplainsOn E.IsExplanation (at_start explainer) (lines_of input)))
        (W.contents writer.old) (W.contents writer.new))) }

    // What is written then explains what was read. Reading: each line that has ended, and nothing else.
    // Writing: a line is cut short. Memory: each line is whole, and one is not there.
    ensures fault { IfErr result (λ fault. Exchanges (IsEndedBy fault (ExplainsOn E.IsExplanation (at_start explainer)))
        (R.remaining reader.old) (R.remaining reader.new) (W.contents writer.old) (W.contents writer.new)) }

    // A turn reads one piece at most.
    ensures few { HasRead turns (R.remaining reader.old) (R.remaining reader.new) }

    // No turn, no read.
    ensures none { turns ≡ 0 → result ≡ Err Fault.Reading }
    ensures unread { turns ≡ 0 → R.remaining reader.new ≡ R.remaining reader.old }
{
    let mut lines = Lines::new(alloc);
    let mut scratch = Scratch::new(alloc);
    let mut progress = Progress {
        next: 1,
        has_refused: false,
        explainer,
    };
    let mut piece = [0u8; PIECE];
    for _turn in 0..turns {
        let Ok(len) = reader.read(&mut piece) else {
            return Err(Fault::Reading);
        };
        if len == 0 {
            return finish(alloc, &mut scratch, progress, lines, writer);
        }
        let ended = lines.feed(&piece[..len])?;
        explain_lines(alloc, &mut scratch, &mut progress, writer, &ended)?;
    }
    Err(Fault::Reading)
}

/// Explains the last line, where the input does not end in a newline.
fn finish<E: Explainer, W: Write>(
    alloc: Global,
    scratch: &mut Scratch,
    mut progress: Progress<E>,
    lines: Lines,
    writer: &mut W,
) -> Result<Progress<E>, Fault>
    ensures ok { IfOk result (λ end.
        Writes (Explains E.IsExplanation progress (last lines) end) (W.contents writer.old) (W.contents writer.new)) }
    ensures fault { IfErr result (λ fault. Writes (IsLeftBy fault (ExplainsOn E.IsExplanation progress) (last lines))
        (W.contents writer.old) (W.contents writer.new)) }
{
    match lines.end() {
        None => Ok(progress),
        Some(line) => {
            explain_lines(alloc, scratch, &mut progress, writer, &[line])?;
            Ok(progress)
        }
    }
}

/// Explains the lines, in their order, and writes the explanations all at once. Reading is no fault of it.
fn explain_lines<E: Explainer, W: Write>(
    alloc: Global,
    scratch: &mut Scratch,
    progress: &mut Progress<E>,
    writer: &mut W,
    lines: &[LineIn],
) -> Result<(), Fault>
    ensures ok { OnOk result (Writes (Explains E.IsExplanation progress.old (map said lines.now) progress.new)
        (W.contents writer.old) (W.contents writer.new)) }
    ensures fault { IfErr result (λ fault.
        Writes (IsLeftBy fault (ExplainsOn E.IsExplanation progress.old) (map said lines.now))
        (W.contents writer.old) (W.contents writer.new)) }
{
    let mut text = Vec::new(alloc);
    for line in lines {
        let Ok(()) = explain_line(alloc, scratch, progress, &mut text, line) else {
            // The explanations that there was memory for are written.
            write_text(writer, &text)?;
            return Err(Fault::Memory);
        };
    }
    write_text(writer, &text)
}

/// Appends the explanation of a line to the text; a blank line has none.
fn explain_line<E: Explainer>(
    alloc: Global,
    scratch: &mut Scratch,
    progress: &mut Progress<E>,
    text: &mut Vec<u8>,
    line: &LineIn,
) -> Result<(), Refusal>
    ensures ok { OnOk result (Gains (Explains E.IsExplanation progress.old (said line.now ∷ []) progress.new)
        text.old.items text.new.items) }
    ensures err { OnErr result (text.new.items ≡ text.old.items) }
{
    if line.is_blank() {
        progress.go_on(false);
        return Ok(());
    }
    let (explanation, is_refused) = progress
        .explainer
        .explain(alloc, scratch, line, progress.next)?;
    text.extend_from_slice(&explanation)?;
    progress.go_on(is_refused);
    Ok(())
}
