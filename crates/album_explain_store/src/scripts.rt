//! A script explained whole: the lines of its opening, the events after it, and that it ends too early.
ghost use Rattle.std.specs.Prelude.{◌≡◌, IfOk, OnOk, OnErr, IfSome};
ghost use Rattle.std.specs.Io.KnownBytes.{Appends, IsAtEnd};
ghost use Rattle.album_lines.specs.Lines.{lines_of};
ghost use Rattle.album_judge.specs.Writes.{Writes, IsPrefixOf};
ghost use Rattle.album_explain_store.specs.Scripts.{missing_line, end_text, has_missed, ExplainsScript, ExplainsSomeScript};

use crate::openings::OpeningLines;
use album_explain::{Found, Progress, explain, write_refused};
use album_judge::{Fault, write_text};
use album_stamps::Refusal;
use std::alloc::Global;
use std::io::{Read, Write};

/// Explains each line of an opening, and of the events after it, by one line, in order, and says whether one was
/// refused. Where the input ends before `begin`, the last line says so, with the number of the line that is missing.
///
/// # Errors
///
/// As `explain`.
pub fn explain_script<R: Read, W: Write>(
    alloc: Global,
    reader: &mut R,
    writer: &mut W,
    turns: u64,
) -> Result<bool, Fault>
    // Without a fault the whole input was read, and exactly the explanations are written.
    ensures ok { IfOk result (λ refused. IfSome (R.remaining reader.old) (λ input.
        Writes (ExplainsScript refused (lines_of input)) (W.contents writer.old) (W.contents writer.new))) }
    ensures whole { OnOk result (IsAtEnd (R.remaining reader.new)) }

    // On a fault, a prefix of them is.
    ensures err { OnErr result (IfSome (R.remaining reader.old) (λ input.
        Writes (IsPrefixOf (ExplainsSomeScript (lines_of input)))
        (W.contents writer.old) (W.contents writer.new))) }
{
    let end = explain(alloc, reader, writer, OpeningLines::Unopened, turns)?;
    explain_end(alloc, writer, &end)?;
    Ok(has_missed(&end))
}

/// Whether a line was refused, or `begin` is missing.
fn has_missed(end: &Progress<OpeningLines>) -> bool
    ensures { result ≡ has_missed end.now }
{
    end.has_refused || !end.explainer.has_begun()
}

/// Explains that `begin` is missing, where it is.
fn explain_end<W: Write>(
    alloc: Global,
    writer: &mut W,
    end: &Progress<OpeningLines>,
) -> Result<(), Fault>
    ensures ok { OnOk result (Appends (W.contents writer.old) (W.contents writer.new) (end_text end.now)) }
    ensures err { OnErr result
        (Writes (IsPrefixOf (λ whole. whole ≡ end_text end.now)) (W.contents writer.old) (W.contents writer.new)) }
{
    if end.explainer.has_begun() {
        return Ok(());
    }
    let text = missing_line(alloc, end.next)?;
    write_text(writer, &text)
}

/// The line that says that `begin` is missing.
fn missing_line(alloc: Global, number: u64) -> Result<Vec<u8>, Refusal>
    ensures { IfOk result (λ text. text.items ≡ missing_line number) }
{
    let found = Found {
        at: String::from_str(alloc, "begin")?,
        value: None,
    };
    let text = write_refused(alloc, number, Refusal::BadOpening, Some(&found))?;
    Ok(text)
}
