//! A text, written by a loop over `write`.
ghost use Rattle.std.specs.Prelude.{◌≡◌, ◌++◌, List, ℕ, OnOk, OnErr, IfErr};
ghost use Rattle.std.specs.Io.KnownBytes.{Appends};
ghost use Rattle.album_lines.specs.Output.{refusal_line};
ghost use Rattle.album_judge.specs.Writes.{Writes, IsCutShort, LeavesOf};

use crate::fault::Fault;
use album_lines::write_refusal;
use album_stamps::Refusal;
use std::alloc::Global;
use std::io::Write;

/// Writes the text.
///
/// # Errors
///
/// `Writing`, where a write fails, or takes no byte.
pub fn write_text<W: Write>(writer: &mut W, text: &[u8]) -> Result<(), Fault>
    ensures ok { OnOk result (Appends (W.contents writer.old) (W.contents writer.new) text.now) }
    ensures err { OnErr result
        (Writes (IsCutShort (λ whole. whole ≡ text.now)) (W.contents writer.old) (W.contents writer.new)) }
    ensures fault { IfErr result (λ fault. fault ≡ Fault.Writing) }
{
    let mut at = 0;
    while at < text.len() {
        match writer.write(&text[at..]) {
            Ok(0) => return Err(Fault::Writing),
            Ok(taken) => at += taken,
            Err(_) => return Err(Fault::Writing),
        }
    }
    Ok(())
}

/// Writes the line of the refusal.
///
/// # Errors
///
/// `Memory`, where there is none for the line; `Writing`, where a write fails, or takes no byte.
pub fn write_refused<W: Write>(alloc: Global, refusal: Refusal, writer: &mut W) -> Result<(), Fault>
    ensures ok { OnOk result (Appends (W.contents writer.old) (W.contents writer.new) (refusal_line refusal)) }
    ensures fault { IfErr result (λ fault. Writes (LeavesOf fault (λ whole. whole ≡ refusal_line refusal))
        (W.contents writer.old) (W.contents writer.new)) }
{
    let text = write_refusal(alloc, refusal)?;
    write_text(writer, &text)
}
