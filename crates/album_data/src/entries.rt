//! The line of an entry in a log: its mark's line, sealed by a sum of it.
ghost use Rattle.std.specs.Prelude.{◌≡◌, ◌++◌, ◌∷◌, [], IfOk, IfSome, IsTrue};
ghost use Rattle.album_log.specs.Seals.{sealed};
ghost use Rattle.album_data.specs.Texts.{entry_text, without_end, IsLine};
ghost use Rattle.album_data.specs.Recovery.{IsEntryLine};

use album_keepers::LogEntry;
use album_log::{seal, unseal};
use album_partition::Mark;
use album_stamps::Refusal;
use album_wire::{PreparedMark, is_spellable_mark, read_mark, write_mark};
use json::Scratch;
use std::alloc::{AllocError, Global};

/// The line of an entry, with its newline.
///
/// # Errors
///
/// `BadRequest` where the mark prepares nothing, or has a value that no line spells; else `OutOfMemory`.
pub fn entry_text(alloc: Global, entry: &LogEntry) -> Result<Vec<u8>, Refusal>
    ensures text { IfOk result (λ text. text.items ≡ entry_text entry.now) }
{
    match &entry.mark {
        Mark::Prepared(stamp, writes, items) => {
            let (writes, items) = (writes.as_slice(), items.as_slice());
            if !is_spellable_mark(entry.part, *stamp, writes, items) {
                return Err(Refusal::BadRequest);
            }
            let text = write_mark(alloc, entry.part, *stamp, writes, items)?;
            sealed_line(text)
        }
        Mark::Committed(_) | Mark::Discarded(_) | Mark::Trimmed(_) => Err(Refusal::BadRequest),
    }
}

/// The text of an object, with a newline behind it, sealed.
///
/// # Errors
///
/// `BadRequest` where it is none; else `OutOfMemory`.
fn sealed_line(mut text: Vec<u8>) -> Result<Vec<u8>, Refusal>
    ensures { IfOk result (λ line. line.items ≡ sealed (without_end text.items) ++ 10 ∷ []) }
{
    let Some(end) = text.len().checked_sub(1) else {
        return Err(Refusal::BadRequest);
    };
    text.truncate(end);
    if text.last() != Some(&b'}') {
        return Err(Refusal::BadRequest);
    }
    seal(&mut text)?;
    text.push(b'\n')?;
    Ok(text)
}

/// Whether it is one line: its only newline is its last byte.
pub(crate) fn is_line(line: &[u8]) -> bool
    ensures { IsTrue result → IsLine line.now }
{
    match line.split_last() {
        None => false,
        Some((last, front)) => *last == b'\n' && front.iter().all(|byte| *byte != b'\n'),
    }
}

/// The entry whose line this is, with its newline.
///
/// # Errors
///
/// `BadLine` where the sum isn't that of the line; else as `read_mark`.
pub fn read_entry(alloc: Global, scratch: &mut Scratch, line: &[u8]) -> Result<LogEntry, Refusal>
    ensures { IfOk result (λ entry. IsEntryLine line.now entry) }
{
    let Some(body) = body_of(line) else {
        return Err(Refusal::BadLine);
    };
    let text = object_of(alloc, body)?;
    let PreparedMark {
        part,
        stamp,
        writes,
        items,
    } = read_mark(alloc, scratch, &text)?;
    Ok(LogEntry {
        part,
        mark: Mark::Prepared(stamp, writes, items),
    })
}

/// What is sealed in a line, if its seal is the right one.
fn body_of(line: &[u8]) -> Option<&[u8]>
    ensures { IfSome result (λ body. line.now ≡ sealed body.now ++ 10 ∷ []) }
{
    let (last, sealed) = line.split_last()?;
    if *last != b'\n' {
        return None;
    }
    let end = unseal(sealed)?;
    Some(&sealed[..end])
}

/// The text of an object, which ends with a bracket, of all before that.
fn object_of(alloc: Global, body: &[u8]) -> Result<Vec<u8>, AllocError>
    ensures { IfOk result (λ text. text.items ≡ body.now ++ 125 ∷ []) }
{
    let mut text = Vec::new(alloc);
    text.extend_from_slice(body)?;
    text.push(b'}')?;
    Ok(text)
}
