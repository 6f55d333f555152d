//! The whole text of a file that was a log, before a crash or after.
ghost use Rattle.std.specs.Prelude.{◌≡◌, ◌==◌, ◌+◌, ◌-◌, ◌<◌, ◌≤◌, ◌++◌, not, false, ℕ, List, length, drop, IsTrue, IfOk, OnOk, OnErr, IsOkUnless, ◌⊎◌};
ghost use Rattle.std.specs.List.{position_or_len, suffix_len};
ghost use Rattle.sqlite_disk.specs.Disk.{MoreFaults};
ghost use Rattle.album_log.specs.Texts.{before_zero, whole_text};

use crate::LogError;
use crate::zeros::{PIECE, zeros};
use sqlite_disk::Disk;
use std::alloc::{AllocError, Global};

/// The whole lines before the first zero of the file.
///
/// # Errors
///
/// `OutOfMemory`, or `Failed` as the disk fails.
pub fn read_text<D: Disk>(alloc: Global, disk: &mut D) -> Result<Vec<u8>, LogError>
    requires { IsTrue (D.Disk.is_usable disk.old) }
    ensures text { IfOk result (λ text. IsTrue (D.Disk.is_clean disk.new)
        → text.items ≡ whole_text (D.Disk.seen disk.old)) }
    ensures cause { OnErr result ((result ≡ Err LogError.OutOfMemory)
        ⊎ MoreFaults (D.Disk.faults disk.old) (D.Disk.faults disk.new)) }
    ensures seen { D.Disk.seen disk.new ≡ D.Disk.seen disk.old }
    ensures crash { (c : List ℕ) → D.Disk.may_leave disk.new c → D.Disk.may_leave disk.old c }
    ensures usable { IsTrue (D.Disk.is_usable disk.new) }
    ensures clean { IsTrue (D.Disk.is_clean disk.new) → IsTrue (D.Disk.is_clean disk.old) }
{
    let mut buffer = zeros(alloc, PIECE)?;
    let mut text = Vec::new(alloc);
    read_to_zero(disk, &mut buffer, &mut text)?;
    let end = text_end(&text);
    text.truncate(end);
    Ok(text)
}

/// Reads all that is before the first zero, piece by piece.
fn read_to_zero<D: Disk>(
    disk: &mut D,
    buffer: &mut [u8],
    text: &mut Vec<u8>,
) -> Result<(), LogError>
    requires usable { IsTrue (D.Disk.is_usable disk.old) }
    requires some { 0 < length buffer.old }
    ensures text { OnOk result (IsTrue (D.Disk.is_clean disk.new)
        → text.new.items ≡ text.old.items ++ before_zero (D.Disk.seen disk.old)) }
    ensures cause { OnErr result ((result ≡ Err LogError.OutOfMemory)
        ⊎ MoreFaults (D.Disk.faults disk.old) (D.Disk.faults disk.new)) }
    ensures seen { D.Disk.seen disk.new ≡ D.Disk.seen disk.old }
    ensures crash { (c : List ℕ) → D.Disk.may_leave disk.new c → D.Disk.may_leave disk.old c }
    ensures usable { IsTrue (D.Disk.is_usable disk.new) }
    ensures clean { IsTrue (D.Disk.is_clean disk.new) → IsTrue (D.Disk.is_clean disk.old) }
{
    let len = disk.len()?;
    let mut at = 0;
    while at < len {
        let n = buffer.len().min(len - at);
        let piece = &mut buffer[..n];
        disk.read_at(at, piece)?;
        if !push_to_zero(text, piece)? {
            return Ok(());
        }
        at += n;
    }
    Ok(())
}

/// Appends what of the piece is before its first zero, and says whether that is all of it.
fn push_to_zero(text: &mut Vec<u8>, piece: &[u8]) -> Result<bool, AllocError>
    ensures text { OnOk result (text.new.items ≡ text.old.items ++ before_zero piece.now) }
    ensures all { IfOk result (λ all. IsTrue all
        → position_or_len (λ byte. byte == 0) piece.now ≡ length piece.now) }
    ensures part { IfOk result (λ all. all ≡ false
        → position_or_len (λ byte. byte == 0) piece.now < length piece.now) }
{
    let front = first_zero(piece);
    text.extend_from_slice(&piece[..front])?;
    Ok(front == piece.len())
}

/// Where the first zero is, or the end.
fn first_zero(bytes: &[u8]) -> usize
    ensures first { result ≡ position_or_len (λ byte. byte == 0) bytes.now }
    ensures within { result ≤ length bytes.now }
{
    for (i, byte) in bytes.iter().enumerate() {
        if *byte == 0 {
            return i;
        }
    }
    bytes.len()
}

/// Where the last newline ends, or 0.
fn text_end(text: &[u8]) -> usize
    ensures { result ≡ length text.now - suffix_len (λ byte. not (byte == 10)) text.now }
{
    let mut end = text.len();
    while end > 0 && text[end - 1] != b'\n' {
        end -= 1;
    }
    end
}
