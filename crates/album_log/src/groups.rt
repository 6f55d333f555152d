//! One group of lines, written over zeros.
ghost use Rattle.std.specs.Prelude.{◌≡◌, ◌≢◌, ◌+◌, ◌<◌, ◌≤◌, ◌^◌, ◌++◌, ℕ, List, length, slice_index, EachIndex, IsTrue, IfOk, IfErr, OnOk, OnErr, ◌⊎◌, false};
ghost use Rattle.sqlite_disk.specs.Disk.{Only, CountsFault};
ghost use Rattle.album_log.specs.Texts.{IsWholeText};
ghost use Rattle.album_log.specs.Logs.{HasText, IsDurable, LeavesText, LeavesKept, HasCause};

use crate::LogError;
use crate::zeros::extend;
use sqlite_disk::Disk;
use std::io;

/// How many zeros are written ahead, where those that are left don't hold a group.
const AHEAD: usize = 0x10_0000;

/// Writes the group behind the text, which ends at `end`, and makes it durable. Returns how long the file is then.
pub(crate) fn append_group<D: Disk>(
    disk: &mut D,
    zeros: &[u8],
    is_mixing: bool,
    end: usize,
    size: usize,
    group: &[u8],
) -> Result<usize, LogError>
    requires usable { IsTrue (D.Disk.is_usable disk.old) }
    requires some { 0 < length zeros.now }
    requires zeros { EachIndex zeros.now (λ k. slice_index zeros.now k ≡ 0) }
    requires whole { IsWholeText group.now }
    ensures text { IfOk result (λ next. (text : List ℕ) → length text ≡ end
        → IsDurable text size (D.Disk.seen disk.old) (D.Disk.may_leave disk.old)
        → IsDurable (text ++ group.now) next (D.Disk.seen disk.new) (D.Disk.may_leave disk.new)) }
    ensures size { IfOk result (λ next. size ≡ length (D.Disk.seen disk.old)
        → next ≡ length (D.Disk.seen disk.new)) }
    ensures room { IfOk result (λ next. end + length group.now < next) }
    ensures crash { IsTrue is_mixing → (text : List ℕ) → length text ≡ end
        → IsDurable text size (D.Disk.seen disk.old) (D.Disk.may_leave disk.old)
        → LeavesKept text group.now (D.Disk.may_leave disk.new) }
    ensures full { result ≡ Err LogError.Full → 2 ^ 64 ≤ end + length group.now + 1 }
    ensures closed { result ≢ Err LogError.Closed }
    ensures cause { OnErr result ((result ≡ Err LogError.Full)
        ⊎ HasCause is_mixing (D.Disk.is_mixing disk.new) (D.Disk.faults disk.old) (D.Disk.faults disk.new)) }
    ensures clean { D.Disk.is_clean disk.new ≡ D.Disk.is_clean disk.old }
    ensures usable { OnOk result (IsTrue (D.Disk.is_usable disk.new)) }
{
    let next = next_size(end, group.len(), size)?;
    extend(disk, zeros, size, next)?;
    still_mixes(disk, is_mixing)?;
    put(disk, end, group)?;
    Ok(next)
}

/// How long the file has to be for `more` bytes at `end` and a zero behind them.
fn next_size(end: usize, more: usize, size: usize) -> Result<usize, LogError>
    ensures room { IfOk result (λ next. end + more < next) }
    ensures order { IfOk result (λ next. size ≤ next) }
    ensures fits { IfOk result (λ next. next < 2 ^ 64) }
    ensures full { IfErr result (λ e. (e ≡ LogError.Full) × (2 ^ 64 ≤ end + more + 1)) }
{
    if usize::MAX - end <= more {
        return Err(LogError::Full);
    }
    let needed = end + more + 1;
    if needed <= size {
        return Ok(size);
    }
    Ok(needed.max(size.saturating_add(AHEAD)))
}

/// A disk that was mixing has to be so still, since what a crash leaves rests on it.
fn still_mixes<D: Disk>(disk: &D, is_mixing: bool) -> Result<(), LogError>
    ensures mixes { OnOk result (IsTrue is_mixing → IsTrue (D.Disk.is_mixing disk.now)) }
    ensures error { IfErr result (λ e. (e ≢ LogError.Full) × (e ≢ LogError.Closed)) }
    ensures cause { OnErr result (IsTrue is_mixing × (D.Disk.is_mixing disk.now ≡ false)) }
{
    if is_mixing && !disk.mixes() {
        return Err(LogError::Failed(io::Error::from(io::ErrorKind::Unsupported)));
    }
    Ok(())
}

/// Writes the group at the end of the text, over zeros, and makes it durable.
pub(crate) fn put<D: Disk>(disk: &mut D, at: usize, group: &[u8]) -> io::Result<()>
    requires usable { IsTrue (D.Disk.is_usable disk.old) }
    requires whole { IsWholeText group.now }
    ensures text { OnOk result ((text : List ℕ) (size : ℕ) → length text ≡ at → at + length group.now < size
        → HasText text size (D.Disk.seen disk.old) → HasText (text ++ group.now) size (D.Disk.seen disk.new)) }
    ensures only { OnOk result (Only (D.Disk.seen disk.new) (D.Disk.may_leave disk.new)) }
    ensures size { at + length group.now ≤ length (D.Disk.seen disk.old)
        → length (D.Disk.seen disk.new) ≡ length (D.Disk.seen disk.old) }
    ensures crash { IsTrue (D.Disk.is_mixing disk.old) → (text : List ℕ) (size : ℕ) → length text ≡ at
        → at + length group.now < size → size < 2 ^ 64
        → LeavesText text size (D.Disk.may_leave disk.old) → LeavesKept text group.now (D.Disk.may_leave disk.new) }
    ensures faults { CountsFault result (D.Disk.faults disk.old) (D.Disk.faults disk.new) }
    ensures clean { D.Disk.is_clean disk.new ≡ D.Disk.is_clean disk.old }
    ensures usable { OnOk result (IsTrue (D.Disk.is_usable disk.new)) }
{
    disk.write_at(at, group)?;
    disk.sync()
}
