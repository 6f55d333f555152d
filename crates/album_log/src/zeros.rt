//! Zeros behind the text of a log, which an append writes over.
ghost use Rattle.std.specs.Prelude.{◌≡◌, ◌-◌, ◌<◌, ◌≤◌, [], ℕ, List, length, slice_index, EachIndex, IsTrue, IfOk, OnOk, IsOkUnless};
ghost use Rattle.sqlite_disk.specs.Disk.{Torn, Follows, Only, CountsFault};
ghost use Rattle.album_log.specs.Logs.{HasText, HasZeros, LeavesText};

use crate::LogError;
use sqlite_disk::Disk;
use std::alloc::Global;
use std::io;

/// How many zeros one write has at most, and how many a log begins with.
pub(crate) const PIECE: usize = 0x4_0000;

/// So many zeros.
pub(crate) fn zeros(alloc: Global, n: usize) -> Result<Vec<u8>, LogError>
    ensures length { IfOk result (λ zeros. length zeros.items ≡ n) }
    ensures zeros { IfOk result (λ zeros. EachIndex zeros.items (λ k. slice_index zeros.items k ≡ 0)) }
    ensures memory { IsOkUnless result LogError.OutOfMemory }
{
    let zeros = vec![in alloc; 0; n]?;
    Ok(zeros)
}

/// Writes zeros from `from`, which is the file's end, up to `to`. Each write is of `zeros` at most.
pub(crate) fn write_zeros<D: Disk>(
    disk: &mut D,
    zeros: &[u8],
    from: usize,
    to: usize,
) -> io::Result<()>
    requires usable { IsTrue (D.Disk.is_usable disk.old) }
    requires some { 0 < length zeros.now }
    requires zeros { EachIndex zeros.now (λ k. slice_index zeros.now k ≡ 0) }
    requires order { from ≤ to }
    ensures zeros { OnOk result (from ≤ length (D.Disk.seen disk.old) → HasZeros from to (D.Disk.seen disk.new)) }
    ensures torn { Torn from (to - from) (D.Disk.seen disk.old) (D.Disk.seen disk.new) }
    ensures crash { Follows (Torn from (to - from)) (D.Disk.may_leave disk.old) (D.Disk.may_leave disk.new) }
    ensures faults { CountsFault result (D.Disk.faults disk.old) (D.Disk.faults disk.new) }
    ensures clean { D.Disk.is_clean disk.new ≡ D.Disk.is_clean disk.old }
    ensures usable { IsTrue (D.Disk.is_usable disk.new) }
{
    let mut at = from;
    while at < to {
        let n = zeros.len().min(to - at);
        disk.write_at(at, &zeros[..n])?;
        at += n;
    }
    Ok(())
}

/// Makes the file longer by zeros, where `to` lies past its end, and makes them durable.
pub(crate) fn extend<D: Disk>(disk: &mut D, zeros: &[u8], size: usize, to: usize) -> io::Result<()>
    requires usable { IsTrue (D.Disk.is_usable disk.old) }
    requires some { 0 < length zeros.now }
    requires zeros { EachIndex zeros.now (λ k. slice_index zeros.now k ≡ 0) }
    requires order { size ≤ to }
    ensures text { OnOk result ((text : List ℕ) → HasText text size (D.Disk.seen disk.old)
        → HasText text to (D.Disk.seen disk.new)) }
    ensures only { OnOk result (Only (D.Disk.seen disk.old) (D.Disk.may_leave disk.old)
        → Only (D.Disk.seen disk.new) (D.Disk.may_leave disk.new)) }
    ensures size { OnOk result (size ≡ length (D.Disk.seen disk.old) → to ≡ length (D.Disk.seen disk.new)) }
    ensures crash { (text : List ℕ) → LeavesText text size (D.Disk.may_leave disk.old)
        → LeavesText text size (D.Disk.may_leave disk.new) }
    ensures faults { CountsFault result (D.Disk.faults disk.old) (D.Disk.faults disk.new) }
    ensures clean { D.Disk.is_clean disk.new ≡ D.Disk.is_clean disk.old }
    ensures usable { OnOk result (IsTrue (D.Disk.is_usable disk.new)) }
{
    if size == to {
        return Ok(());
    }
    write_zeros(disk, zeros, size, to)?;
    disk.sync()
}

/// Writes the first zeros into an empty file, and makes them durable.
pub(crate) fn begin_zeros<D: Disk>(disk: &mut D, zeros: &[u8]) -> io::Result<()>
    requires usable { IsTrue (D.Disk.is_usable disk.old) }
    requires some { 0 < length zeros.now }
    requires zeros { EachIndex zeros.now (λ k. slice_index zeros.now k ≡ 0) }
    ensures text { OnOk result (HasText [] (length zeros.now) (D.Disk.seen disk.new)) }
    ensures only { OnOk result (Only (D.Disk.seen disk.new) (D.Disk.may_leave disk.new)) }
    ensures size { OnOk result (length (D.Disk.seen disk.old) ≡ 0
        → length zeros.now ≡ length (D.Disk.seen disk.new)) }
    ensures faults { CountsFault result (D.Disk.faults disk.old) (D.Disk.faults disk.new) }
    ensures clean { D.Disk.is_clean disk.new ≡ D.Disk.is_clean disk.old }
    ensures usable { OnOk result (IsTrue (D.Disk.is_usable disk.new)) }
{
    disk.write_at(0, zeros)?;
    disk.sync()
}
