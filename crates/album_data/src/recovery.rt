//! What a log's text leaves to the next epoch.
ghost use Rattle.std.specs.Prelude.{◌≡◌, ◌≤◌, ◌<◌, [], List, length, map, All, IfOk, OnOk};
ghost use Rattle.album_stamps.specs.Stamps.{counter_of};
ghost use Rattle.album_stamps.specs.declared.limits.TheConstants.{MAX_PARTS};
ghost use Rattle.album_partition.specs.Marks.{prepare_in};
ghost use Rattle.album_epochs.specs.Folding.{stamp_in, ArePrepared};
ghost use Rattle.album_keepers.specs.declared.log_entries.LogEntry.{LogEntry as Entry};
ghost use Rattle.album_data.specs.Texts.{IsLine};
ghost use Rattle.album_data.specs.Recovery.{AreEntryLines, IsEntryLine, AreLogged, IsOpenedAfter, with_mark, marks_after};

use crate::entries::{is_line, read_entry};
use album_epochs::{lend, opening_after};
use album_items::Opening;
use album_keepers::LogEntry;
use album_partition::Mark;
use album_stamps::{MAX_PARTS, Refusal, Stamp};
use json::Scratch;
use std::alloc::{AllocError, AllocFailed, Global};
use std::collections::BTreeSet;

/// Why a log's text isn't read.
#[derive(Clone, Copy, Debug)]
pub enum Unread {
    /// The line of this number, from 1, isn't that of a mark, or is that of a partition which isn't there.
    Damaged { line: u64, why: Refusal },
    /// The opening has too few partitions, or too many.
    BadOpening,
    /// The stamps of the store are spent.
    Spent,
    /// There is no memory.
    OutOfMemory,
}

impl From<AllocError> for Unread {
    fn from(_error: AllocError) -> Unread {
        Unread::OutOfMemory
    }
}

impl<T> From<AllocFailed<T>> for Unread
where
    T: Drop,
{
    fn from(_error: AllocFailed<T>) -> Unread {
        Unread::OutOfMemory
    }
}

/// The opening with which the next epoch begins, after one that opened on this, and whose log has this text of whole
/// lines. The counts, the policy and the root stay. The rows and their stamps are what the log has, folded.
///
/// # Errors
///
/// `Damaged` at the first line that isn't a mark's; `Spent` where there is no counter left; `OutOfMemory`.
pub fn next_opening(alloc: Global, opening: &Opening, text: &[u8]) -> Result<Opening, Unread>
    ensures { IfOk result (λ next. (entries : List Entry) × AreEntryLines text.now entries
        × IsOpenedAfter opening.now entries next) }
{
    let parts = parts_of(opening)?;
    let entries = entries_of(alloc, parts, text)?;
    let histories = histories_of(alloc, parts, &entries)?;
    let lent = lend(alloc, &histories)?;
    match opening_after(alloc, opening, greatest_counter(&entries), &lent) {
        Ok(next) => Ok(next),
        Err(Refusal::StampsSpent) => Err(Unread::Spent),
        Err(_) => Err(Unread::OutOfMemory),
    }
}

/// How many partitions there are, if not too few or too many.
fn parts_of(opening: &Opening) -> Result<u16, Unread>
    ensures parts { IfOk result (λ parts. parts ≡ opening.now.parts) }
    ensures some { IfOk result (λ parts. 1 ≤ parts) }
    ensures few { IfOk result (λ parts. parts ≤ MAX_PARTS) }
{
    if opening.parts < 1 || opening.parts > u64::from(MAX_PARTS) {
        return Err(Unread::BadOpening);
    }
    Ok(opening.parts as u16)
}

/// The entries of a text's lines, in order.
///
/// # Errors
///
/// `Damaged` at the first line that isn't an entry's.
fn entries_of(alloc: Global, parts: u16, text: &[u8]) -> Result<Vec<LogEntry>, Unread>
    ensures { IfOk result (λ entries. AreEntryLines text.now entries.items) }
{
    let mut scratch = Scratch::new(alloc);
    let mut entries = Vec::new(alloc);
    let mut at = 0;
    while at < text.len() {
        let end = line_end(text, at);
        let number = entries.len() as u64;
        let entry = entry_in(alloc, &mut scratch, parts, &text[at..end], number)?;
        entries.push(entry)?;
        at = end;
    }
    Ok(entries)
}

/// Where the line ends that begins there: behind its newline, if it has one.
fn line_end(text: &[u8], at: usize) -> usize
    requires { at < length text.now }
    ensures some { at < result }
    ensures within { result ≤ length text.now }
{
    for end in at..text.len() {
        if text[end] == b'\n' {
            return end + 1;
        }
    }
    text.len()
}

/// The entry of a line, before which there are so many.
///
/// # Errors
///
/// `Damaged`; `OutOfMemory`.
fn entry_in(
    alloc: Global,
    scratch: &mut Scratch,
    parts: u16,
    line: &[u8],
    before: u64,
) -> Result<LogEntry, Unread>
    ensures line { OnOk result (IsLine line.now) }
    ensures entry { IfOk result (λ entry. IsEntryLine line.now entry) }
{
    let number = before.saturating_add(1);
    if !is_line(line) {
        return Err(damaged(number, Refusal::BadLine));
    }
    match read_entry(alloc, scratch, line) {
        Ok(entry) => {
            if entry.part >= parts {
                return Err(damaged(number, Refusal::NoSuchPart));
            }
            Ok(entry)
        }
        Err(why) => Err(damaged(number, why)),
    }
}

/// Why the line of this number isn't read.
fn damaged(line: u64, why: Refusal) -> Unread {
    match why {
        Refusal::OutOfMemory => Unread::OutOfMemory,
        why => Unread::Damaged { line, why },
    }
}

/// The greatest counter of the entries' stamps, or 0.
fn greatest_counter(entries: &[LogEntry]) -> u64
    ensures { All (λ entry. counter_of (stamp_in entry.mark) ≤ result) entries.now }
{
    let mut greatest = 0;
    for entry in entries {
        greatest = counter_in(&entry.mark).max(greatest);
    }
    greatest
}

/// The counter of the mark's stamp, or 0.
fn counter_in(mark: &Mark) -> u64
    ensures { result ≡ counter_of (stamp_in mark.now) }
{
    match mark.stamp() {
        Some(stamp) => stamp.counter(),
        None => 0,
    }
}

/// The history of each partition, in order.
///
/// # Errors
///
/// `AllocError`.
fn histories_of(
    alloc: Global,
    parts: u16,
    entries: &[LogEntry],
) -> Result<Vec<Vec<Mark>>, AllocError>
    ensures { IfOk result (λ histories. AreLogged parts entries.now (map (λ marks. marks.items) histories.items)) }
{
    let mut histories = Vec::new(alloc);
    for part in 0..parts {
        histories.push(history_of(alloc, part, entries)?)?;
    }
    Ok(histories)
}

/// The marks of the partition, each stamp's first one.
///
/// # Errors
///
/// `AllocError`.
fn history_of(alloc: Global, part: u16, entries: &[LogEntry]) -> Result<Vec<Mark>, AllocError>
    ensures { IfOk result (λ marks. marks.items ≡ marks_after part [] entries.now) }
{
    let mut marks = Vec::new(alloc);
    let mut stamps = BTreeSet::new(alloc);
    for entry in entries {
        if entry.part == part {
            take_mark(&mut marks, &mut stamps, &entry.mark)?;
        }
    }
    Ok(marks)
}

/// Adds the mark to these, if it prepares a stamp, and none of them has.
///
/// # Errors
///
/// `AllocError`.
fn take_mark(
    marks: &mut Vec<Mark>,
    stamps: &mut BTreeSet<Stamp>,
    mark: &Mark,
) -> Result<(), AllocError>
    requires { ArePrepared marks.old.items stamps.old }
    ensures marks { OnOk result (marks.new.items ≡ with_mark marks.old.items mark.now) }
    ensures stamps { OnOk result (ArePrepared marks.new.items stamps.new) }
{
    let Some(stamp) = prepare_in(mark) else {
        return Ok(());
    };
    if stamps.contains(&stamp) {
        return Ok(());
    }
    let copy = mark.copy()?;
    stamps.insert(stamp)?;
    marks.push(copy)?;
    Ok(())
}

/// The stamp that the mark prepares, if it prepares one.
fn prepare_in(mark: &Mark) -> Option<Stamp>
    ensures { result ≡ prepare_in mark.now }
{
    match mark {
        Mark::Prepared(stamp, _, _) => Some(*stamp),
        Mark::Committed(_) | Mark::Discarded(_) | Mark::Trimmed(_) => None,
    }
}
