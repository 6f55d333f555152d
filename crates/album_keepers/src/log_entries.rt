//! What a log keeps of a partition, and what it is to a service.
ghost use Rattle.std.specs.Prelude.{OnOk};
ghost use Rattle.album_keepers.specs.declared.log_entries.LogEntry.{LogEntry as Entry};

use album_partition::Mark;
use std::alloc::{AllocError, AllocFailed};

/// A mark of a partition, as a log keeps it.
#[derive(Debug, Drop)]
pub struct LogEntry {
    /// The number of the partition.
    pub part: u16,
    /// A mark that prepares a stamp there.
    pub mark: Mark,
}

/// The log failed, or there was no memory for it. It keeps nothing more.
#[derive(Clone, Copy, Debug)]
pub struct NotKept;

impl From<AllocError> for NotKept {
    fn from(_error: AllocError) -> NotKept {
        NotKept
    }
}

impl<T> From<AllocFailed<T>> for NotKept
where
    T: Drop,
{
    fn from(_error: AllocFailed<T>) -> NotKept {
        NotKept
    }
}

/// A log of what the partitions of a service prepare. Whoever opens the service next finds what it keeps, whatever
/// became of this one.
pub trait MarkLog {
    /// It keeps the entry.
    ghost keeps: { Self → Entry → Type 0 };

    /// The entry was added, and is to be kept.
    ghost adds: { Self → Entry → Type 0 };

    /// Adds an entry to those that are to be kept.
    ///
    /// # Errors
    ///
    /// Where the log fails.
    fn add(&mut self, entry: &LogEntry) -> Result<(), NotKept>
        ensures added { OnOk result (adds self.new entry.now) }
        ensures others { OnOk result ((other : Entry) → adds self.old other → adds self.new other) }
        ensures kept { (other : Entry) → keeps self.old other → keeps self.new other };

    /// Keeps what was added.
    ///
    /// # Errors
    ///
    /// Where the log fails. It isn't known then what of that is kept.
    fn keep(&mut self) -> Result<(), NotKept>
        ensures added { OnOk result ((other : Entry) → adds self.old other → keeps self.new other) }
        ensures kept { (other : Entry) → keeps self.old other → keeps self.new other };
}

/// The log of a service that has none: nothing is kept by it.
#[derive(Clone, Copy, Debug)]
pub struct NoLog;

impl MarkLog for NoLog {
    ghost keeps = { λ _ _. ⊥ };

    ghost adds = { λ _ _. ⊥ };

    fn add(&mut self, _entry: &LogEntry) -> Result<(), NotKept> {
        Err(NotKept)
    }

    fn keep(&mut self) -> Result<(), NotKept> {
        Err(NotKept)
    }
}
