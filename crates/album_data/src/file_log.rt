//! A log of marks in a file.
ghost use Rattle.std.specs.Prelude.{◌≡◌, ◌++◌, IsTrue, List, ℕ, OnOk, OnErr};
ghost use Rattle.album_log.specs.Texts.{IsWholeText};
ghost use Rattle.album_data.specs.Texts.{HasLine, IsLine};

use crate::entries::{entry_text, is_line};
use album_keepers::{LogEntry, MarkLog, NotKept};
use album_log::{Log, LogError, is_whole_text};
use sqlite_disk::Disk;
use std::alloc::{AllocError, Global};
use std::sync::atomic::{AtomicU64, Ordering};
use std::sync::{Arc, OnceLock};

/// A log whose lines are those of marks.
#[derive(Drop)]
pub struct FileLog<D: Disk> {
    alloc: Global,
    log: Log<D>,
    /// The lines of what was added since the log last kept something.
    added: Vec<u8>,
    /// Why it failed, for whoever says so.
    failure: Arc<OnceLock<LogError>, Global>,
    /// How many bytes of text it has, for whoever bounds it.
    size: Arc<AtomicU64, Global>,
    ghost whole: { IsWholeText added.items },
}

impl<D: Disk> FileLog<D> {
    /// A log to which nothing was added.
    ///
    /// # Errors
    ///
    /// `AllocError`.
    pub fn new(alloc: Global, log: Log<D>) -> Result<FileLog<D>, AllocError>
    where
        D: Drop,
    {
        Ok(FileLog {
            alloc,
            log,
            added: Vec::new(alloc),
            failure: Arc::new(alloc, OnceLock::new())?,
            size: Arc::new(alloc, AtomicU64::new(0))?,
        })
    }

    /// Where it will say why it failed.
    ///
    /// # Errors
    ///
    /// `AllocError`.
    pub fn failure(&self) -> Result<Arc<OnceLock<LogError>, Global>, AllocError> {
        Arc::try_clone(&self.failure)
    }

    /// Where it says how many bytes of text it has.
    ///
    /// # Errors
    ///
    /// `AllocError`.
    pub fn size(&self) -> Result<Arc<AtomicU64, Global>, AllocError> {
        Arc::try_clone(&self.size)
    }

    /// It fails, for this reason.
    fn fail(&self, why: LogError) -> NotKept {
        let _ = self.failure.try_set(why);
        NotKept
    }
}

impl<D: Disk> MarkLog for FileLog<D> {
    ghost use Rattle.album_data.specs.Logs.{Keeps, Adds};

    ghost keeps = { λ l e. Keeps D.Disk.may_leave l.log e };

    ghost adds = { λ l e. Adds l.added.items e };

    fn add(&mut self, entry: &LogEntry) -> Result<(), NotKept> {
        let Ok(line) = entry_text(self.alloc, entry) else {
            return Err(self.fail(LogError::OutOfMemory));
        };
        if !is_line(&line) || !is_whole_text(&line) {
            return Err(self.fail(LogError::Closed));
        }
        if add_line(&mut self.added, &line).is_err() {
            return Err(self.fail(LogError::OutOfMemory));
        }
        Ok(())
    }

    fn keep(&mut self) -> Result<(), NotKept> {
        self.log.is_at_rest();
        match self.log.append(&self.added) {
            Ok(()) => {
                let more = self.added.len() as u64;
                self.size.fetch_add(more, Ordering::SeqCst);
                self.added.clear();
                Ok(())
            }
            Err(why) => Err(self.fail(why)),
        }
    }
}

/// Adds a line to a text of whole lines.
fn add_line(text: &mut Vec<u8>, line: &[u8]) -> Result<(), AllocError>
    requires whole { IsWholeText text.old.items }
    requires line { IsLine line.now }
    requires no_zero { IsWholeText line.now }
    ensures whole { IsWholeText text.new.items }
    ensures there { OnOk result (HasLine text.new.items line.now) }
    ensures others { (other : List ℕ) → HasLine text.old.items other → HasLine text.new.items other }
{
    text.extend_from_slice(line)?;
    Ok(())
}
