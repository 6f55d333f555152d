//! The thread that writes to the audit file, or to standard error in its place.
use crate::audit::Pending;
use crate::audit_file::{AppendedTo, AuditFile, Looked};
use crate::notices::{Notice, Notices};
use std::alloc::Global;
use std::fmt::Display;
use std::fs::File;
use std::io;
use std::io::Write;
use std::rt::Files;
use std::sync::{Arc, Wait};
use std::time::{Clock, Duration, Instant};

/// How many seconds it goes on, at least, until it looks again whether its file is still the one at its path.
const LOOK: u64 = 1;

/// The audit file, and when it was last looked for.
#[derive(Drop)]
pub(crate) struct Writer {
    pub alloc: Global,
    pub file: AuditFile,
    pub looked: Option<Instant>,
    pub notices: Notices,
}

impl Writer {
    /// Writes what waits, until no more will come, or a write fails.
    pub(crate) fn write_all<T: Wait + Clock + Eprint + Files<File = File>>(
        mut self,
        rt: &T,
        pending: &Arc<Pending, Global>,
    ) {
        for _ in rt.forever() {
            let Some(lines) = pending.next(rt) else {
                return;
            };
            match self.write(rt, &lines.text) {
                Ok(()) => pending.are_written(rt, &lines),
                Err(error) => {
                    self.say(rt, &error);
                    pending.fail(rt);
                    return;
                }
            }
        }
    }

    /// Appends the text to the file at the path, or to standard error.
    ///
    /// # Errors
    ///
    /// Where there is another file, or none, that can't be had; else that of the write.
    fn write<T: Wait + Clock + Eprint + Files<File = File>>(
        &mut self,
        rt: &T,
        text: &[u8],
    ) -> io::Result<()> {
        self.look(rt)?;
        match &mut self.file.to {
            AppendedTo::File(file) => file.write_all(text),
            AppendedTo::StandardError => self.notices.print_whole(rt, text),
        }
    }

    /// Looks for the file by its path, at most once a second.
    fn look<T: Wait + Clock + Files<File = File>>(&mut self, rt: &T) -> io::Result<()> {
        let now = Instant::now(rt)?;
        if let Some(looked) = self.looked
            && now.saturating_duration_since(looked) < Duration::from_secs(LOOK)
        {
            return Ok(());
        }
        self.looked = Some(now);
        match self.file.look(rt)? {
            Looked::Same => {}
            Looked::Another => self.say(rt, &"it is another file now, which is gone on with"),
            Looked::Torn => self.say(
                rt,
                &"it is another file now, whose last line was torn, and is ended",
            ),
        }
        Ok(())
    }

    /// Has it printed what became of the file.
    fn say<T: Wait + Clock, D: Display>(&self, rt: &T, what: &D) {
        let path = &self.file.path;
        if let Ok(text) = format!(in self.alloc; "{path}: {what}") {
            self.notices.send(rt, Notice::Warning(text));
        }
    }
}
