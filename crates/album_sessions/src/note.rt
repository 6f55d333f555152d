//! What a session notes in the audit book.
ghost use Rattle.std.specs.Prelude.{◌≡◌, ◌≢◌, [], OnOk, OnErr, IsOkUnless};
ghost use Rattle.album_sessions.specs.Asks.{AreShared};

use crate::service_names::ServiceNames;
use crate::session::Session;
use album_audit::{AuditBook, Record};
use album_permits::Note;
use album_stamps::Refusal;
use std::sync::Wait;

impl<J: ServiceNames> Session<J> {
    /// Adds the notes to the audit book, together, as the client's. They count in the session's share.
    ///
    /// # Errors
    ///
    /// `OutOfMemory`. None of them is noted then.
    pub(crate) fn note_all<R: Wait>(&mut self, rt: &R, notes: Vec<Note>) -> Result<(), Refusal>
        ensures shared { OnOk result (AreShared self.old.client self.old.share self.new.share notes.items) }
        ensures some { OnErr result (notes.items ≢ []) }
        ensures memory { IsOkUnless result Refusal.OutOfMemory }
        ensures unchanged { OnErr result (self.new ≡ self.old) }
        ensures client { self.new.client ≡ self.old.client }
        ensures counter { self.new.counter ≡ self.old.counter }
        ensures cut { self.new.cut ≡ self.old.cut }
    {
        if notes.is_empty() {
            return Ok(());
        }
        let client = self.channel.client();
        self.book.lock(rt).note_all(&mut self.share, client, notes)
    }

    /// The records that the audit book keeps, of this session and of others, in the order in which they were noted. It
    /// keeps none of them any longer.
    pub fn take_records<R: Wait>(&self, rt: &R) -> Vec<Record> {
        self.book.lock(rt).take(self.alloc)
    }
}
