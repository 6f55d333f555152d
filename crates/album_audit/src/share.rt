//! What one session put into an audit book.
ghost use Rattle.std.specs.Prelude.{◌≡◌, [], Some, None};
ghost use Rattle.album_audit.specs.Books.{last_of};
ghost use Rattle.album_audit.specs.Totals.{records_of};

use crate::names::{AlarmFailed, AlarmOk, AuditFailed, AuditOk, Books};
use album_permits::Note;
use album_stamps::ClientNo;
use std::marker::Model;
use std::sync::ledger;

/// A client's notes that were noted together. Contracts see it as their records, which have the client's number.
#[derive(Drop)]
pub(crate) struct Noted {
    client: ClientNo,
    notes: Vec<Note>,
}

impl Model for Noted {
    ghost use Rattle.std.specs.Prelude.{List};
    ghost use Rattle.album_audit.specs.Totals.{records_of};
    ghost use Rattle.album_audit.specs.declared.totals.Record.{Record};

    ghost Value = { List Record };

    ghost view = { λ n. records_of n.client n.notes.items };
}

impl Noted {
    fn of(client: ClientNo, notes: Vec<Note>) -> Noted
        ensures { result ≡ records_of client notes.items }
    {
        Noted { client, notes }
    }
}

/// One session's share of the book that `J` names. It must be spent, by `AuditBook::gather`. Contracts see it as
/// the totals of what was noted with it, and the records of what was noted last.
pub struct Share<J: Books> {
    pub(crate) audit_ok: ledger::Share<AuditOk<J>>,
    pub(crate) audit_failed: ledger::Share<AuditFailed<J>>,
    pub(crate) alarm_ok: ledger::Share<AlarmOk<J>>,
    pub(crate) alarm_failed: ledger::Share<AlarmFailed<J>>,
    /// What was noted last with it.
    pub(crate) last: Option<Noted>,
}

impl<J: Books> Model for Share<J> {
    ghost use Rattle.std.specs.Prelude.{◌≡◌, []};
    ghost use Rattle.std.specs.Option.{unwrap_or};
    ghost use Rattle.album_audit.specs.Books.{ShareState};

    ghost Value = { ShareState };

    ghost view = { λ s. record {
      totals = record {
        audit_ok = s.audit_ok.amount;
        audit_failed = s.audit_failed.amount;
        alarm_ok = s.alarm_ok.amount;
        alarm_failed = s.alarm_failed.amount;
      };
      last = unwrap_or s.last [];
    } };

    ghost invariant = { λ s. (s.audit_ok.parts ≡ 1)
        × (s.audit_failed.parts ≡ 1)
        × (s.alarm_ok.parts ≡ 1)
        × (s.alarm_failed.parts ≡ 1) };
}

impl<J: Books> Share<J> {
    /// These notes were noted last with it, if there are some.
    pub(crate) fn keep_last(&mut self, client: ClientNo, notes: Vec<Note>)
        ensures totals { self.new.totals ≡ self.old.totals }
        ensures last { self.new.last ≡ last_of self.old.last (records_of client notes.items) }
    {
        if !notes.is_empty() {
            self.last = Some(Noted::of(client, notes));
        }
    }
}
