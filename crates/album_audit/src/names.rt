//! Which book a share is of: one name for the four ledgers of a book.
ghost use Rattle.std.specs.Prelude.{◌≡◌};
ghost use Rattle.album_stamps.specs.declared.limits.TheConstants.{CLIENTS};

use album_stamps::CLIENTS;
use std::marker::{Brand, Model, PhantomData};
use std::sync::ledger::{Blank, Ledger};

/// Names the ledgers of one book. Whoever opens a book picks the names by passing `Brand`.
pub trait Books {
    ghost use Rattle.std.specs.Prelude.{ℕ};

    ghost audit_ok: { ℕ };

    ghost audit_failed: { ℕ };

    ghost alarm_ok: { ℕ };

    ghost alarm_failed: { ℕ };
}

impl Books for Brand {
    ghost audit_ok = { 0 };

    ghost audit_failed = { 0 };

    ghost alarm_ok = { 0 };

    ghost alarm_failed = { 0 };
}

/// The ledger of audits that were granted. Each ledger has a part for each client, and one that stays in the book.
pub struct AuditOk<J: Books> {
    of: PhantomData<J>,
}

impl<J: Books> Ledger for AuditOk<J> {
    ghost name = { J.audit_ok };

    ghost parts = { CLIENTS };
}

/// The ledger of audits that were refused.
pub struct AuditFailed<J: Books> {
    of: PhantomData<J>,
}

impl<J: Books> Ledger for AuditFailed<J> {
    ghost name = { J.audit_failed };

    ghost parts = { CLIENTS };
}

/// The ledger of alarms that were granted.
pub struct AlarmOk<J: Books> {
    of: PhantomData<J>,
}

impl<J: Books> Ledger for AlarmOk<J> {
    ghost name = { J.alarm_ok };

    ghost parts = { CLIENTS };
}

/// The ledger of alarms that were refused.
pub struct AlarmFailed<J: Books> {
    of: PhantomData<J>,
}

impl<J: Books> Ledger for AlarmFailed<J> {
    ghost name = { J.alarm_failed };

    ghost parts = { CLIENTS };
}

/// Four ledgers that no book has yet.
#[derive(Drop)]
pub struct Blanks {
    pub(crate) audit_ok: Blank,
    pub(crate) audit_failed: Blank,
    pub(crate) alarm_ok: Blank,
    pub(crate) alarm_failed: Blank,
    ghost audit_ok_parts: { audit_ok.parts ≡ CLIENTS },
    ghost audit_failed_parts: { audit_failed.parts ≡ CLIENTS },
    ghost alarm_ok_parts: { alarm_ok.parts ≡ CLIENTS },
    ghost alarm_failed_parts: { alarm_failed.parts ≡ CLIENTS },
}

impl Model for Blanks {
    ghost use Rattle.album_audit.specs.Books.{LedgerNames};

    ghost Value = { LedgerNames };

    ghost view = { λ b. record {
      audit_ok = b.audit_ok.name;
      audit_failed = b.audit_failed.name;
      alarm_ok = b.alarm_ok.name;
      alarm_failed = b.alarm_failed.name;
    } };
}

impl Blanks {
    /// New ledgers.
    pub fn new() -> Blanks {
        Blanks {
            audit_ok: Blank::new(CLIENTS),
            audit_failed: Blank::new(CLIENTS),
            alarm_ok: Blank::new(CLIENTS),
            alarm_failed: Blank::new(CLIENTS),
        }
    }
}
