//! The audit book.
ghost use Rattle.std.specs.Prelude.{◌≡◌, ◌≤◌, ◌⊎◌, ◌+◌, ◌++◌, ◌∷◌, [], option_map, true, false, Some, IsSome, IfOk, IfErr, OnOk, OnErr, IsOkUnless};
ghost use Rattle.album_stamps.specs.declared.limits.TheConstants.{CLIENTS};
ghost use Rattle.album_audit.specs.Totals.{totals_of, records_of, plus};
ghost use Rattle.album_audit.specs.Books.{is_past_end, new_book, book_with, kept_records, none_kept, new_share, share_with};

use crate::names::{AlarmFailed, AlarmOk, AuditFailed, AuditOk, Blanks, Books};
use crate::share::Share;
use crate::tally::Tally;
use crate::totals::{Record, Totals};
use album_permits::Note;
use album_stamps::{CLIENTS, ClientNo, Refusal};
use std::alloc::{AllocError, Global};
use std::marker::Model;
use std::mem;

/// How much was noted, and the shares of it that sessions have. Contracts see the totals, how many shares were given,
/// how many of them aren't gathered, what the gathered ones had, and the records that are kept. Where none are, a book
/// takes no more memory however much is noted.
pub struct AuditBook<J: Books> {
    given: u64,
    out: u64,
    /// The records that aren't taken yet, in order, where records are kept.
    kept: Option<Vec<Record>>,
    audit_ok: Tally<AuditOk<J>>,
    audit_failed: Tally<AuditFailed<J>>,
    alarm_ok: Tally<AlarmOk<J>>,
    alarm_failed: Tally<AlarmFailed<J>>,
}

impl<J: Books> Model for AuditBook<J> {
    ghost use Rattle.std.specs.Prelude.{◌≡◌, option_map};
    ghost use Rattle.album_audit.specs.Books.{BookState, IsBook, AreLent};

    ghost Value = { BookState };

    ghost view = { λ b. record {
      totals = record {
        audit_ok = b.audit_ok.total;
        audit_failed = b.audit_failed.total;
        alarm_ok = b.alarm_ok.total;
        alarm_failed = b.alarm_failed.total;
      };
      given = b.given;
      out = b.out;
      kept = option_map (λ kept. kept.items) b.kept;
      gathered = record {
        audit_ok = b.audit_ok.rest.amount;
        audit_failed = b.audit_failed.rest.amount;
        alarm_ok = b.alarm_ok.rest.amount;
        alarm_failed = b.alarm_failed.rest.amount;
      };
    } };

    ghost invariant = { λ b. IsBook (record {
      totals = record {
        audit_ok = b.audit_ok.total;
        audit_failed = b.audit_failed.total;
        alarm_ok = b.alarm_ok.total;
        alarm_failed = b.alarm_failed.total;
      };
      given = b.given;
      out = b.out;
      kept = option_map (λ kept. kept.items) b.kept;
      gathered = record {
        audit_ok = b.audit_ok.rest.amount;
        audit_failed = b.audit_failed.rest.amount;
        alarm_ok = b.alarm_ok.rest.amount;
        alarm_failed = b.alarm_failed.rest.amount;
      };
    })
        × AreLent b.out (record {
          audit_ok = b.audit_ok.rest.parts;
          audit_failed = b.audit_failed.rest.parts;
          alarm_ok = b.alarm_ok.rest.parts;
          alarm_failed = b.alarm_failed.rest.parts;
        }) };
}

// By hand, so that what lets it go is proved here, and not again in each crate above.
impl<J: Books> Drop for AuditBook<J> {
    fn drop(self) {
        let AuditBook {
            given: _,
            out: _,
            kept,
            audit_ok,
            audit_failed,
            alarm_ok,
            alarm_failed,
        } = self;
        drop(kept);
        drop(audit_ok);
        drop(audit_failed);
        drop(alarm_ok);
        drop(alarm_failed);
    }
}

impl<J: Books> AuditBook<J> {
    /// A book in which nothing is noted, over the ledgers that `J` names.
    pub fn new(blanks: Blanks) -> AuditBook<J>
        requires names { blanks ≡ record {
          audit_ok = J.audit_ok;
          audit_failed = J.audit_failed;
          alarm_ok = J.alarm_ok;
          alarm_failed = J.alarm_failed;
        } }
        ensures { result ≡ new_book }
    {
        let Blanks {
            audit_ok,
            audit_failed,
            alarm_ok,
            alarm_failed,
        } = blanks;
        AuditBook {
            given: 0,
            out: 0,
            kept: None,
            audit_ok: Tally::open(audit_ok),
            audit_failed: Tally::open(audit_failed),
            alarm_ok: Tally::open(alarm_ok),
            alarm_failed: Tally::open(alarm_failed),
        }
    }

    /// A share for a session, in which nothing counts yet.
    ///
    /// # Errors
    ///
    /// `SessionsSpent` exactly where a share was given for each client number; the book stays as it is.
    pub fn share(&mut self) -> Result<Share<J>, Refusal>
        ensures share { IfOk result (λ share. share ≡ new_share) }
        ensures given { OnOk result (self.new ≡ record self.old {
          given = self.old.given + 1;
          out = self.old.out + 1;
        }) }
        ensures spent { IfErr result (λ e. (e ≡ Refusal.SessionsSpent) × (CLIENTS ≤ self.old.given + 1)) }
        ensures unchanged { OnErr result (self.new ≡ self.old) }
    {
        if self.given + 1 >= CLIENTS {
            return Err(Refusal::SessionsSpent);
        }
        self.given += 1;
        self.out += 1;
        Ok(Share {
            audit_ok: self.audit_ok.lend(),
            audit_failed: self.audit_failed.lend(),
            alarm_ok: self.alarm_ok.lend(),
            alarm_failed: self.alarm_failed.lend(),
            last: None,
        })
    }

    /// Counts one note, in the book and in the share. Where records are kept, its record is too, after those before it.
    ///
    /// # Errors
    ///
    /// As `note_all`.
    pub fn note(
        &mut self,
        share: &mut Share<J>,
        client: ClientNo,
        note: Note,
    ) -> Result<(), Refusal>
        ensures book { OnOk result (self.new ≡ book_with self.old (record { client = client; note = note } ∷ [])) }
        ensures totals { OnOk result
            (share.new.totals ≡ plus share.old.totals (totals_of (record { client = client; note = note } ∷ []))) }
        ensures last { share.new.last ≡ share.old.last }
        ensures memory { IsOkUnless result Refusal.OutOfMemory }
        ensures end { OnErr result
            ((is_past_end (plus self.old.totals (totals_of (record { client = client; note = note } ∷ []))) ≡ true)
            ⊎ IsSome self.old.kept) }
        ensures counted { OnOk result
            (is_past_end (plus self.old.totals (totals_of (record { client = client; note = note } ∷ []))) ≡ false) }
        ensures unchanged { OnErr result ((self.new ≡ self.old) × (share.new ≡ share.old)) }
    {
        self.count(share, client, &[note])
    }

    /// Counts the notes of a client, in the book and in the share, and the share knows them as the last ones. Where
    /// records are kept, theirs are too, together and in order, after those before them.
    ///
    /// # Errors
    ///
    /// `OutOfMemory` where a total would come to the end of its numbers, after 2^64 - 1 notes of one kind, or where
    /// records are kept and there is no memory for these. The book and the share stay as they are then.
    pub fn note_all(
        &mut self,
        share: &mut Share<J>,
        client: ClientNo,
        notes: Vec<Note>,
    ) -> Result<(), Refusal>
        ensures book { OnOk result (self.new ≡ book_with self.old (records_of client notes.items)) }
        ensures share { OnOk result (share.new ≡ share_with share.old (records_of client notes.items)) }
        ensures memory { IsOkUnless result Refusal.OutOfMemory }
        ensures end { OnErr result
            ((is_past_end (plus self.old.totals (totals_of (records_of client notes.items))) ≡ true)
            ⊎ IsSome self.old.kept) }
        ensures counted { OnOk result
            (is_past_end (plus self.old.totals (totals_of (records_of client notes.items))) ≡ false) }
        ensures unchanged { OnErr result ((self.new ≡ self.old) × (share.new ≡ share.old)) }
    {
        self.count(share, client, &notes)?;
        share.keep_last(client, notes);
        Ok(())
    }

    /// Counts the notes. The share does not know them as the last ones yet.
    #[tactic(auto, using(crate::proofs::Counting::totals_of_notes))]
    fn count(
        &mut self,
        share: &mut Share<J>,
        client: ClientNo,
        notes: &[Note],
    ) -> Result<(), Refusal>
        ensures book { OnOk result (self.new ≡ book_with self.old (records_of client notes.now)) }
        ensures totals { OnOk result
            (share.new.totals ≡ plus share.old.totals (totals_of (records_of client notes.now))) }
        ensures last { share.new.last ≡ share.old.last }
        ensures memory { IsOkUnless result Refusal.OutOfMemory }
        ensures end { OnErr result
            ((is_past_end (plus self.old.totals (totals_of (records_of client notes.now))) ≡ true)
            ⊎ IsSome self.old.kept) }
        ensures counted { OnOk result
            (is_past_end (plus self.old.totals (totals_of (records_of client notes.now))) ≡ false) }
        ensures unchanged { OnErr result ((self.new ≡ self.old) × (share.new ≡ share.old)) }
    {
        let more = Totals::of(notes);
        if self.is_past_end_with(more) {
            return Err(Refusal::OutOfMemory);
        }
        self.keep_records(client, notes)?;
        self.add(share, more);
        Ok(())
    }

    /// Keeps the records of the notes, after those before them, where records are kept.
    fn keep_records(&mut self, client: ClientNo, notes: &[Note]) -> Result<(), AllocError>
        ensures kept { OnOk result (self.new ≡ record self.old {
          kept = option_map (λ before. before ++ records_of client notes.now) self.old.kept;
        }) }
        ensures are_kept { OnErr result (IsSome self.old.kept) }
        ensures unchanged { OnErr result (self.new ≡ self.old) }
    {
        if let Some(kept) = &mut self.kept {
            kept.extend_from_slice(&records_of(*kept.allocator(), client, notes)?)?;
        }
        Ok(())
    }

    /// Counts so many more, in the book and in the share.
    fn add(&mut self, share: &mut Share<J>, more: Totals)
        requires fits { is_past_end (plus self.old.totals more) ≡ false }
        ensures book { self.new ≡ record self.old { totals = plus self.old.totals more } }
        ensures share { share.new ≡ record share.old { totals = plus share.old.totals more } }
    {
        self.audit_ok.add(&mut share.audit_ok, more.audit_ok);
        self.audit_failed
            .add(&mut share.audit_failed, more.audit_failed);
        self.alarm_ok.add(&mut share.alarm_ok, more.alarm_ok);
        self.alarm_failed
            .add(&mut share.alarm_failed, more.alarm_failed);
    }

    /// Whether a total would come to the end of its numbers with so many more.
    fn is_past_end_with(&self, more: Totals) -> bool
        ensures { result ≡ is_past_end (plus self.now.totals more) }
    {
        more.audit_ok > u64::MAX - self.audit_ok.total
            || more.audit_failed > u64::MAX - self.audit_failed.total
            || more.alarm_ok > u64::MAX - self.alarm_ok.total
            || more.alarm_failed > u64::MAX - self.alarm_failed.total
    }

    /// How many notes there are of each kind.
    pub fn totals(&self) -> Totals
        ensures totals { result ≡ self.now.totals }
        ensures settled { self.now.out ≡ 0 → result ≡ self.now.gathered }
    {
        Totals {
            audit_ok: self.audit_ok.total,
            audit_failed: self.audit_failed.total,
            alarm_ok: self.alarm_ok.total,
            alarm_failed: self.alarm_failed.total,
        }
    }

    /// Keeps the record of each note from now on, until they are taken.
    pub fn keep(&mut self, alloc: Global)
        ensures { self.new ≡ record self.old { kept = Some (kept_records self.old.kept) } }
    {
        if self.kept.is_none() {
            self.kept = Some(Vec::new(alloc));
        }
    }

    /// The records that are kept, in the order in which they were noted. None of them is kept any longer.
    pub fn take(&mut self, alloc: Global) -> Vec<Record>
        ensures records { result.items ≡ kept_records self.old.kept }
        ensures taken { self.new ≡ record self.old { kept = none_kept self.old.kept } }
    {
        match &mut self.kept {
            None => Vec::new(alloc),
            Some(kept) => mem::replace(kept, Vec::new(alloc)),
        }
    }

    /// Takes a share back, which is spent by it.
    pub fn gather(&mut self, share: Share<J>)
        ensures totals { self.new.totals ≡ self.old.totals }
        ensures given { self.new.given ≡ self.old.given }
        ensures out { self.new.out + 1 ≡ self.old.out }
        ensures gathered { self.new.gathered ≡ plus self.old.gathered share.totals }
        ensures kept { self.new.kept ≡ self.old.kept }
    {
        let Share {
            audit_ok,
            audit_failed,
            alarm_ok,
            alarm_failed,
            last: _,
        } = share;
        self.audit_ok.gather(audit_ok);
        self.audit_failed.gather(audit_failed);
        self.alarm_ok.gather(alarm_ok);
        self.alarm_failed.gather(alarm_failed);
        self.out -= 1;
    }
}

/// The records of a client's notes.
fn records_of(alloc: Global, client: ClientNo, notes: &[Note]) -> Result<Vec<Record>, AllocError>
    ensures { IfOk result (λ records. records.items ≡ records_of client notes.now) }
{
    let mut records = Vec::with_capacity(alloc, notes.len())?;
    for note in notes {
        records.push(Record {
            client,
            note: *note,
        })?;
    }
    Ok(records)
}
