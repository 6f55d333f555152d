//! Laws of totals.
ghost use Rattle.std.specs.Prelude.{◌≡◌, ◌+◌, ◌++◌, ◌∷◌, [], List, true, false, length};
ghost use Rattle.album_audit.specs.Totals.{totals_of, plus};
ghost use Rattle.album_audit.specs.declared.totals.Record.{Record};

/// A law: each record counts once, in the total of its kind alone; a total of two lists is the sum of their totals,
/// and all four totals together are as many as there are records.
pub fn each_record_counts_once()
    ensures nothing { totals_of [] ≡ record { audit_ok = 0; audit_failed = 0; alarm_ok = 0; alarm_failed = 0 } }
    ensures audit_granted { (of : Record) → of.note.alarm ≡ false → of.note.success ≡ true
        → totals_of (of ∷ []) ≡ record { audit_ok = 1; audit_failed = 0; alarm_ok = 0; alarm_failed = 0 } }
    ensures audit_refused { (of : Record) → of.note.alarm ≡ false → of.note.success ≡ false
        → totals_of (of ∷ []) ≡ record { audit_ok = 0; audit_failed = 1; alarm_ok = 0; alarm_failed = 0 } }
    ensures alarm_granted { (of : Record) → of.note.alarm ≡ true → of.note.success ≡ true
        → totals_of (of ∷ []) ≡ record { audit_ok = 0; audit_failed = 0; alarm_ok = 1; alarm_failed = 0 } }
    ensures alarm_refused { (of : Record) → of.note.alarm ≡ true → of.note.success ≡ false
        → totals_of (of ∷ []) ≡ record { audit_ok = 0; audit_failed = 0; alarm_ok = 0; alarm_failed = 1 } }
    ensures sum { (some more : List Record)
        → totals_of (some ++ more) ≡ plus (totals_of some) (totals_of more) }
    ensures whole { (records : List Record)
        → (totals_of records).audit_ok
        + (totals_of records).audit_failed
        + (totals_of records).alarm_ok
        + (totals_of records).alarm_failed
        ≡ length records }
{}
