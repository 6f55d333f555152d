//! Laws of notes: what they say, and how they go with the ruling.
ghost use Rattle.std.specs.Prelude.{◌≡◌, ◌∷◌, ℕ, List, Bool, Contains, Some, false};
ghost use Rattle.album_eval.specs.Audit.{audited};
ghost use Rattle.album_items.specs.Values.{head_of};
ghost use Rattle.album_items.specs.declared.values.Head.{Head};
ghost use Rattle.album_listing.specs.Basis.{Basis};
ghost use Rattle.album_listing.specs.Reasons.{on, case_on, entries_on, is_granted_on};
ghost use Rattle.album_listing.specs.declared.reasons.Alternative.{Alternative};
ghost use Rattle.album_listing.specs.declared.reasons.Reason.{Reason};
ghost use Rattle.album_views.specs.declared.asks.Ask.{Ask};
ghost use Rattle.album_permits.specs.Findings.{ruling_of};
ghost use Rattle.album_permits.specs.Needs.{needs_of};
ghost use Rattle.album_permits.specs.Notes.{is_alarm_at, notes_of};
ghost use Rattle.album_permits.specs.Noting.{IsNeeded, IsSpared};
ghost use Rattle.album_permits.specs.declared.findings.Finding.TheVariants.{Granted, Denied};
ghost use Rattle.album_permits.specs.declared.notes.Note.{Note};

/// A law: each note is of something that the ask needs, and says success exactly where that is granted.
pub fn notes_say_the_verdict()
    ensures verdict { (basis : Basis) (ask : Ask) (note : Note) → Contains (notes_of basis ask) note
        → note.success ≡ is_granted_on basis note.object note.mask }
    ensures needed { (basis : Basis) (ask : Ask) (note : Note) → Contains (notes_of basis ask) note
        → IsNeeded (needs_of basis.seen ask) (on note.object note.mask) }
{}

/// A law: notes go with the ruling. A note of a denial's reason says no success, and where a note of a granted ask
/// says none, something else is granted that is needed in the place of what it is of.
pub fn notes_go_with_the_ruling()
    ensures denied { (basis : Basis) (ask : Ask) (reasons : List Reason) (reason : Reason) (note : Note)
        → ruling_of basis ask ≡ Denied reasons → Contains reasons reason → Contains (notes_of basis ask) note
        → on note.object note.mask ≡ on reason.object reason.mask → note.success ≡ false }
    ensures granted { (basis : Basis) (ask : Ask) (note : Note)
        → ruling_of basis ask ≡ Granted → Contains (notes_of basis ask) note → note.success ≡ false
        → IsSpared basis (needs_of basis.seen ask) (on note.object note.mask) }
{}

/// A law: no note is left out. Each entry that takes note of a denial's reason has its note, and each that takes
/// note of the first alternative of a need of a granted ask.
pub fn what_takes_note_is_noted()
    ensures denied { (basis : Basis) (ask : Ask) (reasons : List Reason) (reason : Reason) (head : Head) (index : ℕ)
        → ruling_of basis ask ≡ Denied reasons → Contains reasons reason
        → head_of (basis.seen reason.object) ≡ Some head
        → Contains (audited (case_on basis head) reason.mask false (entries_on basis head)) index
        → Contains (notes_of basis ask) (record {
          object = reason.object;
          mask = reason.mask;
          index = index;
          alarm = is_alarm_at (entries_on basis head) index;
          success = false;
        }) }
    ensures granted { (basis : Basis) (ask : Ask) (first : Alternative) (more : List Alternative) (head : Head)
        (index : ℕ) (success : Bool)
        → ruling_of basis ask ≡ Granted → Contains (needs_of basis.seen ask) (first ∷ more)
        → is_granted_on basis first.object first.mask ≡ success
        → head_of (basis.seen first.object) ≡ Some head
        → Contains (audited (case_on basis head) first.mask success (entries_on basis head)) index
        → Contains (notes_of basis ask) (record {
          object = first.object;
          mask = first.mask;
          index = index;
          alarm = is_alarm_at (entries_on basis head) index;
          success = success;
        }) }
{}
