//! The audit book: its totals, and how many shares it gives (docs/PROTOCOL.md, "The audit book").
ghost use Rattle.std.specs.Prelude.{◌≡◌};

use crate::store::item_of;
use album_access::Mask;
use album_audit::{AuditBook, Blanks, Books, Record, Share, Totals};
use album_permits::Note;
use album_stamps::{ClientNo, Refusal};
use std::alloc::Global;
use std::marker::Brand;

/// What is noted of picture/0: whether by an alarm, and whether what was asked was granted.
type Noted = (bool, bool);

/// Bo reads the picture, whose entry at index 1 audits that; then is denied its delete, which the entry at index 0
/// raises an alarm for.
const READ_AND_DENIED: [Noted; 2] = [(false, true), (true, false)];

const EACH_KIND: [Noted; 4] = [(false, true), (false, false), (true, true), (true, false)];

/// How many shares a book gives.
const MAX_SHARES: u64 = 65_535;

fn note_all<J: Books>(
    alloc: Global,
    book: &mut AuditBook<J>,
    share: &mut Share<J>,
    client: ClientNo,
    noted: &[Noted],
) -> Result<(), Refusal> {
    let notes = notes_of(alloc, noted)?;
    book.note_all(share, client, notes)
}

fn notes_of(alloc: Global, noted: &[Noted]) -> Result<Vec<Note>, Refusal> {
    let mut notes = Vec::new(alloc);
    for one in noted {
        notes.push(note_of(one)?)?;
    }
    Ok(notes)
}

/// The note of it, by the entry at index 1.
fn note_of(noted: &Noted) -> Result<Note, Refusal> {
    let (alarm, success) = *noted;
    let object = item_of("picture/0")?;
    Ok(Note {
        object,
        mask: Mask::READ_DATA,
        index: 1,
        alarm,
        success,
    })
}

/// The totals, once two sessions noted the one at once and the other one by one, and handed their shares back.
fn totals_in<J: Books>(
    alloc: Global,
    blanks: Blanks,
    one: &[Noted],
    other: &[Noted],
) -> Result<Totals, Refusal>
    requires names { blanks ≡ record {
      audit_ok = J.audit_ok;
      audit_failed = J.audit_failed;
      alarm_ok = J.alarm_ok;
      alarm_failed = J.alarm_failed;
    } }
{
    let mut book = AuditBook::<J>::new(blanks);
    session_in(alloc, &mut book, ClientNo::of(1), one)?;
    one_by_one_in(&mut book, ClientNo::of(2), other)?;
    Ok(book.totals())
}

/// One session: a share, the notes, and the share back.
fn session_in<J: Books>(
    alloc: Global,
    book: &mut AuditBook<J>,
    client: Option<ClientNo>,
    notes: &[Noted],
) -> Result<(), Refusal> {
    let client = client.ok_or(Refusal::BadRequest)?;
    let mut share = book.share()?;
    let noted = note_all(alloc, book, &mut share, client, notes);
    book.gather(share);
    noted
}

/// The same of a session that notes one after another.
fn one_by_one_in<J: Books>(
    book: &mut AuditBook<J>,
    client: Option<ClientNo>,
    notes: &[Noted],
) -> Result<(), Refusal> {
    let client = client.ok_or(Refusal::BadRequest)?;
    let mut share = book.share()?;
    let noted = note_each(book, &mut share, client, notes);
    book.gather(share);
    noted
}

fn note_each<J: Books>(
    book: &mut AuditBook<J>,
    share: &mut Share<J>,
    client: ClientNo,
    noted: &[Noted],
) -> Result<(), Refusal> {
    for one in noted {
        book.note(share, client, note_of(one)?)?;
    }
    Ok(())
}

fn totals(alloc: Global, one: &[Noted], other: &[Noted]) -> Result<Totals, Refusal> {
    totals_in::<Brand>(alloc, Blanks::new(), one, other)
}

/// Whose note it is, by the number of the client, and what is noted.
type Kept = (u16, Noted);

/// What is kept of a note before and of three after the book is asked to keep records, and then once more.
fn taken_in<J: Books>(alloc: Global, blanks: Blanks) -> Result<([Kept; 3], usize), Refusal>
    requires names { blanks ≡ record {
      audit_ok = J.audit_ok;
      audit_failed = J.audit_failed;
      alarm_ok = J.alarm_ok;
      alarm_failed = J.alarm_failed;
    } }
{
    let mut book = AuditBook::<J>::new(blanks);
    session_in(alloc, &mut book, ClientNo::of(3), &[(true, true)])?;
    book.keep(alloc);
    session_in(alloc, &mut book, ClientNo::of(1), &READ_AND_DENIED)?;
    book.keep(alloc);
    one_by_one_in(&mut book, ClientNo::of(2), &[(true, true)])?;
    let taken = book.take(alloc);
    let more = book.take(alloc).len();
    match taken.as_slice() {
        [first, second, third] => Ok(([kept(first), kept(second), kept(third)], more)),
        _ => Err(Refusal::BadRequest),
    }
}

fn kept(taken: &Record) -> Kept {
    let Record { client, note } = *taken;
    (client.number(), (note.alarm, note.success))
}

fn taken(alloc: Global) -> Result<([Kept; 3], usize), Refusal> {
    taken_in::<Brand>(alloc, Blanks::new())
}

/// What the share after so many is.
fn share_after<J: Books>(blanks: Blanks, shares: u64) -> Result<(), Refusal>
    requires names { blanks ≡ record {
      audit_ok = J.audit_ok;
      audit_failed = J.audit_failed;
      alarm_ok = J.alarm_ok;
      alarm_failed = J.alarm_failed;
    } }
{
    let mut book = AuditBook::<J>::new(blanks);
    for _ in 0..shares {
        let share = book.share()?;
        book.gather(share);
    }
    let share = book.share()?;
    book.gather(share);
    Ok(())
}

fn next_share(shares: u64) -> Result<(), Refusal> {
    share_after::<Brand>(Blanks::new(), shares)
}

#[test]
fn each_note_counts_in_its_kind(rt: HostRuntime) {
    let audited = Totals {
        audit_ok: 1,
        audit_failed: 0,
        alarm_ok: 0,
        alarm_failed: 1,
    };
    let all = Totals {
        audit_ok: 2,
        audit_failed: 1,
        alarm_ok: 1,
        alarm_failed: 2,
    };

    assert_eq!(rt; totals(rt.alloc(), &READ_AND_DENIED, &[]), Ok(audited));
    assert_eq!(rt; totals(rt.alloc(), &READ_AND_DENIED, &EACH_KIND), Ok(all));
}

#[test]
fn records_are_kept_in_order_until_they_are_taken(rt: HostRuntime) {
    let kept = [(1, (false, true)), (1, (true, false)), (2, (true, true))];
    assert_eq!(rt; taken(rt.alloc()), Ok((kept, 0)));
}

#[test]
fn a_share_for_each_client_number(rt: HostRuntime) {
    assert_eq!(rt; next_share(MAX_SHARES - 1), Ok(()));
    assert_eq!(rt; next_share(MAX_SHARES), Err(Refusal::SessionsSpent));
}
