//! The four totals of an audit book.
ghost use Rattle.std.specs.Prelude.{◌≡◌, ◌&&◌, not, filter, length};
ghost use Rattle.album_audit.specs.Totals.{totals_by_kind};

use album_permits::Note;
use album_stamps::ClientNo;

/// A note, and the client whose ask it was taken of.
#[derive(Clone, Copy, Debug)]
pub struct Record {
    /// Whose ask it was.
    pub client: ClientNo,
    pub note: Note,
}

/// How many notes there are of each kind: of entries that audit or that alarm, by whether what was asked was
/// granted or refused.
#[derive(Clone, Copy, Debug, PartialEq, Eq)]
pub struct Totals {
    /// Of AUDIT entries, where the bits were granted.
    pub audit_ok: u64,
    /// Of AUDIT entries, where they were denied.
    pub audit_failed: u64,
    /// Of ALARM entries, where the bits were granted.
    pub alarm_ok: u64,
    /// Of ALARM entries, where they were denied.
    pub alarm_failed: u64,
}

impl Totals {
    /// How many notes there are of each kind.
    pub(crate) fn of(notes: &[Note]) -> Totals
        ensures { result ≡ totals_by_kind notes.now }
    {
        Totals {
            audit_ok: audits_granted(notes),
            audit_failed: audits_denied(notes),
            alarm_ok: alarms_granted(notes),
            alarm_failed: alarms_denied(notes),
        }
    }
}

fn audits_granted(notes: &[Note]) -> u64
    ensures { result ≡ length (filter (λ note. not note.alarm && note.success) notes.now) }
{
    notes.iter().filter(|n| !n.alarm && n.success).count() as u64
}

fn audits_denied(notes: &[Note]) -> u64
    ensures { result ≡ length (filter (λ note. not note.alarm && not note.success) notes.now) }
{
    notes.iter().filter(|n| !n.alarm && !n.success).count() as u64
}

fn alarms_granted(notes: &[Note]) -> u64
    ensures { result ≡ length (filter (λ note. note.alarm && note.success) notes.now) }
{
    notes.iter().filter(|n| n.alarm && n.success).count() as u64
}

fn alarms_denied(notes: &[Note]) -> u64
    ensures { result ≡ length (filter (λ note. note.alarm && not note.success) notes.now) }
{
    notes.iter().filter(|n| n.alarm && !n.success).count() as u64
}
