//! What is noted as an ask is ruled on.
ghost use Rattle.std.specs.Prelude.{◌≡◌, ◌++◌, map, position, IfOk, OnOk, IsOkUnless};
ghost use Rattle.std.specs.List.{flat_map};
ghost use Rattle.album_listing.specs.RulingContexts.{basis_of};
ghost use Rattle.album_listing.specs.Reasons.{is_grant};
ghost use Rattle.album_permits.specs.Notes.{is_alarm_at, note_by, notes_for, checked};

use album_access::{AceType, Mask};
use album_eval::audits;
use album_items::ItemId;
use album_listing::{Reason, RulingContext};
use album_lists::Ace;
use album_stamps::Refusal;
use std::alloc::{AllocError, Global};

/// The note of an AUDIT or ALARM entry: the object whose list has the entry, what was asked of the
/// object, and whether that was granted. It also says the entry's index, and whether the entry is an
/// alarm.
#[derive(Clone, Copy, Debug)]
pub struct Note {
    pub object: ItemId,
    /// The bits that were asked of the object.
    pub mask: Mask,
    /// The index of the entry in the object's list, from 0.
    pub index: usize,
    /// Whether the entry is an ALARM one; else it is an AUDIT one.
    pub alarm: bool,
    /// Whether the bits were granted.
    pub success: bool,
}

/// The notes of the alternatives of a need that are checked, by what is said of them.
pub(crate) fn notes_of(
    alloc: Global,
    context: &RulingContext,
    reasons: &[Reason],
) -> Result<Vec<Note>, Refusal>
    ensures notes { IfOk result (λ notes.
        notes.items ≡ flat_map (notes_for (basis_of context.now)) (checked reasons.now)) }
    ensures memory { IsOkUnless result Refusal.OutOfMemory }
{
    let mut notes = Vec::new(alloc);
    for reason in checked(reasons) {
        add_notes(alloc, &mut notes, context, *reason)?;
    }
    Ok(notes)
}

/// The alternatives up to the first that is granted.
fn checked(reasons: &[Reason]) -> &[Reason]
    ensures { result.now ≡ checked reasons.now }
{
    match first_grant(reasons) {
        Some(index) => &reasons[..index + 1],
        None => reasons,
    }
}

/// The index of the first that is granted.
fn first_grant(reasons: &[Reason]) -> Option<usize>
    ensures { result ≡ position (λ reason. is_grant reason.verdict) reasons.now }
{
    reasons.iter().position(|reason| reason.is_grant())
}

/// Adds the notes of one alternative.
fn add_notes(
    alloc: Global,
    notes: &mut Vec<Note>,
    context: &RulingContext,
    reason: Reason,
) -> Result<(), Refusal>
    ensures notes { OnOk result (notes.new.items ≡ notes.old.items ++ notes_for (basis_of context.now) reason) }
    ensures memory { IsOkUnless result Refusal.OutOfMemory }
{
    let Some(head) = context.lookup().value(reason.object).head() else {
        return Ok(());
    };
    let list = context.lookup().list(head.list);
    let facts = context.facts(head);
    let indexes = audits(alloc, list, &facts, reason.mask, reason.is_grant())?;
    let more = notes_at(alloc, reason, list.entries(), indexes.as_slice())?;
    notes.extend_from_slice(more.as_slice())?;
    Ok(())
}

/// The notes of the entries at these indexes.
fn notes_at(
    alloc: Global,
    reason: Reason,
    entries: &[Ace],
    indexes: &[usize],
) -> Result<Vec<Note>, AllocError>
    ensures { IfOk result (λ notes. notes.items ≡ map (note_by reason entries.now) indexes.now) }
{
    indexes
        .iter()
        .map(|index| note_by(reason, entries, *index))
        .collect(alloc)
}

/// The entry at the index takes note.
fn note_by(reason: Reason, entries: &[Ace], index: usize) -> Note
    ensures { result ≡ note_by reason entries.now index }
{
    Note {
        object: reason.object,
        mask: reason.mask,
        index,
        alarm: is_alarm_at(entries, index),
        success: reason.is_grant(),
    }
}

/// Whether the entry at the index is an alarm.
fn is_alarm_at(entries: &[Ace], index: usize) -> bool
    ensures { result ≡ is_alarm_at entries.now index }
{
    match entries.get(index) {
        Some(entry) => matches!(entry.sort, AceType::Alarm),
        None => false,
    }
}
