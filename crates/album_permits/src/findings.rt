//! What is found of the needs of an ask.
ghost use Rattle.std.specs.Prelude.{◌≡◌, ◌++◌, IfOk, OnOk, IsOkUnless, is_none};
ghost use Rattle.album_listing.specs.RulingContexts.{basis_of};
ghost use Rattle.album_permits.specs.Findings.{is_missing, missing_in, reasons_of, is_met, need_found, needs_found, ruling_of};
ghost use Rattle.album_permits.specs.Notes.{need_notes, needs_noted, notes_of};

use crate::needs::{Need, needs};
use crate::notes::{Note, notes_of};
use album_items::ItemId;
use album_listing::{Alternative, Reason, RulingContext};
use album_stamps::Refusal;
use album_views::Ask;
use std::alloc::{AllocError, Global};
use std::marker::Model;

/// What is said of each alternative of a need that fails. Contracts see it in order.
#[derive(Debug, Drop)]
pub struct Denial {
    reasons: Vec<Reason>,
}

impl Model for Denial {
    ghost use Rattle.std.specs.Prelude.{List};
    ghost use Rattle.album_listing.specs.declared.reasons.Reason.{Reason};

    ghost Value = { List Reason };

    ghost view = { λ d. d.reasons.items };
}

impl Denial {
    /// The reasons, in order.
    pub fn as_slice(&self) -> &[Reason]
        ensures { result.now ≡ self.now }
    {
        self.reasons.as_slice()
    }
}

/// What is found of needs.
#[derive(Debug, Drop)]
pub enum Finding {
    Granted,
    /// None of the alternatives of a need is granted.
    Denied(Denial),
    /// This object of a need is not there.
    Missing(ItemId),
}

/// What is found of needs, and what is noted of it.
#[derive(Debug, Drop)]
pub(crate) struct Found {
    pub(crate) finding: Finding,
    pub(crate) notes: Vec<Note>,
}

/// What is found of the ask.
pub(crate) fn find_of(alloc: Global, context: &RulingContext, ask: &Ask) -> Result<Found, Refusal>
    ensures finding { IfOk result (λ found. found.finding ≡ ruling_of (basis_of context.now) ask.now) }
    ensures notes { IfOk result (λ found. found.notes.items ≡ notes_of (basis_of context.now) ask.now) }
    ensures memory { IsOkUnless result Refusal.OutOfMemory }
{
    let needs = needs(alloc, context.lookup(), ask)?;
    let found = find_all(alloc, context, needs.as_slice())?;
    Ok(found)
}

/// What is found of the needs: the first that fails decides.
fn find_all(alloc: Global, context: &RulingContext, needs: &[Need]) -> Result<Found, Refusal>
    ensures finding { IfOk result (λ found. found.finding ≡ needs_found (basis_of context.now) needs.now) }
    ensures notes { IfOk result (λ found. found.notes.items ≡ needs_noted (basis_of context.now) needs.now) }
    ensures memory { IsOkUnless result Refusal.OutOfMemory }
{
    let mut notes = Vec::new(alloc);
    for need in needs {
        let finding = add_found(alloc, &mut notes, context, need.as_slice())?;
        match finding {
            Finding::Granted => {}
            Finding::Denied(_) | Finding::Missing(_) => return Ok(Found { finding, notes }),
        }
    }
    Ok(Found {
        finding: Finding::Granted,
        notes,
    })
}

/// What is found of one need, whose notes are added.
fn add_found(
    alloc: Global,
    notes: &mut Vec<Note>,
    context: &RulingContext,
    need: &[Alternative],
) -> Result<Finding, Refusal>
    ensures finding { IfOk result (λ finding. finding ≡ need_found (basis_of context.now) need.now) }
    ensures notes { OnOk result (notes.new.items ≡ notes.old.items ++ need_notes (basis_of context.now) need.now) }
    ensures memory { IsOkUnless result Refusal.OutOfMemory }
{
    let found = find_one(alloc, context, need)?;
    notes.extend_from_slice(found.notes.as_slice())?;
    Ok(found.finding)
}

/// What is found of one need.
fn find_one(alloc: Global, context: &RulingContext, need: &[Alternative]) -> Result<Found, Refusal>
    ensures finding { IfOk result (λ found. found.finding ≡ need_found (basis_of context.now) need.now) }
    ensures notes { IfOk result (λ found. found.notes.items ≡ need_notes (basis_of context.now) need.now) }
    ensures memory { IsOkUnless result Refusal.OutOfMemory }
{
    if let Some(object) = missing_in(context, need) {
        return Ok(Found {
            finding: Finding::Missing(object),
            notes: Vec::new(alloc),
        });
    }
    let reasons = reasons_of(alloc, context, need)?;
    let notes = notes_of(alloc, context, reasons.as_slice())?;
    if is_met(reasons.as_slice()) {
        return Ok(Found {
            finding: Finding::Granted,
            notes,
        });
    }
    Ok(Found {
        finding: Finding::Denied(Denial { reasons }),
        notes,
    })
}

/// The first object of the need that is not there.
fn missing_in(context: &RulingContext, need: &[Alternative]) -> Option<ItemId>
    ensures { result ≡ missing_in (basis_of context.now) need.now }
{
    need.iter()
        .map(|alternative| alternative.object)
        .find(|object| is_missing(context, *object))
}

/// Whether the object is not there.
fn is_missing(context: &RulingContext, object: ItemId) -> bool
    ensures { result ≡ is_missing (basis_of context.now) object }
{
    context.lookup().value(object).head().is_none()
}

/// What is said of each alternative whose object is there.
fn reasons_of(
    alloc: Global,
    context: &RulingContext,
    need: &[Alternative],
) -> Result<Vec<Reason>, AllocError>
    ensures { IfOk result (λ reasons. reasons.items ≡ reasons_of (basis_of context.now) need.now) }
{
    let mut reasons = Vec::new(alloc);
    for alternative in need {
        if let Some(reason) = context.reason(*alternative) {
            reasons.push(reason)?;
        }
    }
    Ok(reasons)
}

/// Whether one of the alternatives is granted.
fn is_met(reasons: &[Reason]) -> bool
    ensures { result ≡ is_met reasons.now }
{
    reasons.iter().any(|reason| reason.is_grant())
}
