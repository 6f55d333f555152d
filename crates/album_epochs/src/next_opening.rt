//! The opening with which the next epoch begins.
ghost use Rattle.std.specs.Prelude.{◌≡◌, ◌≤◌, ◌⊎◌, ◌+◌, length, map, max, IfOk, IfErr, Err};
ghost use Rattle.album_stamps.specs.declared.limits.TheConstants.{MAX_COUNTER, MAX_PARTS};
ghost use Rattle.album_epochs.specs.Folding.{histories_lent};
ghost use Rattle.album_epochs.specs.Next.{IsOpeningAfter};

use crate::folds::fold;
use album_items::Opening;
use album_partition::Mark;
use album_stamps::{MAX_COUNTER, Refusal};
use std::alloc::{AllocError, Global};

/// Above the counters that an epoch shows, the next one leaves out so many: those whose stamps were drawn, and that no
/// partition has a mark of.
pub const MARGIN: u64 = 1 << 24;

/// The opening with which the next epoch begins, after one that opened on this, and whose partitions have made these
/// histories. The counts, the policy and the root stay. Clocks begin above the counter, and above those of the epochs
/// before. The rows and their stamps are the histories, folded.
///
/// # Errors
///
/// `StampsSpent`, where no counter is left; else `OutOfMemory`.
pub fn opening_after(
    alloc: Global,
    opening: &Opening,
    counter: u64,
    histories: &[&[Mark]],
) -> Result<Opening, Refusal>
    requires some { 1 ≤ length histories.now }
    requires few { length histories.now ≤ MAX_PARTS }
    ensures next { IfOk result (IsOpeningAfter counter opening.now (histories_lent histories.now)) }
    ensures spent { MAX_COUNTER ≤ max counter opening.now.first + MARGIN → result ≡ Err Refusal.StampsSpent }
    ensures refused { IfErr result (λ e. (e ≡ Refusal.OutOfMemory)
        ⊎ (MAX_COUNTER ≤ max counter opening.now.first + MARGIN)) }
{
    let before = counter.max(opening.first);
    if before >= MAX_COUNTER - MARGIN {
        return Err(Refusal::StampsSpent);
    }
    let root = opening.root.clone()?;
    let (items, stamps) = fold(alloc, opening.items.as_slice(), &opening.stamps, histories)?;
    Ok(Opening {
        parts: opening.parts,
        limit: opening.limit,
        policy: opening.policy,
        checked: opening.checked,
        root,
        first: before + MARGIN,
        items,
        stamps,
    })
}

/// These histories, lent.
///
/// # Errors
///
/// `AllocError`.
pub fn lend(alloc: Global, histories: &[Vec<Mark>]) -> Result<Vec<&[Mark]>, AllocError>
    ensures { IfOk result (λ lent. histories_lent lent.items ≡ map (λ marks. marks.items) histories.now) }
{
    let mut lent = Vec::new(alloc);
    for marks in histories {
        lent.push(marks.as_slice())?;
    }
    Ok(lent)
}
