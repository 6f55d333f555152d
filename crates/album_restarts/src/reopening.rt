//! What a world opens with after a restart.
ghost use Rattle.std.specs.Prelude.{◌≡◌, List, true, IfOk, IsOkUnless};
ghost use Rattle.album_items.specs.Openings.{is_base_opening};
ghost use Rattle.album_permits.specs.declared.events.Event.{Event as Happening};
ghost use Rattle.album_world.specs.Seen.{LeadsTo};
ghost use Rattle.album_epochs.specs.Folding.{AreFolded, AreFoldedStamps};
ghost use Rattle.album_restarts.specs.Next.{IsNextOpening};
ghost use Rattle.album_restarts.specs.Worlds.{histories_of};

use album_epochs::fold;
use album_items::{FirstStamps, ItemValues, Opening};
use album_stamps::Refusal;
use album_world::World;
use std::alloc::Global;

/// The opening with which the next epoch begins, once all the world's clients and messages are lost. The world opened
/// on this opening. The counts, the policy and the root stay. Each clock begins above all of the world's clocks, and
/// the rows and their stamps are its histories, folded.
///
/// # Errors
///
/// `OutOfMemory`.
pub fn next_opening(alloc: Global, world: &World, opening: &Opening) -> Result<Opening, Refusal>
    requires { (events : List Happening) × LeadsTo opening.now events world.now }
    ensures next { IfOk result (IsNextOpening opening.now world.now.kept) }
    ensures base { IfOk result (λ next. is_base_opening next ≡ true) }
    ensures memory { IsOkUnless result Refusal.OutOfMemory }
{
    let root = opening.root.clone()?;
    let (items, stamps) = next_rows(alloc, world, opening)?;
    Ok(Opening {
        parts: opening.parts,
        limit: opening.limit,
        policy: opening.policy,
        checked: opening.checked,
        root,
        first: opening.first.max(world.highest_counter()),
        items,
        stamps,
    })
}

/// The world's histories, folded.
///
/// # Errors
///
/// `OutOfMemory`.
fn next_rows(
    alloc: Global,
    world: &World,
    opening: &Opening,
) -> Result<(ItemValues, FirstStamps), Refusal>
    requires { (events : List Happening) × LeadsTo opening.now events world.now }
    ensures folded { IfOk result (λ fold. AreFolded opening.now.items (histories_of world.now.kept.partitions) fold.0) }
    ensures stamped { IfOk result (λ fold. AreFoldedStamps opening.now.stamps opening.now.items
        (histories_of world.now.kept.partitions) fold.1) }
    ensures memory { IsOkUnless result Refusal.OutOfMemory }
{
    let mut histories = Vec::new(alloc);
    for number in 0..opening.parts as u16 {
        match world.partition(number) {
            Some(partition) => histories.push(partition.history())?,
            None => {}
        }
    }
    fold(alloc, opening.items.as_slice(), &opening.stamps, &histories)
}
