//! All partitions of an opening.
ghost use Rattle.std.specs.Prelude.{◌≡◌, ◌<◌, true, IfOk, IsOkUnless};
ghost use Rattle.album_items.specs.Openings.{is_base_opening};
ghost use Rattle.album_partition.specs.Partition.{first_partition, first_partitions};

use crate::partition::Partition;
use album_items::{Opening, rows_placed_at};
use album_stamps::Refusal;
use std::alloc::Global;

impl Partition {
    /// All partitions of a base (which each opening that passes its check is), in the order of their numbers, each with
    /// the first values of the items that are placed at it. They are checked where the opening is.
    ///
    /// # Errors
    ///
    /// `OutOfMemory`.
    #[tactic(auto, using(crate::proofs::OpeningLemmas::one_more))]
    pub fn all_of(alloc: Global, opening: &Opening) -> Result<Vec<Partition>, Refusal>
        requires { is_base_opening opening.now ≡ true }
        ensures partitions { IfOk result (λ partitions. partitions.items
            ≡ first_partitions opening.now.checked opening.now.parts opening.now.limit opening.now.items) }
        ensures memory { IsOkUnless result Refusal.OutOfMemory }
    {
        let mut partitions = Vec::new(alloc);
        for number in 0..opening.parts as u16 {
            partitions.push(Partition::of_opening(alloc, opening, number)?)?;
        }
        Ok(partitions)
    }

    /// One of them.
    #[tactic(auto, using(crate::proofs::OpeningLemmas::may_be_opened, crate::proofs::OpeningLemmas::opened_so))]
    fn of_opening(alloc: Global, opening: &Opening, number: u16) -> Result<Partition, Refusal>
        requires opening { is_base_opening opening.now ≡ true }
        requires here { number < opening.now.parts }
        ensures partition { IfOk result (λ partition. partition
            ≡ first_partition opening.now.checked opening.now.parts opening.now.limit opening.now.items number) }
        ensures memory { IsOkUnless result Refusal.OutOfMemory }
    {
        let parts = opening.parts as u16;
        let items = rows_placed_at(alloc, number, parts, opening.items.as_slice())?;
        match Partition::new(alloc, number, parts, items, opening.limit) {
            Ok(partition) => Ok(partition.with_checks(opening.checked)),
            Err(refused) => Err(refused.refusal),
        }
    }
}
