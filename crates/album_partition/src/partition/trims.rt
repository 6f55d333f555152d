//! What a trim does at a partition, decided before anything is kept.
ghost use Rattle.std.specs.Prelude.{◌≡◌};
ghost use Rattle.album_partition.specs.Partition.{IsPartition};
ghost use Rattle.album_partition.specs.Trims.{on_trim};

use crate::marks::Mark;
use crate::partition::Partition;
use crate::partition::answers::Action;
use album_items::ItemId;
use album_stamps::Refusal;

impl Partition {
    /// What a trim of the item does: it makes a mark where the item's floor is below its latest stamp, if there is
    /// room for it.
    ///
    /// # Errors
    ///
    /// `Clash` where the item is placed elsewhere. Else `Full` where a mark is to be made and there is no room.
    pub(super) fn on_trim(&self, item: ItemId) -> Result<Action, Refusal>
        ensures action { result ≡ on_trim self.now item }
        ensures partition { IsPartition self.now }
    {
        if !self.seat.has(item) {
            return Err(Refusal::Clash);
        }
        if self.stored.floor(item) == self.stored.latest(item) {
            return Ok(Action::nothing());
        }
        if self.is_full() {
            return Err(Refusal::Full);
        }
        Ok(Action::marks(Mark::Trimmed(item)))
    }
}
