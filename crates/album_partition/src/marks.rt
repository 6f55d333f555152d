//! The entries of a partition's history.
ghost use Rattle.std.specs.Prelude.{◌≡◌, Some, IfOk};
ghost use Rattle.album_partition.specs.Marks.{mark_stamp, decided, mark_writes, mark_items};

use album_items::{ItemId, ItemValues, Items, Value};
use album_stamps::Stamp;
use std::alloc::AllocError;

/// An entry of a partition's history: a log record.
#[derive(Debug, Drop)]
pub enum Mark {
    /// These writes of the stamp are kept here, and can't be read yet by all. The items are those of
    /// the whole transaction, at every partition.
    Prepared(Stamp, ItemValues, Items),
    /// The writes of the stamp can be read.
    Committed(Stamp),
    /// The writes of the stamp are let go, or never will be taken.
    Discarded(Stamp),
    /// The versions of the item below its latest stamp are no longer kept.
    Trimmed(ItemId),
}

impl Mark {
    /// The mark of a Prepare of these writes and items, which are copied. The versions share the memory
    /// of the mark's values.
    pub(crate) fn prepared(
        stamp: Stamp,
        writes: &ItemValues,
        items: &Items,
    ) -> Result<Mark, AllocError>
        ensures { IfOk result (λ mark. mark ≡ Mark.Prepared stamp writes.now items.now) }
    {
        let mut writes = clone_of(writes)?;
        if let Err(_) = writes.make_shared() {
            return Err(AllocError);
        }
        Ok(Mark::Prepared(stamp, writes, items.clone()?))
    }

    /// The same once more. It shares the memory of the values.
    ///
    /// # Errors
    ///
    /// Where memory is refused.
    pub fn copy(&self) -> Result<Mark, AllocError>
        ensures { IfOk result (λ copy. copy ≡ self.now) }
    {
        Ok(match self {
            Mark::Prepared(stamp, writes, items) => {
                Mark::Prepared(*stamp, clone_of(writes)?, items.clone()?)
            }
            Mark::Committed(stamp) => Mark::Committed(*stamp),
            Mark::Discarded(stamp) => Mark::Discarded(*stamp),
            Mark::Trimmed(item) => Mark::Trimmed(*item),
        })
    }

    /// The stamp that it is of. A trim is of none.
    pub fn stamp(&self) -> Option<Stamp>
        ensures { result ≡ mark_stamp self.now }
    {
        match self {
            Mark::Prepared(stamp, _, _) => Some(*stamp),
            Mark::Committed(stamp) => Some(*stamp),
            Mark::Discarded(stamp) => Some(*stamp),
            Mark::Trimmed(_) => None,
        }
    }

    /// What it prepares.
    pub fn writes(&self) -> &[(ItemId, Value)]
        ensures { result.now ≡ mark_writes (Some self.now) }
    {
        match self {
            Mark::Prepared(_, writes, _) => writes.as_slice(),
            Mark::Committed(_) | Mark::Discarded(_) | Mark::Trimmed(_) => &[],
        }
    }

    /// The items of the transaction that it prepares.
    pub fn items(&self) -> &[ItemId]
        ensures { result.now ≡ mark_items (Some self.now) }
    {
        match self {
            Mark::Prepared(_, _, items) => items.as_slice(),
            Mark::Committed(_) | Mark::Discarded(_) | Mark::Trimmed(_) => &[],
        }
    }
}

/// The stamp that the mark decides, if there is a mark that decides one.
pub(crate) fn decided(mark: &Option<Mark>) -> Option<Stamp>
    ensures { result ≡ decided mark.now }
{
    match mark {
        Some(Mark::Committed(stamp)) => Some(*stamp),
        Some(Mark::Discarded(stamp)) => Some(*stamp),
        Some(Mark::Prepared(_, _, _)) | Some(Mark::Trimmed(_)) | None => None,
    }
}

fn clone_of(writes: &ItemValues) -> Result<ItemValues, AllocError>
    ensures { IfOk result (λ copy. copy ≡ writes.now) }
{
    writes.clone()
}
