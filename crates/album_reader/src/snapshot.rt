//! What was read.
ghost use Rattle.std.specs.Prelude.{◌≡◌, ◌==◌, IsTrue, IfOk, IfSome, position, option_map};
ghost use Rattle.album_stamps.specs.Distinct.{are_distinct};
ghost use Rattle.album_reader.specs.Snapshots.{items_read, version_read};

use crate::answers::ReadVersion;
use album_items::{ItemId, Items, Value};
use album_stamps::Stamp;
use indexmap::IndexSet;
use std::alloc::{AllocError, Global};
use std::marker::Model;

/// Up to so many items one is looked for from the first one on, which takes less than a hash.
const FEW: usize = 32;

/// What was read: of each item the stamp and the value, each found by one look-up, however many there
/// are. Contracts see these answers, in the order in which the items were asked.
#[derive(Debug)]
pub struct Snapshot {
    // Each answer is at the index of its item.
    items: Items,
    // The items as a set, where they are many.
    set: Option<IndexSet<ItemId>>,
    answers: Vec<ReadVersion>,
}

impl Model for Snapshot {
    ghost use Rattle.std.specs.Prelude.{◌≡◌, List, IfSome};
    ghost use Rattle.album_reader.specs.Answers.{ReadVersion as State};
    ghost use Rattle.album_reader.specs.Snapshots.{items_read};

    ghost Value = { List State };

    ghost view = { λ s. s.answers.items };

    ghost invariant = { λ s. (s.items ≡ items_read s.answers.items)
        × IfSome s.set (λ set. set.keys ≡ items_read s.answers.items) };
}

// By hand, so that what lets it go is proved here, and not again in each crate above.
impl Drop for Snapshot {
    fn drop(self) {
        let Snapshot {
            items,
            set,
            answers,
        } = self;
        drop(items);
        drop(set);
        drop(answers);
    }
}

impl Snapshot {
    /// What was read, answer by answer. `items` are those of the answers, each once.
    pub(crate) fn of(
        alloc: Global,
        items: Items,
        answers: Vec<ReadVersion>,
    ) -> Result<Snapshot, AllocError>
        requires items { items ≡ items_read answers.items }
        requires single { IsTrue (are_distinct items) }
        ensures { IfOk result (λ snapshot. snapshot ≡ answers.items) }
    {
        let set = set_of_many(alloc, items.as_slice())?;
        Ok(Snapshot {
            items,
            set,
            answers,
        })
    }

    /// The answers, in the order in which the items were asked.
    pub fn answers(&self) -> &[ReadVersion]
        ensures { result.now ≡ self.now }
    {
        self.answers.as_slice()
    }

    /// The items, in the order in which they were asked.
    pub fn items(&self) -> &[ItemId]
        ensures { result.now ≡ items_read self.now }
    {
        self.items.as_slice()
    }

    /// The stamp and the value of the item, if it was read.
    pub fn at(&self, item: ItemId) -> Option<(Stamp, &Value)>
        ensures { option_map (λ row. (row.0, row.1.now)) result ≡ version_read self.now item }
    {
        let index = self.index_of(item)?;
        let answer = &self.answers[index];
        Some((answer.stamp, answer.value.value()))
    }

    /// The index of the item, if it was read.
    fn index_of(&self, item: ItemId) -> Option<usize>
        ensures { result ≡ position (λ other. item == other) (items_read self.now) }
    {
        match &self.set {
            Some(set) => set.get_index_of(&item),
            None => index_of(self.items.as_slice(), item),
        }
    }
}

/// The items as a set, where they are many.
fn set_of_many(alloc: Global, items: &[ItemId]) -> Result<Option<IndexSet<ItemId>>, AllocError>
    requires single { IsTrue (are_distinct items.now) }
    ensures { IfOk result (λ set. IfSome set (λ some. some.keys ≡ items.now)) }
{
    if items.len() <= FEW {
        return Ok(None);
    }
    Ok(Some(items.iter().copied().collect(alloc)?))
}

/// The index of the item among the items.
pub(crate) fn index_of(items: &[ItemId], item: ItemId) -> Option<usize>
    ensures { result ≡ position (λ other. item == other) items.now }
{
    items.iter().position(|other| item.is(*other))
}
