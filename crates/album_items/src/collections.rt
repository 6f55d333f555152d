//! Lists inside values: items, members of groups, and items with their values.
ghost use Rattle.std.specs.Prelude.{◌≡◌, IsOkUnless};

use crate::item_ids::ItemId;
use crate::values::Value;
use album_lists::{Member, SharedList};
use album_stamps::Refusal;
use std::alloc::AllocError;
use std::marker::Model;

/// Items, as the children of an album. Contracts see them in order.
#[derive(Debug)]
pub struct Items {
    items: SharedList<ItemId>,
}

impl Model for Items {
    ghost use Rattle.std.specs.Prelude.{List, ℕ};

    ghost Value = { List ℕ };

    ghost view = { λ a. a.items };
}

// By hand, so that what lets it go is proved here, and not again in each crate above.
impl Drop for Items {
    fn drop(self) {
        let Items { items } = self;
        drop(items);
    }
}

// By hand, since the search doesn't find a derived clone of what holds items equal.
impl Clone for Items {
    ghost is_clone = { λ items copy. copy ≡ items };

    fn clone(&self) -> Result<Items, AllocError> {
        let items = self.items.clone()?;
        Ok(Items { items })
    }
}

impl Items {
    /// These items.
    pub fn of(items: Vec<ItemId>) -> Items
        ensures { result ≡ items.items }
    {
        Items {
            items: SharedList::of(items),
        }
    }

    /// The items, in order.
    pub fn as_slice(&self) -> &[ItemId]
        ensures { result.now ≡ self.now }
    {
        self.items.as_slice()
    }

    /// Lets the copies that are made from now on share the items.
    ///
    /// # Errors
    ///
    /// `OutOfMemory`. The items stay what they are.
    pub fn make_shared(&mut self) -> Result<(), Refusal>
        ensures same { self.new ≡ self.old }
        ensures memory { IsOkUnless result Refusal.OutOfMemory }
    {
        Ok(self.items.make_shared()?)
    }
}

/// The members of a group. Contracts see them in order.
#[derive(Debug)]
pub struct Members {
    members: SharedList<Member>,
}

impl Model for Members {
    ghost use Rattle.std.specs.Prelude.{List};
    ghost use Rattle.album_lists.specs.declared.whos.Member.{Member};

    ghost Value = { List Member };

    ghost view = { λ m. m.members };
}

// By hand, so that what lets it go is proved here, and not again in each crate above.
impl Drop for Members {
    fn drop(self) {
        let Members { members } = self;
        drop(members);
    }
}

// By hand, since the search doesn't find a derived clone of what holds members equal.
impl Clone for Members {
    ghost is_clone = { λ members copy. copy ≡ members };

    fn clone(&self) -> Result<Members, AllocError> {
        let members = self.members.clone()?;
        Ok(Members { members })
    }
}

impl Members {
    /// These members.
    pub fn of(members: Vec<Member>) -> Members
        ensures { result ≡ members.items }
    {
        Members {
            members: SharedList::of(members),
        }
    }

    /// The members, in order.
    pub fn as_slice(&self) -> &[Member]
        ensures { result.now ≡ self.now }
    {
        self.members.as_slice()
    }

    /// Lets the copies that are made from now on share the members.
    ///
    /// # Errors
    ///
    /// `OutOfMemory`. The members stay what they are.
    pub fn make_shared(&mut self) -> Result<(), Refusal>
        ensures same { self.new ≡ self.old }
        ensures memory { IsOkUnless result Refusal.OutOfMemory }
    {
        Ok(self.members.make_shared()?)
    }
}

/// Items, each with its value. Contracts see the pairs in order.
#[derive(Clone, Debug)]
pub struct ItemValues {
    rows: Vec<(ItemId, Value)>,
}

impl Model for ItemValues {
    ghost use Rattle.std.specs.Prelude.{List, ℕ};
    ghost use Rattle.album_items.specs.declared.values.Value.{Value as ItemValue};

    ghost Value = { List (ℕ × ItemValue) };

    ghost view = { λ v. v.rows.items };
}

// By hand, so that what lets it go is proved here, and not again in each crate above.
impl Drop for ItemValues {
    fn drop(self) {
        let ItemValues { rows } = self;
        drop(rows);
    }
}

impl ItemValues {
    /// These items with their values.
    pub fn of(rows: Vec<(ItemId, Value)>) -> ItemValues
        ensures { result ≡ rows.items }
    {
        ItemValues { rows }
    }

    /// The items with their values, in order.
    pub fn as_slice(&self) -> &[(ItemId, Value)]
        ensures { result.now ≡ self.now }
    {
        self.rows.as_slice()
    }

    /// The items with their values, to be taken apart.
    pub fn into_vec(self) -> Vec<(ItemId, Value)>
        ensures { result.items ≡ self }
    {
        let ItemValues { rows } = self;
        rows
    }

    /// Lets the copies that are made from now on share what each value holds, as `Value::make_shared` does.
    ///
    /// # Errors
    ///
    /// `OutOfMemory`. The rows stay what they are.
    pub fn make_shared(&mut self) -> Result<(), Refusal>
        ensures same { self.new ≡ self.old }
        ensures memory { IsOkUnless result Refusal.OutOfMemory }
    {
        share_each(self.rows.as_mut_slice())
    }
}

fn share_each(rows: &mut [(ItemId, Value)]) -> Result<(), Refusal>
    ensures same { rows.new ≡ rows.old }
    ensures memory { IsOkUnless result Refusal.OutOfMemory }
{
    for index in 0..rows.len() {
        rows[index].1.make_shared()?;
    }
    Ok(())
}
