//! The first values of items, found by look-up.
ghost use Rattle.std.specs.Prelude.{◌≡◌, true, IfOk};
ghost use Rattle.std.specs.Option.{option_copied};
ghost use Rattle.album_items.specs.Openings.{has_single_rows};
ghost use Rattle.album_partition.specs.Marks.{value_in};

use album_items::{ItemId, SharedValue, Value};
use indexmap::IndexMap;
use std::alloc::{AllocError, Global};
use std::marker::Model;

/// The first values of items, which answers share. Contracts see the rows.
#[derive(Debug, Drop)]
pub struct FirstValues {
    values: IndexMap<ItemId, SharedValue>,
    /// What an item has that nobody wrote.
    missing: SharedValue,
}

impl Model for FirstValues {
    ghost use Rattle.std.specs.Prelude.{◌≡◌, List};
    ghost use Rattle.album_items.specs.Openings.{Row};
    ghost use Rattle.album_items.specs.declared.values.Value.TheVariants.{Missing};

    ghost Value = { List Row };

    ghost view = { λ f. f.values.entries };

    ghost invariant = { λ f. f.missing ≡ Missing };
}

impl FirstValues {
    /// The values of these rows, which are copied. No item has two.
    pub fn of(alloc: Global, rows: &[(ItemId, Value)]) -> Result<FirstValues, AllocError>
        requires { has_single_rows rows.now ≡ true }
        ensures { IfOk result (λ values. values ≡ rows.now) }
    {
        Ok(FirstValues {
            values: values_of(alloc, rows)?,
            missing: SharedValue::of(alloc, Value::Missing)?,
        })
    }

    /// The item's first value.
    pub fn value(&self, item: ItemId) -> Option<&SharedValue>
        ensures { option_copied result ≡ value_in self.now item }
    {
        self.values.get(&item)
    }

    /// What an item has that nobody wrote.
    pub fn missing(&self) -> &SharedValue
        ensures { result.now ≡ Value.Missing }
    {
        &self.missing
    }
}

/// The values of these rows, which are to be shared, by their items.
fn values_of(
    alloc: Global,
    rows: &[(ItemId, Value)],
) -> Result<IndexMap<ItemId, SharedValue>, AllocError>
    requires { has_single_rows rows.now ≡ true }
    ensures { IfOk result (λ values. values.entries ≡ rows.now) }
{
    let mut values = IndexMap::with_capacity(alloc, rows.len())?;
    for row in rows {
        values.insert(row.0, shared_copy(alloc, &row.1)?)?;
    }
    Ok(values)
}

/// A copy of the value that is to be shared.
pub fn shared_copy(alloc: Global, value: &Value) -> Result<SharedValue, AllocError>
    ensures { IfOk result (λ shared. shared ≡ value.now) }
{
    SharedValue::of(alloc, value.clone()?)
}
