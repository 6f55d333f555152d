//! A value whose copies share its memory.
ghost use Rattle.std.specs.Prelude.{◌≡◌, IfOk};

use crate::values::Value;
use std::alloc::{AllocError, Global};
use std::marker::Model;
use std::sync::Arc;

/// A value whose copies share its memory: a copy is a count, whatever the value holds. Contracts see the value.
#[derive(Debug)]
pub struct SharedValue {
    value: Arc<Value, Global>,
}

impl Model for SharedValue {
    ghost use Rattle.std.specs.Arc.{arc_value};
    ghost use Rattle.album_items.specs.declared.values.Value.{Value as ItemValue};

    ghost Value = { ItemValue };

    ghost view = { λ s. arc_value s.value };
}

// By hand, so that what lets it go is proved here, and not again in each crate above.
impl Drop for SharedValue {
    fn drop(self) {
        let SharedValue { value } = self;
        drop(value);
    }
}

impl SharedValue {
    /// This value.
    ///
    /// # Errors
    ///
    /// `AllocError`, where there is no memory to share it. The value is let go then.
    pub fn of(alloc: Global, value: Value) -> Result<SharedValue, AllocError>
        ensures { IfOk result (λ shared. shared ≡ value) }
    {
        match Arc::new(alloc, value) {
            Ok(value) => Ok(SharedValue { value }),
            Err(_) => Err(AllocError),
        }
    }

    /// The value.
    pub fn value(&self) -> &Value
        ensures { result.now ≡ self.now }
    {
        &self.value
    }
}

// By hand, since a count is no clone of what the value holds.
impl Clone for SharedValue {
    ghost is_clone = { λ value copy. copy ≡ value };

    fn clone(&self) -> Result<SharedValue, AllocError> {
        let value = Arc::try_clone(&self.value)?;
        Ok(SharedValue { value })
    }
}
