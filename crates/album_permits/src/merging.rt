//! Merges writes, so that no two are of one item.
ghost use Rattle.std.specs.Prelude.{◌≡◌, ◌==◌, IfOk, OnOk, position};
ghost use Rattle.album_permits.specs.Effects.{put, merged};

use album_items::{ItemId, Value};
use std::alloc::{AllocError, Global};

/// Each item once, at its first index and with its last value.
pub(crate) fn merged(
    alloc: Global,
    writes: Vec<(ItemId, Value)>,
) -> Result<Vec<(ItemId, Value)>, AllocError>
    ensures { IfOk result (λ single. single.items ≡ merged writes.items) }
{
    let mut merged = Vec::new(alloc);
    for write in writes {
        put(&mut merged, write)?;
    }
    Ok(merged)
}

/// Puts the write in the place of an earlier one of its item, or else last.
fn put(writes: &mut Vec<(ItemId, Value)>, write: (ItemId, Value)) -> Result<(), AllocError>
    ensures { OnOk result (writes.new.items ≡ put writes.old.items write) }
{
    match index_of(writes.as_slice(), write.0) {
        Some(index) => {
            writes[index] = write;
            Ok(())
        }
        None => {
            writes.push(write)?;
            Ok(())
        }
    }
}

/// The index of the write of the item.
fn index_of(writes: &[(ItemId, Value)], item: ItemId) -> Option<usize>
    ensures { result ≡ position (λ write. write.0 == item) writes.now }
{
    writes.iter().position(|write| write.0.is(item))
}
