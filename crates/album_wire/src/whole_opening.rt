//! The text of an opening, whole.
ghost use Rattle.std.specs.Prelude.{◌≡◌, ◌++◌, List, IfOk, OnOk, IsOkUnless};
ghost use Rattle.album_wire.specs.WholeOpening.{text_of_opening, header_of, rows_text};

use crate::opening_shape::Header;
use crate::opening_text::{write_begin, write_first_value, write_header};
use album_items::{FirstStamps, ItemId, Opening, Value};
use album_stamps::{Refusal, Stamp};
use std::alloc::{AllocError, Global};

/// The lines of an opening, by which a replay or a service opens on it too.
///
/// # Errors
///
/// `OutOfMemory`.
pub fn text_of_opening(alloc: Global, opening: &Opening) -> Result<Vec<u8>, Refusal>
    ensures text { IfOk result (λ text. text.items ≡ text_of_opening opening.now) }
    ensures memory { IsOkUnless result Refusal.OutOfMemory }
{
    let header = header_of(opening)?;
    let mut text = write_header(alloc, &header)?;
    add_rows(alloc, &mut text, opening.items.as_slice(), &opening.stamps)?;
    let last = write_begin(alloc)?;
    text.extend_from_slice(&last)?;
    Ok(text)
}

/// The header of an opening of which no message is printed.
fn header_of(opening: &Opening) -> Result<Header, AllocError>
    ensures { IfOk result (λ header. header ≡ header_of opening.now) }
{
    let root = opening.root.clone()?;
    Ok(Header {
        parts: opening.parts,
        limit: opening.limit,
        policy: opening.policy,
        checked: opening.checked,
        root,
        first: opening.first,
        trace: false,
    })
}

/// Adds the line of each row, with the stamp of its value.
fn add_rows(
    alloc: Global,
    text: &mut Vec<u8>,
    rows: &[(ItemId, Value)],
    stamps: &FirstStamps,
) -> Result<(), Refusal>
    ensures text { OnOk result (text.new.items ≡ text.old.items ++ rows_text stamps.now rows.now) }
    ensures memory { IsOkUnless result Refusal.OutOfMemory }
{
    for row in rows {
        let stamp = stamps.shown(row.0, Stamp::zero());
        let line = write_first_value(alloc, row.0, stamp, &row.1)?;
        text.extend_from_slice(&line)?;
    }
    Ok(())
}
