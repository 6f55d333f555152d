//! The shapes of lists in a line: entries = [[type, who, mask, flags], ..], texts = [text, ..].
ghost use Rattle.std.specs.Prelude.{◌≡◌, List, ℕ, map};
ghost use Rattle.album_stamps.specs.Outcome.{Gives};
ghost use Rattle.album_lines.specs.Fields.{each, text_of};
ghost use Rattle.album_lines.specs.Shapes.{SpelledEntry, spelled_entry, sort_of, entry_shape_of, entry_shapes_of, texts_of};
ghost use Rattle.album_lines.specs.Trees.{value_data, items_data};

use crate::fields::{list, sized_list, text, text_at, whole_at};
use album_access::AceType;
use album_stamps::Refusal;
use json::Value;
use std::alloc::Global;

/// An entry as a line spells it.
#[derive(Drop)]
pub struct EntryShape<'a> {
    pub sort: AceType,
    pub who: &'a str,
    pub mask: u64,
    pub flags: u64,
}

/// A list of entries.
///
/// # Errors
///
/// `BadRequest`, where the value is no list, or an item of it is no entry. `OutOfMemory`.
pub fn entry_shapes<'a>(alloc: Global, value: &Value<'a>) -> Result<Vec<EntryShape<'a>>, Refusal>
    ensures { Gives (λ shapes. map spelled_entry shapes.items) result (entry_shapes_of (value_data value.now)) }
{
    each_entry_shape(alloc, list(value)?)
}

fn each_entry_shape<'a>(alloc: Global, values: &[Value<'a>]) -> Result<Vec<EntryShape<'a>>, Refusal>
    ensures { Gives (λ shapes. map spelled_entry shapes.items) result (each entry_shape_of (items_data values.now)) }
{
    let mut shapes = Vec::with_capacity(alloc, values.len())?;
    for value in values {
        shapes.push(entry_shape(value)?)?;
    }
    Ok(shapes)
}

#[tactic(auto, unfolding(crate::specs::Shapes::entry_shape_of))]
fn entry_shape<'a>(value: &Value<'a>) -> Result<EntryShape<'a>, Refusal>
    ensures { Gives spelled_entry result (entry_shape_of (value_data value.now)) }
{
    sized_list(value, 4)?;
    let sort = sort(text_at(value, 0)?).ok_or(Refusal::BadRequest)?;
    let who = text_at(value, 1)?;
    let mask = whole_at(value, 2)?;
    let flags = whole_at(value, 3)?;
    Ok(EntryShape {
        sort,
        who,
        mask,
        flags,
    })
}

pub(crate) fn sort(word: &str) -> Option<AceType>
    ensures { result ≡ sort_of word.now }
{
    match word {
        "allow" => Some(AceType::Allowed),
        "deny" => Some(AceType::Denied),
        "audit" => Some(AceType::Audit),
        "alarm" => Some(AceType::Alarm),
        _ => None,
    }
}

/// A list of texts.
///
/// # Errors
///
/// `BadRequest`, where the value is no list, or an item of it is no text. `OutOfMemory`.
pub fn texts<'a>(alloc: Global, value: &Value<'a>) -> Result<Vec<&'a str>, Refusal>
    ensures { Gives (λ texts. map (λ t. t.now) texts.items) result (texts_of (value_data value.now)) }
{
    each_text(alloc, list(value)?)
}

fn each_text<'a>(alloc: Global, values: &[Value<'a>]) -> Result<Vec<&'a str>, Refusal>
    ensures { Gives (λ texts. map (λ t. t.now) texts.items) result (each text_of (items_data values.now)) }
{
    let mut texts = Vec::with_capacity(alloc, values.len())?;
    for value in values {
        texts.push(text(value)?)?;
    }
    Ok(texts)
}
