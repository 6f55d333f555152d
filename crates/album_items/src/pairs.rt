//! What is tested of every two rows of an opening, in time that grows as the rows do: the numbers, which are low, are
//! marked as they are met.
ghost use Rattle.std.specs.Prelude.{◌≡◌, ◌<◌, true, false, length, get_or, set};
ghost use Rattle.std.specs.List.{list_all};
ghost use Rattle.album_lists.specs.declared.lists.Holder.TheVariants.{Plain};
ghost use Rattle.album_items.specs.Openings.{is_right_row, has_single_rows, has_own_lists, has_fit_lists, fits_holder, plain_list};

use crate::item_ids::ItemId;
use crate::values::Value;
use album_lists::Holder;
use album_stamps::MAX_OPENING_NUMBER;
use std::mem;

/// How many numbers, and how many items, an opening may use.
const NUMBERS: usize = MAX_OPENING_NUMBER as usize + 1;

const CODES: usize = 4 * NUMBERS;

/// Whether no item has two values.
pub(crate) fn has_single_rows(rows: &[(ItemId, Value)]) -> bool
    requires right { list_all is_right_row rows.now ≡ true }
    ensures { result ≡ has_single_rows rows.now }
{
    let mut met = [false; CODES];
    for row in rows {
        if mark(&mut met, row.0.code()) {
            return false;
        }
    }
    true
}

/// Whether no two heads name one list.
pub(crate) fn has_own_lists(rows: &[(ItemId, Value)]) -> bool
    requires right { list_all is_right_row rows.now ≡ true }
    ensures { result ≡ has_own_lists rows.now }
{
    let mut named = [false; NUMBERS];
    for row in rows {
        if let Some(head) = row.1.head() {
            if mark(&mut named, head.list as usize) {
                return false;
            }
        }
    }
    true
}

/// Whether each list that a head names, if it is there, fits what carries it: an album carries every list.
pub(crate) fn has_fit_lists(rows: &[(ItemId, Value)]) -> bool
    requires right { list_all is_right_row rows.now ≡ true }
    ensures { result ≡ has_fit_lists rows.now }
{
    let mut plain = [false; NUMBERS];
    for row in rows {
        if let Some(list) = plain_list(&row.1) {
            mark(&mut plain, list as usize);
        }
    }
    for row in rows {
        if plain[row.0.number() as usize] && !fits_plain(&row.1) {
            return false;
        }
    }
    true
}

/// The list of a picture or a group.
fn plain_list(value: &Value) -> Option<u64>
    ensures { result ≡ plain_list value.now }
{
    match value {
        Value::Picture(picture) => Some(picture.head.list),
        Value::Group(group) => Some(group.head.list),
        Value::Missing | Value::Album(_) | Value::List(_) => None,
    }
}

/// Whether the value, where it is a list, fits a picture and a group.
fn fits_plain(value: &Value) -> bool
    ensures { result ≡ fits_holder Plain value.now }
{
    match value {
        Value::List(list) => list.fits(Holder::Plain),
        _ => true,
    }
}

/// Marks the number. The result is whether it was marked before.
fn mark(marks: &mut [bool], number: usize) -> bool
    requires { number < length marks.old }
    ensures before { result ≡ get_or marks.old number false }
    ensures after { marks.new ≡ set marks.old number true }
{
    mem::replace(&mut marks[number], true)
}
