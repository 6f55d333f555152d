//! The state that the service opens with.
ghost use Rattle.std.specs.Prelude.{◌≡◌, ◌==◌, ◌&&◌, ◌∷◌, ◌≤◌, true, false, ℕ, List, Some, MatchResult, if◌then◌else◌};
ghost use Rattle.std.specs.List.{list_all, list_any};
ghost use Rattle.album_stamps.specs.declared.refusals.Refusal.TheVariants.{BadOpening};
ghost use Rattle.album_stamps.specs.Distinct.{are_distinct};
ghost use Rattle.album_stamps.specs.declared.limits.TheConstants.{MAX_COUNTER};
ghost use Rattle.album_items.specs.Values.{children_of};
ghost use Rattle.album_items.specs.declared.openings.Opening.{Opening as Made};
ghost use Rattle.album_items.specs.Openings.{has_own_value, is_low, are_low, has_low_numbers, is_low_row, has_single_children, has_few_children, same_item, is_right_row, has_parts, has_limit, has_policy, has_root, has_first, greatest_number, has_counts, has_few_items, has_single_rows, has_own_lists, has_fit_lists, are_first_rows, are_rising, are_later_rows, is_opening, is_base_opening};

use crate::collections::{ItemValues, Items};
use crate::first_stamps::FirstStamps;
use crate::item_ids::ItemId;
use crate::pairs;
use crate::values::Value;
use album_lists::Name;
use album_stamps::{
    CLIENTS, MAX_CHILDREN, MAX_COUNTER, MAX_MARKS, MAX_OPENING_ITEMS, MAX_OPENING_NUMBER,
    MAX_PARTS, MIN_MARKS, Refusal,
};

/// The state that the service opens with: how many partitions there are, how many marks the
/// history of each may have, the number of the policy that lists are judged by, whether writes are
/// checked, who is root, above which counter stamps are drawn, and the first values of items with their stamps.
#[derive(Debug, Drop)]
pub struct Opening {
    /// How many partitions there are: 1 to `MAX_PARTS`.
    pub parts: u64,
    /// How many marks the history of each partition may have: `MIN_MARKS` to `MAX_MARKS`.
    pub limit: u64,
    /// The number of the policy that lists are judged by: 1 to 3.
    pub policy: u64,
    /// Whether each write is committed only on the versions that its author saw. Where it isn't, of two
    /// writes of one item that race the greater stamp wins, and the other is lost.
    pub checked: bool,
    /// Who has on each object what its owner has: perhaps a user, by policy 3 alone.
    pub root: Option<Name>,
    /// The greatest counter of the stamps that the epochs before this one drew, at most `MAX_COUNTER`, and 0 in a
    /// first epoch: the counter of each stamp that is drawn is greater.
    pub first: u64,
    /// The items with their first values: at most `MAX_OPENING_ITEMS` in a first epoch. An item that isn't among them
    /// is missing at first.
    pub items: ItemValues,
    /// The stamps at which these values were written in the epochs before. None is above the numbers that these gave:
    /// in a first epoch there is none.
    pub stamps: FirstStamps,
}

impl Opening {
    /// Whether the service may open with it: its counts, then its root, then each item by itself, then the items
    /// together, then the stamps. A later epoch's items rise, and each has a value of its kind and numbers that the
    /// epochs before gave.
    ///
    /// # Errors
    ///
    /// `BadOpening` exactly where it may not.
    pub fn check(&self) -> Result<(), Refusal>
        ensures { MatchResult result
            (λ _. is_opening self.now ≡ true)
            (λ e. (e ≡ BadOpening) × (is_opening self.now ≡ false)) }
    {
        if self.is_opening() {
            Ok(())
        } else {
            Err(Refusal::BadOpening)
        }
    }

    fn is_opening(&self) -> bool
        ensures { result ≡ is_opening self.now }
    {
        self.has_counts()
            && self.has_root()
            && self.has_rows()
            && self
                .stamps
                .are_early(self.first * CLIENTS + MAX_OPENING_NUMBER)
    }

    /// Whether the epoch may open with its items.
    fn has_rows(&self) -> bool
        requires { self.now.first ≤ MAX_COUNTER }
        ensures { result ≡ (if self.now.first == 0 then are_first_rows self.now.items
            else are_later_rows self.now.first self.now.items) }
    {
        let rows = self.items.as_slice();
        if self.first == 0 {
            are_first_rows(rows)
        } else {
            are_later_rows(self.first, rows)
        }
    }

    /// Whether the partitions and their marks are neither too few nor too many, there is a policy of the number, and
    /// a stamp may have the first counter.
    fn has_counts(&self) -> bool
        ensures { result ≡ has_counts self.now }
    {
        self.has_limits() && has_policy(self.policy) && self.first <= MAX_COUNTER
    }

    /// Whether a root is named by policy 3 alone.
    fn has_root(&self) -> bool
        ensures { result ≡ has_root self.now.policy self.now.root }
    {
        match self.root {
            None => true,
            Some(_) => self.policy == 3,
        }
    }

    /// Whether the partitions and their marks are neither too few nor too many.
    fn has_limits(&self) -> bool
        ensures { result ≡ (has_parts self.now.parts && has_limit self.now.limit) }
    {
        (1..=u64::from(MAX_PARTS)).contains(&self.parts)
            && (MIN_MARKS..=MAX_MARKS).contains(&self.limit)
    }
}

/// A law: each opening that passes its check is what partitions may open on.
pub fn an_opening_is_a_base()
    ensures { (opening : Made) → is_opening opening ≡ true → is_base_opening opening ≡ true }
{}

/// A law: where an opening that passes its check names a root, lists are judged by policy 3.
pub fn a_root_is_of_policy_3()
    ensures { (opening : Made) (root : List ℕ) → is_opening opening ≡ true → opening.root ≡ Some root
        → opening.policy ≡ 3 }
{}

/// Whether there is a policy of the number.
fn has_policy(number: u64) -> bool
    ensures { result ≡ has_policy number }
{
    matches!(number, 1 | 2 | 3)
}

fn are_first_rows(rows: &[(ItemId, Value)]) -> bool
    ensures { result ≡ are_first_rows rows.now }
{
    rows.len() <= MAX_OPENING_ITEMS && are_right(rows) && go_together(rows)
}

fn go_together(rows: &[(ItemId, Value)]) -> bool
    requires right { list_all is_right_row rows.now ≡ true }
    ensures { result ≡ (has_single_rows rows.now && has_own_lists rows.now && has_fit_lists rows.now) }
{
    pairs::has_single_rows(rows) && pairs::has_own_lists(rows) && pairs::has_fit_lists(rows)
}

fn are_right(rows: &[(ItemId, Value)]) -> bool
    ensures { result ≡ list_all is_right_row rows.now }
{
    rows.iter().all(is_right_row)
}

fn is_right_row(row: &(ItemId, Value)) -> bool
    ensures { result ≡ is_right_row row.now }
{
    has_own_value(row)
        && is_low_row(MAX_OPENING_NUMBER, row)
        && has_few_children(row)
        && has_single_children(row)
}

fn are_later_rows(first: u64, rows: &[(ItemId, Value)]) -> bool
    requires first { first ≤ MAX_COUNTER }
    ensures { result ≡ are_later_rows first rows.now }
{
    let greatest = first * CLIENTS + MAX_OPENING_NUMBER;
    are_rising(rows) && have_own_values(rows) && are_low_rows(greatest, rows)
}

fn have_own_values(rows: &[(ItemId, Value)]) -> bool
    ensures { result ≡ list_all has_own_value rows.now }
{
    rows.iter().all(has_own_value)
}

fn are_low_rows(greatest: u64, rows: &[(ItemId, Value)]) -> bool
    ensures { result ≡ list_all (is_low_row greatest) rows.now }
{
    rows.iter().all(|row| is_low_row(greatest, row))
}

/// Whether the items rise, each above the one before.
fn are_rising(rows: &[(ItemId, Value)]) -> bool
    ensures { result ≡ are_rising rows.now }
{
    for index in 0..rows.len() {
        if !is_below_next(&rows[index], &rows[index + 1..]) {
            return false;
        }
    }
    true
}

/// Whether the row's item is below that of the first of the others. Where these rise it is then below all.
#[tactic(auto, using(crate::proofs::BaseLemmas::rises_at))]
fn is_below_next(row: &(ItemId, Value), others: &[(ItemId, Value)]) -> bool
    ensures { are_rising (row.now ∷ others.now) ≡ (result && are_rising others.now) }
{
    match others.first() {
        Some(next) => row.0 < next.0,
        None => true,
    }
}

/// Whether the value is there, and of its item's kind.
pub fn has_own_value(row: &(ItemId, Value)) -> bool
    ensures { result ≡ has_own_value row.now }
{
    row.1.is_there() && row.1.is_of(row.0.kind())
}

fn is_low(greatest: u64, number: u64) -> bool
    ensures { result ≡ is_low greatest number }
{
    number <= greatest
}

fn are_low(greatest: u64, children: &Items) -> bool
    ensures { result ≡ are_low greatest children.now }
{
    children
        .as_slice()
        .iter()
        .all(|child| is_low(greatest, child.number()))
}

fn has_low_numbers(greatest: u64, value: &Value) -> bool
    ensures { result ≡ has_low_numbers greatest value.now }
{
    match value {
        Value::Missing | Value::List(_) => true,
        Value::Picture(picture) => {
            is_low(greatest, picture.head.list) && is_low(greatest, picture.home)
        }
        Value::Album(album) => {
            is_low(greatest, album.head.list)
                && album.home.is_none_or(|home| is_low(greatest, home))
                && are_low(greatest, &album.children)
        }
        Value::Group(group) => is_low(greatest, group.head.list),
    }
}

fn is_low_row(greatest: u64, row: &(ItemId, Value)) -> bool
    ensures { result ≡ is_low_row greatest row.now }
{
    is_low(greatest, row.0.number()) && has_low_numbers(greatest, &row.1)
}

fn has_few_children(row: &(ItemId, Value)) -> bool
    ensures { result ≡ has_few_children row.now }
{
    row.1.children().len() <= MAX_CHILDREN
}

fn has_single_children(row: &(ItemId, Value)) -> bool
    ensures { result ≡ has_single_children row.now }
{
    are_distinct(row.1.children())
}

/// Whether no item is there twice.
pub fn are_distinct(items: &[ItemId]) -> bool
    ensures { result ≡ are_distinct items.now }
{
    for index in 0..items.len() {
        if holds(&items[index + 1..], items[index]) {
            return false;
        }
    }
    true
}

fn holds(items: &[ItemId], item: ItemId) -> bool
    ensures { result ≡ list_any (λ other. item == other) items.now }
{
    items.iter().any(|other| item.is(*other))
}

/// Whether no item has two values, of any rows: in one pass where the items rise. (`pairs` finds the same of a first
/// epoch's rows in one pass.)
#[tactic(auto, using(crate::proofs::BaseLemmas::rising_single))]
pub fn has_single_rows(rows: &[(ItemId, Value)]) -> bool
    ensures { result ≡ has_single_rows rows.now }
{
    are_rising(rows) || has_no_pair(rows)
}

fn has_no_pair(rows: &[(ItemId, Value)]) -> bool
    ensures { result ≡ has_single_rows rows.now }
{
    for index in 0..rows.len() {
        if names_again(&rows[index + 1..], &rows[index]) {
            return false;
        }
    }
    true
}

/// Whether one of the rows has the row's item.
fn names_again(rows: &[(ItemId, Value)], row: &(ItemId, Value)) -> bool
    ensures { result ≡ list_any (same_item row.now) rows.now }
{
    rows.iter().any(|other| row.0.is(other.0))
}
