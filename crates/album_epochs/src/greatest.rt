//! The greatest stamp of an epoch, above which the next one draws.
ghost use Rattle.std.specs.Prelude.{◌≡◌, ◌≢◌, ◌≤◌, ℕ, true, max};
ghost use Rattle.std.specs.List.{list_any};
ghost use Rattle.album_partition.specs.Marks.{is_mark_of};
ghost use Rattle.album_passes.specs.Cuts.{marks_at};
ghost use Rattle.album_epochs.specs.Folding.{histories_lent, stamp_in, IsGreatestOf};

use album_partition::Mark;
use album_stamps::Stamp;

/// The greatest stamp that any mark of these histories is of, and the zero stamp where there is none.
pub fn greatest_stamp(histories: &[&[Mark]]) -> Stamp
    ensures above { (part stamp : ℕ)
        → list_any (is_mark_of stamp) (marks_at (histories_lent histories.now) part) ≡ true → stamp ≤ result }
    ensures reached { result ≢ 0
        → (part : ℕ) × (list_any (is_mark_of result) (marks_at (histories_lent histories.now) part) ≡ true) }
{
    let mut greatest = Stamp::zero();
    for history in histories {
        greatest = later(greatest, greatest_in(history));
    }
    greatest
}

/// The greatest stamp that any of the marks is of.
fn greatest_in(marks: &[Mark]) -> Stamp
    ensures { IsGreatestOf marks.now result }
{
    let mut greatest = Stamp::zero();
    for mark in marks {
        greatest = later(greatest, stamp_in(mark));
    }
    greatest
}

/// The stamp that the mark is of, and the zero stamp where it is of none.
fn stamp_in(mark: &Mark) -> Stamp
    ensures { result ≡ stamp_in mark.now }
{
    match mark.stamp() {
        Some(stamp) => stamp,
        None => Stamp::zero(),
    }
}

/// The greater of the two.
fn later(one: Stamp, other: Stamp) -> Stamp
    ensures { result ≡ max one other }
{
    if one < other { other } else { one }
}
