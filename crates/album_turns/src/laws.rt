//! What holds of what a service leaves.
ghost use Rattle.std.specs.Prelude.{◌≡◌, ◌≢◌, ◌<◌, ◌≤◌, ℕ, List, true, false, Some, Contains};
ghost use Rattle.std.specs.List.{list_any};
ghost use Rattle.album_items.specs.declared.openings.Opening.{Opening};
ghost use Rattle.album_items.specs.declared.values.Value.{Value};
ghost use Rattle.album_partition.specs.Marks.{discards, first_value};
ghost use Rattle.album_reader.specs.Answers.{ReadVersion};
ghost use Rattle.album_passes.specs.Cuts.{Cut, IsSound, prefix_at};
ghost use Rattle.album_passes.specs.Reads.{IsCommitted, written_value};
ghost use Rattle.album_epochs.specs.Carried.{carried_stamp, is_carried};
ghost use Rattle.album_grounds.specs.Grounds.{IsSeen};
ghost use Rattle.album_turns.specs.Left.{IsLeftTo};

use album_board::{Listened, Published, what_was_published_is_seen};
use album_sessions::ServiceNames;

/// A law: nothing acknowledged is lost over a turn. What was committed anywhere in the cut is carried into the next
/// epoch, and each item that it wrote opens as it was written, or as a later write left it. What was discarded anywhere
/// doesn't come back. No item opens older than a view showed it.
pub fn nothing_acknowledged_is_lost_over_a_turn()
    ensures carried { (cut : Cut) (opening next : Opening) (stamp : ℕ) → (to : IsLeftTo cut opening next)
        → IsSound cut → IsCommitted cut stamp → is_carried to.left stamp ≡ true }
    ensures no_older { (cut : Cut) (opening next : Opening) (stamp item : ℕ) (value : Value)
        → (to : IsLeftTo cut opening next) → IsSound cut → IsCommitted cut stamp
        → written_value cut item stamp ≡ Some value → stamp ≤ carried_stamp to.left item }
    ensures as_written { (cut : Cut) (opening next : Opening) (stamp item : ℕ) (value : Value)
        → (to : IsLeftTo cut opening next) → IsSound cut → IsCommitted cut stamp → stamp ≢ 0
        → written_value cut item stamp ≡ Some value → carried_stamp to.left item ≡ stamp
        → first_value next.items item ≡ value }
    ensures let_go { (cut : Cut) (opening next : Opening) (part stamp : ℕ) → (to : IsLeftTo cut opening next)
        → list_any (discards stamp) (prefix_at cut part) ≡ true → is_carried to.left stamp ≡ false }
    ensures no_view_goes_back { (begun cut : Cut) (opening next : Opening) (rows : List ReadVersion) (row : ReadVersion)
        → (to : IsLeftTo cut opening next) → IsSound cut → IsSeen begun cut rows → Contains rows row
        → row.stamp ≤ carried_stamp to.left row.item }
{}

/// A law: what was published before is left. Let an answer be published under a number below the one that was listened
/// to as the service was left. Then the next epoch opens on what is carried of a cut that has all that the answer's
/// session had seen by then. Nothing is computed.
pub fn what_was_published_is_left<J: ServiceNames>(published: &Published<J>, listened: &Listened<J>)
    ensures left { published.now.number < listened.now.number → (opening next : Opening)
        → IsLeftTo listened.now.cut opening next → IsLeftTo published.now.cut opening next }
{
    what_was_published_is_seen(published, listened);
}
