//! What holds of what a crash leaves of a service.
ghost use Rattle.std.specs.Prelude.{◌≡◌, ◌≢◌, ◌≤◌, ℕ, List, true, All, Some, Contains};
ghost use Rattle.std.specs.List.{list_any};
ghost use Rattle.album_data.specs.Recovery.{AreEntryLines, IsOpenedAfter};
ghost use Rattle.album_grounds.specs.Grounds.{IsSeen, IsKept};
ghost use Rattle.album_items.specs.declared.openings.Opening.{Opening};
ghost use Rattle.album_items.specs.declared.values.Value.{Value};
ghost use Rattle.album_keepers.specs.declared.log_entries.LogEntry.{LogEntry as Entry};
ghost use Rattle.album_partition.specs.Marks.{discards, first_value, value_in};
ghost use Rattle.album_passes.specs.Cuts.{Cut, prefix_at, items_announced, Extends};
ghost use Rattle.album_passes.specs.Reads.{written_value};
ghost use Rattle.album_permits.specs.Effects.{effect_of};
ghost use Rattle.album_permits.specs.Permits.{PermitState};
ghost use Rattle.album_reader.specs.Answers.{ReadVersion};
ghost use Rattle.album_lasting.specs.Crashing.{IsInText, IsLogged, IsLogOf, IsOpenedAt};

use album_data::what_is_kept_is_read;

/// A law: a stamp is logged where a log has kept it. Let the text that a crash left be lines of entries. Let it have,
/// for each item that is announced for the stamp, the line with which the item's partition prepared the stamp. Then
/// these entries are among those that the next start reads.
pub fn what_a_log_keeps_is_logged()
    ensures { (cut : Cut) (text : List ℕ) (entries : List Entry) (stamp : ℕ) (items : List ℕ)
        → AreEntryLines text entries → items_announced cut stamp ≡ Some items
        → All (IsInText cut text stamp) items → IsLogged cut entries stamp }
{
    what_is_kept_is_read();
}

/// A law: nothing acknowledged is lost over a crash. Let each stamp that was committed anywhere be logged, as a service
/// with a log sees to, and let each entry of the log be a mark that was made. Then each item of the next epoch opens as
/// it was at one stamp, the greatest that is logged and wrote it. That is no less than that of any write which was
/// answered Committed, and than that of any version which was read. Of a logged stamp nothing is lost, and what was
/// discarded anywhere isn't logged. In which order the log has its entries is all one.
pub fn nothing_acknowledged_is_lost_over_a_crash()
    ensures opens { (opening next : Opening) (cut : Cut) (entries : List Entry) (item : ℕ)
        → IsLogOf opening cut entries → IsOpenedAfter opening entries next
        → (stamp : ℕ) × IsOpenedAt opening cut entries next item stamp }
    ensures acknowledged { (opening next : Opening) (answered cut : Cut) (entries : List Entry) (permit : PermitState)
        (stamp item opened : ℕ) (value : Value) → IsLogOf opening cut entries
        → IsOpenedAt opening cut entries next item opened → Extends answered cut → IsKept answered permit stamp
        → value_in (effect_of permit stamp) item ≡ Some value → stamp ≤ opened }
    ensures as_written { (opening next : Opening) (answered cut : Cut) (entries : List Entry) (permit : PermitState)
        (stamp item : ℕ) (value : Value) → IsLogOf opening cut entries
        → IsOpenedAt opening cut entries next item stamp → Extends answered cut → IsKept answered permit stamp
        → stamp ≢ 0 → value_in (effect_of permit stamp) item ≡ Some value → first_value next.items item ≡ value }
    ensures no_view_goes_back { (opening next : Opening) (begun answered cut : Cut) (entries : List Entry)
        (rows : List ReadVersion) (row : ReadVersion) (opened : ℕ) → IsLogOf opening cut entries
        → IsOpenedAt opening cut entries next row.item opened → Extends answered cut → IsSeen begun answered rows
        → Contains rows row → row.stamp ≤ opened }
    ensures whole { (opening next : Opening) (cut : Cut) (entries : List Entry) (one other stamp opened : ℕ)
        (value : Value) → IsLogOf opening cut entries → IsOpenedAt opening cut entries next one stamp
        → IsOpenedAt opening cut entries next other opened → stamp ≢ 0 → written_value cut other stamp ≡ Some value
        → stamp ≤ opened }
    ensures let_go { (opening : Opening) (cut : Cut) (entries : List Entry) (part stamp : ℕ)
        → IsLogOf opening cut entries → list_any (discards stamp) (prefix_at cut part) ≡ true
        → IsLogged cut entries stamp → ⊥ }
{}
