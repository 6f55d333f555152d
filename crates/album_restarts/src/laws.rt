//! What holds of a world that is restarted.
ghost use Rattle.std.specs.Prelude.{◌≡◌, ◌≤◌, ◌⊎◌, ℕ, List, true, Some, IsSome, Contains};
ghost use Rattle.album_items.specs.Openings.{Row, is_base_opening, greatest_number};
ghost use Rattle.album_items.specs.declared.openings.Opening.{Opening};
ghost use Rattle.album_partition.specs.Marks.{first_value, value_in};
ghost use Rattle.album_reader.specs.Answers.{ReadVersion};
ghost use Rattle.album_passes.specs.Cuts.{IsSound};
ghost use Rattle.album_client.specs.Steps.{Transaction};
ghost use Rattle.album_permits.specs.declared.events.Event.{Event as Happening};
ghost use Rattle.album_world.specs.Past.{Read};
ghost use Rattle.album_world.specs.Committing.{IsCommitted};
ghost use Rattle.album_world.specs.Runs.{run_of};
ghost use Rattle.album_epochs.specs.Carried.{AreNextRows, AreNextStamps, carried_stamp, is_carried};
ghost use Rattle.album_restarts.specs.Next.{IsNextOpening};
ghost use Rattle.album_restarts.specs.Worlds.{cut_of_world};

/// A law: what a world has is a sound cut, whatever happened. So the laws of `album_epochs` hold of what it leaves to
/// the next epoch, and `fold` gives that.
pub fn a_world_is_a_sound_cut()
    ensures { (opening : Opening) (events : List Happening) → is_base_opening opening ≡ true
        → IsSound (cut_of_world opening (run_of opening events)) }
{}

/// A law: no item is carried older than any finished read of the world showed it.
pub fn no_read_goes_back_over_a_restart()
    ensures { (opening : Opening) (events : List Happening) (read : Read) (rows : List ReadVersion) (row : ReadVersion)
        → is_base_opening opening ≡ true
        → Contains (run_of opening events).past.reads read → read.rows ≡ Some rows → Contains rows row
        → row.stamp ≤ carried_stamp (cut_of_world opening (run_of opening events)) row.item }
{}

/// A law: a write that some partition has committed is carried, and each item that it wrote is carried as it wrote it,
/// or newer.
pub fn nothing_committed_is_lost_over_a_restart()
    ensures stamp { (opening : Opening) (events : List Happening) (stamp : ℕ) → is_base_opening opening ≡ true
        → IsCommitted (run_of opening events) stamp
        → is_carried (cut_of_world opening (run_of opening events)) stamp ≡ true }
    ensures items { (opening : Opening) (events : List Happening) (by : Transaction) (item : ℕ)
        → is_base_opening opening ≡ true
        → Contains (run_of opening events).past.transactions by → IsCommitted (run_of opening events) by.stamp
        → IsSome (value_in by.writes item)
        → by.stamp ≤ carried_stamp (cut_of_world opening (run_of opening events)) item }
{}

/// A law: what a world leaves is what is carried: of each item the value at its greatest stamp that each participant
/// has prepared, with that stamp; what the world has left alone keeps the stamp that it was shown with.
pub fn what_a_world_leaves_is_carried()
    ensures rows { (opening next : Opening) (events : List Happening) → is_base_opening opening ≡ true
        → IsNextOpening opening (run_of opening events).now next
        → AreNextRows (cut_of_world opening (run_of opening events)) next.items }
    ensures stamps { (opening next : Opening) (events : List Happening) → is_base_opening opening ≡ true
        → IsNextOpening opening (run_of opening events).now next
        → AreNextStamps (cut_of_world opening (run_of opening events)) opening.stamps next.stamps }
{}

/// A law: a next opening is a base, so that a world may open on it, and this holds again. Its counts are ones,
/// no item has two rows, each value is of its item's kind, and no number is above those that were given.
pub fn the_next_opening_is_a_base()
    ensures { (opening next : Opening) (events : List Happening) → is_base_opening opening ≡ true
        → IsNextOpening opening (run_of opening events).now next → is_base_opening next ≡ true }
{}

/// A law: no stamp that the world drew is above the numbers that the next epoch may find. Each stamp of the next epoch
/// is above these, by the law `stamps_are_above_the_opening` of `album_world`.
pub fn no_stamp_is_drawn_twice()
    ensures { (opening next : Opening) (events : List Happening) (by : Transaction) → is_base_opening opening ≡ true
        → IsNextOpening opening (run_of opening events).now next
        → Contains (run_of opening events).past.transactions by → by.stamp ≤ greatest_number next.first }
{}

/// A law: each row of the next opening was there at first, or a transaction of the world wrote it. Each of these was
/// granted, by the law `writes_are_granted` of `album_world`.
pub fn each_row_was_granted()
    ensures { (opening next : Opening) (events : List Happening) (row : Row) → is_base_opening opening ≡ true
        → IsNextOpening opening (run_of opening events).now next → Contains next.items row
        → (first_value opening.items row.0 ≡ row.1) ⊎ ((by : Transaction)
        × Contains (run_of opening events).past.transactions by × (value_in by.writes row.0 ≡ Some row.1)) }
{}
