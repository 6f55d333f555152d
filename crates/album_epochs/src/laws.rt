//! What holds of what is carried from one epoch into the next.
ghost use Rattle.std.specs.Prelude.{◌≡◌, ◌≢◌, ◌≤◌, ◌↔◌, ℕ, List, true, false, Some, IsSome, All, Contains};
ghost use Rattle.std.specs.List.{list_any, list_all};
ghost use Rattle.album_items.specs.ItemIds.{place_of};
ghost use Rattle.album_items.specs.FirstStamps.{Stamps, first_stamp};
ghost use Rattle.album_items.specs.Values.{is_there};
ghost use Rattle.album_items.specs.declared.values.Value.{Value};
ghost use Rattle.album_items.specs.Openings.{Row, has_own_value, has_single_rows};
ghost use Rattle.album_terminate.specs.declared.deciding.StampState.TheVariants as StampState;
ghost use Rattle.album_partition.specs.declared.marks.Mark.{Mark};
ghost use Rattle.album_partition.specs.declared.marks.Mark.TheVariants as Made;
ghost use Rattle.album_partition.specs.Marks.{discards, state_of, first_value, latest};
ghost use Rattle.album_partition.specs.Proper.{are_proper_marks};
ghost use Rattle.album_reader.specs.Answers.{ReadVersion};
ghost use Rattle.album_reader.specs.Atomic.{IsReadAtomic};
ghost use Rattle.album_passes.specs.Cuts.{Cut, Announced, IsBaseOf, announced_for, prefix_at, prefix_for, items_announced, IsPreparedThroughout, IsPromisedSomewhere, IsSound, Extends};
ghost use Rattle.album_passes.specs.Changes.{marked_cut};
ghost use Rattle.album_passes.specs.Reads.{IsCommitted, written_value, writes_in_cut};
ghost use Rattle.album_epochs.specs.Carried.{IsLeft, is_carried, carried_stamp, carried_value, writes_carried, IsCarriedOn, IsCarriedRow, AreNextRows, AreNextStamps};
ghost use Rattle.album_epochs.specs.Folding.{prepares_of, AreFolded, AreFoldedStamps};

/// A law: which stamps are carried. Exactly those are that each partition of their items has prepared. What is
/// committed anywhere is carried. What is discarded anywhere, or promised against, is not. Of a carried stamp nothing
/// is lost: each item of its transaction has its version.
pub fn what_is_carried()
    ensures throughout { (cut : Cut) (stamp : ℕ) → (is_carried cut stamp ≡ true) ↔ IsPreparedThroughout cut stamp }
    ensures committed { (cut : Cut) (stamp : ℕ) → IsSound cut → IsCommitted cut stamp → is_carried cut stamp ≡ true }
    ensures discarded { (cut : Cut) (part stamp : ℕ) → IsLeft cut
        → list_any (discards stamp) (prefix_at cut part) ≡ true → is_carried cut stamp ≡ false }
    ensures left { (cut : Cut) → IsSound cut → IsLeft cut }
    ensures promised { (cut : Cut) (stamp : ℕ) → IsSound cut
        → IsPromisedSomewhere cut stamp → is_carried cut stamp ≡ false }
    ensures whole { (cut : Cut) (stamp item : ℕ) (items : List ℕ) → IsLeft cut → is_carried cut stamp ≡ true
        → items_announced cut stamp ≡ Some items → Contains items item
        → are_proper_marks (place_of cut.parts item) cut.parts (prefix_for cut item) ≡ true
        → IsSome (written_value cut item stamp) }
{}

/// A law: an epoch opens read atomic. No two items, as they are carried, fracture what a carried stamp wrote, and each
/// is as a carried stamp wrote it, or as it was at first.
pub fn an_epoch_opens_read_atomic()
    ensures atomic { (cut : Cut) (rows : List ReadVersion) → All (IsCarriedRow cut) rows
        → IsReadAtomic (writes_carried cut) (first_value cut.opening) rows }
    ensures no_older { (cut : Cut) (one other : ℕ) → carried_stamp cut one ≢ 0
        → IsSome (written_value cut other (carried_stamp cut one))
        → carried_stamp cut one ≤ carried_stamp cut other }
{}

/// A law: no view goes back as an epoch ends. No item is carried older than any read showed it that was read atomic in
/// a cut which the last one extends; nor older than its partition had committed it.
pub fn no_view_goes_back()
    ensures read { (old new : Cut) (answers : List ReadVersion) (answer : ReadVersion)
        → IsSound old → IsLeft new → Extends old new
        → IsReadAtomic (writes_in_cut old) (first_value old.opening) answers → Contains answers answer
        → answer.stamp ≤ carried_stamp new answer.item }
    ensures committed { (old new : Cut) (stamp item : ℕ) → IsSound old → IsLeft new → Extends old new
        → IsCommitted old stamp → IsSome (written_value new item stamp) → stamp ≤ carried_stamp new item }
{}

/// A law: what is carried stays so as the cut grows, with all that it wrote, and no item is carried older. What is
/// discarded anywhere is never carried.
pub fn what_is_carried_stays()
    ensures stamp { (old new : Cut) (stamp : ℕ) → Extends old new → is_carried old stamp ≡ true
        → is_carried new stamp ≡ true }
    ensures committed { (old new : Cut) (stamp : ℕ) → IsSound old → Extends old new → IsCommitted old stamp
        → is_carried new stamp ≡ true }
    ensures written { (old new : Cut) (stamp item : ℕ) → IsLeft new → Extends old new
        → is_carried old stamp ≡ true → written_value new item stamp ≡ written_value old item stamp }
    ensures rises { (old new : Cut) (item : ℕ) → IsLeft new → Extends old new
        → carried_stamp old item ≤ carried_stamp new item }
    ensures let_go { (old new : Cut) (part stamp : ℕ) → IsLeft new → Extends old new
        → list_any (discards stamp) (prefix_at old part) ≡ true → is_carried new stamp ≡ false }
{}

/// A law: sweeps decide as the next epoch does. Where a carried stamp is not pending at the partition of one of its
/// items, it is committed. A stamp that isn't carried may still be discarded: the partition of one of its items at
/// which it is unknown may promise against it, and then it is carried nowhere.
pub fn sweeps_decide_so()
    ensures settled { (cut : Cut) (stamp item : ℕ) (items : List ℕ) → IsSound cut → is_carried cut stamp ≡ true
        → items_announced cut stamp ≡ Some items → Contains items item
        → state_of (prefix_for cut item) stamp ≢ StampState.Pending → IsCommitted cut stamp }
    ensures sound { (cut : Cut) (stamp item : ℕ) (items : List ℕ) → IsSound cut
        → items_announced cut stamp ≡ Some items → Contains items item
        → state_of (prefix_for cut item) stamp ≡ StampState.Unknown → 1 ≤ cut.parts
        → IsSound (marked_cut cut (place_of cut.parts item) (Made.Discarded stamp)) }
    ensures let_go { (cut : Cut) (stamp item : ℕ) (items : List ℕ) → IsSound cut
        → items_announced cut stamp ≡ Some items → Contains items item
        → state_of (prefix_for cut item) stamp ≡ StampState.Unknown → 1 ≤ cut.parts
        → is_carried (marked_cut cut (place_of cut.parts item) (Made.Discarded stamp)) stamp ≡ false }
{}

/// A law: no update is lost in what is carried of a checked store. Let all that a cut has as committed be carried, as
/// it is in a sound one. Then each version was made on the carried one right below it, which is at the base that its
/// author announced.
pub fn no_carried_update_is_lost()
    ensures { (cut : Cut) (item stamp : ℕ) (value : Value) → IsLeft cut → cut.checked ≡ true
        → ((other : ℕ) → IsCommitted cut other → is_carried cut other ≡ true)
        → written_value cut item stamp ≡ Some value
        → (all : Announced) × (announced_for cut stamp ≡ Some all)
        × ((base : ℕ) × IsBaseOf all (item, value) base × IsCarriedOn cut item stamp base) }
{}

/// A law: what first values and histories are folded into is what is carried, in each part of a sound cut that opened
/// on these values and has what these histories prepare. So are its stamps.
pub fn what_is_folded_is_carried()
    ensures rows { (cut : Cut) (first : List Row) (histories : List (List Mark)) (rows : List Row) → IsLeft cut
        → cut.opening ≡ first → prepares_of cut.prefixes ≡ prepares_of histories → AreFolded first histories rows
        → AreNextRows cut rows }
    ensures stamps { (cut : Cut) (first : List Row) (histories : List (List Mark)) (stamps next : Stamps) → IsLeft cut
        → cut.opening ≡ first → prepares_of cut.prefixes ≡ prepares_of histories
        → AreFoldedStamps stamps first histories next → AreNextStamps cut stamps next }
{}

/// A law: a stamp stays with its value. Where the epoch has left an item alone, the next one opens with the value and
/// the stamp that this one opened with. Where it has written the item, the next one opens with the value that was
/// written at the stamp which it shows. What is missing has no stamp.
pub fn stamps_stay()
    ensures alone { (cut : Cut) (stamps next : Stamps) (item : ℕ) → AreNextStamps cut stamps next
        → carried_stamp cut item ≡ 0 → is_there (carried_value cut item) ≡ true
        → (first_stamp next item ≡ first_stamp stamps item)
        × (carried_value cut item ≡ first_value cut.opening item) }
    ensures written { (cut : Cut) (stamps next : Stamps) (item : ℕ) → AreNextStamps cut stamps next
        → carried_stamp cut item ≢ 0 → is_there (carried_value cut item) ≡ true
        → (first_stamp next item ≢ 0)
        × (written_value cut item (first_stamp next item) ≡ Some (carried_value cut item)) }
    ensures gone { (cut : Cut) (stamps next : Stamps) (item : ℕ) → AreNextStamps cut stamps next
        → is_there (carried_value cut item) ≡ false → first_stamp next item ≡ 0 }
{}

/// A law: an epoch opens on a base. Its rows are of items that are there, each with a value of its item's kind, and no
/// item has two; and there is one such list.
pub fn an_epoch_opens_on_a_base()
    ensures own { (cut : Cut) (rows : List Row) → AreNextRows cut rows → list_all has_own_value cut.opening ≡ true
        → ((part : ℕ) → are_proper_marks part cut.parts (prefix_at cut part) ≡ true)
        → list_all has_own_value rows ≡ true }
    ensures single { (cut : Cut) (rows : List Row) → AreNextRows cut rows → has_single_rows rows ≡ true }
    ensures one { (cut : Cut) (rows others : List Row) → AreNextRows cut rows → AreNextRows cut others → rows ≡ others }
{}
