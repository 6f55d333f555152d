//! What follows of cuts: of closed ones, of ones that grow and are merged, and of reads over them.
ghost use Rattle.std.specs.Prelude.{is_some, ◌++◌, ◌∷◌, ◌≡◌, ◌≢◌, ◌<◌, ◌≤◌, ℕ, List, true, false, Some, IsSome, All, Contains, length, slice_index};
ghost use Rattle.album_items.specs.declared.values.Value.{Value};
ghost use Rattle.std.specs.List.{list_any};
ghost use Rattle.album_items.specs.ItemIds.{place_of};
ghost use Rattle.album_items.specs.Openings.{Row};
ghost use Rattle.album_terminate.specs.declared.deciding.StampState.TheVariants as StampState;
ghost use Rattle.album_partition.specs.declared.marks.Mark.{Mark};
ghost use Rattle.album_partition.specs.declared.marks.Mark.TheVariants as Made;
ghost use Rattle.album_partition.specs.Bases.{are_bases, IsMadeOn};
ghost use Rattle.album_partition.specs.Marks.{has_version, value_in, is_mark_of, prepares, commits, discards, state_of, items_at, first_value, latest};
ghost use Rattle.album_items.specs.Places.{others_of};
ghost use Rattle.album_partition.specs.Proper.{is_proper};
ghost use Rattle.album_reader.specs.Answers.{ReadVersion};
ghost use Rattle.album_reader.specs.Atomic.{IsReadAtomic, IsFreshFrom};
ghost use Rattle.album_passes.specs.Cuts.{Cut, Announced, prefix_at, prefix_for, announced_for, items_announced, dependencies_of, HasReached, IsNamed, IsNamedOn, IsBaseOf, IsPreparedThroughout, IsPromisedSomewhere, IsBacked, IsClosedCut, IsSound, Extends};
ghost use Rattle.album_passes.specs.Changes.{marked_cut, announced_cut, merged};
ghost use Rattle.album_passes.specs.Reads.{IsCommitted, IsCommittedFor, written_value, writes_in_cut, HadSeenCommitted, IsReadInTwoRounds};

/// A law: what a closed cut has of each stamp that has a mark in it. Its writes are announced; a
/// mark that prepares it names their items, and prepares none but them; where it is committed, each item's
/// partition has prepared it; where it is discarded, one of them will never prepare it. So no stamp
/// is committed at one partition and discarded at another.
pub fn what_closed_cuts_have()
    ensures announced { (cut : Cut) (part stamp : ℕ) → IsClosedCut cut
        → list_any (is_mark_of stamp) (prefix_at cut part) ≡ true → IsSome (announced_for cut stamp) }
    ensures prepared { (cut : Cut) (part stamp : ℕ) (writes : List Row) (items : List ℕ) → IsClosedCut cut
        → Contains (prefix_at cut part) (Made.Prepared stamp writes items) → IsNamed cut stamp writes items }
    ensures committed { (cut : Cut) (part stamp : ℕ) → IsClosedCut cut
        → list_any (commits stamp) (prefix_at cut part) ≡ true → IsPreparedThroughout cut stamp }
    ensures discarded { (cut : Cut) (part stamp : ℕ) → IsClosedCut cut
        → list_any (discards stamp) (prefix_at cut part) ≡ true → IsPromisedSomewhere cut stamp }
    ensures apart { (cut : Cut) (part other stamp : ℕ) → IsSound cut
        → list_any (commits stamp) (prefix_at cut part) ≡ true
        → list_any (discards stamp) (prefix_at cut other) ≡ false }
{}

/// A law: what was written is what its author announced. Each version that a partition has prepared is announced, with
/// its value. In a checked store each one that is committed was made on the version at the base that is announced for
/// it.
pub fn versions_are_as_announced()
    ensures value { (cut : Cut) (item stamp : ℕ) (value : Value) → IsSound cut
        → written_value cut item stamp ≡ Some value
        → (all : Announced) × (announced_for cut stamp ≡ Some all) × Contains all.writes (item, value) }
    ensures base { (cut : Cut) (item stamp : ℕ) (value : Value) → IsSound cut → cut.checked ≡ true
        → written_value cut item stamp ≡ Some value → state_of (prefix_for cut item) stamp ≡ StampState.Committed
        → (all : Announced) × (announced_for cut stamp ≡ Some all)
        × ((base : ℕ) × IsBaseOf all (item, value) base × IsMadeOn (prefix_for cut item) item stamp base) }
{}

/// A law: what backs each mark that a partition makes. What is announced backs a Prepared that has its items, and of
/// its writes those that are placed here, with their values; in a checked store with the bases that are announced, too,
/// where these are the latest versions. A Committed is backed where the stamp is prepared here and at each other
/// partition of its items. A Discarded of a stamp that was unknown backs itself, where an item of the list is placed
/// here. What backs a mark already does so once the mark is made; nothing has to back a trim.
pub fn marks_are_backed()
    ensures plain { (cut : Cut) (part stamp : ℕ) (writes : List Row) (items : List ℕ)
        → cut.checked ≡ false → IsNamed cut stamp writes items
        → IsBacked (marked_cut cut part (Made.Prepared stamp writes items)) (Made.Prepared stamp writes items) }
    ensures checked { (cut : Cut) (part stamp : ℕ) (writes : List Row) (items bases : List ℕ)
        → IsSound cut → part < cut.parts → is_proper part cut.parts stamp writes items ≡ true
        → IsNamedOn cut stamp writes items bases → are_bases (prefix_at cut part) stamp writes bases ≡ true
        → IsBacked (marked_cut cut part (Made.Prepared stamp writes items)) (Made.Prepared stamp writes items) }
    ensures committed { (cut : Cut) (part stamp : ℕ) → IsSound cut → part < cut.parts
        → list_any (prepares stamp) (prefix_at cut part) ≡ true
        → All (λ other. list_any (prepares stamp) (prefix_at cut other) ≡ true)
        (others_of part cut.parts (items_at (prefix_at cut part) stamp))
        → IsBacked cut (Made.Committed stamp) }
    ensures discarded { (cut : Cut) (part stamp item : ℕ) (items : List ℕ) → IsSound cut → part < cut.parts
        → items_announced cut stamp ≡ Some items → Contains items item → place_of cut.parts item ≡ part
        → state_of (prefix_at cut part) stamp ≡ StampState.Unknown
        → IsBacked (marked_cut cut part (Made.Discarded stamp)) (Made.Discarded stamp) }
    ensures already { (cut : Cut) (part : ℕ) (mark : Mark)
        → IsBacked cut mark → IsBacked (marked_cut cut part mark) mark }
    ensures trimmed { (cut : Cut) (item : ℕ) → IsBacked cut (Made.Trimmed item) }
{}

/// A law: how cuts extend each other. What is backed stays so, and the merged cut of two is the
/// least that extends both, if there is one.
pub fn cuts_only_grow()
    ensures itself { (cut : Cut) → Extends cut cut }
    ensures along { (first second third : Cut)
        → Extends first second → Extends second third → Extends first third }
    ensures backed { (old new : Cut) (mark : Mark) → Extends old new → IsBacked old mark → IsBacked new mark }
    ensures least { (first second cut : Cut)
        → Extends first cut → Extends second cut → Extends (merged first second) cut }
{}

/// A law: a sound cut in which a stamp is committed, at whatever partition, has already what the
/// stamp ever writes to an item.
pub fn what_is_committed_is_there()
    ensures { (old new : Cut) (item stamp : ℕ) → IsSound old → IsSound new → Extends old new
        → IsCommitted old stamp → written_value new item stamp ≡ written_value old item stamp }
{}

/// A law: a cut is causal. A stamp depends on all marks that its author has seen when it is announced.
/// Of each write that a cut knows as committed, it knows what that is, and has all of it.
pub fn cuts_are_causal()
    ensures announced { (cut : Cut) (stamp part : ℕ) (all : Announced) (lengths : List ℕ)
        → dependencies_of (announced_cut cut stamp all) stamp ≡ Some lengths
        → slice_index lengths part ≡ length (prefix_at cut part) }
    ensures known { (cut : Cut) (stamp : ℕ) → IsSound cut → IsCommitted cut stamp
        → (lengths : List ℕ) × (dependencies_of cut stamp ≡ Some lengths) × HasReached lengths cut }
{}

/// A law: what was read fresh from a cut that has a write committed is no older than what the write's author had seen
/// committed when it announced the write.
pub fn fresh_as_authors_saw()
    ensures { (begun now : Cut) (stamp : ℕ) (answers : List ReadVersion) → IsSound begun → Extends begun now
        → IsCommitted begun stamp → IsFreshFrom (writes_in_cut now) (IsCommittedFor begun) answers
        → IsFreshFrom (writes_in_cut now) (HadSeenCommitted now stamp) answers }
{}

/// A law: a read of two rounds over sound cuts is read atomic, and fresh from the cut with which it
/// began. Each of its versions was committed by the time when its second round began; and where none
/// was below its item's latest one then, it is fresh from there. It stays so as the cut grows.
pub fn reads_are_atomic_and_fresh()
    ensures atomic { (begun middle ended : Cut) (firsts : List ReadVersion) (stamps : List ℕ)
        (answers : List ReadVersion)
        → IsReadInTwoRounds begun middle ended firsts stamps answers
        → IsReadAtomic (writes_in_cut ended) (first_value ended.opening) answers }
    ensures fresh { (begun middle ended : Cut) (firsts : List ReadVersion) (stamps : List ℕ)
        (answers : List ReadVersion)
        → IsReadInTwoRounds begun middle ended firsts stamps answers
        → IsFreshFrom (writes_in_cut ended) (IsCommittedFor begun) answers }
    ensures known { (begun middle ended : Cut) (firsts : List ReadVersion) (stamps : List ℕ)
        (answers : List ReadVersion) (answer : ReadVersion)
        → IsReadInTwoRounds begun middle ended firsts stamps answers → Contains answers answer → answer.stamp ≢ 0
        → IsCommitted middle answer.stamp }
    ensures up_to_date { (begun middle ended : Cut) (firsts : List ReadVersion) (stamps : List ℕ)
        (answers : List ReadVersion)
        → IsReadInTwoRounds begun middle ended firsts stamps answers
        → ((answer : ReadVersion) → Contains answers answer
        → latest (prefix_for middle answer.item) answer.item ≤ answer.stamp)
        → IsFreshFrom (writes_in_cut ended) (IsCommittedFor middle) answers }
    ensures atomic_still { (old new : Cut) (answers : List ReadVersion) → IsSound old → IsSound new → Extends old new
        → IsReadAtomic (writes_in_cut old) (first_value old.opening) answers
        → IsReadAtomic (writes_in_cut new) (first_value new.opening) answers }
    ensures fresh_still { (earlier begun old new : Cut) (answers : List ReadVersion) → IsSound old → IsSound new
        → Extends earlier begun → Extends begun old → Extends old new
        → IsFreshFrom (writes_in_cut old) (IsCommittedFor begun) answers
        → IsFreshFrom (writes_in_cut new) (IsCommittedFor earlier) answers }
{}

/// A law: no update is lost in what a cut of a checked store has. A version that is committed at its item's partition
/// was made on the one right below it, the latest there as it was prepared. At most one version of an item is pending.
pub fn cuts_lose_no_update()
    ensures made_on { (cut : Cut) (before later : List Mark) (stamp item : ℕ) (writes : List Row) (items : List ℕ)
        → IsSound cut → cut.checked ≡ true → prefix_for cut item ≡ before ++ Made.Prepared stamp writes items ∷ later
        → state_of (prefix_for cut item) stamp ≡ StampState.Committed → is_some (value_in writes item) ≡ true
        → IsMadeOn (prefix_for cut item) item stamp (latest before item) }
    ensures one_pending { (cut : Cut) (item t u : ℕ) → IsSound cut → cut.checked ≡ true
        → state_of (prefix_for cut item) t ≡ StampState.Pending → has_version (prefix_for cut item) item t ≡ true
        → state_of (prefix_for cut item) u ≡ StampState.Pending → has_version (prefix_for cut item) item u ≡ true
        → t ≡ u }
{}
