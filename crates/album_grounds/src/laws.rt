//! What follows from the grounds on which an answer rests.
ghost use Rattle.std.specs.Prelude.{◌≡◌, ◌≢◌, ◌<◌, ◌≤◌, ℕ, true, List, Contains, Some};
ghost use Rattle.album_stamps.specs.Stamps.{client_number};
ghost use Rattle.album_items.specs.declared.values.Value.{Value};
ghost use Rattle.album_eval.specs.declared.policies.Policy.{Policy};
ghost use Rattle.album_partition.specs.Bases.{IsMadeOn};
ghost use Rattle.album_reader.specs.Answers.{ReadVersion};
ghost use Rattle.album_reader.specs.Atomic.{IsFreshFrom};
ghost use Rattle.album_listing.specs.ViewLookups.{stamp_seen};
ghost use Rattle.album_permits.specs.Permits.{PermitState};
ghost use Rattle.album_passes.specs.Cuts.{Cut, prefix_for, IsSound, IsPromisedSomewhere, Extends};
ghost use Rattle.album_passes.specs.Reads.{HadSeenCommitted, writes_in_cut, written_value};
ghost use Rattle.album_grounds.specs.Granted.{AreGranted, IsAsAsked, IsAskedKnowing};
ghost use Rattle.album_partition.specs.Marks.{state_of};
ghost use Rattle.album_terminate.specs.declared.deciding.StampState.TheVariants as StampState;
ghost use Rattle.album_grounds.specs.Grounds.{IsSeen, AreNoOlder, AreAlike, HasSameMarks, AreFrom, items_of, IsKept, IsWithoutRoom};

/// A law: the grounds of an answer stay as the cut grows. What was read stays read atomic, fresh and settled,
/// what each participant has committed stays so, and so do a promise against a stamp and the
/// want of room for it.
pub fn grounds_stay()
    ensures seen { (begun old new : Cut) (rows : List ReadVersion) → IsSound old → IsSound new
        → Extends begun old → Extends old new → IsSeen begun old rows → IsSeen begun new rows }
    ensures kept { (old new : Cut) (permit : PermitState) (stamp : ℕ)
        → Extends old new → IsKept old permit stamp → IsKept new permit stamp }
    ensures promised { (old new : Cut) (stamp : ℕ)
        → Extends old new → IsPromisedSomewhere old stamp → IsPromisedSomewhere new stamp }
    ensures without_room { (limit : ℕ) (old new : Cut) (permit : PermitState) (stamp : ℕ)
        → Extends old new → IsWithoutRoom limit old permit stamp → IsWithoutRoom limit new permit stamp }
{}

/// A law: no read goes back (monotonic reads), and a session reads its own writes. What a cut has shown isn't older in
/// a read that begins with that cut or with one that extends it. That read has what was kept in the cut, or newer.
/// The two reads may be of two sessions, where the later has met the earlier.
pub fn reads_go_on()
    ensures no_older { (begun old later new : Cut) (first second : List ReadVersion) → IsSound old → IsSound new
        → Extends old later → Extends later new → IsSeen begun old first → IsSeen later new second
        → AreNoOlder first second }
    ensures own_writes { (old later new : Cut) (permit : PermitState) (stamp : ℕ) (rows : List ReadVersion)
        → IsSound old → IsSound new → 1 ≤ old.parts → Extends old later → Extends later new
        → IsKept old permit stamp → IsSeen later new rows → AreFrom stamp (items_of permit stamp) rows }
{}

/// A law: no update is lost. In a checked store each version that a kept write has made was made on the one that the
/// write's own view shows: that one is committed, or the opening's, and no committed one is between the two. So of an
/// item the write changed what its ask changes, and undid nothing that somebody else was told is committed.
pub fn kept_writes_lose_no_update()
    ensures { (now : Cut) (permit : PermitState) (stamp item : ℕ) → IsSound now → now.checked ≡ true → 1 ≤ now.parts
        → IsKept now permit stamp → Contains (items_of permit stamp) item
        → IsMadeOn (prefix_for now item) item stamp (stamp_seen permit.view.rows item) }
{}

/// A law: what is kept was asked for. Each version at a stamp of a session's client, whichever partition has prepared
/// it, has the value that a granted ask writes there; in a checked store it was made, where it is committed, on the
/// version that the ask's own view shows. `Session::has_granted_writes` says that so it is of each session.
pub fn what_is_kept_was_asked_for()
    ensures { (policy : Policy) (client : ℕ) (cut : Cut) (stamp item : ℕ) (value : Value) → IsSound cut
        → AreGranted policy client cut → client_number stamp ≡ client → written_value cut item stamp ≡ Some value
        → IsAsAsked policy cut stamp item value }
{}

/// A law: who writes over what was acknowledged has seen it. In a checked store each later committed version of an item
/// was asked for on a view that shows the item as an earlier write left it, or newer. So nothing that was answered
/// committed is undone by a request that didn't see it.
pub fn what_was_acknowledged_is_known()
    ensures { (policy : Policy) (client : ℕ) (cut : Cut) (permit : PermitState) (earlier item later : ℕ) (value : Value)
        → IsSound cut → cut.checked ≡ true → 1 ≤ cut.parts → IsKept cut permit earlier
        → Contains (items_of permit earlier) item → AreGranted policy client cut → client_number later ≡ client
        → written_value cut item later ≡ Some value → state_of (prefix_for cut item) later ≡ StampState.Committed
        → earlier < later → IsAskedKnowing policy cut earlier later item value }
{}

/// A law: no new enemy. No item of a view is older than what the author of another of its versions had seen committed
/// when it wrote that version. So who takes a group off a list, and then puts somebody into the group, is never seen as
/// having done the second alone: whoever reads the group's new members reads the new list.
pub fn no_new_enemy()
    ensures { (begun now : Cut) (rows : List ReadVersion) (row : ReadVersion) → IsSeen begun now rows
        → Contains rows row → row.stamp ≢ 0
        → IsFreshFrom (writes_in_cut now) (HadSeenCommitted now row.stamp) rows }
{}

/// A law: reads are stable. Where no mark was made from where one read begins to where a later one ends, both show the
/// same of each item that both have.
pub fn reads_are_stable()
    ensures { (begun old later new : Cut) (first second : List ReadVersion) → IsSound old → IsSound new
        → Extends begun old → Extends old later → Extends later new → HasSameMarks begun new
        → IsSeen begun old first → IsSeen later new second → AreAlike first second }
{}
