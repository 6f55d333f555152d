//! What follows of every history, and of every answer that the table gives.
ghost use Rattle.std.specs.Prelude.{◌≡◌, ◌≢◌, ◌↔◌, ◌≤◌, ◌<◌, ◌⊎◌, ◌++◌, [], ◌∷◌, ℕ, List, true, false, IsTrue, is_some, None, Some, Ok, Contains, length, filter, option_to_list};
ghost use Rattle.std.specs.List.{list_any, zip};
ghost use Rattle.std.specs.List.Sorted.{IsPermutation};
ghost use Rattle.album_items.specs.ItemIds.{place_of};
ghost use Rattle.album_items.specs.Openings.{Row};
ghost use Rattle.album_items.specs.declared.values.Value.{Value};
ghost use Rattle.album_calls.specs.Nodes.{is_part};
ghost use Rattle.album_calls.specs.declared.messages.Body.TheVariants as Body;
ghost use Rattle.album_calls.specs.declared.messages.Message.{Message};
ghost use Rattle.album_calls.specs.declared.nodes.Vote.TheVariants as Vote;
ghost use Rattle.album_calls.specs.declared.replies.Reply.{Reply as AnyReply};
ghost use Rattle.album_calls.specs.declared.replies.Reply.TheVariants as Reply;
ghost use Rattle.album_calls.specs.declared.requests.Request.{Request as AnyRequest};
ghost use Rattle.album_calls.specs.declared.requests.Request.TheVariants as Request;
ghost use Rattle.album_versions.specs.Best.{best_of, unless_gone};
ghost use Rattle.album_terminate.specs.declared.deciding.StampState.TheVariants as StampState;
ghost use Rattle.album_partition.specs.declared.marks.Mark.{Mark};
ghost use Rattle.album_partition.specs.declared.marks.Mark.TheVariants as Made;
ghost use Rattle.album_partition.specs.Answers.{says, on_prepare, on_check, action_of, after, answer};
ghost use Rattle.album_partition.specs.Bases.{is_chained, are_bases, IsMadeOn};
ghost use Rattle.album_partition.specs.Laws.{IsTrueOf, IsClash, IsReplyTo, IsReadOf, IsGoneFor, IsCause};
ghost use Rattle.album_partition.specs.Marks.{IsPromisedAgainst, prepares, commits, discards, decides, decided, trims, state_of, value_in, version, has_version, latest, floor, has_kept_version, may_follow, is_legal, load, is_full};
ghost use Rattle.album_partition.specs.Partition.{PartitionState, IsPartition, opened, read_at};
ghost use Rattle.album_partition.specs.Proper.{is_proper};
ghost use Rattle.album_partition.specs.Trims.{trimmed};
ghost use Rattle.album_partition.specs.Votes.{NotedVote, votes_left};

/// A law: what a history never holds. Each mark may follow those before it, so a stamp is prepared
/// and decided at most once, is committed only where it was prepared, and is not prepared once it
/// was discarded.
pub fn histories_are_orderly()
    ensures each { (before later : List Mark) (mark : Mark)
        → is_legal (before ++ mark ∷ later) ≡ true → may_follow before mark ≡ true }
    ensures prepared_once { (marks : List Mark) (stamp : ℕ)
        → is_legal marks ≡ true → length (filter (prepares stamp) marks) ≤ 1 }
    ensures decided_once { (marks : List Mark) (stamp : ℕ)
        → is_legal marks ≡ true → length (filter (decides stamp) marks) ≤ 1 }
    ensures committed_was_prepared { (marks : List Mark) (stamp : ℕ)
        → is_legal marks ≡ true → list_any (commits stamp) marks ≡ true
        → list_any (prepares stamp) marks ≡ true }
    ensures discarded_for_good { (before later : List Mark) (stamp : ℕ) (writes : List Row) (items : List ℕ)
        → is_legal (before ++ Made.Prepared stamp writes items ∷ later) ≡ true
        → list_any (discards stamp) before ≡ false }
{}

/// A law: what marks that follow leave. What is committed or discarded stays so, a committed stamp
/// keeps what was written at it, no latest stamp and no floor falls, and what is full stays full.
pub fn histories_only_grow()
    ensures committed { (before later : List Mark) (stamp : ℕ) → is_legal (before ++ later) ≡ true
        → state_of before stamp ≡ StampState.Committed
        → state_of (before ++ later) stamp ≡ StampState.Committed }
    ensures discarded { (before later : List Mark) (stamp : ℕ) → is_legal (before ++ later) ≡ true
        → state_of before stamp ≡ StampState.Discarded
        → state_of (before ++ later) stamp ≡ StampState.Discarded }
    ensures version { (before later : List Mark) (item stamp : ℕ) → is_legal (before ++ later) ≡ true
        → state_of before stamp ≡ StampState.Committed
        → version (before ++ later) item stamp ≡ version before item stamp }
    ensures latest { (before later : List Mark) (item : ℕ) → is_legal (before ++ later) ≡ true
        → latest before item ≤ latest (before ++ later) item }
    ensures floor { (before later : List Mark) (item : ℕ) → is_legal (before ++ later) ≡ true
        → floor before item ≤ floor (before ++ later) item }
    ensures load { (before later : List Mark) → is_legal (before ++ later) ≡ true
        → load before ≤ load (before ++ later) }
    ensures full { (before later : List Mark) (limit : ℕ) → is_legal (before ++ later) ≡ true
        → is_full limit before ≡ true → is_full limit (before ++ later) ≡ true }
{}

/// A law: where a stamp was discarded that had not been prepared, it never is, and it stays
/// discarded. A reply Status Never of a stamp that was unknown says that it is so.
pub fn promises_against_are_kept()
    ensures unprepared { (marks : List Mark) (stamp : ℕ) → is_legal marks ≡ true
        → IsPromisedAgainst marks stamp → list_any (prepares stamp) marks ≡ false }
    ensures discarded { (marks : List Mark) (stamp : ℕ) → is_legal marks ≡ true
        → IsPromisedAgainst marks stamp → state_of marks stamp ≡ StampState.Discarded }
    ensures stays { (marks later : List Mark) (stamp : ℕ)
        → IsPromisedAgainst marks stamp → IsPromisedAgainst (marks ++ later) stamp }
    ensures never { (partition : PartitionState) (message : Message) (stamp : ℕ)
        → state_of partition.marks stamp ≡ StampState.Unknown
        → (action_of partition message).reply ≡ Some (Reply.Status stamp Vote.Never)
        → IsPromisedAgainst (after partition message).marks stamp }
{}

/// A law: a partition is one as it opens, and stays one whatever message comes and whatever is
/// trimmed. A message adds at most one mark and at most one vote, at the end. A mark that decides a
/// stamp lets exactly the votes on it go: so a vote is kept as long as its stamp is pending.
pub fn partitions_stay_partitions()
    ensures opened { (number parts limit : ℕ) (items : List Row) (partition : PartitionState)
        → opened number parts items limit ≡ Ok partition → IsPartition partition }
    ensures after { (partition : PartitionState) (message : Message)
        → IsPartition partition → IsPartition (after partition message) }
    ensures marks { (partition : PartitionState) (message : Message)
        → (after partition message).marks ≡ partition.marks ++ option_to_list (action_of partition message).mark }
    ensures votes { (partition : PartitionState) (message : Message)
        → (after partition message).votes ≡ votes_left (decided (action_of partition message).mark)
        (partition.votes ++ option_to_list (action_of partition message).vote) }
    ensures kept { (partition : PartitionState) (message : Message) (vote : NotedVote) → IsPartition partition
        → Contains (after partition message).votes vote
        ↔ (Contains (partition.votes ++ option_to_list (action_of partition message).vote) vote
        × (state_of (after partition message).marks vote.stamp ≡ StampState.Pending)) }
    ensures trimmed { (old new : PartitionState) (item : ℕ)
        → IsPartition old → trimmed old item ≡ Ok new → IsPartition new }
{}

/// A law: why each mark is made. A vote Prepared commits only where it is the last of all others'.
pub fn marks_have_their_causes()
    ensures { (partition : PartitionState) (message : Message) (mark : Mark)
        → (action_of partition message).mark ≡ Some mark → IsCause partition message mark }
{}

/// A law: what a reply says of a stamp is so, once the message was received.
pub fn replies_are_true()
    ensures { (partition : PartitionState) (message sent : Message) → answer partition message ≡ Some sent
        → (reply : AnyReply) × (sent.body ≡ Body.Reply reply) × IsTrueOf (after partition message).marks reply }
{}

/// A law: each request to the partition is answered, and the reply is a Clash only where something is
/// wrong with it.
pub fn requests_are_answered()
    ensures answered { (partition : PartitionState) (message : Message) (request : AnyRequest)
        → message.body ≡ Body.Request request → is_part message.to partition.number ≡ true
        → is_some (answer partition message) ≡ true }
    ensures clash { (partition : PartitionState) (message : Message)
        → (action_of partition message).reply ≡ Some Reply.Clash → IsClash partition message.body }
{}

/// A law: to whom a reply goes. The votes that were noted don't change it, a reply is never replied
/// to, and a message to another node does nothing.
pub fn replies_go_to_the_sender()
    ensures sender { (partition : PartitionState) (message sent : Message)
        → answer partition message ≡ Some sent → IsReplyTo partition message sent }
    ensures votes { (partition : PartitionState) (message : Message) (votes : List NotedVote)
        → answer (record partition { votes = votes }) message ≡ answer partition message }
    ensures requests { (partition : PartitionState) (message : Message) (reply : AnyReply)
        → message.body ≡ Body.Reply reply → answer partition message ≡ None }
    ensures others { (partition : PartitionState) (message : Message)
        → is_part message.to partition.number ≡ false
        → (after partition message ≡ partition) × (answer partition message ≡ None) }
{}

/// A law: what a trim does. It leaves every latest stamp and raises the item's floor to it; nothing
/// else raises a floor, and none is above the latest stamp.
pub fn trims_raise_the_floor()
    ensures latest { (marks : List Mark) (item other : ℕ)
        → latest (marks ++ Made.Trimmed item ∷ []) other ≡ latest marks other }
    ensures raised { (marks : List Mark) (item : ℕ)
        → floor (marks ++ Made.Trimmed item ∷ []) item ≡ latest marks item }
    ensures others { (marks : List Mark) (mark : Mark) (item : ℕ) → trims item mark ≡ false
        → floor (marks ++ mark ∷ []) item ≡ floor marks item }
    ensures low { (marks : List Mark) (item : ℕ) → is_legal marks ≡ true → floor marks item ≤ latest marks item }
{}

/// A law: what is read. Each reply Version answers a Get of exactly that item, is the version that
/// was asked for, and has the value that was written. Each Get of an item that is placed here is
/// answered so, or by Gone.
pub fn gets_read_what_is_written()
    ensures version { (partition : PartitionState) (message : Message) (item stamp : ℕ) (value : Value)
        → (action_of partition message).reply ≡ Some (Reply.Version item stamp value)
        → IsReadOf partition message item stamp value }
    ensures answered { (partition : PartitionState) (message : Message) (item : ℕ) (stamps : List ℕ)
        → message.body ≡ Body.Request (Request.Get item stamps)
        → is_part message.to partition.number ≡ true
        → place_of partition.parts item ≡ partition.number
        → ((stamp : ℕ) × (value : Value)
        × ((action_of partition message).reply ≡ Some (Reply.Version item stamp value)))
        ⊎ ((action_of partition message).reply ≡ Some (Reply.Gone item)) }
    ensures gone { (partition : PartitionState) (message : Message) (item : ℕ)
        → (action_of partition message).reply ≡ Some (Reply.Gone item)
        → IsGoneFor partition.marks message item }
{}

/// A law: at which stamp an item is read, by the versions that are kept. With no stamps given it is
/// the latest, and never gone. With stamps given it is the greatest of them at which a version is
/// kept; where there is none, 0 as long as the item's floor is 0, and from then on it is gone.
pub fn gets_read_what_is_kept()
    ensures latest { (marks : List Mark) (item : ℕ)
        → is_legal marks ≡ true → read_at marks item [] ≡ Some (latest marks item) }
    ensures kept { (marks : List Mark) (item stamp : ℕ) (stamps : List ℕ)
        → read_at marks item (stamp ∷ stamps)
        ≡ unless_gone (best_of (has_kept_version marks item) (stamp ∷ stamps)) (floor marks item) }
{}

/// A law: which writes a Prepare that can be followed has. It gives a value to exactly those of its
/// items that are placed at the partition, in any order.
pub fn proper_writes_are_those_placed_here()
    ensures placed { (number parts stamp : ℕ) (writes : List Row) (items : List ℕ) (item : ℕ)
        → is_proper number parts stamp writes items ≡ true
        → IsTrue (is_some (value_in writes item)) ↔ (Contains items item × (place_of parts item ≡ number)) }
    ensures order { (number parts stamp : ℕ) (writes others : List Row) (items : List ℕ)
        → IsPermutation writes others
        → is_proper number parts stamp writes items ≡ is_proper number parts stamp others items }
{}

/// A law: a partition replies Full only where it is full, and only of a stamp that is unknown
/// there. It replies so to each Check, and to each Prepare that it could follow otherwise.
pub fn full_has_its_cause()
    ensures only { (partition : PartitionState) (message : Message) (stamp : ℕ)
        → (action_of partition message).reply ≡ Some (Reply.Full stamp)
        → (is_full partition.limit partition.marks ≡ true)
        × (state_of partition.marks stamp ≡ StampState.Unknown) }
    ensures check { (partition : PartitionState) (stamp : ℕ) → stamp ≢ 0
        → is_full partition.limit partition.marks ≡ true
        → state_of partition.marks stamp ≡ StampState.Unknown
        → on_check partition stamp ≡ says (Reply.Full stamp) }
    ensures prepare { (partition : PartitionState) (stamp : ℕ) (writes : List Row) (items : List ℕ)
        → is_proper partition.number partition.parts stamp writes items ≡ true
        → is_full partition.limit partition.marks ≡ true
        → state_of partition.marks stamp ≡ StampState.Unknown
        → on_prepare partition stamp writes items ≡ says (Reply.Full stamp) }
{}

/// A law: where a partition is full it stays so, and a stamp that is unknown there stays unknown,
/// whatever message comes; and nothing can be trimmed then. So a stamp for which there was no room
/// once is never prepared there.
pub fn full_stays()
    ensures full { (partition : PartitionState) (message : Message) → IsPartition partition
        → is_full partition.limit partition.marks ≡ true
        → is_full partition.limit (after partition message).marks ≡ true }
    ensures unknown { (partition : PartitionState) (message : Message) (stamp : ℕ)
        → is_full partition.limit partition.marks ≡ true
        → state_of partition.marks stamp ≡ StampState.Unknown
        → state_of (after partition message).marks stamp ≡ StampState.Unknown }
    ensures trimmed { (old new : PartitionState) (item : ℕ)
        → is_full old.limit old.marks ≡ true → trimmed old item ≡ Ok new → new ≡ old }
{}

/// A law: no update is lost, in a history where each version was made on the latest while none was
/// pending. At most one version of an item is pending, above the latest. Versions are committed in the
/// order of their stamps. A version that is committed was made on the one right below it: the latest as
/// it was prepared. That was the base of the Prepare.
pub fn no_update_is_lost()
    ensures one_pending { (marks : List Mark) (item t u : ℕ) → is_legal marks ≡ true → is_chained marks ≡ true
        → state_of marks t ≡ StampState.Pending → has_version marks item t ≡ true
        → state_of marks u ≡ StampState.Pending → has_version marks item u ≡ true → t ≡ u }
    ensures above { (marks : List Mark) (item t : ℕ) → is_legal marks ≡ true → is_chained marks ≡ true
        → state_of marks t ≡ StampState.Pending → has_version marks item t ≡ true → latest marks item < t }
    ensures rising { (before later : List Mark) (stamp item : ℕ)
        → is_legal (before ++ Made.Committed stamp ∷ later) ≡ true
        → is_chained (before ++ Made.Committed stamp ∷ later) ≡ true
        → has_version before item stamp ≡ true
        → (latest before item < stamp) × (latest (before ++ Made.Committed stamp ∷ []) item ≡ stamp) }
    ensures made_on { (before later : List Mark) (stamp : ℕ) (writes : List Row) (items : List ℕ) (item : ℕ)
        → is_legal (before ++ Made.Prepared stamp writes items ∷ later) ≡ true
        → is_chained (before ++ Made.Prepared stamp writes items ∷ later) ≡ true
        → state_of (before ++ Made.Prepared stamp writes items ∷ later) stamp ≡ StampState.Committed
        → is_some (value_in writes item) ≡ true
        → IsMadeOn (before ++ Made.Prepared stamp writes items ∷ later) item stamp (latest before item) }
    ensures bases { (marks : List Mark) (stamp : ℕ) (writes : List Row) (bases : List ℕ) (pair : Row × ℕ)
        → are_bases marks stamp writes bases ≡ true → Contains (zip writes bases) pair
        → pair.1 ≡ latest marks pair.0.0 }
    ensures replied { (partition : PartitionState) (message : Message) (stamp : ℕ) (writes : List Row)
        (items bases : List ℕ) (t : ℕ)
        → message.body ≡ Body.Request (Request.PrepareOn stamp writes items bases)
        → (action_of partition message).reply ≡ Some (Reply.Prepared t)
        → ((after partition message).marks ≡ partition.marks ++ Made.Prepared stamp writes items ∷ [])
        × (are_bases partition.marks stamp writes bases ≡ true) }
    ensures checked { (partition : PartitionState) (message : Message)
        → IsPartition partition → partition.checked ≡ true
        → is_chained (after partition message).marks ≡ true }
{}
