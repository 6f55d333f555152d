//! Laws of a write.
ghost use Rattle.std.specs.Prelude.{◌≡◌, ◌≢◌, ◌<◌, ◌≤◌, ◌↔◌, ◌⊎◌, ◌++◌, ℕ, Bool, false, List, [], ◌∷◌, IsTrue, AllPairs, Contains};
ghost use Rattle.album_items.specs.ItemIds.{place_of};
ghost use Rattle.album_items.specs.Openings.{Row};
ghost use Rattle.album_items.specs.Places.{places_of, rows_placed_at};
ghost use Rattle.album_calls.specs.declared.messages.Message.{Message};
ghost use Rattle.album_calls.specs.declared.replies.Reply.TheVariants.{Prepared, Committed, Discarded, Full};
ghost use Rattle.album_reader.specs.Snapshots.{items_read};
ghost use Rattle.album_views.specs.Views.{IsView};
ghost use Rattle.album_permits.specs.Permits.{PermitState};
ghost use Rattle.album_permits.specs.Rights.{IsNew};
ghost use Rattle.album_writer.specs.declared.outcomes.Outcome.{Outcome};
ghost use Rattle.album_writer.specs.declared.outcomes.Outcome.TheVariants as outcome;
ghost use Rattle.album_writer.specs.Bases.{IsOnBases, IsPlain};
ghost use Rattle.album_writer.specs.Counting.{IsReplyTo, IsLastOf, IsStrayToPrepares, IsStrayToCommits};
ghost use Rattle.album_writer.specs.Given.{replied_round, prepare_step_after, commit_step_after};
ghost use Rattle.album_writer.specs.Rounds.{prepare_stepped, commit_stepped};
ghost use Rattle.album_writer.specs.Rounds.WriteStep.{Waits, Commits, Ends};
ghost use Rattle.album_writer.specs.WriteReplies.{is_prepared_reply, is_committed_reply};
ghost use Rattle.album_writer.specs.Writing.{WritingState, items_in, prepares_of, prepare_round, commit_round, commits_of};

/// A law: each write goes where its item is placed, and all writes go. The participants rise, so each is there once;
/// they are exactly the partitions of the items; and each write is at its own partition and at no other.
pub fn writes_go_to_their_places()
    ensures rising { (parts : ℕ) (items : List ℕ) → AllPairs (λ a b. a < b) (places_of parts items) }
    ensures participants { (parts place : ℕ) (items : List ℕ) → 1 ≤ parts
        → Contains (places_of parts items) place ↔ ((item : ℕ) × Contains items item × (place_of parts item ≡ place)) }
    ensures placed { (parts place : ℕ) (writes : List Row) (write : Row)
        → Contains (rows_placed_at place parts writes) write
        ↔ (Contains writes write × (place_of parts write.0 ≡ place)) }
{}

/// A law: each Prepare of a checked write names the base of each of its writes, in their order: the stamp at which the
/// view of the permit shows the item. One of a write that is not checked names none. What the view doesn't show has the
/// base 0, and is new: so no base is a guess.
pub fn checked_writes_name_their_bases()
    ensures checked { (writing : WritingState) (message : Message) → IsTrue writing.checked
        → Contains (prepares_of writing) message → IsOnBases writing message }
    ensures plain { (writing : WritingState) (message : Message) → writing.checked ≡ false
        → Contains (prepares_of writing) message → IsPlain writing message }
    ensures shown { (writing : WritingState) (item : ℕ) → IsView writing.permit.view
        → Contains (items_in writing) item
        → Contains (items_read writing.permit.view.rows) item ⊎ IsNew writing.permit writing.stamp item }
{}

/// A law: each round begins as the round after no message. The step of a message is the step after all messages that
/// were given in the round and this one. So a write's state depends on these messages alone.
pub fn a_write_depends_on_its_replies()
    ensures first { (checked : Bool) (permit : PermitState) (stamp client tag parts : ℕ)
        → prepare_round checked permit stamp client tag parts
        ≡ replied_round is_prepared_reply (prepare_round checked permit stamp client tag parts) [] }
    ensures second { (writing : WritingState)
        → commit_round writing ≡ replied_round is_committed_reply (commit_round writing) [] }
    ensures prepares { (writing : WritingState) (given : List Message) (message : Message)
        → prepare_stepped (replied_round is_prepared_reply writing given) message
        ≡ prepare_step_after writing given message }
    ensures commits { (writing : WritingState) (given : List Message) (message : Message)
        → commit_stepped (replied_round is_committed_reply writing given) message
        ≡ commit_step_after writing given message }
{}

/// A law: which reply leads to the next round, and which ends the write. The Commits come exactly with the last
/// participant's Prepared, and the write is committed exactly with the last Committed. A round of Prepares ends the
/// write exactly where a participant replies Discarded or Full, whatever it replied before.
pub fn a_write_ends_by_its_replies()
    ensures commits { (writing : WritingState) (given : List Message) (message : Message)
        → (prepare_stepped (replied_round is_prepared_reply writing given) message
        ≡ Commits (commit_round writing) (commits_of (commit_round writing)))
        ↔ IsLastOf (Prepared writing.stamp) writing given message }
    ensures its_own { (writing next : WritingState) (message : Message) (messages : List Message)
        → prepare_stepped writing message ≡ Commits next messages
        → (next ≡ commit_round writing) × (messages ≡ commits_of (commit_round writing)) }
    ensures over { (writing : WritingState) (message : Message) (end : Outcome)
        → prepare_stepped writing message ≡ Ends end
        → ((end ≡ outcome.Aborted writing.stamp) × IsReplyTo writing message (Discarded writing.stamp))
        ⊎ ((end ≡ outcome.Full writing.stamp) × IsReplyTo writing message (Full writing.stamp)) }
    ensures aborted { (writing : WritingState) (message : Message)
        → IsReplyTo writing message (Discarded writing.stamp)
        → prepare_stepped writing message ≡ Ends (outcome.Aborted writing.stamp) }
    ensures full { (writing : WritingState) (message : Message)
        → IsReplyTo writing message (Full writing.stamp)
        → prepare_stepped writing message ≡ Ends (outcome.Full writing.stamp) }
    ensures committed { (writing : WritingState) (given : List Message) (message : Message)
        → (commit_stepped (replied_round is_committed_reply writing given) message
        ≡ Ends (outcome.Committed writing.stamp))
        ↔ IsLastOf (Committed writing.stamp) writing given message }
    ensures no_other { (writing : WritingState) (message : Message) (end : Outcome)
        → commit_stepped writing message ≡ Ends end → end ≡ outcome.Committed writing.stamp }
{}

/// A law: the messages that leave a round as it is are exactly the strays, whose definition names each case.
pub fn a_message_counts_or_is_stray()
    ensures prepares { (writing : WritingState) (message : Message) → writing.outstanding ≢ []
        → IsStrayToPrepares writing message ↔ (prepare_stepped writing message ≡ Waits writing) }
    ensures commits { (writing : WritingState) (message : Message) → writing.outstanding ≢ []
        → IsStrayToCommits writing message ↔ (commit_stepped writing message ≡ Waits writing) }
{}
