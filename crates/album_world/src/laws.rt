//! What holds of every run of a world: of every list of events, from any opening.
ghost use Rattle.std.specs.Prelude.{◌≡◌, ◌≢◌, ◌<◌, ◌≤◌, ℕ, Bool, List, [], ◌∷◌, true, false, Ok, Some, Contains};
ghost use Rattle.std.specs.List.{list_any};
ghost use Rattle.album_lists.specs.declared.lists.Ace.{Ace};
ghost use Rattle.album_items.specs.ItemIds.{album, group, kind_of, list};
ghost use Rattle.album_items.specs.Openings.{greatest_number, is_base_opening};
ghost use Rattle.album_items.specs.Values.{children_of, head_of, home_of, members_of};
ghost use Rattle.album_items.specs.declared.openings.Opening.{Opening};
ghost use Rattle.album_items.specs.declared.values.Head.{Head};
ghost use Rattle.album_items.specs.declared.values.Value.{Value};
ghost use Rattle.album_items.specs.declared.values.Value.TheVariants as value;
ghost use Rattle.album_partition.specs.Marks.{discards};
ghost use Rattle.album_reader.specs.Answers.{ReadVersion};
ghost use Rattle.album_views.specs.Seen.{seen};
ghost use Rattle.album_listing.specs.Fields.{content_field, title_field};
ghost use Rattle.album_permits.specs.Permits.{PermitState};
ghost use Rattle.album_permits.specs.Serving.{IsServed};
ghost use Rattle.album_permits.specs.declared.findings.Finding.{Finding};
ghost use Rattle.album_permits.specs.declared.notes.Note.{Note};
ghost use Rattle.album_permits.specs.declared.serving.Served.{Served};
ghost use Rattle.album_client.specs.Terms.{Terms, terms_of};
ghost use Rattle.album_client.specs.Grants.{served_for};
ghost use Rattle.album_client.specs.Steps.{Transaction, TransitionState};
ghost use Rattle.album_world.specs.Atomic.{NoViewHoldsAPartOfAShare, ViewsAreReadAtomic};
ghost use Rattle.album_world.specs.Busy.{BusyHasItsCause};
ghost use Rattle.album_world.specs.Changes.Change.{AtClient};
ghost use Rattle.album_world.specs.Changes.{change_of};
ghost use Rattle.album_world.specs.Committing.{history, IsCommittedAt};
ghost use Rattle.album_world.specs.Events.{IsNoteKept, IsRemembered, IsTidy};
ghost use Rattle.album_world.specs.Fresh.{ViewsAreFresh};
ghost use Rattle.album_world.specs.Granted.{WritesAreGranted};
ghost use Rattle.album_world.specs.Outcomes.{IsOfWrite, OutcomesAreTrue};
ghost use Rattle.album_world.specs.Past.{PastAnswer, Read, World, last_begun};
ghost use Rattle.album_world.specs.Requests.{AnswersAreToRequests};
ghost use Rattle.album_world.specs.Rulings.{RulingsHold};
ghost use Rattle.album_world.specs.Runs.{changed, happens, run, run_of, event_outputs, past_answer};
ghost use Rattle.album_world.specs.State.{Now, client_at, is_stopped};
ghost use Rattle.album_world.specs.Staying.{IsKeptBetween, IsKeptWhole, IsLaterVersion, IsMadeFrom, IsVersion};
ghost use Rattle.album_world.specs.Staying.{NoneBetween, Passes};
ghost use Rattle.album_world.specs.Staying.{HandsOver, SetsContent, SetsList, SetsMembers, SetsTitle, TakesOut};
ghost use Rattle.album_world.specs.Updates.{NoUpdateIsLost};
ghost use Rattle.album_world.specs.OutputsOnce.{AreGivenOnce, run_outputs};
ghost use Rattle.album_permits.specs.Meaning.{Finds};
ghost use Rattle.album_permits.specs.declared.events.Event.{Event as Happening};
ghost use Rattle.album_permits.specs.declared.events.Event.TheVariants as Event;
ghost use Rattle.album_permits.specs.declared.answers.Answer.{Answer as Answered};
ghost use Rattle.album_permits.specs.declared.answers.Answer.TheVariants as answer;
ghost use Rattle.album_permits.specs.declared.outs.Out.TheVariants as Out;

/// A law: rulings hold. Each note, and each answer Served, Denied, Missing, Committed, Aborted, Unsettled or Refused,
/// is what the written policy says of the closed view that its client had read last. The policy is the opening's. It
/// looks at that view's lists, owners and groups.
pub fn rulings_hold()
    ensures { (opening : Opening) (events : List Happening) → is_base_opening opening ≡ true
        → RulingsHold (terms_of opening) (run_of opening events) }
{}

/// A law: the written policy finds one thing of a view. So what is granted is never denied, and what is denied is
/// never granted.
pub fn one_finding_of_a_view()
    ensures { (case : PermitState) (one other : Finding) → Finds case one → Finds case other → one ≡ other }
{}

/// A law: what is computed to be served of a granted view is served.
pub fn what_is_served_is_what_is_asked()
    ensures { (permit : PermitState) (served : Served)
        → served_for permit permit.view.ask ≡ Some served → IsServed permit served }
{}

/// A law: writes are granted. A client begins each write on a closed view whose ruling is Granted. It writes exactly
/// the effect of that grant, at a stamp greater than all that it saw. Each version of a partition is of exactly one of
/// these writes.
pub fn writes_are_granted()
    ensures { (opening : Opening) (events : List Happening) → is_base_opening opening ≡ true
        → WritesAreGranted (terms_of opening) (run_of opening events) }
{}

/// A law: views are read atomic, and so is every snapshot that a client finishes. No two of its rows fracture it. Each
/// value is what a committed write wrote at its stamp, or the opening's value.
pub fn views_are_read_atomic()
    ensures { (opening : Opening) (events : List Happening) → is_base_opening opening ≡ true
        → ViewsAreReadAtomic opening (run_of opening events) }
{}

/// A law: no view holds a part of a share. Where a view has one of the lists and groups of a share as the share wrote
/// it, it has each other of them, if it has it, as the share wrote it or as a later write did.
pub fn no_view_holds_a_part_of_a_share()
    ensures { (opening : Opening) (events : List Happening) → is_base_opening opening ≡ true
        → NoViewHoldsAPartOfAShare (run_of opening events) }
{}

/// A law: views are fresh. Each item's stamp is at least that of every write that its partition had committed
/// before the event that began the view's read.
pub fn views_are_fresh()
    ensures { (opening : Opening) (events : List Happening) → is_base_opening opening ≡ true
        → ViewsAreFresh (terms_of opening) (run_of opening events) }
{}

/// A law: outcomes are true. A write that was answered Committed is committed at each participant. Where the answer was
/// Aborted, a participant has promised against the write; where it was Unsettled, a participant was full. No partition
/// has committed either of these, nobody has read it, and this never changes. Refused is answered only where the album
/// is full or the client's clock is spent.
pub fn outcomes_are_true()
    ensures { (opening : Opening) (events : List Happening) → is_base_opening opening ≡ true
        → OutcomesAreTrue (terms_of opening) (run_of opening events) }
{}

/// A law: no update is lost in a world that opened checked. Of each item at most one version is pending, and that is
/// above the latest. Each committed version was made on the one that the view of its own write shows: that is the
/// opening's or is committed, and is the next one below. So no write undoes one that its author did not see.
pub fn no_update_is_lost()
    ensures { (opening : Opening) (events : List Happening) → is_base_opening opening ≡ true
        → NoUpdateIsLost opening (run_of opening events) }
{}

/// A law: what is committed stays in a world that opened checked. Each later version of an item is made from it, by one
/// committed write after another, each on a view that shows the one before. So what a test finds true of it is true of
/// each later one, unless a write in between makes it false: one whose view still shows it true. The opening's values
/// stay in the same way.
pub fn what_is_committed_stays()
    ensures versions { (opening : Opening) (events : List Happening) (item first last : ℕ) (was is : Value)
        → is_base_opening opening ≡ true
        → opening.checked ≡ true
        → IsLaterVersion opening (run_of opening events) item first last was is
        → IsMadeFrom (terms_of opening) (run_of opening events) item first was last is }
    ensures tests { (opening : Opening) (events : List Happening) (test : Value → Bool) (item first last : ℕ)
        (was is : Value)
        → is_base_opening opening ≡ true
        → opening.checked ≡ true
        → IsLaterVersion opening (run_of opening events) item first last was is
        → IsKeptBetween (terms_of opening) (run_of opening events) (Passes test) item first last
        → Passes test was
        → Passes test is }
{}

/// A law: acknowledged writes stay in a world that opened checked. In any world an answer Committed acknowledges a
/// committed version of each item that was written, and what a client reads is such a version, or the opening's. What
/// one version has, each later one has too, unless a committed write in between is asked to change it. An album keeps a
/// child that is neither deleted nor moved, and a picture its home. An object, which is no list, keeps its title, its
/// content and its head, with the owner, the head group and the list, unless it is deleted or these are set. A list
/// keeps its entries, and a group its members, unless they are set. What is deleted stays so.
pub fn acknowledged_writes_stay()
    ensures acknowledged { (opening : Opening) (events : List Happening) (given : PastAnswer) (stamp : ℕ)
        → is_base_opening opening ≡ true
        → Contains (run_of opening events).past.answers given
        → given.answer ≡ answer.Committed stamp
        → IsOfWrite (run_of opening events) given.client stamp
        (IsKeptWhole (terms_of opening) (run_of opening events)) }
    ensures read { (opening : Opening) (events : List Happening) (read : Read) (rows : List ReadVersion)
        (row : ReadVersion)
        → is_base_opening opening ≡ true
        → Contains (run_of opening events).past.reads read
        → read.rows ≡ Some rows
        → Contains rows row
        → IsVersion opening (run_of opening events) row.item row.stamp row.value }
    ensures children { (opening : Opening) (events : List Happening) (number child first last : ℕ) (was is : Value)
        → is_base_opening opening ≡ true
        → opening.checked ≡ true
        → IsLaterVersion opening (run_of opening events) (album number) first last was is
        → NoneBetween (terms_of opening) (run_of opening events) (λ by. TakesOut child by.permit.view.ask)
        (album number) first last
        → Contains (children_of was) child
        → Contains (children_of is) child }
    ensures titles { (opening : Opening) (events : List Happening) (object first last : ℕ) (was is : Value)
        (title : List ℕ)
        → is_base_opening opening ≡ true
        → opening.checked ≡ true
        → kind_of object ≢ 2
        → IsLaterVersion opening (run_of opening events) object first last was is
        → NoneBetween (terms_of opening) (run_of opening events) (λ by. SetsTitle object by.permit.view.ask)
        object first last
        → title_field was ≡ Some title
        → title_field is ≡ Some title }
    ensures contents { (opening : Opening) (events : List Happening) (object first last : ℕ) (was is : Value)
        (content : List ℕ)
        → is_base_opening opening ≡ true
        → opening.checked ≡ true
        → kind_of object ≢ 2
        → IsLaterVersion opening (run_of opening events) object first last was is
        → NoneBetween (terms_of opening) (run_of opening events) (λ by. SetsContent object by.permit.view.ask)
        object first last
        → content_field was ≡ Some content
        → content_field is ≡ Some content }
    ensures homes { (opening : Opening) (events : List Happening) (object first last : ℕ) (was is : Value)
        (home : ℕ)
        → is_base_opening opening ≡ true
        → opening.checked ≡ true
        → kind_of object ≢ 2
        → IsLaterVersion opening (run_of opening events) object first last was is
        → NoneBetween (terms_of opening) (run_of opening events) (λ by. TakesOut object by.permit.view.ask)
        object first last
        → home_of was ≡ home ∷ []
        → home_of is ≡ home ∷ [] }
    ensures heads { (opening : Opening) (events : List Happening) (object first last : ℕ) (was is : Value)
        (head : Head)
        → is_base_opening opening ≡ true
        → opening.checked ≡ true
        → kind_of object ≢ 2
        → IsLaterVersion opening (run_of opening events) object first last was is
        → NoneBetween (terms_of opening) (run_of opening events) (λ by. HandsOver object by.permit.view.ask)
        object first last
        → head_of was ≡ Some head
        → head_of is ≡ Some head }
    ensures lists { (opening : Opening) (events : List Happening) (number first last : ℕ) (was is : Value)
        (entries : List Ace)
        → is_base_opening opening ≡ true
        → opening.checked ≡ true
        → IsLaterVersion opening (run_of opening events) (list number) first last was is
        → NoneBetween (terms_of opening) (run_of opening events)
        (λ by. SetsList (seen by.permit.view.rows) (list number) by.permit.view.ask) (list number) first last
        → was ≡ value.List entries
        → is ≡ value.List entries }
    ensures members { (opening : Opening) (events : List Happening) (number first last : ℕ) (was is : Value)
        → is_base_opening opening ≡ true
        → opening.checked ≡ true
        → IsLaterVersion opening (run_of opening events) (group number) first last was is
        → was ≢ value.Missing
        → NoneBetween (terms_of opening) (run_of opening events)
        (λ by. SetsMembers (group number) by.permit.view.ask) (group number) first last
        → members_of is ≡ members_of was }
    ensures deleted { (opening : Opening) (events : List Happening) (object first last : ℕ) (was is : Value)
        → is_base_opening opening ≡ true
        → opening.checked ≡ true
        → kind_of object ≢ 2
        → first ≢ 0
        → IsLaterVersion opening (run_of opening events) object first last was is
        → was ≡ value.Missing
        → is ≡ value.Missing }
{}

/// A law: Busy has its cause. It is Wide only where the read set after a finished read is too large. It is Rounds only
/// where the last read that an ask may have found an item gone, or its snapshot is not closed and names no more items
/// than can be read.
pub fn busy_has_its_cause()
    ensures { (opening : Opening) (events : List Happening) → is_base_opening opening ≡ true
        → BusyHasItsCause (terms_of opening) (run_of opening events) }
{}

/// A law: answers are to requests. Each answer is the only answer to a request of its client. It rests on what was read
/// for that request alone, after the request was made. An outcome is that of the one write that was begun for the
/// request; with any other answer, no write was begun. No client makes a request before its last one is answered.
pub fn answers_are_to_requests()
    ensures { (opening : Opening) (events : List Happening) → is_base_opening opening ≡ true
        → AnswersAreToRequests (terms_of opening) (run_of opening events) }
{}

/// A law: each stamp that is drawn is above every number that the opening has or names, and above each stamp of the
/// epochs before. So no stamp is drawn twice, and no object is made with the number of another.
pub fn stamps_are_above_the_opening()
    ensures { (opening : Opening) (events : List Happening) (by : Transaction) → is_base_opening opening ≡ true
        → Contains (run_of opening events).past.transactions by → greatest_number opening.first < by.stamp }
{}

/// A law: what one partition has committed, no partition has discarded.
pub fn committed_is_never_discarded()
    ensures { (opening : Opening) (events : List Happening) (stamp part other : ℕ) → is_base_opening opening ≡ true
        → IsCommittedAt (run_of opening events) stamp part
        → list_any (discards stamp) (history (run_of opening events) other) ≡ false }
{}

/// A law: the answers and notes that an event outputs are in the past of the world after it, with the read that the
/// client had made last. So each of the promises is about the outputs of events.
pub fn outputs_are_in_the_past()
    ensures answers { (terms : Terms) (world : World) (event : Happening) (client : ℕ) (answer : Answered)
        → Contains (event_outputs terms world event) (Out.Answered client answer)
        → Contains (happens terms world event).past.answers
        (past_answer (happens terms world event).past.reads client answer) }
    ensures notes { (terms : Terms) (world : World) (event : Happening) (client : ℕ) (note : Note)
        → Contains (event_outputs terms world event) (Out.Noted client note)
        → IsNoteKept (happens terms world event) client note }
{}

/// A law: each answer, each note and each message is output once. The outputs of an event, and those of a run of
/// events, are exactly what the past has more after them, in the same order.
pub fn each_output_is_given_once()
    ensures event { (terms : Terms) (world : World) (event : Happening)
        → AreGivenOnce world (happens terms world event) (event_outputs terms world event) }
    ensures run { (terms : Terms) (world : World) (events : List Happening)
        → AreGivenOnce world (run terms world events) (run_outputs terms world events) }
{}

/// A law: nothing of the past is forgotten, whatever happens. So a promise about an answer holds for good.
pub fn the_past_is_remembered()
    ensures { (terms : Terms) (world : World) (events : List Happening) → IsRemembered world (run terms world events) }
{}

/// A law: the partitions that the past has for a read are those right before the event that began it.
pub fn a_read_begins_with_its_partitions()
    ensures { (world : World) (client : ℕ) (transition : TransitionState) → transition.reads ≡ true
        → (last_begun (changed world (AtClient client transition)).past.begun client).partitions
        ≡ world.now.partitions }
{}

/// A law: a client whose ask is answered begins no write at that event. Its clock sees nothing where no view is ruled
/// on, and is never set back. It draws the stamp of each write that begins, above all that it drew or saw.
pub fn transitions_are_tidy()
    ensures { (terms : Terms) (now : Now) (event : Happening) (client : ℕ) (transition : TransitionState)
        → change_of terms now event ≡ Ok (AtClient client transition)
        → IsTidy (client_at now.clients client) transition }
{}

/// A law: a clock is never set back, whatever happens. So no stamp is drawn twice.
pub fn clocks_rise()
    ensures { (terms : Terms) (world : World) (events : List Happening) (client : ℕ)
        → (client_at world.now.clients client).clock.counter
        ≤ (client_at (run terms world events).now.clients client).clock.counter }
{}

/// A law: a stopped client stays stopped, whatever happens, and does nothing more.
pub fn stops_are_for_good()
    ensures stopped { (terms : Terms) (world : World) (client : ℕ)
        → is_stopped (happens terms world (Event.Stop client)).now client ≡ true }
    ensures stays { (terms : Terms) (world : World) (events : List Happening) (client : ℕ)
        → is_stopped world.now client ≡ true → is_stopped (run terms world events).now client ≡ true }
    ensures still { (terms : Terms) (now : Now) (event : Happening) (client : ℕ) (transition : TransitionState)
        → change_of terms now event ≡ Ok (AtClient client transition) → is_stopped now client ≡ false }
{}
