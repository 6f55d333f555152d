//! The table of answers: what a partition does with each message, decided before anything is kept.
ghost use Rattle.std.specs.Prelude.{◌≡◌, ◌≤◌, true, Bool, IfOk, if◌then◌else◌};
ghost use Rattle.std.specs.Option.{option_copied, unwrap_or};
ghost use Rattle.album_items.specs.declared.values.Value.TheVariants.{Missing};
ghost use Rattle.album_partition.specs.Answers.{Does, nothing, says, marks, marks_and_says, prepare_by, prepare_on_by, on_prepare_on, commit_by, check_by, mark_by, is_same, says_version, on_body, on_request, on_prepare, on_commit, on_check, on_get, on_reply, on_status, on_vote, on_prepared, on_vote_of, mark_with};
ghost use Rattle.album_partition.specs.Bases.{are_bases};
ghost use Rattle.album_partition.specs.History.{is_kept};
ghost use Rattle.album_partition.specs.Marks.{state_of, is_full, floor};
ghost use Rattle.album_partition.specs.Partition.{value_at};
ghost use Rattle.album_partition.specs.Proper.{is_proper, is_proper_on};

use crate::marks::Mark;
use crate::partition::Partition;
use crate::proper::is_proper;
use crate::votes::{Noted, heard_with, new_vote};
use album_calls::{Body, Node, Reply, Request, Stamps, Vote, same_items, same_values};
use album_items::{ItemId, ItemValues, Items, SharedValue};
use album_stamps::Stamp;
use album_terminate::{Decision, StampState, decide};
use std::alloc::AllocError;
use std::marker::Model;

/// What a message does at a partition: the mark that it makes, the vote that is noted, and the reply.
#[derive(Debug, Drop)]
pub(super) struct Action {
    pub(super) mark: Option<Mark>,
    pub(super) vote: Option<Noted>,
    pub(super) reply: Option<Reply>,
}

impl Model for Action {
    ghost use Rattle.album_partition.specs.Answers.{Action as ActionOf};

    ghost Value = { ActionOf };

    ghost view = { λ e. record { mark = e.mark; vote = e.vote; reply = e.reply } };
}

impl Action {
    pub(super) fn nothing() -> Action
        ensures { result ≡ nothing }
    {
        Action {
            mark: None,
            vote: None,
            reply: None,
        }
    }

    fn says(reply: Reply) -> Action
        ensures { result ≡ says reply }
    {
        Action {
            mark: None,
            vote: None,
            reply: Some(reply),
        }
    }

    pub(super) fn marks(mark: Mark) -> Action
        ensures { result ≡ marks mark }
    {
        Action {
            mark: Some(mark),
            vote: None,
            reply: None,
        }
    }

    fn marks_and_says(mark: Mark, reply: Reply) -> Action
        ensures { result ≡ marks_and_says mark reply }
    {
        Action {
            mark: Some(mark),
            vote: None,
            reply: Some(reply),
        }
    }
}

impl Partition {
    /// What the message does that this node sends.
    pub(super) fn on_body(&self, from: Node, body: &Body) -> Result<Action, AllocError>
        ensures { Does result (on_body self.now from body.now) }
    {
        match body {
            Body::Request(request) => self.on_request(request),
            Body::Reply(reply) => self.on_reply(from, reply),
        }
    }

    fn on_request(&self, request: &Request) -> Result<Action, AllocError>
        ensures { Does result (on_request self.now request.now) }
    {
        match request {
            Request::Prepare(stamp, writes, items) if !self.checked => {
                self.on_prepare(*stamp, writes, items)
            }
            Request::PrepareOn(stamp, writes, items, bases) if self.checked => {
                self.on_prepare_on(*stamp, writes, items, bases)
            }
            Request::Prepare(_, _, _) | Request::PrepareOn(_, _, _, _) => {
                Ok(Action::says(Reply::Clash))
            }
            Request::Commit(stamp) => Ok(self.on_commit(*stamp)),
            Request::Get(item, stamps) => self.on_get(*item, stamps),
            Request::Check(stamp) => Ok(self.on_check(*stamp)),
        }
    }

    /// A Prepare that isn't well-formed (`proper`) clashes. What any other does goes by the state of its stamp.
    fn on_prepare(
        &self,
        stamp: Stamp,
        writes: &ItemValues,
        items: &Items,
    ) -> Result<Action, AllocError>
        ensures { Does result (on_prepare self.now stamp writes.now items.now) }
    {
        if !self.is_proper(stamp, writes, items) {
            return Ok(Action::says(Reply::Clash));
        }
        match self.state(stamp) {
            StampState::Unknown => self.prepare(stamp, writes, items),
            StampState::Pending | StampState::Committed => {
                Ok(self.prepare_again(stamp, writes, items))
            }
            StampState::Discarded => Ok(Action::says(Reply::Discarded(stamp))),
        }
    }

    /// Whether the Prepare can be followed here.
    fn is_proper(&self, stamp: Stamp, writes: &ItemValues, items: &Items) -> bool
        ensures { result ≡ is_proper self.now.number self.now.parts stamp writes.now items.now }
    {
        is_proper(self.seat, stamp, writes.as_slice(), items.as_slice())
    }

    /// A stamp that is unknown here is prepared, if there is room.
    fn prepare(
        &self,
        stamp: Stamp,
        writes: &ItemValues,
        items: &Items,
    ) -> Result<Action, AllocError>
        ensures { (same : Bool) → Does result (prepare_by
            (is_full self.now.limit self.now.marks) same StampState.Unknown stamp writes.now items.now) }
    {
        if self.is_full() {
            return Ok(Action::says(Reply::Full(stamp)));
        }
        let mark = Mark::prepared(stamp, writes, items)?;
        Ok(Action::marks_and_says(mark, Reply::Prepared(stamp)))
    }

    /// A stamp that is prepared here already, and is pending or committed.
    fn prepare_again(&self, stamp: Stamp, writes: &ItemValues, items: &Items) -> Action
        requires { is_kept (state_of self.now.marks stamp) ≡ true }
        ensures { result ≡ (if is_same self.now.marks stamp writes.now items.now
            then says (Reply.Prepared stamp) else says Reply.Clash) }
    {
        let stored = &self.stored;
        if same_values(writes.as_slice(), stored.writes(stamp))
            && same_items(items.as_slice(), stored.items(stamp))
        {
            Action::says(Reply::Prepared(stamp))
        } else {
            Action::says(Reply::Clash)
        }
    }

    /// A checked Prepare. It is sent once, so that a second one clashes.
    fn on_prepare_on(
        &self,
        stamp: Stamp,
        writes: &ItemValues,
        items: &Items,
        bases: &Stamps,
    ) -> Result<Action, AllocError>
        requires { self.now.checked ≡ true }
        ensures { Does result (on_prepare_on self.now stamp writes.now items.now bases.now) }
    {
        if !self.is_proper_on(stamp, writes, items, bases) {
            return Ok(Action::says(Reply::Clash));
        }
        let reply = match self.state(stamp) {
            StampState::Unknown => return self.prepare_on(stamp, writes, items, bases),
            StampState::Pending | StampState::Committed => Reply::Clash,
            StampState::Discarded => Reply::Discarded(stamp),
        };
        Ok(Action::says(reply))
    }

    /// Whether the checked Prepare can be followed here.
    fn is_proper_on(&self, stamp: Stamp, writes: &ItemValues, items: &Items, bases: &Stamps) -> bool
        ensures { result
            ≡ is_proper_on self.now.number self.now.parts stamp writes.now items.now bases.now }
    {
        self.is_proper(stamp, writes, items) && writes.as_slice().len() == bases.as_slice().len()
    }

    /// A stamp that is unknown here is prepared where its bases are the latest versions, and else promised
    /// against, if there is room.
    fn prepare_on(
        &self,
        stamp: Stamp,
        writes: &ItemValues,
        items: &Items,
        bases: &Stamps,
    ) -> Result<Action, AllocError>
        requires { self.now.checked ≡ true }
        ensures { Does result (prepare_on_by (is_full self.now.limit self.now.marks)
            (are_bases self.now.marks stamp writes.now bases.now) StampState.Unknown stamp writes.now items.now) }
    {
        if self.is_full() {
            return Ok(Action::says(Reply::Full(stamp)));
        }
        if !self
            .stored
            .are_bases(stamp, writes.as_slice(), bases.as_slice())
        {
            let discarded = Reply::Discarded(stamp);
            return Ok(Action::marks_and_says(Mark::Discarded(stamp), discarded));
        }
        let mark = Mark::prepared(stamp, writes, items)?;
        Ok(Action::marks_and_says(mark, Reply::Prepared(stamp)))
    }

    /// Whether there is no room for a stamp more.
    pub(super) fn is_full(&self) -> bool
        ensures { result ≡ is_full self.now.limit self.now.marks }
    {
        self.limit < self.stored.load() + 2
    }

    fn on_commit(&self, stamp: Stamp) -> Action
        ensures { result ≡ on_commit self.now stamp }
    {
        if stamp.value() == 0 {
            return Action::says(Reply::Clash);
        }
        commit_by(self.state(stamp), stamp)
    }

    fn on_check(&self, stamp: Stamp) -> Action
        ensures { result ≡ on_check self.now stamp }
    {
        if stamp.value() == 0 {
            return Action::says(Reply::Clash);
        }
        check_by(self.is_full(), self.state(stamp), stamp)
    }

    fn on_get(&self, item: ItemId, stamps: &Stamps) -> Result<Action, AllocError>
        ensures { Does result (on_get self.now item stamps.now) }
    {
        if !self.seat.has(item) {
            return Ok(Action::says(Reply::Clash));
        }
        match self.stored.read_at(item, stamps.as_slice()) {
            None => Ok(Action::says(Reply::Gone(item))),
            Some(stamp) => self.says_version(item, stamp),
        }
    }

    /// The item, as it is read at the stamp.
    fn says_version(&self, item: ItemId, stamp: Stamp) -> Result<Action, AllocError>
        requires { floor self.now.marks item ≤ stamp }
        ensures { Does result (says_version self.now item stamp) }
    {
        let value = clone_or(self.value_at(item, stamp), self.items.missing())?;
        Ok(Action::says(Reply::Version(item, stamp, value)))
    }

    /// The item's value at the stamp: at the zero stamp its first value.
    fn value_at(&self, item: ItemId, stamp: Stamp) -> Option<&SharedValue>
        requires { floor self.now.marks item ≤ stamp }
        ensures { unwrap_or (option_copied result) Missing ≡ value_at self.now item stamp }
    {
        if stamp.value() == 0 {
            self.items.value(item)
        } else {
            self.stored.value(item, stamp)
        }
    }

    /// A vote is the one reply that a partition takes.
    fn on_reply(&self, from: Node, reply: &Reply) -> Result<Action, AllocError>
        ensures { Does result (on_reply self.now from reply.now) }
    {
        match reply {
            Reply::Status(stamp, vote) => self.on_status(from, *stamp, *vote),
            Reply::Prepared(_)
            | Reply::Committed(_)
            | Reply::Discarded(_)
            | Reply::Version(_, _, _)
            | Reply::NotPrepared(_)
            | Reply::Clash
            | Reply::Full(_)
            | Reply::Gone(_) => Ok(Action::nothing()),
        }
    }

    /// A vote counts where the stamp is pending here.
    fn on_status(&self, from: Node, stamp: Stamp, vote: Vote) -> Result<Action, AllocError>
        ensures { Does result (on_status self.now from stamp vote) }
    {
        match self.state(stamp) {
            StampState::Pending => self.on_vote(from, stamp, vote),
            StampState::Unknown | StampState::Committed | StampState::Discarded => {
                Ok(Action::nothing())
            }
        }
    }

    /// Committed and Never settle the stamp, whoever says so: that is `decide`'s decision for them, too.
    fn on_vote(&self, from: Node, stamp: Stamp, vote: Vote) -> Result<Action, AllocError>
        requires { state_of self.now.marks stamp ≡ StampState.Pending }
        ensures { Does result (on_vote self.now from stamp vote) }
    {
        match vote {
            Vote::Prepared => self.on_prepared(from, stamp),
            Vote::Committed => Ok(Action::marks(Mark::Committed(stamp))),
            Vote::Never => Ok(Action::marks(Mark::Discarded(stamp))),
        }
    }

    /// A vote Prepared counts where it comes from one of the partitions of the items.
    fn on_prepared(&self, from: Node, stamp: Stamp) -> Result<Action, AllocError>
        requires { state_of self.now.marks stamp ≡ StampState.Pending }
        ensures { Does result (on_prepared self.now from stamp) }
    {
        match from {
            Node::Part(part) if self.seat.lies_at(part, self.stored.items(stamp)) => {
                self.on_vote_of(part, stamp)
            }
            Node::Part(_) | Node::Client(_) => Ok(Action::nothing()),
        }
    }

    /// The partition's vote is noted, and settles the stamp if it was the last that was waited for.
    fn on_vote_of(&self, part: u16, stamp: Stamp) -> Result<Action, AllocError>
        requires { state_of self.now.marks stamp ≡ StampState.Pending }
        ensures { Does result (on_vote_of self.now part stamp) }
    {
        // A vote that was heard already changes nothing: had all been heard, the stamp would not be
        // pending. So it takes no memory either.
        let Some(vote) = new_vote(&self.votes, stamp, part) else {
            return Ok(Action::nothing());
        };
        let mark = self.mark_with(part, stamp)?;
        Ok(Action {
            mark,
            vote: Some(vote),
            reply: None,
        })
    }

    /// The mark that the partition's vote makes.
    fn mark_with(&self, part: u16, stamp: Stamp) -> Result<Option<Mark>, AllocError>
        requires { state_of self.now.marks stamp ≡ StampState.Pending }
        ensures { IfOk result (λ mark. mark ≡ mark_with self.now part stamp) }
    {
        let others = self.seat.others_of(self.alloc, self.stored.items(stamp))?;
        let heard = heard_with(self.alloc, part, &self.votes, stamp)?;
        let decision = decide(Vote::Prepared, &heard, &others);
        Ok(mark_by(decision, stamp))
    }
}

/// What a Commit does, by the state of its stamp.
fn commit_by(state: StampState, stamp: Stamp) -> Action
    ensures { result ≡ commit_by state stamp }
{
    match state {
        StampState::Unknown => Action::says(Reply::NotPrepared(stamp)),
        StampState::Pending => {
            Action::marks_and_says(Mark::Committed(stamp), Reply::Committed(stamp))
        }
        StampState::Committed => Action::says(Reply::Committed(stamp)),
        StampState::Discarded => Action::says(Reply::Discarded(stamp)),
    }
}

/// What a Check does, by the state of its stamp. Where there is room, an unknown stamp is discarded,
/// so that it is never prepared here after this vote.
fn check_by(full: bool, state: StampState, stamp: Stamp) -> Action
    ensures { result ≡ check_by full state stamp }
{
    match state {
        StampState::Unknown if full => Action::says(Reply::Full(stamp)),
        StampState::Unknown => {
            let never = Reply::Status(stamp, Vote::Never);
            Action::marks_and_says(Mark::Discarded(stamp), never)
        }
        StampState::Pending => Action::says(Reply::Status(stamp, Vote::Prepared)),
        StampState::Committed => Action::says(Reply::Status(stamp, Vote::Committed)),
        StampState::Discarded => Action::says(Reply::Status(stamp, Vote::Never)),
    }
}

/// The value once more, or the other one.
fn clone_or(value: Option<&SharedValue>, other: &SharedValue) -> Result<SharedValue, AllocError>
    ensures { IfOk result (λ copy. copy ≡ unwrap_or (option_copied value.entry) other.now) }
{
    match value {
        None => other.clone(),
        Some(value) => value.clone(),
    }
}

/// The mark that decides the stamp: none where the decision is to wait.
fn mark_by(decision: Decision, stamp: Stamp) -> Option<Mark>
    ensures { result ≡ mark_by decision stamp }
{
    match decision {
        Decision::Wait => None,
        Decision::Commit => Some(Mark::Committed(stamp)),
        Decision::Discard => Some(Mark::Discarded(stamp)),
    }
}
