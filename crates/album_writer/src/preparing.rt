//! A write whose Prepares are sent.
ghost use Rattle.std.specs.Prelude.{◌≡◌, ◌≤◌, List, [], ◌∷◌, ◌++◌, length};
ghost use Rattle.album_stamps.specs.declared.limits.TheConstants.{MAX_PARTS};
ghost use Rattle.album_calls.specs.declared.messages.Message.{Message};
ghost use Rattle.album_writer.specs.Given.{replied_round, prepare_step_after};
ghost use Rattle.album_writer.specs.Ready.{IsReady};
ghost use Rattle.album_writer.specs.Rounds.{prepare_stepped};
ghost use Rattle.album_writer.specs.Rounds.WriteStep.{Waits};
ghost use Rattle.album_writer.specs.Steps.{step_of_prepares};
ghost use Rattle.album_writer.specs.Counting.{IsStrayToPrepares};
ghost use Rattle.album_writer.specs.WriteReplies.{is_prepared_reply};
ghost use Rattle.album_writer.specs.Writing.{places_in};

use crate::committing::Committing;
use crate::outcomes::Outcome;
use crate::write_replies::WriteReply;
use crate::writing::Writing;
use album_calls::Message;
use album_permits::Permit;
use album_stamps::Stamp;
use std::marker::Model;

/// A write whose Prepares are sent: the first phase of a two-phase commit, as in PUT_ALL of RAMP-Small (Bailis et al.,
/// SIGMOD 2014, Algorithm 2). It can't be copied; dropping it leaves the write as it is. Contracts see the permit that
/// was spent on it, its stamp, its client and tag, how many partitions there are, and the participants whose replies
/// are outstanding. Its Commits are made already, so that no message to it takes memory.
#[derive(Debug)]
pub struct Preparing {
    writing: Writing,
    commits: Vec<Message>,
    later: Vec<u16>,
}

impl Model for Preparing {
    ghost use Rattle.album_writer.specs.Ready.{IsReady};
    ghost use Rattle.album_writer.specs.Writing.{WritingState};

    ghost Value = { WritingState };

    ghost view = { λ p. p.writing };

    ghost invariant = { λ p. IsReady p.writing p.commits.items p.later.items };
}

// By hand, so that what lets it go is proved here, and not again in each crate above.
impl Drop for Preparing {
    fn drop(self) {
        let Preparing {
            writing,
            commits,
            later,
        } = self;
        drop(writing);
        drop(commits);
        drop(later);
    }
}

/// The step that a message makes.
#[derive(Debug, Drop)]
pub enum PrepareStep {
    /// The write waits for more replies.
    Same(Preparing),
    /// Each participant has prepared, and these messages are the Commits.
    Commit(Committing, Vec<Message>),
    /// The write is over.
    Ended(Outcome),
}

impl Preparing {
    /// The round of Prepares of this write, with its Commits and a second list of the participants, whose replies to
    /// the Commits will be outstanding.
    pub(crate) fn of(writing: Writing, commits: Vec<Message>, later: Vec<u16>) -> Preparing
        requires { IsReady writing commits.items later.items }
        ensures { result ≡ writing }
    {
        Preparing {
            writing,
            commits,
            later,
        }
    }

    /// Takes a message. The last participant's Prepared gives the Commits, one for each, under the tag one above. A
    /// Discarded or a Full of the stamp from a participant ends the write, even from one that has prepared. It takes no
    /// memory.
    pub fn on_reply(self, message: &Message) -> PrepareStep
        ensures step { step_of_prepares result ≡ prepare_stepped self message.now }

        // Where the round is that after a list of messages, the step is that after these and this one: the Commits come
        // once each participant has replied Prepared in one of them.
        ensures all_given { (given : List Message) → self ≡ replied_round is_prepared_reply self given
            → step_of_prepares result ≡ prepare_step_after self given message.now }

        // Nothing else changes anything.
        ensures stray { IsStrayToPrepares self message.now → step_of_prepares result ≡ Waits self }
    {
        let Preparing {
            writing,
            commits,
            later,
        } = self;
        Preparing::take(writing, commits, later, message)
    }

    /// The permit that was spent on the write.
    pub fn permit(&self) -> &Permit
        ensures { result.now ≡ self.now.permit }
    {
        self.writing.permit()
    }

    /// The stamp at which it writes.
    pub fn stamp(&self) -> Stamp
        ensures { result ≡ self.now.stamp }
    {
        self.writing.stamp()
    }

    /// The tag of its Prepares.
    pub fn tag(&self) -> u64
        ensures { result ≡ self.now.tag }
    {
        self.writing.tag()
    }

    /// How many participants there are, and so how many Commits it may send.
    #[tactic(auto, using(crate::proofs::Placing::few_places))]
    pub fn count(&self) -> usize
        ensures count { result ≡ length (places_in self.now) }
        ensures few { result ≤ MAX_PARTS }
    {
        self.writing.places().len()
    }

    /// The step that a message makes in a round that is not over.
    fn take(
        mut writing: Writing,
        commits: Vec<Message>,
        later: Vec<u16>,
        message: &Message,
    ) -> PrepareStep
        requires { IsReady writing commits.items later.items }
        ensures { step_of_prepares result ≡ prepare_stepped writing message.now }
    {
        match writing.reply_in(message) {
            WriteReply::Prepared => {
                writing.answered_by(message.from());
                if writing.is_over() {
                    PrepareStep::Commit(Committing::of(writing.next(later)), commits)
                } else {
                    PrepareStep::Same(Preparing::of(writing, commits, later))
                }
            }
            WriteReply::Discarded => PrepareStep::Ended(Outcome::Aborted(writing.stamp())),
            WriteReply::Full => PrepareStep::Ended(Outcome::Full(writing.stamp())),
            WriteReply::Committed | WriteReply::Nothing => {
                PrepareStep::Same(Preparing::of(writing, commits, later))
            }
        }
    }
}
