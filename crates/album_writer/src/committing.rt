//! A write whose Commits are sent.
ghost use Rattle.std.specs.Prelude.{◌≡◌, ◌≢◌, List, [], ◌∷◌, ◌++◌};
ghost use Rattle.album_calls.specs.declared.messages.Message.{Message};
ghost use Rattle.album_writer.specs.Given.{replied_round, commit_step_after};
ghost use Rattle.album_writer.specs.Rounds.{commit_stepped};
ghost use Rattle.album_writer.specs.Rounds.WriteStep.{Waits};
ghost use Rattle.album_writer.specs.Steps.{step_of_commits};
ghost use Rattle.album_writer.specs.Counting.{IsStrayToCommits};
ghost use Rattle.album_writer.specs.WriteReplies.{is_committed_reply};

use crate::outcomes::Outcome;
use crate::write_replies::WriteReply;
use crate::writing::Writing;
use album_calls::Message;
use album_permits::Permit;
use album_stamps::Stamp;
use std::marker::Model;

/// A write whose Commits are sent: the second phase of a two-phase commit, as in PUT_ALL of RAMP-Small (Bailis et al.,
/// SIGMOD 2014, Algorithm 2). It can't be copied; dropping it leaves the write as it is. Contracts see the permit that
/// was spent on it, its stamp, its client and tag, how many partitions there are, and the participants whose replies
/// are outstanding.
#[derive(Debug)]
pub struct Committing {
    writing: Writing,
}

impl Model for Committing {
    ghost use Rattle.std.specs.Prelude.{◌≢◌, []};
    ghost use Rattle.album_writer.specs.Writing.{WritingState};

    ghost Value = { WritingState };

    ghost view = { λ c. c.writing };

    ghost invariant = { λ c. c.writing.outstanding ≢ [] };
}

// By hand, so that what lets it go is proved here, and not again in each crate above.
impl Drop for Committing {
    fn drop(self) {
        let Committing { writing } = self;
        drop(writing);
    }
}

/// The step that a message makes.
#[derive(Debug, Drop)]
pub enum CommitStep {
    /// The write waits for more replies.
    Same(Committing),
    /// The write is over.
    Ended(Outcome),
}

impl Committing {
    /// The round of Commits of this write.
    pub(crate) fn of(writing: Writing) -> Committing
        requires { writing.outstanding ≢ [] }
        ensures { result ≡ writing }
    {
        Committing { writing }
    }

    /// Takes a message. With the last participant's Committed the write is committed. It takes no memory.
    pub fn on_reply(self, message: &Message) -> CommitStep
        ensures step { step_of_commits result ≡ commit_stepped self message.now }

        // Where the round is that after a list of messages, the step is that after these and this one: the write is
        // committed once each participant has replied Committed in one of them.
        ensures all_given { (given : List Message) → self ≡ replied_round is_committed_reply self given
            → step_of_commits result ≡ commit_step_after self given message.now }

        // Nothing else changes anything.
        ensures stray { IsStrayToCommits self message.now → step_of_commits result ≡ Waits self }
    {
        let Committing { writing } = self;
        Committing::take(writing, message)
    }

    /// The permit that was spent on the write.
    pub fn permit(&self) -> &Permit
        ensures { result.now ≡ self.now.permit }
    {
        self.writing.permit()
    }

    /// The stamp at which it writes.
    pub fn stamp(&self) -> Stamp
        ensures { result ≡ self.now.stamp }
    {
        self.writing.stamp()
    }

    /// The tag of its Commits.
    pub fn tag(&self) -> u64
        ensures { result ≡ self.now.tag }
    {
        self.writing.tag()
    }

    /// The step that a message makes in a round that is not over.
    fn take(mut writing: Writing, message: &Message) -> CommitStep
        requires { writing.outstanding ≢ [] }
        ensures { step_of_commits result ≡ commit_stepped writing message.now }
    {
        match writing.reply_in(message) {
            WriteReply::Committed => {
                writing.answered_by(message.from());
                if writing.is_over() {
                    CommitStep::Ended(Outcome::Committed(writing.stamp()))
                } else {
                    CommitStep::Same(Committing::of(writing))
                }
            }
            WriteReply::Prepared | WriteReply::Discarded | WriteReply::Full | WriteReply::Nothing =>
                { CommitStep::Same(Committing::of(writing)) }
        }
    }
}
