//! A partition's vote on a stamp, and its decision by the votes of the others.
ghost use Rattle.std.specs.Prelude.{◌≡◌, ◌↔◌, ◌⊎◌, All, Contains};
ghost use Rattle.album_terminate.specs.Deciding.{vote_of, have_voted, decision_of};

use album_calls::Vote;

/// The state of a stamp at a partition.
#[derive(Clone, Copy, Debug, PartialEq, Eq)]
pub enum StampState {
    /// Nothing is kept of it.
    Unknown,
    /// It is prepared, and neither committed nor discarded.
    Pending,
    /// Its writes can be read.
    Committed,
    /// Its writes were let go, or it was never prepared and never will be.
    Discarded,
}

/// What a partition does with a stamp that is pending there.
#[derive(Clone, Copy, Debug, PartialEq, Eq)]
pub enum Decision {
    /// Not each of the others has voted Prepared yet.
    Wait,
    /// Its writes are to be read.
    Commit,
    /// Its writes are let go.
    Discard,
}

/// The partition's vote, for another that asks. Once it has voted `Never`, it must not prepare the stamp.
pub fn vote_of(state: StampState) -> Vote
    ensures vote { result ≡ vote_of state }
    ensures prepared { (result ≡ Vote.Prepared) ↔ (state ≡ StampState.Pending) }
    ensures committed { (result ≡ Vote.Committed) ↔ (state ≡ StampState.Committed) }
    ensures never { (result ≡ Vote.Never)
        ↔ ((state ≡ StampState.Unknown) ⊎ (state ≡ StampState.Discarded)) }
{
    match state {
        StampState::Pending => Vote::Prepared,
        StampState::Committed => Vote::Committed,
        StampState::Unknown | StampState::Discarded => Vote::Never,
    }
}

/// What a partition does with its pending stamp as another of the stamp's partitions votes. `others`
/// are all of the stamp's partitions but this one, and `heard` are those that have voted that it is
/// prepared there, the one that votes now included. One that has committed decides, and so does one
/// that never will. Where each is prepared, it is committed.
///
/// This is the decision of the cooperative termination of RAMP transactions (Bailis et al., SIGMOD 2014), for writes
/// whose client has stopped. It differs in three ways. A partition asks by a Check when it is swept, and by no timer.
/// It notes each vote, so the votes may come one by one. One that knows nothing of the stamp keeps its vote `Never`
/// as a mark, for which there has to be room: else it replies Full, and nothing is decided by that.
#[tactic(auto, using(crate::proofs::Voting::have_voted_decides))]
pub fn decide(vote: Vote, heard: &[u16], others: &[u16]) -> Decision
    ensures decision { result ≡ decision_of vote heard.now others.now }
    ensures commit { (result ≡ Decision.Commit)
        ↔ ((vote ≡ Vote.Committed) ⊎ ((vote ≡ Vote.Prepared) × All (Contains heard.now) others.now)) }
    ensures discard { (result ≡ Decision.Discard) ↔ (vote ≡ Vote.Never) }
{
    match vote {
        Vote::Committed => Decision::Commit,
        Vote::Never => Decision::Discard,
        Vote::Prepared if have_voted(heard, others) => Decision::Commit,
        Vote::Prepared => Decision::Wait,
    }
}

/// Whether each of the others is among those that were heard.
fn have_voted(heard: &[u16], others: &[u16]) -> bool
    ensures { result ≡ have_voted heard.now others.now }
{
    others.iter().all(|other| heard.contains(other))
}
