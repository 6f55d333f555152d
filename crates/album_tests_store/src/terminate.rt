//! Votes, and what is decided by them (docs/PROTOCOL.md, "How a pending write is settled").
use crate::messages::{same, stamp_of, texts_of};
use album_calls::Vote;
use album_stamps::Refusal;
use album_terminate::{Decision, StampState, checks, decide, vote_of};
use std::alloc::Global;
use std::test::Fail;

#[test]
fn votes(rt: HostRuntime) {
    for (state, vote) in [
        (StampState::Unknown, Vote::Never),
        (StampState::Pending, Vote::Prepared),
        (StampState::Committed, Vote::Committed),
        (StampState::Discarded, Vote::Never),
    ] {
        assert_eq!(rt; vote_of(state), vote);
    }
}

const DECISIONS: &[(Vote, &[u16], &[u16], Decision)] = &[
    (Vote::Committed, &[], &[2], Decision::Commit),
    (Vote::Never, &[2], &[2], Decision::Discard),
    (Vote::Prepared, &[2], &[2], Decision::Commit),
    (Vote::Prepared, &[1], &[1, 2], Decision::Wait),
    (Vote::Prepared, &[2, 1, 2], &[1, 2], Decision::Commit),
];

#[test]
fn decisions(rt: HostRuntime) {
    for (vote, heard, others, decision) in DECISIONS {
        assert_eq!(rt; decide(*vote, heard, others), *decision);
    }
}

fn checks_text(alloc: Global, others: &[u16]) -> Result<String, Refusal> {
    let messages = checks(alloc, 0, others, stamp_of(65537)?)?;
    texts_of(alloc, &messages)
}

#[test]
fn checks_to_others(rt: HostRuntime) -> Result<(), Fail> {
    let text = checks_text(rt.alloc(), &[1, 2]);
    same(&rt, text, "p0 p1 0 check 65537; p0 p2 0 check 65537; ")
}
