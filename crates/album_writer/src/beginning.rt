//! How a write begins.
ghost use Rattle.std.specs.Prelude.{◌≡◌, ◌+◌, ◌<◌, ◌≤◌, ◌^◌, Some, IfOk, IfErr, IsTrue, IsOkUnless, true, false, if◌then◌else◌};
ghost use Rattle.album_stamps.specs.Stamps.{client_of};
ghost use Rattle.album_stamps.specs.declared.refusals.Refusal.TheVariants.{OutOfMemory, AlbumFull};
ghost use Rattle.album_permits.specs.Effects.{is_full_for};
ghost use Rattle.album_views.specs.Asks.{is_write};
ghost use Rattle.album_writer.specs.Writing.{places_in, prepare_round, prepares_of, commit_round, commits_of};

use crate::preparing::Preparing;
use crate::writing::Writing;
use album_calls::Message;
use album_permits::Permit;
use album_stamps::{ClientNo, MAX_PARTS, Refusal, Refused, Stamp};
use std::alloc::Global;

impl Preparing {
    /// Spends the permit on a write at the stamp. The messages are one Prepare to each participant, in rising order.
    /// Each has exactly the writes that are placed there, and the items of the whole write. Together they are what the
    /// permit's ask writes at the stamp. The Commits are made here too, with all room, so nothing later wants memory.
    ///
    /// This begins PUT_ALL of RAMP-Small (Bailis et al., SIGMOD 2014, Algorithm 2): a Prepare to each participant, and
    /// a Commit to each once all have prepared. It differs in three ways. A Prepare has the items of the whole write:
    /// by these a partition finds the others if the client stops. A participant may reply Full where it has no room.
    /// It may reply Discarded, where it has voted against the stamp meanwhile: then nothing is committed anywhere.
    ///
    /// # Errors
    ///
    /// `AlbumFull` exactly where the album that gets a child has `MAX_CHILDREN` others; else `OutOfMemory`. The permit
    /// is handed back.
    pub fn begin(
        alloc: Global,
        permit: Permit,
        stamp: Stamp,
        client: ClientNo,
        tag: u64,
        parts: u16,
    ) -> Result<(Preparing, Vec<Message>), Refused<Permit>>
        requires change { IsTrue (is_write permit.view.ask) }
        requires own { client_of stamp ≡ Some client }
        requires low { 1 ≤ parts }
        requires high { parts ≤ MAX_PARTS }
        requires low_tag { 1 ≤ tag }
        requires high_tag { tag + 1 < 2 ^ 64 }
        ensures preparing { IfOk result (λ r. r.0 ≡ prepare_round false permit stamp client tag parts) }
        ensures messages { IfOk result (λ r.
            r.1.items ≡ prepares_of (prepare_round false permit stamp client tag parts)) }
        ensures room { IfOk result (λ _. is_full_for permit stamp ≡ false) }
        ensures refusal { IfErr result (λ e.
            e.refusal ≡ (if is_full_for permit stamp then AlbumFull else OutOfMemory)) }
        ensures given { IfErr result (λ e. e.given ≡ permit) }
    {
        Preparing::spend(alloc, false, permit, stamp, client, tag, parts)
    }

    /// The same in a checked store. Each Prepare has the bases of its writes too: the stamps at which its author's view
    /// had the items, and 0 for a new one. A partition keeps the writes only where each base is its item's latest
    /// version still, so what came between is not overwritten.
    ///
    /// # Errors
    ///
    /// As of `begin`.
    pub fn begin_checked(
        alloc: Global,
        permit: Permit,
        stamp: Stamp,
        client: ClientNo,
        tag: u64,
        parts: u16,
    ) -> Result<(Preparing, Vec<Message>), Refused<Permit>>
        requires change { IsTrue (is_write permit.view.ask) }
        requires own { client_of stamp ≡ Some client }
        requires low { 1 ≤ parts }
        requires high { parts ≤ MAX_PARTS }
        requires low_tag { 1 ≤ tag }
        requires high_tag { tag + 1 < 2 ^ 64 }
        ensures preparing { IfOk result (λ r. r.0 ≡ prepare_round true permit stamp client tag parts) }
        ensures messages { IfOk result (λ r.
            r.1.items ≡ prepares_of (prepare_round true permit stamp client tag parts)) }
        ensures room { IfOk result (λ _. is_full_for permit stamp ≡ false) }
        ensures refusal { IfErr result (λ e.
            e.refusal ≡ (if is_full_for permit stamp then AlbumFull else OutOfMemory)) }
        ensures given { IfErr result (λ e. e.given ≡ permit) }
    {
        Preparing::spend(alloc, true, permit, stamp, client, tag, parts)
    }

    /// Spends the permit on a write, checked or not.
    fn spend(
        alloc: Global,
        checked: bool,
        permit: Permit,
        stamp: Stamp,
        client: ClientNo,
        tag: u64,
        parts: u16,
    ) -> Result<(Preparing, Vec<Message>), Refused<Permit>>
        requires change { IsTrue (is_write permit.view.ask) }
        requires low { 1 ≤ parts }
        requires high { parts ≤ MAX_PARTS }
        requires high_tag { tag + 1 < 2 ^ 64 }
        ensures preparing { IfOk result (λ r. r.0 ≡ prepare_round checked permit stamp client tag parts) }
        ensures messages { IfOk result (λ r.
            r.1.items ≡ prepares_of (prepare_round checked permit stamp client tag parts)) }
        ensures room { IfOk result (λ _. is_full_for permit stamp ≡ false) }
        ensures refusal { IfErr result (λ e.
            e.refusal ≡ (if is_full_for permit stamp then AlbumFull else OutOfMemory)) }
        ensures given { IfErr result (λ e. e.given ≡ permit) }
    {
        let writes = permit.effect(alloc, stamp)?;
        let writing = Writing::first(alloc, checked, writes, client, tag, parts)?;
        match plan_of(alloc, &writing) {
            Ok(
                Plan {
                    prepares,
                    commits,
                    later,
                },
            ) => Ok((Preparing::of(writing, commits, later), prepares)),
            Err(refusal) => Err(Refused {
                refusal,
                given: writing.give_up(),
            }),
        }
    }
}

/// What a write sends, and the participants whose replies to its Commits will be outstanding.
#[derive(Drop)]
struct Plan {
    prepares: Vec<Message>,
    commits: Vec<Message>,
    later: Vec<u16>,
}

fn plan_of(alloc: Global, writing: &Writing) -> Result<Plan, Refusal>
    requires { writing.now.tag + 1 < 2 ^ 64 }
    ensures prepares { IfOk result (λ plan. plan.prepares.items ≡ prepares_of writing.now) }
    ensures commits { IfOk result (λ plan. plan.commits.items ≡ commits_of (commit_round writing.now)) }
    ensures later { IfOk result (λ plan. plan.later.items ≡ places_in writing.now) }
    ensures memory { IsOkUnless result Refusal.OutOfMemory }
{
    let prepares = writing.prepares(alloc)?;
    let commits = writing.commits(alloc)?;
    let later = Vec::from_slice(alloc, writing.places())?;
    Ok(Plan {
        prepares,
        commits,
        later,
    })
}
