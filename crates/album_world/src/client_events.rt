//! What a client does at one event: it asks, or it takes a message. Where memory runs out the client stays as it was.
//! So a step that takes memory works on a copy of the phase.
ghost use Rattle.std.specs.Prelude.{◌≡◌, ◌≢◌, ◌<◌, ◌≤◌, ◌^◌, [], length, Err, IsOk, IfOk, IfErr, IsOkAnd, IsOkUnless, MatchResult, OnErr, true, ℕ};
ghost use Rattle.album_stamps.specs.declared.limits.TheConstants.{MAX_PARTS, MAX_READ_ITEMS};
ghost use Rattle.album_client.specs.Transitions.{client_of, IsMoved};
ghost use Rattle.album_client.specs.Terms.{Terms as TheTerms};
ghost use Rattle.album_client.specs.Steps.{is_waiting, TransitionState, transition_of};
ghost use Rattle.album_world.specs.Changes.{client_takes_by};
ghost use Rattle.album_world.specs.Moves.{idle_tag, room_of, is_writing, IsChangedBy, IsInstalled};
ghost use Rattle.album_world.specs.Registers.{asks_of};

use crate::outputs::{noted, push_outputs};
use album_calls::Message;
use album_client::{Client, ClientStep, PendingAsk, Phase, Terms, Transition};
use album_eval::Principal;
use album_permits::Out;
use album_reader::Reading;
use album_stamps::Refusal;
use album_views::Ask;
use std::alloc::Global;
use std::mem;

/// Whether the client may ask this, on behalf of the principal.
///
/// # Errors
///
/// `ClientBusy` where it waits for an answer; else the first test of the ask that fails.
#[tactic(auto, using(crate::proofs::CheckLemmas::check_takes_none))]
pub(crate) fn may_ask(
    client: &Client,
    terms: Terms,
    principal: &Principal,
    ask: &Ask,
) -> Result<(), Refusal>
    ensures may { MatchResult result
        (λ _. IsOk (asks_of terms client.now.number client.now principal.now ask.now))
        (λ e. asks_of terms client.now.number client.now principal.now ask.now ≡ Err e) }
    ensures not_memory { IfErr result (λ e. e ≢ Refusal.OutOfMemory) }
{
    match &client.phase {
        Phase::Idle(_) => ask.check(principal),
        Phase::Reads(_, _) | Phase::Prepares(_) | Phase::Commits(_) => Err(Refusal::ClientBusy),
    }
}

/// The client asks what it may ask, on behalf of the principal. The result is its messages and all outputs. `before`
/// messages were sent before.
///
/// # Errors
///
/// `OutOfMemory`: nothing has changed then.
#[tactic(auto, using(crate::proofs::CheckLemmas::is_idle, crate::proofs::CheckLemmas::is_taken))]
pub(crate) fn ask(
    client: &mut Client,
    alloc: Global,
    terms: Terms,
    principal: &Principal,
    ask: &Ask,
    before: u64,
) -> Result<(Vec<Message>, Vec<Out>), Refusal>
    requires fits { before < 2 ^ 63 }
    requires may { IsOk (asks_of terms client.old.number client.old principal.now ask.now) }
    ensures done { IfOk result (λ r.
        IsOkAnd (asks_of terms client.old.number client.old principal.now ask.now)
        (λ change. IsChangedBy before client.old change client.new r.0.items r.1.items)) }
    ensures few { IfOk result (λ r. length r.0.items ≤ MAX_READ_ITEMS) }
    ensures number { client.new.number ≡ client.old.number }
    ensures memory { IsOkUnless result Refusal.OutOfMemory }
    ensures unchanged { OnErr result (client.new ≡ client.old) }
{
    let Some(tag) = idle_tag(client) else {
        // A client that may ask is idle (`requires may`).
        unreachable!()
    };
    let transition = client
        .client_step(alloc, terms)
        .ask(tag, principal.copy()?, ask.copy()?)?;
    install(client, alloc, before, transition)
}

/// The client takes a message. The result is its messages and all outputs. `before` messages were sent before.
///
/// # Errors
///
/// `OutOfMemory`: nothing has changed then.
pub(crate) fn take(
    client: &mut Client,
    alloc: Global,
    terms: Terms,
    message: &Message,
    before: u64,
) -> Result<(Vec<Message>, Vec<Out>), Refusal>
    requires { before < 2 ^ 63 }
    ensures done { IfOk result (λ r. IsChangedBy before client.old
        (client_takes_by terms client.old.number client.old message.now client.old.phase)
        client.new r.0.items r.1.items) }
    ensures few { IfOk result (λ r. length r.0.items ≤ MAX_READ_ITEMS) }
    ensures number { client.new.number ≡ client.old.number }
    ensures memory { IsOkUnless result Refusal.OutOfMemory }
    ensures unchanged { OnErr result (client.new ≡ client.old) }
{
    match &client.phase {
        Phase::Idle(_) => Ok((Vec::new(alloc), Vec::new(alloc))),
        Phase::Reads(pending_ask, reading) => {
            if reading.is_ended_by(message) {
                let client_step = client.client_step(alloc, terms);
                let transition = read_transition(client_step, pending_ask, reading, message)?;
                install(client, alloc, before, transition)
            } else {
                continue_read(client, message)?;
                Ok((Vec::new(alloc), Vec::new(alloc)))
            }
        }
        Phase::Prepares(preparing) => {
            let room = preparing.count();
            continue_write(client, alloc, terms, message, before, room)
        }
        Phase::Commits(_) => continue_write(client, alloc, terms, message, before, 0),
    }
}

/// The transition of a read at a message.
fn read_transition(
    client_step: ClientStep,
    pending_ask: &PendingAsk,
    reading: &Reading,
    message: &Message,
) -> Result<Transition, Refusal>
    ensures transition { IfOk result (IsMoved (transition_of client_step.terms (client_of client_step) message.now
        (Phase.Reads pending_ask.now reading.now))) }
    ensures memory { IsOkUnless result Refusal.OutOfMemory }
{
    let pending_ask = pending_ask.copy()?;
    match reading.copy() {
        Ok(reading) => client_step.take(Phase::Reads(pending_ask, reading), message),
        Err(refusal) => {
            drop(pending_ask);
            Err(refusal)
        }
    }
}

/// The tag of the client's last round, if it is idle.
fn idle_tag(client: &Client) -> Option<u64>
    ensures { result ≡ idle_tag client.now.phase }
{
    match &client.phase {
        Phase::Idle(tag) => Some(*tag),
        Phase::Reads(_, _) | Phase::Prepares(_) | Phase::Commits(_) => None,
    }
}

/// Installs the client's next state, and gives its messages and all outputs. What takes memory comes first, so that the
/// client is unchanged where memory runs out.
fn install(
    client: &mut Client,
    alloc: Global,
    before: u64,
    transition: Transition,
) -> Result<(Vec<Message>, Vec<Out>), Refusal>
    requires { before < 2 ^ 63 }
    ensures installed { (due : TransitionState) → IsMoved due transition
        → IfOk result (λ r. IsInstalled before client.old.number due client.new r.0.items r.1.items) }
    ensures few { IfOk result (λ r. length r.0.items ≤ MAX_READ_ITEMS) }
    ensures memory { IsOkUnless result Refusal.OutOfMemory }
    ensures unchanged { OnErr result (client.new ≡ client.old) }
{
    let number = client.number;
    let count = transition.sent.len();
    match noted(alloc, number, &transition.notes, count + 1) {
        Ok(mut outs) => {
            let Transition {
                client: next,
                notes,
                sent,
                answer,
            } = transition;
            drop(notes);
            replace_client(client, next);
            push_outputs(&mut outs, before, number, count, answer);
            Ok((sent, outs))
        }
        Err(_) => {
            drop(transition);
            Err(Refusal::OutOfMemory)
        }
    }
}

fn replace_client(client: &mut Client, next: Client)
    ensures { client.new ≡ next }
{
    drop(mem::replace(client, next));
}

/// Takes a message that doesn't end the round of the client's read. Most messages of a read don't, so this is done in
/// place, without a copy.
fn continue_read(client: &mut Client, message: &Message) -> Result<(), Refusal>
    requires { is_waiting client.old.phase message.now ≡ true }
    ensures done { (terms : TheTerms) (before : ℕ) → IfOk result (λ _. IsChangedBy before client.old
        (client_takes_by terms client.old.number client.old message.now client.old.phase) client.new [] []) }
    ensures number { client.new.number ≡ client.old.number }
    ensures memory { IsOkUnless result Refusal.OutOfMemory }
    ensures unchanged { OnErr result (client.new ≡ client.old) }
{
    client.phase.take_in_place(message)?;
    Ok(())
}

/// Takes a message in a write. A write can't be copied. So it takes the message only once there is room for all
/// outputs, and takes no memory after that. `room` is how many messages it may send.
fn continue_write(
    client: &mut Client,
    alloc: Global,
    terms: Terms,
    message: &Message,
    before: u64,
    room: usize,
) -> Result<(Vec<Message>, Vec<Out>), Refusal>
    requires many { before < 2 ^ 63 }
    requires writing { is_writing client.old.phase ≡ true }
    requires room { room_of client.old.phase ≤ room }
    requires few { room ≤ MAX_PARTS }
    ensures done { IfOk result (λ r. IsChangedBy before client.old
        (client_takes_by terms client.old.number client.old message.now client.old.phase)
        client.new r.0.items r.1.items) }
    ensures few { IfOk result (λ r. length r.0.items ≤ MAX_READ_ITEMS) }
    ensures number { client.new.number ≡ client.old.number }
    ensures memory { IsOkUnless result Refusal.OutOfMemory }
    ensures unchanged { OnErr result (client.new ≡ client.old) }
{
    let mut outs = Vec::with_capacity(alloc, room + 1)?;
    let number = client.number;
    let client_step = client.client_step(alloc, terms);
    // A write is moved, not copied; `Idle` fills its place until the next state is installed.
    let phase = mem::replace(&mut client.phase, Phase::Idle(0));
    let Transition {
        client: next,
        notes: _,
        sent,
        answer,
    } = write_transition(client_step, phase, message);
    replace_client(client, next);
    push_outputs(&mut outs, before, number, sent.len(), answer);
    Ok((sent, outs))
}

/// The transition of a write at a message.
fn write_transition(client_step: ClientStep, phase: Phase, message: &Message) -> Transition
    requires { is_writing phase ≡ true }
    ensures transition { IsMoved (transition_of client_step.terms (client_of client_step) message.now phase) result }
    ensures room { length result.sent.items ≤ room_of phase }
{
    match phase {
        Phase::Prepares(preparing) => client_step.prepare(preparing, message),
        Phase::Commits(committing) => client_step.commit(committing, message),
        // The client writes (`requires`).
        Phase::Idle(_) | Phase::Reads(_, _) => unreachable!(),
    }
}
