//! The answer to a line of a connection: what the session answers, or why it is refused.
ghost use Rattle.std.specs.Prelude.{◌≡◌, ◌⊎◌, IfOk, Ok, Some, None};
ghost use Rattle.album_stamps.specs.declared.refusals.Refusal.TheVariants.{OutOfMemory};
ghost use Rattle.album_stamps.specs.Outcome.{Gives};
ghost use Rattle.album_sessions.specs.Asks.{IsOn};
ghost use Rattle.album_lines.specs.Lines.{said};
ghost use Rattle.album_lines.specs.Output.{refusal_line};
ghost use Rattle.album_talk.specs.Talk.{rules_of, dumped, hello_out, AnswersAsk, AnswersTalk, AnswersLater, Greets, IsAsked, IsDumped, IsPendingAnswered, IsSweptFor, IsTrimmedFor, TalksOnce, Ends, EndsAsk, EndsSaid, hello_line_read, talk_line_heard};

use crate::admins::Admins;
use crate::endings::{AskWord, Ending, Outcome, object_of};
use crate::epoch::Epoch;
use crate::journal::Journal;
use album_eval::Principal;
use album_items::{ItemId, Opening};
use album_lines::{LineIn, write_refusal};
use album_permits::Answer;
use album_sessions::{ServiceNames, Session};
use album_stamps::{ClientNo, Refusal, Stamp};
use album_turns::leave;
use album_views::Ask;
use album_wire::{
    TalkLine, TalkOut, read_hello, read_talk, text_of_opening, write_shown_answer, write_talk,
};
use json::Scratch;
use std::alloc::Global;
use std::sync::Wait;
use std::time;

/// What a line is answered.
#[derive(Drop)]
pub(crate) struct Reply {
    /// Without a byte for a line that is skipped.
    pub text: Vec<u8>,
    /// How the request has ended, if the line was one.
    pub ending: Option<Ending>,
}

impl Reply {
    /// To a line that is no request, or isn't carried out.
    fn plain(text: Vec<u8>) -> Reply
        ensures { result ≡ record { text = text; ending = None } }
    {
        Reply { text, ending: None }
    }

    /// To a request that has ended so.
    fn ended(text: Vec<u8>, ask: AskWord, object: Option<ItemId>, outcome: Outcome) -> Reply
        ensures { result ≡ record {
          text = text;
          ending = Some (record { ask = ask; object = object; outcome = outcome });
        } }
    {
        let ending = Ending {
            ask,
            object,
            outcome,
        };
        Reply {
            text,
            ending: Some(ending),
        }
    }
}

/// The reply to a line.
///
/// # Errors
///
/// `OutOfMemory`, where there is none for the text of the answer.
pub(crate) fn answer<J: ServiceNames, T: Wait + time::Clock, A: Journal>(
    rt: &T,
    alloc: Global,
    scratch: &mut Scratch,
    session: &mut Session<J>,
    admins: &Admins,
    epoch: &Epoch,
    journal: &A,
    who: &mut Option<Principal>,
    line: &LineIn,
) -> Result<Reply, Refusal>
    ensures answered { IfOk result (λ reply. TalksOnce J.terms.limit J.policy (rules_of admins.now epoch.now)
        (record { who = who.old; session = session.old }) (said line.now)
        (record { who = who.new; session = session.new }) reply.text.items) }
    ensures ended { IfOk result (λ reply. Ends (rules_of admins.now epoch.now)
        (record { who = who.old; session = session.old }) (said line.now) reply.text.items reply.ending) }
    ensures on { IsOn session.old session.new }
{
    // For contracts alone.
    session.has_granted_writes();
    if line.is_blank() {
        return Ok(Reply::plain(Vec::new(alloc)));
    }
    match &*who {
        None => Ok(Reply::plain(greet(alloc, scratch, session, epoch, who, line)?)),
        Some(principal) => {
            answer_later(
                rt, alloc, scratch, session, admins, epoch, journal, principal, line,
            )
        }
    }
}

/// The answer to the first line, which has to say who talks. The user whom the opening names acts as root.
fn greet<J: ServiceNames>(
    alloc: Global,
    scratch: &mut Scratch,
    session: &Session<J>,
    epoch: &Epoch,
    who: &mut Option<Principal>,
    line: &LineIn,
) -> Result<Vec<u8>, Refusal>
    ensures { IfOk result (λ text. Greets epoch.now (record { who = who.old; session = session.now })
        (hello_line_read (said line.now)) (record { who = who.new; session = session.now }) text.items
        ⊎ ((who.new ≡ who.old) × (text.items ≡ refusal_line OutOfMemory))) }
{
    match hello_line(alloc, scratch, line) {
        Ok(principal) => {
            *who = Some(principal.acting(&epoch.opening.root));
            write_talk(alloc, &hello_out(epoch.number, session.client()))
        }
        Err(refusal) => write_refusal(alloc, refusal),
    }
}

/// What is said to who has said who it is.
fn hello_out(number: Option<u64>, client: ClientNo) -> TalkOut
    ensures { result ≡ hello_out number client }
{
    match number {
        None => TalkOut::Hello(client),
        Some(epoch) => TalkOut::HelloIn(client, epoch),
    }
}

/// Who talks, by the first line. Of a line that is too long nothing is read.
fn hello_line(alloc: Global, scratch: &mut Scratch, line: &LineIn) -> Result<Principal, Refusal>
    ensures { Gives (λ who. who) result (hello_line_read (said line.now)) }
{
    read_hello(alloc, scratch, line.bytes()?)
}

/// The reply to a later line.
fn answer_later<J: ServiceNames, T: Wait + time::Clock, A: Journal>(
    rt: &T,
    alloc: Global,
    scratch: &mut Scratch,
    session: &mut Session<J>,
    admins: &Admins,
    epoch: &Epoch,
    journal: &A,
    principal: &Principal,
    line: &LineIn,
) -> Result<Reply, Refusal>
    ensures answered { IfOk result (λ reply. AnswersLater J.terms.limit J.policy epoch.now principal.now
        (record { who = Some principal.now; session = session.old })
        (talk_line_heard admins.now principal.now (said line.now))
        (record { who = Some principal.now; session = session.new }) reply.text.items
        ⊎ ((session.new ≡ session.old) × (reply.text.items ≡ refusal_line OutOfMemory))) }
    ensures ended { IfOk result (λ reply. EndsSaid epoch.now.opening.stamps session.old.client
        (talk_line_heard admins.now principal.now (said line.now)) reply.text.items reply.ending
        ⊎ ((reply.ending ≡ None) × (reply.text.items ≡ refusal_line OutOfMemory))) }
    ensures on { IsOn session.old session.new }
{
    // For contracts alone.
    session.has_granted_writes();
    match talk_line(alloc, scratch, admins, principal, line) {
        Ok(line) => carry_out(rt, alloc, session, epoch, journal, principal, line),
        Err(refusal) => Ok(Reply::plain(write_refusal(alloc, refusal)?)),
    }
}

/// What a later line says, where who talks may send it.
fn talk_line(
    alloc: Global,
    scratch: &mut Scratch,
    admins: &Admins,
    principal: &Principal,
    line: &LineIn,
) -> Result<TalkLine, Refusal>
    ensures { Gives (λ line. line) result (talk_line_heard admins.now principal.now (said line.now)) }
{
    let said = read_talk(alloc, scratch, line.bytes()?)?;
    admins.permit(principal, said)
}

/// The reply that is what the session answers to the line.
fn carry_out<J: ServiceNames, T: Wait + time::Clock, A: Journal>(
    rt: &T,
    alloc: Global,
    session: &mut Session<J>,
    epoch: &Epoch,
    journal: &A,
    principal: &Principal,
    line: TalkLine,
) -> Result<Reply, Refusal>
    ensures answers { IfOk result (λ reply.
        AnswersTalk J.terms.limit J.policy epoch.now principal.now line session.old session.new reply.text.items) }
    ensures ended { IfOk result (λ reply.
        EndsSaid epoch.now.opening.stamps session.old.client (Ok line) reply.text.items reply.ending) }
    ensures on { IsOn session.old session.new }
{
    match line {
        TalkLine::Ask(ask) => carry_out_ask(rt, alloc, session, epoch, journal, principal, ask),
        TalkLine::Pending(part) => Ok(Reply::plain(pending(rt, alloc, session, part)?)),
        TalkLine::Sweep(part, stamp) => Ok(Reply::plain(sweep(rt, alloc, session, part, stamp)?)),
        TalkLine::Dump => Ok(Reply::plain(dump(rt, alloc, session, epoch)?)),
        TalkLine::Trim(part, item) => Ok(Reply::plain(trim(rt, alloc, session, part, item)?)),
    }
}

fn carry_out_ask<J: ServiceNames, T: Wait + time::Clock, A: Journal>(
    rt: &T,
    alloc: Global,
    session: &mut Session<J>,
    epoch: &Epoch,
    journal: &A,
    principal: &Principal,
    ask: Ask,
) -> Result<Reply, Refusal>
    ensures answers { IfOk result (λ reply. IsAsked J.terms.limit J.policy epoch.now.opening.stamps principal.now ask
        session.old session.new reply.text.items) }
    ensures ended { IfOk result (λ reply.
        EndsAsk epoch.now.opening.stamps session.old.client ask reply.text.items reply.ending) }
    ensures on { IsOn session.old session.new }
{
    let (word, object) = (AskWord::of(&ask), object_of(&ask));
    match asked(rt, session, journal, principal, ask) {
        Ok(answer) => {
            let stamps = &epoch.opening.stamps;
            let text = write_shown_answer(alloc, stamps, session.client(), &answer)?;
            Ok(Reply::ended(text, word, object, Outcome::of(&answer)))
        }
        Err(refusal) => {
            let text = write_refusal(alloc, refusal)?;
            Ok(Reply::ended(text, word, object, Outcome::Refused(refusal)))
        }
    }
}

/// What the session answers, in the order of the service's board. The journal has it before that what is asked, since
/// others may hand over what is noted of it.
fn asked<J: ServiceNames, T: Wait + time::Clock, A: Journal>(
    rt: &T,
    session: &mut Session<J>,
    journal: &A,
    principal: &Principal,
    ask: Ask,
) -> Result<Answer, Refusal>
    ensures answered { AnswersAsk J.terms.limit J.policy principal.now ask session.old session.new result }
    ensures on { IsOn session.old session.new }
{
    // For contracts alone.
    session.has_granted_writes();
    if let Err(refusal) = journal.begin(rt, session.client(), principal, AskWord::of(&ask)) {
        drop(ask);
        return Err(refusal);
    }
    match session.ask_in_order(rt, principal, ask) {
        Ok(given) => Ok(given.into_answer()),
        Err(refusal) => Err(refusal),
    }
}

#[tactic(auto, unfolding(album_wire::specs::TalkJson::talk_text))]
fn pending<J: ServiceNames, T: Wait + time::Clock>(
    rt: &T,
    alloc: Global,
    session: &mut Session<J>,
    part: u16,
) -> Result<Vec<u8>, Refusal>
    ensures answers { IfOk result (λ text. IsPendingAnswered part session.old session.new text.items) }
    ensures on { IsOn session.old session.new }
{
    match session.pending(rt, part) {
        Ok(stamps) => {
            let mut pending = Vec::new(alloc);
            pending.extend_from_slice(stamps.as_slice())?;
            write_talk(alloc, &TalkOut::Pending(pending))
        }
        Err(refusal) => write_refusal(alloc, refusal),
    }
}

fn sweep<J: ServiceNames, T: Wait + time::Clock>(
    rt: &T,
    alloc: Global,
    session: &mut Session<J>,
    part: u16,
    stamp: Stamp,
) -> Result<Vec<u8>, Refusal>
    ensures answers { IfOk result (λ text. IsSweptFor part stamp session.old session.new text.items) }
    ensures on { IsOn session.old session.new }
{
    match session.sweep(rt, part, stamp) {
        Ok(()) => write_talk(alloc, &TalkOut::Swept),
        Err(refusal) => write_refusal(alloc, refusal),
    }
}

fn trim<J: ServiceNames, T: Wait + time::Clock>(
    rt: &T,
    alloc: Global,
    session: &mut Session<J>,
    part: u16,
    item: ItemId,
) -> Result<Vec<u8>, Refusal>
    ensures answers { IfOk result (λ text.
        IsTrimmedFor J.terms.limit part item session.old session.new text.items) }
    ensures on { IsOn session.old session.new }
{
    match session.trim(rt, part, item) {
        Ok(()) => write_talk(alloc, &TalkOut::Trimmed),
        Err(refusal) => write_refusal(alloc, refusal),
    }
}

/// What the service would leave to its next epoch: a line that says how many lines follow, and the lines of an opening.
fn dump<J: ServiceNames, T: Wait + time::Clock>(
    rt: &T,
    alloc: Global,
    session: &mut Session<J>,
    epoch: &Epoch,
) -> Result<Vec<u8>, Refusal>
    ensures answers { IfOk result (λ text. IsDumped epoch.now.opening session.old session.new text.items) }
    ensures on { IsOn session.old session.new }
{
    match leave(rt, alloc, session, &epoch.opening) {
        Ok(left) => dump_text(alloc, &left.into_opening()),
        Err(refusal) => write_refusal(alloc, refusal),
    }
}

/// The lines of a dump. Those of an opening are its header, one for each item, and `begin`.
fn dump_text(alloc: Global, next: &Opening) -> Result<Vec<u8>, Refusal>
    ensures { IfOk result (λ text. text.items ≡ dumped next.now) }
{
    let lines = (next.items.as_slice().len() as u64).saturating_add(2);
    let mut text = write_talk(alloc, &TalkOut::Dump(lines))?;
    let opening = text_of_opening(alloc, next)?;
    text.extend_from_slice(&opening)?;
    Ok(text)
}
