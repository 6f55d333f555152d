//! The engine of a connection: read a piece, answer the lines that end in it, each at once, and at the end the last
//! line.
ghost use Rattle.std.specs.Prelude.{◌≡◌, ◌≢◌, [], map, Err, OnOk, OnErr, IfErr, IfSome};
ghost use Rattle.std.specs.Io.KnownBytes.{Appends, IsAtEnd};
ghost use Rattle.album_sessions.specs.Asks.{IsOn};
ghost use Rattle.album_lines.specs.Lines.{lines_of, last, said};
ghost use Rattle.album_talk.specs.Talk.{rules_of, unknown_epoch, IsTalk, MayTalk, Talks, stranger, IsRecordedTalk, IsRecordedPart, IsWrittenIf};
ghost use Rattle.album_judge.specs.Writes.{HasRead, Writes, Exchanges, IsPrefixOf, IsCutShort, IsLeftBy, IsEndedBy};

use crate::admins::Admins;
use crate::answers::answer;
use crate::endings::Ending;
use crate::epoch::Epoch;
use crate::journal::{Journal, NoJournal};
use album_eval::Principal;
use album_judge::{Fault, PIECE, write_text};
use album_lines::{LineIn, Lines};
use album_sessions::{ServiceNames, Session};
use json::Scratch;
use std::alloc::Global;
use std::io::{Read, Write};
use std::sync::Wait;
use std::time;

/// What the reader of a line has taken is kept for the next one where the line had so many bytes at most.
const KEPT: usize = 8_192;

/// Answers each line that is read by one line, in order, by what the session answers, before the next line is looked
/// into; a line of spaces, tabs and carriage returns alone is skipped. The first line has to say who talks.
///
/// # Errors
///
/// `Reading`, where a read fails, or `turns` reads did not come to the end; `Memory`, where there is none for a line,
/// or for the text of its answer; `Writing`, where a write fails or takes no byte. The first that comes ends it.
pub fn converse<J: ServiceNames, T: Wait + time::Clock, R: Read, W: Write>(
    rt: &T,
    alloc: Global,
    reader: &mut R,
    writer: &mut W,
    session: &mut Session<J>,
    turns: u64,
) -> Result<(), Fault>
    // Without a fault the whole input was read, and exactly the lines' talk is written, from the session's old state to
    // its new one.
    ensures ok { OnOk result (IfSome (R.remaining reader.old) (λ input.
        Writes (IsTalk J.terms.limit J.policy (rules_of Admins.Anyone unknown_epoch)
        session.old session.new (lines_of input))
        (W.contents writer.old) (W.contents writer.new))) }
    ensures whole { OnOk result (IsAtEnd (R.remaining reader.new)) }

    // On a fault, a prefix of a talk of the lines is written. In that talk the session has seen no more than it has at
    // the end.
    ensures err { OnErr result (IfSome (R.remaining reader.old) (λ input.
        Writes (IsPrefixOf
        (MayTalk J.terms.limit J.policy (rules_of Admins.Anyone unknown_epoch) session.new
        (stranger session.old) (lines_of input)))
        (W.contents writer.old) (W.contents writer.new))) }

    // What is written then answers what was read. Reading: each line that has ended, and nothing else.
    // Writing: an answer is cut short. Memory: each answer is whole, and one is not there.
    ensures fault { IfErr result (λ fault.
        Exchanges (IsEndedBy fault (MayTalk J.terms.limit J.policy (rules_of Admins.Anyone unknown_epoch) session.new
        (stranger session.old)))
        (R.remaining reader.old) (R.remaining reader.new) (W.contents writer.old) (W.contents writer.new)) }

    // The session has only seen more.
    ensures on { IsOn session.old session.new }

    // A turn reads one piece at most.
    ensures few { HasRead turns (R.remaining reader.old) (R.remaining reader.new) }

    // No turn, no read.
    ensures none { turns ≡ 0 → result ≡ Err Fault.Reading }
    ensures unread { turns ≡ 0 → R.remaining reader.new ≡ R.remaining reader.old }
{
    talk_on(
        rt,
        alloc,
        reader,
        writer,
        session,
        &Admins::Anyone,
        &Epoch::unknown(alloc),
        &NoJournal,
        &mut None,
        turns,
    )
}

/// The same, where who talks may only ask, unless it is one of the admins; first values are shown with the stamps of
/// the epoch's opening. It may be said already who talks: so a talk goes on in another session, with another reader.
/// The journal is settled before each answer: what was noted is recorded by then, and how the request has ended. Where
/// that can't be, no byte of the answer is written.
///
/// # Errors
///
/// As `converse`; also `Writing`, where the journal can't be settled.
pub fn talk_on<J: ServiceNames, T: Wait + time::Clock, R: Read, W: Write, A: Journal>(
    rt: &T,
    alloc: Global,
    reader: &mut R,
    writer: &mut W,
    session: &mut Session<J>,
    admins: &Admins,
    epoch: &Epoch,
    journal: &A,
    who: &mut Option<Principal>,
    turns: u64,
) -> Result<(), Fault>
    // Without a fault the whole input was read, and exactly the lines' talk is written, from the old talker to the new.
    ensures ok { OnOk result (IfSome (R.remaining reader.old) (λ input.
        Writes (Talks J.terms.limit J.policy (rules_of admins.now epoch.now)
        (record { who = who.old; session = session.old }) (lines_of input)
        (record { who = who.new; session = session.new }))
        (W.contents writer.old) (W.contents writer.new))) }
    ensures whole { OnOk result (IsAtEnd (R.remaining reader.new)) }

    // On a fault, a prefix of a talk of the lines is written. In that talk the session has seen no more than it has at
    // the end.
    ensures err { OnErr result (IfSome (R.remaining reader.old) (λ input.
        Writes (IsPrefixOf (MayTalk J.terms.limit J.policy (rules_of admins.now epoch.now) session.new
        (record { who = who.old; session = session.old }) (lines_of input)))
        (W.contents writer.old) (W.contents writer.new))) }

    // What is written then answers what was read, as in `converse`.
    ensures fault { IfErr result (λ fault.
        Exchanges (IsEndedBy fault (MayTalk J.terms.limit J.policy (rules_of admins.now epoch.now) session.new
        (record { who = who.old; session = session.old })))
        (R.remaining reader.old) (R.remaining reader.new) (W.contents writer.old) (W.contents writer.new)) }

    // Where a read failed, the talk of the lines that have ended has come to the new talker: another may go on from it.
    ensures left { result ≡ Err Fault.Reading →
        Exchanges (IsEndedBy Fault.Reading (λ lines text.
        Talks J.terms.limit J.policy (rules_of admins.now epoch.now)
        (record { who = who.old; session = session.old }) lines
        (record { who = who.new; session = session.new }) text))
        (R.remaining reader.old) (R.remaining reader.new) (W.contents writer.old) (W.contents writer.new) }

    // What was noted for an answer is recorded before any byte of it is written, and how its request has ended, whether
    // there is a fault or not.
    ensures recorded { Writes (IsRecordedPart J.terms.limit J.policy (rules_of admins.now epoch.now)
        (A.recorded journal.now) (record { who = who.old; session = session.old }))
        (W.contents writer.old) (W.contents writer.new) }

    // The session has only seen more.
    ensures on { IsOn session.old session.new }

    // A turn reads one piece at most.
    ensures few { HasRead turns (R.remaining reader.old) (R.remaining reader.new) }

    // No turn, no read.
    ensures none { turns ≡ 0 → result ≡ Err Fault.Reading }
    ensures unread { turns ≡ 0 → R.remaining reader.new ≡ R.remaining reader.old }
{
    session.has_granted_writes();
    let mut lines = Lines::new(alloc);
    let mut scratch = Scratch::new(alloc);
    let mut piece = [0u8; PIECE];
    for _turn in 0..turns {
        let Ok(len) = reader.read(&mut piece) else {
            return Err(Fault::Reading);
        };
        if len == 0 {
            return finish(
                rt,
                alloc,
                &mut scratch,
                session,
                admins,
                epoch,
                journal,
                who,
                lines,
                writer,
            );
        }
        let ended = lines.feed(&piece[..len])?;
        answer_lines(
            rt,
            alloc,
            &mut scratch,
            session,
            admins,
            epoch,
            journal,
            who,
            &ended,
            writer,
        )?;
    }
    Err(Fault::Reading)
}

/// Answers the last line, where the input does not end in a newline.
fn finish<J: ServiceNames, T: Wait + time::Clock, W: Write, A: Journal>(
    rt: &T,
    alloc: Global,
    scratch: &mut Scratch,
    session: &mut Session<J>,
    admins: &Admins,
    epoch: &Epoch,
    journal: &A,
    who: &mut Option<Principal>,
    lines: Lines,
    writer: &mut W,
) -> Result<(), Fault>
    ensures ok { OnOk result (Writes (Talks J.terms.limit J.policy (rules_of admins.now epoch.now)
        (record { who = who.old; session = session.old })
        (last lines) (record { who = who.new; session = session.new }))
        (W.contents writer.old) (W.contents writer.new)) }
    ensures fault { IfErr result (λ fault. Writes
        (IsLeftBy fault (MayTalk J.terms.limit J.policy (rules_of admins.now epoch.now) session.new
        (record { who = who.old; session = session.old }))
        (last lines))
        (W.contents writer.old) (W.contents writer.new)) }
    ensures recorded { OnOk result (Writes (IsRecordedTalk J.terms.limit J.policy
        (rules_of admins.now epoch.now) (A.recorded journal.now)
        (record { who = who.old; session = session.old }) (record { who = who.new; session = session.new }))
        (W.contents writer.old) (W.contents writer.new)) }
    ensures part { OnErr result (Writes (IsRecordedPart J.terms.limit J.policy
        (rules_of admins.now epoch.now) (A.recorded journal.now)
        (record { who = who.old; session = session.old }))
        (W.contents writer.old) (W.contents writer.new)) }
    ensures on { IsOn session.old session.new }
{
    session.has_granted_writes();
    match lines.end() {
        None => Ok(()),
        Some(line) => answer_lines(
            rt,
            alloc,
            scratch,
            session,
            admins,
            epoch,
            journal,
            who,
            &[line],
            writer,
        ),
    }
}

/// Answers the lines, one after another.
fn answer_lines<J: ServiceNames, T: Wait + time::Clock, W: Write, A: Journal>(
    rt: &T,
    alloc: Global,
    scratch: &mut Scratch,
    session: &mut Session<J>,
    admins: &Admins,
    epoch: &Epoch,
    journal: &A,
    who: &mut Option<Principal>,
    lines: &[LineIn],
    writer: &mut W,
) -> Result<(), Fault>
    ensures ok { OnOk result (Writes (Talks J.terms.limit J.policy (rules_of admins.now epoch.now)
        (record { who = who.old; session = session.old })
        (map said lines.now) (record { who = who.new; session = session.new }))
        (W.contents writer.old) (W.contents writer.new)) }
    ensures fault { IfErr result (λ fault. Writes
        (IsLeftBy fault (MayTalk J.terms.limit J.policy (rules_of admins.now epoch.now) session.new
        (record { who = who.old; session = session.old }))
        (map said lines.now)) (W.contents writer.old) (W.contents writer.new)) }
    ensures recorded { OnOk result (Writes (IsRecordedTalk J.terms.limit J.policy
        (rules_of admins.now epoch.now) (A.recorded journal.now)
        (record { who = who.old; session = session.old }) (record { who = who.new; session = session.new }))
        (W.contents writer.old) (W.contents writer.new)) }
    ensures part { OnErr result (Writes (IsRecordedPart J.terms.limit J.policy
        (rules_of admins.now epoch.now) (A.recorded journal.now)
        (record { who = who.old; session = session.old }))
        (W.contents writer.old) (W.contents writer.new)) }
    ensures on { IsOn session.old session.new }
{
    session.has_granted_writes();
    for line in lines {
        let reply = answer(
            rt, alloc, scratch, session, admins, epoch, journal, who, line,
        )?;
        write_settled(
            rt,
            journal,
            session,
            who.as_ref(),
            reply.ending,
            writer,
            &reply.text,
        )?;
        give_back(alloc, scratch, line);
    }
    Ok(())
}

/// Writes the text of an answer, once the journal is settled. For a line that is skipped nothing is done.
#[tactic(auto, using(crate::proofs::Talking::none_written))]
fn write_settled<J: ServiceNames, T: Wait, A: Journal, W: Write>(
    rt: &T,
    journal: &A,
    session: &Session<J>,
    who: Option<&Principal>,
    ending: Option<Ending>,
    writer: &mut W,
    text: &[u8],
) -> Result<(), Fault>
    ensures ok { OnOk result (Appends (W.contents writer.old) (W.contents writer.new) text.now) }
    ensures err { OnErr result
        (Writes (IsCutShort (λ whole. whole ≡ text.now)) (W.contents writer.old) (W.contents writer.new)) }
    ensures recorded { OnOk result (text.now ≢ [] → A.recorded journal.now session.now ending) }
    ensures part { OnErr result (Writes (IsWrittenIf text.now (A.recorded journal.now session.now ending))
        (W.contents writer.old) (W.contents writer.new)) }
    ensures fault { IfErr result (λ fault. fault ≡ Fault.Writing) }
{
    if text.is_empty() {
        return Ok(());
    }
    journal.settle(rt, session, who, ending)?;
    write_text(writer, text)
}

/// Gives back the memory that the reader of a long line has taken: one connection may send a long line, and then be
/// silent for hours.
fn give_back(alloc: Global, scratch: &mut Scratch, line: &LineIn) {
    if let LineIn::Text(bytes) = line
        && bytes.len() > KEPT
    {
        *scratch = Scratch::new(alloc);
    }
}
