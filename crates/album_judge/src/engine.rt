//! The engine that answers judge lines: read a piece, answer the lines that end in it, and at the end the last line.
ghost use Rattle.std.specs.Prelude.{◌≡◌, ◌⊎◌, ℕ, List, Err, OnOk, OnErr, IfOk, IfErr, IfSome, IsOkUnless, map};
ghost use Rattle.std.specs.Io.KnownBytes.{IsAtEnd};
ghost use Rattle.album_stamps.specs.declared.refusals.Refusal.TheVariants.{OutOfMemory};
ghost use Rattle.album_eval.specs.Groups.{listed_in};
ghost use Rattle.album_eval.specs.declared.verdicts.Verdict.{Verdict};
ghost use Rattle.album_lines.specs.JudgeLine.{Question, listing, question};
ghost use Rattle.album_lines.specs.Lines.{said, lines_of, last};
ghost use Rattle.album_lines.specs.Output.{refusal_line};
ghost use Rattle.album_judge.specs.Judge.{Answers, IsAnswer, IsReply, IsJudged, Judges, listed_by, read_of};
ghost use Rattle.album_judge.specs.Writes.{HasRead, Writes, Gains, Exchanges, IsPrefixOf, IsLeftBy, IsEndedBy};

use crate::fault::Fault;
use crate::pace::{Pace, Straight};
use crate::writing::write_text;
use album_eval::{Facts, Verdict, evaluate, members};
use album_lines::{Group, JudgeLine, LineIn, Lines, read_judge, write_refusal, write_verdict};
use album_lists::Member;
use album_stamps::Refusal;
use json::Scratch;
use std::alloc::{AllocError, Global};
use std::collections::BTreeMap;
use std::io::{Read, Write};

/// How many bytes a read of an engine may give.
pub const PIECE: usize = 4096;

/// Answers the lines that are read, each by one line, in their order. A line that has nothing but
/// spaces, tabs and carriage returns is skipped.
///
/// # Errors
///
/// `Reading`, where a read fails, or `turns` reads did not come to the end; `Memory`, where there is none for a line or
/// for its answer; `Writing`, where a write fails or takes no byte. The first that comes ends it.
pub fn judge<R: Read, W: Write>(
    alloc: Global,
    reader: &mut R,
    writer: &mut W,
    turns: u64,
) -> Result<(), Fault>
    // Without a fault the whole input was read, and exactly the answers to its lines are written.
    ensures ok { OnOk result (IfSome (R.remaining reader.old) (λ input.
        Writes (Answers (lines_of input)) (W.contents writer.old) (W.contents writer.new))) }
    ensures whole { OnOk result (IsAtEnd (R.remaining reader.new)) }

    // On a fault, a prefix of them is.
    ensures err { OnErr result (IfSome (R.remaining reader.old) (λ input.
        Writes (IsPrefixOf (Answers (lines_of input))) (W.contents writer.old) (W.contents writer.new))) }

    // What is written then answers what was read. Reading: each line that has ended, and nothing else.
    // Writing: an answer is cut short. Memory: each answer is whole, and one is not there.
    ensures fault { IfErr result (λ fault. Exchanges (IsEndedBy fault Answers)
        (R.remaining reader.old) (R.remaining reader.new) (W.contents writer.old) (W.contents writer.new)) }

    // A turn reads one piece at most.
    ensures few { HasRead turns (R.remaining reader.old) (R.remaining reader.new) }

    // No turn, no read.
    ensures none { turns ≡ 0 → result ≡ Err Fault.Reading }
    ensures unread { turns ≡ 0 → R.remaining reader.new ≡ R.remaining reader.old }
{
    judge_paced(alloc, &Straight, reader, writer, turns)
}

/// The same, whatever is done before a read: `judge` itself, and with buffers `judge_buffered`.
pub(crate) fn judge_paced<P: Pace<R, W>, R: Read, W: Write>(
    alloc: Global,
    pace: &P,
    reader: &mut R,
    writer: &mut W,
    turns: u64,
) -> Result<(), Fault>
    ensures ok { OnOk result (IfSome (R.remaining reader.old) (λ input.
        Writes (Answers (lines_of input)) (W.contents writer.old) (W.contents writer.new))) }
    ensures whole { OnOk result (IsAtEnd (R.remaining reader.new)) }
    ensures err { OnErr result (IfSome (R.remaining reader.old) (λ input.
        Writes (IsPrefixOf (Answers (lines_of input))) (W.contents writer.old) (W.contents writer.new))) }
    ensures fault { IfErr result (λ fault. Exchanges (IsEndedBy fault Answers)
        (R.remaining reader.old) (R.remaining reader.new) (W.contents writer.old) (W.contents writer.new)) }
    ensures few { HasRead turns (R.remaining reader.old) (R.remaining reader.new) }
    ensures none { turns ≡ 0 → result ≡ Err Fault.Reading }
    ensures unread { turns ≡ 0 → R.remaining reader.new ≡ R.remaining reader.old }
{
    let mut lines = Lines::new(alloc);
    let mut scratch = Scratch::new(alloc);
    let mut piece = [0u8; PIECE];
    for _turn in 0..turns {
        if !pace.before_read(reader, writer) {
            return Err(Fault::Reading);
        }
        let Ok(len) = reader.read(&mut piece) else {
            return Err(Fault::Reading);
        };
        if len == 0 {
            return finish(alloc, &mut scratch, lines, writer);
        }
        let ended = lines.feed(&piece[..len])?;
        answer_lines(alloc, &mut scratch, writer, &ended)?;
    }
    Err(Fault::Reading)
}

/// Answers the last line, where the input does not end in a newline.
fn finish<W: Write>(
    alloc: Global,
    scratch: &mut Scratch,
    lines: Lines,
    writer: &mut W,
) -> Result<(), Fault>
    ensures ok { OnOk result (Writes (Answers (last lines)) (W.contents writer.old) (W.contents writer.new)) }
    ensures fault { IfErr result (λ fault.
        Writes (IsLeftBy fault Answers (last lines)) (W.contents writer.old) (W.contents writer.new)) }
{
    match lines.end() {
        None => Ok(()),
        Some(line) => answer_lines(alloc, scratch, writer, &[line]),
    }
}

/// Answers the lines in their order, and writes the answers together, as one text. It reads nothing, so its fault is
/// never `Reading`.
fn answer_lines<W: Write>(
    alloc: Global,
    scratch: &mut Scratch,
    writer: &mut W,
    lines: &[LineIn],
) -> Result<(), Fault>
    ensures ok { OnOk result (Writes (Answers (map said lines.now)) (W.contents writer.old) (W.contents writer.new)) }
    ensures fault { IfErr result (λ fault.
        Writes (IsLeftBy fault Answers (map said lines.now)) (W.contents writer.old) (W.contents writer.new)) }
{
    let mut text = Vec::new(alloc);
    for line in lines {
        let Ok(()) = answer_line(alloc, scratch, &mut text, line) else {
            // The answers that there was memory for are written.
            write_text(writer, &text)?;
            return Err(Fault::Memory);
        };
    }
    write_text(writer, &text)
}

/// Appends the answer to a line to the text; a blank line has none.
fn answer_line(
    alloc: Global,
    scratch: &mut Scratch,
    text: &mut Vec<u8>,
    line: &LineIn,
) -> Result<(), Refusal>
    ensures ok { OnOk result (Gains (IsAnswer (said line.now)) text.old.items text.new.items) }
    ensures err { OnErr result (text.new.items ≡ text.old.items) }
{
    if line.is_blank() {
        return Ok(());
    }
    let answer = reply(alloc, scratch, line)?;
    text.extend_from_slice(&answer)?;
    Ok(())
}

/// The line of the verdict, or of the refusal.
fn reply(alloc: Global, scratch: &mut Scratch, line: &LineIn) -> Result<Vec<u8>, Refusal>
    ensures { IfOk result (λ text.
        IsReply (read_of (said line.now)) text.items ⊎ (text.items ≡ refusal_line OutOfMemory)) }
{
    match judged(alloc, scratch, line) {
        Ok(verdict) => write_verdict(alloc, verdict),
        Err(refusal) => write_refusal(alloc, refusal),
    }
}

/// The verdict on a line, or the line's refusal.
fn judged(alloc: Global, scratch: &mut Scratch, line: &LineIn) -> Result<Verdict, Refusal>
    ensures { Judges (read_of (said line.now)) result }
{
    let line = read_judge(alloc, scratch, line.bytes()?)?;
    verdict(alloc, line)
}

/// The verdict that a judge line asks for: judged with exactly the groups of the line that its principal is in.
fn verdict(alloc: Global, line: JudgeLine) -> Result<Verdict, Refusal>
    ensures judged { IfOk result (IsJudged (question line)) }
    ensures memory { IsOkUnless result Refusal.OutOfMemory }
{
    // The `holder` is left out: that it may carry the list was tested as the line was read.
    let JudgeLine {
        list,
        head_group,
        groups,
        owner,
        who,
        mask,
        policy,
        ..
    } = line;
    let by_number = group_map(alloc, groups)?;
    let found = members(alloc, &by_number, &who)?;
    let facts = Facts {
        policy,
        principal: &who,
        owner: &owner,
        head_group,
        groups: &found,
    };
    Ok(evaluate(&list, &facts, mask))
}

/// The groups by their numbers, moved. They come last first, so of two with one number the first would count.
///
/// # Errors
///
/// `AllocError`, where there is no memory for the map.
pub fn group_map(
    alloc: Global,
    mut groups: Vec<Group>,
) -> Result<BTreeMap<u64, Vec<Member>>, AllocError>
    ensures { IfOk result (λ by_number. (number : ℕ)
        → listed_in by_number number ≡ listed_by (map listing groups.items) number) }
{
    let mut by_number = BTreeMap::new(alloc);
    while let Some(group) = groups.pop() {
        by_number.insert(group.number, group.members)?;
    }
    Ok(by_number)
}

/// A law: a question has one verdict.
pub fn one_judgement()
    ensures { (q : Question) (v w : Verdict) → IsJudged q v → IsJudged q w → v ≡ w }
{}
