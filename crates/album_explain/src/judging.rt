//! The explanations of judge lines: the verdict, with how each bit is decided, or the refusal.
ghost use Rattle.std.specs.Prelude.{◌≡◌, ◌≢◌, ◌↔◌, ℕ, Err, IfOk, IfErr, IsOkAnd, IsOkUnless, IsTrue, map};
ghost use Rattle.std.specs.Ordering.{nat_cmp};
ghost use Rattle.std.specs.BTreeSet as set;
ghost use Rattle.album_stamps.specs.declared.refusals.Refusal.TheVariants.{OutOfMemory};
ghost use Rattle.album_eval.specs.Groups.{IsMember};
ghost use Rattle.album_eval.specs.Matching.{case_of};
ghost use Rattle.album_eval.specs.Verdict.{IsVerdict};
ghost use Rattle.album_lines.specs.JudgeLine.{listing, question};
ghost use Rattle.album_lines.specs.Lines.{said};
ghost use Rattle.album_lines.specs.Output.{line_text};
ghost use Rattle.album_judge.specs.Judge.{listed_by, read_of};
ghost use Rattle.album_explain.specs.Explanations.{explanation_json, bit_rows};
ghost use Rattle.album_explain.specs.Judging.{ExplainsQuestion, ExplainsJudgeLine};

use crate::explainer::Explainer;
use crate::explanations::{bit_rows, write_explanation, write_refused};
use crate::places::find;
use album_access::Mask;
use album_eval::{Facts, Principal, Verdict, evaluate, members};
use album_judge::group_map;
use album_lines::{Group, JudgeLine, LineIn, read_judge};
use album_lists::{AccessList, Holder};
use album_stamps::Refusal;
use json::Scratch;
use std::alloc::{AllocError, Global};
use std::collections::BTreeSet;

/// Explains judge lines.
#[derive(Clone, Copy, Debug)]
pub struct JudgeLines;

impl Explainer for JudgeLines {
    ghost use Rattle.album_explain.specs.Judging.{ExplainsJudgeLine, out_of_memory_explanation};

    ghost IsExplanation = { λ old number line is_refused text new. ExplainsJudgeLine number line is_refused text };

    fn explain(
        &mut self,
        alloc: Global,
        scratch: &mut Scratch,
        line: &LineIn,
        number: u64,
    ) -> Result<(Vec<u8>, bool), Refusal> {
        explanation(alloc, scratch, line, number)
    }

    ghost goes_on = { λ old number line.
        let out = out_of_memory_explanation number line in (out.0, out.1, old, out.2) };
}

/// The explanation of a line that isn't blank, and whether it is refused.
fn explanation(
    alloc: Global,
    scratch: &mut Scratch,
    line: &LineIn,
    number: u64,
) -> Result<(Vec<u8>, bool), Refusal>
    ensures { IfOk result (λ reply. ExplainsJudgeLine number (said line.now) reply.1 reply.0.items) }
{
    match explain_judge_line(alloc, scratch, line, number) {
        Ok(text) => Ok((text, false)),
        Err(Refusal::OutOfMemory) => {
            let text = write_refused(alloc, number, Refusal::OutOfMemory, None)?;
            Ok((text, true))
        }
        Err(refusal) => {
            let found = find(alloc, scratch, line)?;
            let text = write_refused(alloc, number, refusal, found.as_ref())?;
            Ok((text, true))
        }
    }
}

/// The line of the verdict, or the refusal.
fn explain_judge_line(
    alloc: Global,
    scratch: &mut Scratch,
    line: &LineIn,
    number: u64,
) -> Result<Vec<u8>, Refusal>
    ensures explained { IfOk result (λ text.
        IsOkAnd (read_of (said line.now)) (λ q. ExplainsQuestion number q text.items)) }
    ensures refused { IfErr result (λ e. e ≢ OutOfMemory → read_of (said line.now) ≡ Err e) }
{
    let question = read_judge(alloc, scratch, line.bytes()?)?;
    explain_question(alloc, question, number)
}

/// The line of the verdict that a judge line asks for: judged with exactly the groups of the line that its principal is
/// in.
fn explain_question(alloc: Global, line: JudgeLine, number: u64) -> Result<Vec<u8>, Refusal>
    ensures explained { IfOk result (λ text. ExplainsQuestion number (question line) text.items) }
    ensures memory { IsOkUnless result Refusal.OutOfMemory }
{
    let JudgeLine {
        list,
        holder,
        head_group,
        groups,
        owner,
        who,
        mask,
        policy,
    } = line;
    let found = groups_of(alloc, groups, &who)?;
    let facts = Facts {
        policy,
        principal: &who,
        owner: &owner,
        head_group,
        groups: &found,
    };
    let text = explain_verdict(alloc, number, &list, &facts, holder, mask)?;
    Ok(text)
}

/// The groups of a line that the principal is in.
fn groups_of(alloc: Global, groups: Vec<Group>, who: &Principal) -> Result<BTreeSet<u64>, Refusal>
    ensures exact { IfOk result (λ found. (group : ℕ)
        → IsTrue (set.contains nat_cmp found group) ↔ IsMember (listed_by (map listing groups.items)) who.now group) }
    ensures memory { IsOkUnless result Refusal.OutOfMemory }
{
    let by_number = group_map(alloc, groups)?;
    members(alloc, &by_number, who)
}

/// The line of the verdict on these facts.
fn explain_verdict(
    alloc: Global,
    number: u64,
    list: &AccessList,
    facts: &Facts,
    holder: Holder,
    mask: Mask,
) -> Result<Vec<u8>, AllocError>
    ensures { IfOk result (λ text. (verdict : Verdict) × IsVerdict (case_of facts.now) list.now mask verdict
        × (text.items ≡ line_text
        (explanation_json number verdict (set.keys facts.now.groups.now)
        (bit_rows (case_of facts.now) list.now holder mask)))) }
{
    let verdict = evaluate(list, facts, mask);
    let rows = bit_rows(alloc, list, facts, holder, mask)?;
    write_explanation(alloc, number, verdict, facts.groups, &rows)
}
