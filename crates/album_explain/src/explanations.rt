//! The lines that are written: {"answer", "at", "bits", "groups", "line"}, {"at", "line", "name", "refused", "value"}.
ghost use Rattle.std.specs.Prelude.{◌≡◌, ◌++◌, ◌<◌, false, map, IfOk, Some, None, option_map, string_bytes};
ghost use Rattle.std.specs.BTreeSet as set;
ghost use Rattle.serde_json.specs.View.{view, members_view};
ghost use Rattle.album_lines.specs.Output.{line_text};
ghost use Rattle.album_eval.specs.Matching.{case_of};
ghost use Rattle.album_eval.specs.declared.verdicts.Verdict.TheVariants.{Granted};
ghost use Rattle.album_explain.specs.Names.{bit_name};
ghost use Rattle.album_explain.specs.Explanations.{place_of, refused_at, refused_fields, refused_json, decision_word, decision_at_json, bit_json, bits_json, groups_json, denied_json, explanation_json, bit_row, bit_rows, bit_of};
ghost use Rattle.album_access.specs.Bits.{mask_bits};

use crate::decisions::{Decision, decide, has_bit};
use crate::names::bit_name;
use crate::places::Found;
use album_access::Mask;
use album_eval::{Facts, Verdict};
use album_lines::{array_of, json_line, object_of, with_item, with_member};
use album_lists::{AccessList, Holder};
use album_stamps::Refusal;
use bitflags::Flags;
use serde_json::{Map, Value};
use std::alloc::{AllocError, Global};
use std::collections::BTreeSet;

/// A bit that is asked, and how it is decided.
#[derive(Clone, Copy, Debug)]
pub struct BitRow {
    pub name: &'static str,
    pub decision: Decision,
}

/// The line of a refusal: its number, where it is, the refusal's name and number, and the number that is there.
///
/// # Errors
///
/// `AllocError`.
#[tactic(auto, using(crate::proofs::Floats::no_float_in_refused))]
pub fn write_refused(
    alloc: Global,
    number: u64,
    refusal: Refusal,
    found: Option<&Found>,
) -> Result<Vec<u8>, AllocError>
    ensures { IfOk result (λ text.
        text.items ≡ line_text (refused_json number refusal (option_map (λ f. place_of f.now) found.entry))) }
{
    json_line(alloc, refused_json(alloc, number, refusal, found))
}

fn refused_json(
    alloc: Global,
    number: u64,
    refusal: Refusal,
    found: Option<&Found>,
) -> Result<Value, AllocError>
    ensures { IfOk result (λ v.
        view v ≡ refused_json number refusal (option_map (λ f. place_of f.now) found.entry)) }
{
    match found {
        None => object_of(refused_fields(alloc, number, refusal)),
        Some(found) => refused_at(alloc, number, refusal, found.at.as_str(), found.value),
    }
}

fn refused_at(
    alloc: Global,
    number: u64,
    refusal: Refusal,
    at: &str,
    value: Option<u64>,
) -> Result<Value, AllocError>
    ensures { IfOk result (λ v. view v ≡ refused_at number refusal at.now value) }
{
    let fields = refused_fields(alloc, number, refusal);
    let fields = with_member(alloc, fields, "at", Value::try_from_str(alloc, at));
    let Some(value) = value else {
        return object_of(fields);
    };
    object_of(with_member(alloc, fields, "value", Ok(Value::from(value))))
}

/// What the line of a refusal says in addition to its place.
fn refused_fields(
    alloc: Global,
    number: u64,
    refusal: Refusal,
) -> Result<Map<String, Value>, AllocError>
    ensures { IfOk result (λ fields. members_view fields.entries ≡ refused_fields number refusal) }
{
    let fields = Ok(Map::new(alloc));
    let fields = with_member(alloc, fields, "line", Ok(Value::from(number)));
    let name = Value::try_from_str(alloc, refusal.name());
    let fields = with_member(alloc, fields, "name", name);
    with_member(alloc, fields, "refused", Ok(Value::from(refusal.number())))
}

/// The bits of the mask that have a name, rising, each with its decision.
pub(crate) fn bit_rows(
    alloc: Global,
    list: &AccessList,
    facts: &Facts,
    holder: Holder,
    mask: Mask,
) -> Result<Vec<BitRow>, AllocError>
    ensures { IfOk result (λ rows. map bit_row rows.items ≡ bit_rows (case_of facts.now) list.now holder mask) }
{
    let mut rows = Vec::new(alloc);
    for flag in Mask::flags() {
        let bit = bit_of(flag.value);
        if has_bit(mask, bit) {
            let name = bit_name(holder, flag);
            let decision = decide(list, facts, bit);
            rows.push(BitRow { name, decision })?;
        }
    }
    Ok(rows)
}

/// The number of the bit that the mask is.
fn bit_of(mask: Mask) -> u32
    ensures number { result ≡ bit_of (mask_bits mask) }
    ensures small { result < 64 }
{
    mask.bits().trailing_zeros()
}

/// The line of a verdict: how each bit was decided, the groups that the principal is in, and the line's number.
#[tactic(auto, using(crate::proofs::Floats::no_float_in_explanation))]
pub(crate) fn write_explanation(
    alloc: Global,
    number: u64,
    verdict: Verdict,
    groups: &BTreeSet<u64>,
    rows: &[BitRow],
) -> Result<Vec<u8>, AllocError>
    ensures { IfOk result (λ text. text.items
        ≡ line_text (explanation_json number verdict (set.keys groups.now) (map bit_row rows.now))) }
{
    json_line(
        alloc,
        explanation_json(alloc, number, verdict, groups, rows),
    )
}

fn explanation_json(
    alloc: Global,
    number: u64,
    verdict: Verdict,
    groups: &BTreeSet<u64>,
    rows: &[BitRow],
) -> Result<Value, AllocError>
    ensures { IfOk result (λ v. view v
        ≡ explanation_json number verdict (set.keys groups.now) (map bit_row rows.now)) }
{
    match verdict {
        Verdict::Granted => granted_json(alloc, number, groups, rows),
        Verdict::DeniedBy(index) => {
            denied_json(alloc, number, Decision::DeniedBy(index), groups, rows)
        }
        Verdict::DeniedAtEnd => denied_json(alloc, number, Decision::DeniedAtEnd, groups, rows),
    }
}

fn granted_json(
    alloc: Global,
    number: u64,
    groups: &BTreeSet<u64>,
    rows: &[BitRow],
) -> Result<Value, AllocError>
    ensures { IfOk result (λ v. view v
        ≡ explanation_json number Granted (set.keys groups.now) (map bit_row rows.now)) }
{
    let answer = Value::try_from_str(alloc, "granted");
    let fields = with_member(alloc, Ok(Map::new(alloc)), "answer", answer);
    let fields = with_member(alloc, fields, "bits", bits_json(alloc, rows));
    let fields = with_member(alloc, fields, "groups", groups_json(alloc, groups));
    object_of(with_member(alloc, fields, "line", Ok(Value::from(number))))
}

/// The line of a denial that is decided as `decision` says.
fn denied_json(
    alloc: Global,
    number: u64,
    decision: Decision,
    groups: &BTreeSet<u64>,
    rows: &[BitRow],
) -> Result<Value, AllocError>
    ensures { IfOk result (λ v. view v
        ≡ denied_json number (decision_at_json decision) (set.keys groups.now) (map bit_row rows.now)) }
{
    let answer = Value::try_from_str(alloc, "denied");
    let fields = with_member(alloc, Ok(Map::new(alloc)), "answer", answer);
    let fields = with_member(alloc, fields, "at", decision_at(alloc, decision));
    let fields = with_member(alloc, fields, "bits", bits_json(alloc, rows));
    let fields = with_member(alloc, fields, "groups", groups_json(alloc, groups));
    object_of(with_member(alloc, fields, "line", Ok(Value::from(number))))
}

fn bits_json(alloc: Global, rows: &[BitRow]) -> Result<Value, AllocError>
    ensures { IfOk result (λ v. view v ≡ bits_json (map bit_row rows.now)) }
{
    let mut values = Vec::with_capacity(alloc, rows.len());
    for row in rows {
        values = with_item(values, bit_json(alloc, *row));
    }
    array_of(values)
}

fn groups_json(alloc: Global, groups: &BTreeSet<u64>) -> Result<Value, AllocError>
    ensures { IfOk result (λ v. view v ≡ groups_json (set.keys groups.now)) }
{
    let numbers: Vec<u64> = groups.iter().copied().collect(alloc)?;
    numbers_json(alloc, &numbers)
}

fn numbers_json(alloc: Global, numbers: &[u64]) -> Result<Value, AllocError>
    ensures { IfOk result (λ v. view v ≡ groups_json numbers.now) }
{
    let mut values = Vec::with_capacity(alloc, numbers.len());
    for number in numbers {
        values = with_item(values, Ok(Value::from(*number)));
    }
    array_of(values)
}

/// [name, word, at]
fn bit_json(alloc: Global, row: BitRow) -> Result<Value, AllocError>
    ensures { IfOk result (λ v. view v ≡ bit_json (bit_row row)) }
{
    let word = decision_word(row.decision);
    let parts = with_item(Ok(Vec::new(alloc)), Value::try_from_str(alloc, row.name));
    let parts = with_item(parts, Value::try_from_str(alloc, word));
    array_of(with_item(parts, decision_at(alloc, row.decision)))
}

fn decision_word(decision: Decision) -> &'static str
    ensures { result.now ≡ decision_word decision }
{
    match decision {
        Decision::Given | Decision::AllowedBy(_) => "allowed",
        Decision::DeniedBy(_) | Decision::DeniedAtEnd => "denied",
    }
}

/// The index of the entry that decides, or the owner, whom the policy gives the bit, or the list's end.
fn decision_at(alloc: Global, decision: Decision) -> Result<Value, AllocError>
    ensures { IfOk result (λ v. view v ≡ decision_at_json decision) }
{
    match decision {
        Decision::Given => Value::try_from_str(alloc, "owner"),
        Decision::AllowedBy(index) | Decision::DeniedBy(index) => Ok(Value::from(index)),
        Decision::DeniedAtEnd => Value::try_from_str(alloc, "end"),
    }
}
