//! The shape of a judge line: {entries, group, owner, who, mask, and perhaps kind, groups, policy}, groups =
//! [[number, texts]].
ghost use Rattle.std.specs.Prelude.{◌≡◌, List, ℕ, IfOk, map, option_map};
ghost use Rattle.album_stamps.specs.Distinct.{are_distinct};
ghost use Rattle.album_stamps.specs.Outcome.{Gives};
ghost use Rattle.album_lines.specs.Fields.{each};
ghost use Rattle.album_lines.specs.JudgeShape.{spelled_group, spelled_judge, group_shape_of, numbers, groups_shape_of, holder_of, kind_shape_of, policy_shape_of, judge_shape_of};
ghost use Rattle.album_lines.specs.Trees.{value_data, items_data};

use crate::fields::{
    field, item, list, member, only, sized_list, text, text_under, whole, whole_at, whole_under,
};
use crate::shapes::{EntryShape, entry_shapes, texts};
use album_eval::Policy;
use album_lists::Holder;
use album_stamps::Refusal;
use json::Value;
use std::alloc::{AllocError, Global};
use std::collections::BTreeSet;

/// A group as a line spells it.
#[derive(Drop)]
pub(crate) struct GroupShape<'a> {
    pub(crate) number: u64,
    pub(crate) members: Vec<&'a str>,
}

/// A judge line as it is spelled, each field of its shape.
#[derive(Drop)]
pub(crate) struct JudgeShape<'a> {
    pub(crate) entries: Vec<EntryShape<'a>>,
    pub(crate) holder: Holder,
    pub(crate) head_group: u64,
    pub(crate) groups: Vec<GroupShape<'a>>,
    pub(crate) owner: &'a str,
    pub(crate) who: &'a str,
    pub(crate) mask: u64,
    pub(crate) policy: Policy,
}

/// The fields of a judge line, each of its shape, or `BadRequest`.
#[tactic(auto, unfolding(crate::specs::JudgeShape::judge_shape_of))]
pub(crate) fn judge_shape<'a>(alloc: Global, value: &Value<'a>) -> Result<JudgeShape<'a>, Refusal>
    ensures { Gives spelled_judge result (judge_shape_of (value_data value.now)) }
{
    only(
        value,
        &[
            "entries", "kind", "group", "groups", "owner", "who", "mask", "policy",
        ],
    )?;
    let holder = kind_shape(member(value, "kind"))?;
    let head_group = whole_under(value, "group")?;
    let owner = text_under(value, "owner")?;
    let who = text_under(value, "who")?;
    let mask = whole_under(value, "mask")?;
    let policy = policy_shape(member(value, "policy"))?;
    let entries = entry_shapes(alloc, field(value, "entries")?)?;
    let groups = groups_shape(alloc, member(value, "groups"))?;
    Ok(JudgeShape {
        entries,
        holder,
        head_group,
        groups,
        owner,
        who,
        mask,
        policy,
    })
}

#[tactic(auto, unfolding(crate::specs::JudgeShape::kind_shape_of))]
fn kind_shape(value: Option<&Value<'_>>) -> Result<Holder, Refusal>
    ensures { Gives (λ h. h) result (kind_shape_of (option_map (λ v. value_data v.now) value.entry)) }
{
    match value {
        None => Ok(Holder::Plain),
        Some(value) => holder(text(value)?).ok_or(Refusal::BadRequest),
    }
}

/// What a kind of object is to its list.
pub(crate) fn holder(word: &str) -> Option<Holder>
    ensures { result ≡ holder_of word.now }
{
    match word {
        "picture" => Some(Holder::Plain),
        "album" => Some(Holder::Folder),
        "group" => Some(Holder::Plain),
        _ => None,
    }
}

#[tactic(auto, unfolding(crate::specs::JudgeShape::policy_shape_of))]
fn policy_shape(value: Option<&Value<'_>>) -> Result<Policy, Refusal>
    ensures { Gives (λ p. p) result (policy_shape_of (option_map (λ v. value_data v.now) value.entry)) }
{
    match value {
        None => Ok(Policy::One),
        Some(value) => Policy::of(whole(value)?).ok_or(Refusal::BadRequest),
    }
}

#[tactic(auto, unfolding(crate::specs::JudgeShape::groups_shape_of))]
fn groups_shape<'a>(
    alloc: Global,
    value: Option<&Value<'a>>,
) -> Result<Vec<GroupShape<'a>>, Refusal>
    ensures { Gives (λ shapes. map spelled_group shapes.items) result
        (groups_shape_of (option_map (λ v. value_data v.now) value.entry)) }
{
    let Some(value) = value else {
        return Ok(Vec::new(alloc));
    };
    let groups = each_group_shape(alloc, list(value)?)?;
    if !are_distinct(alloc, &groups)? {
        return Err(Refusal::BadRequest);
    }
    Ok(groups)
}

fn each_group_shape<'a>(alloc: Global, values: &[Value<'a>]) -> Result<Vec<GroupShape<'a>>, Refusal>
    ensures { Gives (λ shapes. map spelled_group shapes.items) result (each group_shape_of (items_data values.now)) }
{
    let mut shapes = Vec::with_capacity(alloc, values.len())?;
    for value in values {
        shapes.push(group_shape(alloc, value)?)?;
    }
    Ok(shapes)
}

#[tactic(auto, unfolding(crate::specs::JudgeShape::group_shape_of))]
fn group_shape<'a>(alloc: Global, value: &Value<'a>) -> Result<GroupShape<'a>, Refusal>
    ensures { Gives spelled_group result (group_shape_of (value_data value.now)) }
{
    sized_list(value, 2)?;
    let number = whole_at(value, 0)?;
    let members = texts(alloc, item(value, 1)?)?;
    Ok(GroupShape { number, members })
}

/// Whether no two groups have one number.
pub(crate) fn are_distinct(alloc: Global, groups: &[GroupShape]) -> Result<bool, AllocError>
    ensures { IfOk result (λ single. single ≡ are_distinct (numbers (map spelled_group groups.now))) }
{
    let mut seen = BTreeSet::new(alloc);
    for group in groups {
        if !seen.insert(group.number)? {
            return Ok(false);
        }
    }
    Ok(true)
}
