//! Judge lines: a JSON object of the shape of one, whose lists, whos and mask are some.
ghost use Rattle.std.specs.Prelude.{◌≡◌, ◌↔◌, List, ℕ, Ok, map};
ghost use Rattle.album_stamps.specs.Outcome.{Gives};
ghost use Rattle.album_lines.specs.Shapes.{spelled_entry};
ghost use Rattle.album_lines.specs.Values.{each_of};
ghost use Rattle.album_lines.specs.JudgeShape.{spelled_group, spelled_judge};
ghost use Rattle.album_lines.specs.JudgeLine.{Question, listing, listing_of, question, question_of, carried_list_of, judge_of, IsJudgeLine};

use crate::judge_shape::{GroupShape, JudgeShape, judge_shape};
use crate::judge_tokens::shape_of_tokens;
use crate::shapes::EntryShape;
use crate::trees::data;
use crate::values::{access_list, mask, members};
use album_access::Mask;
use album_eval::{Policy, Principal};
use album_lists::{AccessList, Holder, Member, Name, user_name};
use album_stamps::Refusal;
use json::Scratch;
use std::alloc::Global;

/// A group of a judge line.
#[derive(Debug, Drop)]
pub struct Group {
    pub number: u64,
    pub members: Vec<Member>,
}

/// A judge line: may `who` do what `mask` says to an object that carries this list, by this policy? The
/// groups are in the order of the line, and no two have one number.
#[derive(Debug, Drop)]
pub struct JudgeLine {
    pub list: AccessList,
    pub holder: Holder,
    pub head_group: u64,
    pub groups: Vec<Group>,
    pub owner: Name,
    pub who: Principal,
    pub mask: Mask,
    pub policy: Policy,
}

/// Reads a judge line: what it asks, or the first test that it fails. The scratch is room that is kept from line
/// to line, whatever was in it.
///
/// # Errors
///
/// `BadLine`, where the bytes are no JSON; `BadRequest`, where it hasn't the shape of a judge line; then of the list,
/// the groups, the owner, the who and the mask the first that fails: `ListFull`, `BadMask`, `BadFlags` or `BadWho`.
/// `OutOfMemory`.
#[tactic(auto, unfolding(crate::specs::JudgeLine::judge_of))]
pub fn read_judge(alloc: Global, scratch: &mut Scratch, bytes: &[u8]) -> Result<JudgeLine, Refusal>
    ensures { Gives question result (judge_of bytes.now) }
{
    // Only the tree shows what is wrong with a line.
    if let Some(shape) = shape_of_tokens(alloc, bytes) {
        return values_of(alloc, &shape);
    }
    let value = data(alloc, scratch, bytes)?;
    let shape = judge_shape(alloc, &value)?;
    values_of(alloc, &shape)
}

/// A law: what is read of a line is the question that it spells, and of a line that spells none, nothing is.
pub fn questions_by_line()
    ensures { (q : Question) (bytes : List ℕ) → (judge_of bytes ≡ Ok q) ↔ IsJudgeLine q bytes }
{}

/// The values of a line that has its shape, in the order of the fields.
#[tactic(auto, unfolding(crate::specs::JudgeLine::question_of))]
fn values_of(alloc: Global, shape: &JudgeShape) -> Result<JudgeLine, Refusal>
    ensures { Gives question result (question_of (spelled_judge shape.now)) }
{
    let list = carried_list(alloc, shape.holder, &shape.entries)?;
    let groups = each_group(alloc, &shape.groups)?;
    let owner = user_name(shape.owner)?;
    let who = Principal::read(shape.who)?;
    let mask = mask(shape.mask)?;
    Ok(JudgeLine {
        list,
        holder: shape.holder,
        head_group: shape.head_group,
        groups,
        owner,
        who,
        mask,
        policy: shape.policy,
    })
}

/// The list, where the object may carry it.
fn carried_list(alloc: Global, holder: Holder, shapes: &[EntryShape]) -> Result<AccessList, Refusal>
    ensures { Gives (λ list. list) result (carried_list_of holder (map spelled_entry shapes.now)) }
{
    let list = access_list(alloc, shapes)?;
    if !list.fits(holder) {
        return Err(Refusal::BadFlags);
    }
    Ok(list)
}

fn each_group(alloc: Global, shapes: &[GroupShape]) -> Result<Vec<Group>, Refusal>
    ensures { Gives (λ groups. map listing groups.items) result (each_of listing_of (map spelled_group shapes.now)) }
{
    let mut groups = Vec::with_capacity(alloc, shapes.len())?;
    for shape in shapes {
        groups.push(listed_group(alloc, shape)?)?;
    }
    Ok(groups)
}

#[tactic(auto, unfolding(crate::specs::JudgeLine::listing_of))]
fn listed_group(alloc: Global, shape: &GroupShape) -> Result<Group, Refusal>
    ensures { Gives listing result (listing_of (spelled_group shape.now)) }
{
    let members = members(alloc, &shape.members)?;
    Ok(Group {
        number: shape.number,
        members,
    })
}
