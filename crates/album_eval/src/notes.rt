//! Which entries take note of a request.
ghost use Rattle.std.specs.Prelude.{◌≡◌, ℕ, List, Bool, true, IfOk, IsOkUnless};
ghost use Rattle.album_access.specs.declared.masks.Mask.{Mask};
ghost use Rattle.album_lists.specs.declared.lists.Ace.{Ace};
ghost use Rattle.album_eval.specs.Matching.{Case, case_of, is_of_group};
ghost use Rattle.album_eval.specs.Audit.{is_noted, audited};
ghost use Rattle.album_eval.specs.Policies.{is_owners_way};

use crate::facts::Facts;
use album_access::{AceFlags, AceType, Mask};
use album_lists::{AccessList, Ace, Who};
use album_stamps::Refusal;
use bitflags::Flags;
use std::alloc::{AllocError, Global};

/// A law: what takes note of a request by the owner's way rests on no group.
pub fn owners_way_is_noted_without_groups()
    ensures { (case : Case) (is_in : ℕ → Bool) (mask : Mask) (success : Bool) (entries : List Ace)
        → is_owners_way case mask ≡ true
        → audited (record case { is_in = is_in }) mask success entries ≡ audited case mask success entries }
{}

/// The indexes, rising from 0, of the AUDIT and ALARM entries that take note of a request for these
/// bits that was granted (`success`) or denied (RFC 7530, section 6.2.1.1). Where an owner goes the owner's
/// way, none does because of a group.
///
/// # Errors
///
/// `OutOfMemory`.
pub fn audits(
    alloc: Global,
    list: &AccessList,
    facts: &Facts,
    mask: Mask,
    success: bool,
) -> Result<Vec<usize>, Refusal>
    ensures noted { IfOk result (λ indexes. indexes.items ≡ audited (case_of facts.now) mask success list.now) }
    ensures memory { IsOkUnless result Refusal.OutOfMemory }
{
    let indexes = noted_indexes(alloc, list.entries(), facts, mask, success)?;
    Ok(indexes)
}

#[tactic(auto, unfolding(crate::specs::Audit::audited))]
fn noted_indexes(
    alloc: Global,
    entries: &[Ace],
    facts: &Facts,
    mask: Mask,
    success: bool,
) -> Result<Vec<usize>, AllocError>
    ensures { IfOk result (λ indexes. indexes.items ≡ audited (case_of facts.now) mask success entries.now) }
{
    entries
        .iter()
        .enumerate()
        .filter(|(_, entry)| is_noted(facts, mask, success, entry))
        .map(|(index, _)| index)
        .collect(alloc)
}

/// Whether the entry takes note of a request with this outcome.
#[tactic(auto, unfolding(crate::specs::Audit::is_noted))]
fn is_noted(facts: &Facts, mask: Mask, success: bool, entry: &Ace) -> bool
    ensures { result ≡ is_noted (case_of facts.now) mask success entry.now }
{
    let outcome = if success {
        AceFlags::SUCCESSFUL_ACCESS
    } else {
        AceFlags::FAILED_ACCESS
    };
    facts.is_match(entry)
        && !(is_owners_way(facts, mask) && is_of_group(&entry.who))
        && matches!(entry.sort, AceType::Audit | AceType::Alarm)
        && entry.mask.intersects(mask)
        && entry.flags.contains(outcome)
}

/// Whether the principal is the owner, or root, and asks for no more than the policy gives to it.
fn is_owners_way(facts: &Facts, mask: Mask) -> bool
    ensures { result ≡ is_owners_way (case_of facts.now) mask }
{
    let given = Mask::READ_ACL.union(Mask::WRITE_ACL).bits();
    facts.policy.has_owners_way()
        && facts.principal.owns(facts.owner)
        && mask.bits() & given == mask.bits()
}

/// Whether the who means those who are in a group.
fn is_of_group(who: &Who) -> bool
    ensures { result ≡ is_of_group who.now }
{
    matches!(who, Who::Group(_) | Who::OwnerGroup)
}
