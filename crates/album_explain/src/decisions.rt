//! How each bit of a question is decided: by an entry, or before the list, or at its end.
ghost use Rattle.std.specs.Prelude.{◌≡◌, ◌<◌, ℕ, List, true};
ghost use Rattle.album_access.specs.Bits.{has_bit};
ghost use Rattle.album_access.specs.declared.masks.Mask.{Mask};
ghost use Rattle.album_lists.specs.declared.lists.Ace.{Ace};
ghost use Rattle.album_eval.specs.declared.verdicts.Verdict.{Verdict};
ghost use Rattle.album_eval.specs.Matching.{Case, case_of, is_for, is_match};
ghost use Rattle.album_eval.specs.Policies.{is_given, gives_owner};
ghost use Rattle.album_eval.specs.Verdict.{IsVerdict, mentions, first_mention, is_denied_at};
ghost use Rattle.album_explain.specs.Decisions.{decision, decision_at, AddsUp};

use album_access::{AceFlags, AceType, Mask};
use album_eval::{Facts, Policy, Principal};
use album_lists::{AccessList, Ace, Who};
use bitflags::Flags;

/// How a bit is decided.
#[derive(Clone, Copy, Debug, PartialEq, Eq)]
pub enum Decision {
    /// The policy gives it to the owner, or to root, before the list is looked at.
    Given,
    /// It is allowed, by the first entry that mentions it, at this index from 0.
    AllowedBy(usize),
    /// It is denied, by the first entry that mentions it.
    DeniedBy(usize),
    /// It is denied at the list's end: no entry mentions it.
    DeniedAtEnd,
}

/// A law: the verdict is what the decisions on the bits that are asked add up to, and only that.
pub fn verdict_by_bits()
    ensures adds_up { (case : Case) (entries : List Ace) (mask : Mask) (v : Verdict)
        → IsVerdict case entries mask v → AddsUp (decision case entries) mask v }
    ensures only { (case : Case) (entries : List Ace) (mask : Mask) (v : Verdict)
        → AddsUp (decision case entries) mask v → IsVerdict case entries mask v }
{}

/// How the bit of this number is decided.
#[tactic(auto, unfolding(crate::specs::Decisions::decision))]
pub fn decide(list: &AccessList, facts: &Facts, bit: u32) -> Decision
    requires { bit < 64 }
    ensures { result ≡ decision (case_of facts.now) list.now bit }
{
    if is_given(facts, bit) {
        return Decision::Given;
    }
    decided_by(list.entries(), facts, bit)
}

/// The same, where it isn't given.
fn decided_by(entries: &[Ace], facts: &Facts, bit: u32) -> Decision
    requires { bit < 64 }
    ensures { result ≡ decision_at (case_of facts.now) entries.now bit }
{
    match first_mention(entries, facts, bit) {
        None => Decision::DeniedAtEnd,
        Some(index) if is_denied_at(entries, index) => Decision::DeniedBy(index),
        Some(index) => Decision::AllowedBy(index),
    }
}

/// The index of the first entry that mentions the bit.
#[tactic(auto, unfolding(album_eval::specs::Verdict::first_mention))]
fn first_mention(entries: &[Ace], facts: &Facts, bit: u32) -> Option<usize>
    requires { bit < 64 }
    ensures { result ≡ first_mention (case_of facts.now) bit entries.now }
{
    entries.iter().position(|entry| mentions(facts, entry, bit))
}

fn is_denied_at(entries: &[Ace], index: usize) -> bool
    ensures { result ≡ is_denied_at entries.now index }
{
    match entries.get(index) {
        Some(entry) => matches!(entry.sort, AceType::Denied),
        None => false,
    }
}

/// Whether the entry allows or denies the bit to the principal.
#[tactic(auto, unfolding(album_eval::specs::Verdict::mentions))]
fn mentions(facts: &Facts, entry: &Ace, bit: u32) -> bool
    requires { bit < 64 }
    ensures { result ≡ mentions (case_of facts.now) bit entry.now }
{
    is_match(facts, entry)
        && matches!(entry.sort, AceType::Allowed | AceType::Denied)
        && has_bit(entry.mask, bit)
}

/// Whether the mask has the bit.
pub(crate) fn has_bit(mask: Mask, bit: u32) -> bool
    requires { bit < 64 }
    ensures { result ≡ has_bit mask bit }
{
    (u64::from(mask.bits()) >> bit) & 1 == 1
}

/// Whether the policy gives the bit before the list is looked at.
#[tactic(auto, unfolding(album_eval::specs::Policies::is_given))]
fn is_given(facts: &Facts, bit: u32) -> bool
    ensures { result ≡ is_given (case_of facts.now) bit }
{
    facts.principal.owns(facts.owner) && gives_owner(facts.policy, bit)
}

/// Whether the policy gives the owner this bit: Two and Three give READ_ACL, which is bit 17, and WRITE_ACL, bit 18.
/// Its twin in `album_eval` is `Policy::owner_bits`, which gives all of them as a mask.
fn gives_owner(policy: Policy, bit: u32) -> bool
    ensures { result ≡ gives_owner policy bit }
{
    match policy {
        Policy::One => false,
        Policy::Two | Policy::Three => bit == 17 || bit == 18,
    }
}

/// Whether the entry takes part. Its twin is `Facts::is_match`, which `album_eval` keeps to itself: both have the same
/// definition in their contracts.
#[tactic(auto, unfolding(album_eval::specs::Matching::is_match))]
fn is_match(facts: &Facts, entry: &Ace) -> bool
    ensures { result ≡ is_match (case_of facts.now) entry.now }
{
    !entry.flags.contains(AceFlags::INHERIT_ONLY) && is_for(facts, &entry.who)
}

/// Whether the who means the principal. Its twin is `Facts::is_for` of `album_eval`.
fn is_for(facts: &Facts, who: &Who) -> bool
    ensures { result ≡ is_for (case_of facts.now) who.now }
{
    match who {
        Who::User(name) => facts.principal.is_user(name),
        Who::Group(number) => facts.groups.contains(number),
        Who::Owner => facts.principal.owns(facts.owner),
        Who::OwnerGroup => facts.groups.contains(&facts.head_group),
        Who::Everyone => true,
        Who::Anonymous => matches!(facts.principal, Principal::Anonymous),
        Who::Authenticated => matches!(facts.principal, Principal::User(_) | Principal::Root(_)),
    }
}
