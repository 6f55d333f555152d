//! What an access list says of a request.
ghost use Rattle.std.specs.Prelude.{◌≡◌, ◌&&◌, ◌⊎◌, ℕ, List, [], Bool, true, false, not};
ghost use Rattle.album_access.specs.Bits.{has_bit};
ghost use Rattle.album_access.specs.declared.masks.Mask.{Mask};
ghost use Rattle.album_lists.specs.declared.lists.Ace.{Ace};
ghost use Rattle.album_eval.specs.declared.facts.Principal.TheVariants as principal;
ghost use Rattle.album_eval.specs.declared.policies.Policy.TheVariants.{One, Two, Three};
ghost use Rattle.album_eval.specs.declared.verdicts.Verdict.{Verdict};
ghost use Rattle.album_eval.specs.declared.verdicts.Verdict.TheVariants.{Granted, DeniedAtEnd};
ghost use Rattle.album_eval.specs.Audit.{audited};
ghost use Rattle.album_eval.specs.Matching.{Case, case_of, owns, asked_by, IsUnnamed};
ghost use Rattle.album_eval.specs.Policies.{is_given, is_owners_way, under};
ghost use Rattle.album_eval.specs.Verdict.{IsVerdict, verdict};

use crate::facts::Facts;
use album_access::{AceType, Mask};
use album_lists::AccessList;
use bitflags::Flags;

/// The answer to a request.
#[derive(Clone, Copy, Debug, PartialEq, Eq)]
pub enum Verdict {
    /// Each bit that was asked is allowed before it is denied.
    Granted,
    /// Denied, first by the entry at this index, from 0.
    DeniedBy(usize),
    /// Denied by no entry, but a bit that was asked is never mentioned.
    DeniedAtEnd,
}

/// A law: a request has one verdict, and `verdict` computes it.
pub fn one_verdict()
    ensures one { (case : Case) (entries : List Ace) (mask : Mask) (v w : Verdict)
        → IsVerdict case entries mask v → IsVerdict case entries mask w → v ≡ w }
    ensures computed { (case : Case) (entries : List Ace) (mask : Mask)
        → IsVerdict case entries mask (verdict case entries mask) }
{}

/// A law: the policies differ only where the owner, or root, asks for READ_ACL (bit 17) or WRITE_ACL (bit 18). Two
/// grants it these two, whatever the list, and Three says the same of each request, so what is asked by the owner's way
/// is granted; under One an empty list grants nothing.
pub fn given_to_owners()
    ensures others { (case : Case) (entries : List Ace) (mask : Mask) → owns case.principal case.owner ≡ false
        → verdict (under Two case) entries mask ≡ verdict (under One case) entries mask }
    ensures other_bits { (case : Case) (entries : List Ace) (mask : Mask)
        → has_bit mask 17 ≡ false → has_bit mask 18 ≡ false
        → verdict (under Two case) entries mask ≡ verdict (under One case) entries mask }
    ensures given { (case : Case) (entries : List Ace) (mask : Mask) → owns case.principal case.owner ≡ true
        → ((bit : ℕ) → has_bit mask bit ≡ true → (bit ≡ 17) ⊎ (bit ≡ 18))
        → IsVerdict (under Two case) entries mask Granted }
    ensures three { (case : Case) (entries : List Ace) (mask : Mask)
        → verdict (under Three case) entries mask ≡ verdict (under Two case) entries mask }
    ensures way { (case : Case) (entries : List Ace) (mask : Mask) → is_owners_way case mask ≡ true
        → verdict case entries mask ≡ Granted }
    ensures no_list { (case : Case) (mask : Mask) (bit : ℕ) → has_bit mask bit ≡ true
        → IsVerdict (under One case) [] mask DeniedAtEnd }
{}

/// A law: root is judged on each object as its owner would be who is in the same groups, wherever no entry names either
/// of the two, and the same entries take note of it. Under Three it is given READ_ACL and WRITE_ACL on each object,
/// whatever the list.
pub fn root_as_owner()
    ensures same { (case : Case) (user : List ℕ) (entries : List Ace) (mask : Mask)
        → IsUnnamed user entries → IsUnnamed case.owner entries
        → verdict (asked_by (principal.Root user) case) entries mask
        ≡ verdict (asked_by (principal.User case.owner) case) entries mask }
    ensures noted { (case : Case) (user : List ℕ) (entries : List Ace) (mask : Mask) (success : Bool)
        → IsUnnamed user entries → IsUnnamed case.owner entries
        → audited (asked_by (principal.Root user) case) mask success entries
        ≡ audited (asked_by (principal.User case.owner) case) mask success entries }
    ensures given { (case : Case) (user : List ℕ) (entries : List Ace) (mask : Mask)
        → ((bit : ℕ) → has_bit mask bit ≡ true → (bit ≡ 17) ⊎ (bit ≡ 18))
        → verdict (under Three (asked_by (principal.Root user) case)) entries mask ≡ Granted }
{}

/// What the list says of a request for the bits of the mask (RFC 7530, section 6.2.1), under the policy. The entries
/// are gone through in order until each bit is allowed, or one that is left is denied. A bit that no entry mentions
/// is denied.
pub fn evaluate(list: &AccessList, facts: &Facts, mask: Mask) -> Verdict
    ensures verdict { IsVerdict (case_of facts.now) list.now mask result }
    ensures computed { result ≡ verdict (case_of facts.now) list.now mask }
{
    let mut remaining = without(mask, given(facts));
    for (index, entry) in list.entries().iter().enumerate() {
        if remaining.is_empty() {
            return Verdict::Granted;
        }
        if facts.is_match(entry) {
            match entry.sort {
                AceType::Allowed => remaining = without(remaining, entry.mask),
                AceType::Denied => {
                    if entry.mask.intersects(remaining) {
                        return Verdict::DeniedBy(index);
                    }
                }
                AceType::Audit | AceType::Alarm => {}
            }
        }
    }
    if remaining.is_empty() {
        Verdict::Granted
    } else {
        Verdict::DeniedAtEnd
    }
}

/// The bits that are given before the list is looked at: none by RFC 7530, so this is a rule of policies Two and Three
/// alone.
fn given(facts: &Facts) -> Mask
    ensures { (bit : ℕ) → has_bit result bit ≡ is_given (case_of facts.now) bit }
{
    if facts.principal.owns(facts.owner) {
        facts.policy.owner_bits()
    } else {
        Mask::empty()
    }
}

/// The bits of the mask that the other doesn't have.
fn without(mask: Mask, other: Mask) -> Mask
    ensures { (bit : ℕ) → has_bit result bit ≡ (has_bit mask bit && not (has_bit other bit)) }
{
    // (`difference` is the same, but only of a `u32` is it known that no bit is past its 32)
    Mask::from_bits_retain(mask.bits() & !other.bits())
}
