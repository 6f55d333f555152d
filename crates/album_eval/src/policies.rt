//! The rules that a request is judged by.
ghost use Rattle.std.specs.Prelude.{◌≡◌, ℕ};
ghost use Rattle.album_access.specs.Bits.{has_bit};
ghost use Rattle.album_eval.specs.Policies.{policy_of, gives_owner, has_owners_way};

use album_access::Mask;
use bitflags::Flags;

/// The rules that a request is judged by.
#[derive(Clone, Copy, Debug, PartialEq, Eq)]
pub enum Policy {
    /// Those of RFC 7530.
    One,
    /// The same, but the owner is given READ_ACL and WRITE_ACL before the list is looked at.
    Two,
    /// Policy Two, and an owner who asks for no more than these two is looked up in no group: what the owner may do to
    /// its own list rests on nothing that others can change.
    Three,
}

impl Policy {
    /// The policy of this number, 1 to 3.
    pub fn of(number: u64) -> Option<Policy>
        ensures { result ≡ policy_of number }
    {
        match number {
            1 => Some(Policy::One),
            2 => Some(Policy::Two),
            3 => Some(Policy::Three),
            _ => None,
        }
    }

    /// The bits that the owner is given.
    pub(crate) fn owner_bits(self) -> Mask
        ensures { (bit : ℕ) → has_bit result bit ≡ gives_owner self bit }
    {
        match self {
            Policy::One => Mask::empty(),
            Policy::Two => Mask::READ_ACL.union(Mask::WRITE_ACL),
            Policy::Three => Mask::READ_ACL.union(Mask::WRITE_ACL),
        }
    }

    /// Whether an owner is looked up in no group where it asks for no more than it is given.
    pub fn has_owners_way(self) -> bool
        ensures { result ≡ has_owners_way self }
    {
        match self {
            Policy::One | Policy::Two => false,
            Policy::Three => true,
        }
    }
}
