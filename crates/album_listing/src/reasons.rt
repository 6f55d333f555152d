//! What may be asked of an object, and what its list says of it.
ghost use Rattle.std.specs.Prelude.{◌≡◌};
ghost use Rattle.album_listing.specs.Reasons.{is_grant};

use album_access::Mask;
use album_eval::Verdict;
use album_items::ItemId;

/// A mask that may be asked of an object. A need has alternatives, and one of them is enough.
#[derive(Clone, Copy, Debug)]
pub struct Alternative {
    pub object: ItemId,
    /// The bits that are needed of it, all of them.
    pub mask: Mask,
}

/// What the list of an object says of a mask.
#[derive(Clone, Copy, Debug)]
pub struct Reason {
    pub object: ItemId,
    /// The bits that were asked of it.
    pub mask: Mask,
    /// What its list says of them.
    pub verdict: Verdict,
}

impl Reason {
    /// Whether the mask is granted.
    pub fn is_grant(&self) -> bool
        ensures { result ≡ is_grant self.now.verdict }
    {
        match self.verdict {
            Verdict::Granted => true,
            Verdict::DeniedBy(_) | Verdict::DeniedAtEnd => false,
        }
    }
}
