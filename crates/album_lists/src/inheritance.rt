//! What a new object inherits.
ghost use Rattle.std.specs.Prelude.{◌≡◌, IfOk};
ghost use Rattle.std.specs.List.{filter_map};
ghost use Rattle.album_lists.specs.Inheritance.{inherited_flags, inherited};

use crate::lists::{Ace, Holder, inheritance};
use album_access::AceFlags;
use bitflags::Flags;
use std::alloc::{AllocError, Global};

/// The entries that an object of this kind inherits, in order (RFC 7530, section 6.2.1.4.1).
pub(crate) fn inherited(
    alloc: Global,
    entries: &[Ace],
    holder: Holder,
) -> Result<Vec<Ace>, AllocError>
    ensures { IfOk result (λ kept. kept.items ≡ inherited holder entries.now) }
{
    let mut kept = Vec::new(alloc);
    for entry in entries {
        if let Some(flags) = inherited_flags(entry.flags, holder) {
            let who = entry.who.clone()?;
            kept.push(Ace {
                sort: entry.sort,
                who,
                mask: entry.mask,
                flags,
            })?;
        }
    }
    Ok(kept)
}

/// The flags under which an object of this kind inherits an entry, if it does.
#[tactic(auto, unfolding(crate::specs::Inheritance::inherited_flags))]
fn inherited_flags(flags: AceFlags, holder: Holder) -> Option<AceFlags>
    ensures { result ≡ inherited_flags holder flags }
{
    let one_level = flags.contains(AceFlags::NO_PROPAGATE_INHERIT);
    match holder {
        Holder::Plain => {
            if flags.contains(AceFlags::FILE_INHERIT) {
                Some(flags.difference(inheritance()))
            } else {
                None
            }
        }
        Holder::Folder => {
            if flags.contains(AceFlags::DIRECTORY_INHERIT) {
                if one_level {
                    Some(flags.difference(inheritance()))
                } else {
                    Some(flags.difference(AceFlags::INHERIT_ONLY))
                }
            } else if flags.contains(AceFlags::FILE_INHERIT) && !one_level {
                Some(flags.union(AceFlags::INHERIT_ONLY))
            } else {
                None
            }
        }
    }
}
