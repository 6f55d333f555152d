//! Values of what has its shape: an access list of entries, members of texts, a mask of a number.
ghost use Rattle.std.specs.Prelude.{◌≡◌, List, ℕ, map};
ghost use Rattle.album_stamps.specs.Outcome.{Gives};
ghost use Rattle.album_access.specs.Bits.{mask_of, flags_of};
ghost use Rattle.album_lines.specs.Shapes.{SpelledEntry, spelled_entry};
ghost use Rattle.album_lines.specs.Values.{each_of, entry_read, entries_read, member_read, members_read};

use crate::shapes::EntryShape;
use album_access::{AceFlags, Mask};
use album_lists::{AccessList, Ace, Member, Who};
use album_stamps::{MAX_ENTRIES, MAX_MEMBERS, Refusal};
use std::alloc::Global;

/// The access list of these entries.
///
/// # Errors
///
/// `ListFull`, where there are more than `MAX_ENTRIES`; of the first entry that fails `BadMask`, `BadFlags` or
/// `BadWho`, in this order; `BadFlags`, where an entry isn't whole. `OutOfMemory`.
#[tactic(auto, unfolding(crate::specs::Values::entries_read))]
pub fn access_list(alloc: Global, shapes: &[EntryShape]) -> Result<AccessList, Refusal>
    ensures { Gives (λ list. list) result (entries_read (map spelled_entry shapes.now)) }
{
    if shapes.len() > MAX_ENTRIES {
        return Err(Refusal::ListFull);
    }
    let entries = each_entry(alloc, shapes)?;
    let list = AccessList::new(entries)?;
    Ok(list)
}

fn each_entry(alloc: Global, shapes: &[EntryShape]) -> Result<Vec<Ace>, Refusal>
    ensures { Gives (λ entries. entries.items) result (each_of entry_read (map spelled_entry shapes.now)) }
{
    let mut entries = Vec::with_capacity(alloc, shapes.len())?;
    for shape in shapes {
        entries.push(entry(shape)?)?;
    }
    Ok(entries)
}

#[tactic(auto, unfolding(crate::specs::Values::entry_read))]
fn entry(shape: &EntryShape) -> Result<Ace, Refusal>
    ensures { result ≡ entry_read (spelled_entry shape.now) }
{
    let mask = mask(shape.mask)?;
    let flags = flags(shape.flags)?;
    let who = Who::read(shape.who, flags)?;
    Ok(Ace {
        sort: shape.sort,
        who,
        mask,
        flags,
    })
}

/// The mask of this number. Beyond 32 bits no number is one.
pub(crate) fn mask(number: u64) -> Result<Mask, Refusal>
    ensures { result ≡ mask_of number }
{
    match u32::try_from(number) {
        Ok(bits) => Mask::of(bits),
        Err(_) => Err(Refusal::BadMask),
    }
}

/// The flags of this number, likewise.
fn flags(number: u64) -> Result<AceFlags, Refusal>
    ensures { result ≡ flags_of number }
{
    match u32::try_from(number) {
        Ok(bits) => AceFlags::of(bits),
        Err(_) => Err(Refusal::BadFlags),
    }
}

/// The members that these texts are.
///
/// # Errors
///
/// `ListFull`, where there are more than `MAX_MEMBERS`; `BadWho`, where a text is none. `OutOfMemory`.
#[tactic(auto, unfolding(crate::specs::Values::members_read))]
pub fn members(alloc: Global, texts: &[&str]) -> Result<Vec<Member>, Refusal>
    ensures { Gives (λ members. members.items) result (members_read (map (λ t. t.now) texts.now)) }
{
    if texts.len() > MAX_MEMBERS {
        return Err(Refusal::ListFull);
    }
    each_member(alloc, texts)
}

fn each_member(alloc: Global, texts: &[&str]) -> Result<Vec<Member>, Refusal>
    ensures { Gives (λ members. members.items) result (each_of member_read (map (λ t. t.now) texts.now)) }
{
    let mut members = Vec::with_capacity(alloc, texts.len())?;
    for text in texts {
        members.push(Member::read(text)?)?;
    }
    Ok(members)
}
