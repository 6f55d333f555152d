//! Entries, and the lists of them.
ghost use Rattle.std.specs.Prelude.{◌≡◌, ◌≤◌, ◌&&◌, IsTrue, length, Ok, Err, IfOk, IfErr, IsOkUnless};
ghost use Rattle.std.specs.List.{list_all};
ghost use Rattle.album_access.specs.Bits.{mask_bits, flag_bits, is_mask, is_within, all_flag_bits};
ghost use Rattle.album_lists.specs.Entries.{is_spelled, is_of_use, is_whole, is_never_inherited, access_list_of, fits};
ghost use Rattle.album_lists.specs.Inheritance.{inherited};

use crate::inheritance::inherited;
use crate::shared_lists::SharedList;
use crate::whos::Who;
use album_access::{AceFlags, AceType, Mask};
use album_stamps::{MAX_ENTRIES, Refusal, Refused};
use bitflags::Flags;
use std::alloc::{AllocError, Global};
use std::marker::Model;

/// An entry of an access list (RFC 7530, section 6.2.1).
#[derive(Clone, Debug, Drop)]
pub struct Ace {
    /// What it does with the bits of its mask: the ACE's type (RFC 7530, section 6.2.1.1).
    pub sort: AceType,
    /// Whom it speaks of.
    pub who: Who,
    /// The bits that it speaks of: one at least, in a list.
    pub mask: Mask,
    /// How it is inherited, which outcome it notes, and whether its who is a group.
    pub flags: AceFlags,
}

impl Ace {
    /// The same entry once more.
    ///
    /// # Errors
    ///
    /// `OutOfMemory`.
    pub fn copy(&self) -> Result<Ace, Refusal>
        ensures copy { IfOk result (λ entry. entry ≡ self.now) }
        ensures memory { IsOkUnless result Refusal.OutOfMemory }
    {
        Ok(self.clone()?)
    }
}

/// What the object is that carries a list. A picture or a group is `Plain`, as a file is in RFC 7530; an album is a
/// `Folder`, as a directory is.
#[derive(Clone, Copy, Debug, PartialEq, Eq)]
pub enum Holder {
    Plain,
    Folder,
}

/// At most `MAX_ENTRIES` entries, each one that a line can spell, and with `INHERIT_ONLY` only where
/// something inherits it. Contracts see the entries in order.
#[derive(Debug)]
pub struct AccessList {
    entries: SharedList<Ace>,
}

impl Model for AccessList {
    ghost use Rattle.std.specs.Prelude.{List, length, ◌≤◌, IsTrue};
    ghost use Rattle.std.specs.List.{list_all};
    ghost use Rattle.album_lists.specs.declared.lists.Ace.{Ace};
    ghost use Rattle.album_stamps.specs.declared.limits.TheConstants.{MAX_ENTRIES};
    ghost use Rattle.album_lists.specs.Entries.{is_whole};

    ghost Value = { List Ace };

    ghost view = { λ l. l.entries };

    ghost invariant = { λ l. (length l.entries ≤ MAX_ENTRIES) × IsTrue (list_all is_whole l.entries) };
}

// By hand, so that what lets it go is proved here, and not again in each crate above.
impl Drop for AccessList {
    fn drop(self) {
        let AccessList { entries } = self;
        drop(entries);
    }
}

// By hand, since the search doesn't find a derived clone of what holds a list equal.
impl Clone for AccessList {
    ghost is_clone = { λ list copy. copy ≡ list };

    fn clone(&self) -> Result<AccessList, AllocError> {
        let entries = self.entries.clone()?;
        Ok(AccessList { entries })
    }
}

impl AccessList {
    /// The list of these entries.
    ///
    /// # Errors
    ///
    /// `ListFull` where they are more than `MAX_ENTRIES`. Else `BadFlags` where one is only inherited and
    /// nothing inherits it, or is one that no line can spell: its mask is empty, its mask or its flags
    /// have a bit without a name, or its who does not go with its flags. The entries are handed back.
    #[tactic(auto, unfolding(crate::specs::Entries::access_list_of))]
    pub fn new(entries: Vec<Ace>) -> Result<AccessList, Refused<Vec<Ace>>>
        ensures taken { IfOk result (λ list. access_list_of entries.items ≡ Ok list) }
        ensures refused { IfErr result (λ e. access_list_of entries.items ≡ Err e.refusal) }
        ensures given { IfErr result (λ e. e.given ≡ entries) }
    {
        if entries.len() > MAX_ENTRIES {
            return Err(Refused {
                refusal: Refusal::ListFull,
                given: entries,
            });
        }
        if !are_whole(&entries) {
            return Err(Refused {
                refusal: Refusal::BadFlags,
                given: entries,
            });
        }
        Ok(AccessList {
            entries: SharedList::of(entries),
        })
    }

    /// The entries, in order.
    pub fn entries(&self) -> &[Ace]
        ensures entries { result.now ≡ self.now }
        ensures few { length self.now ≤ MAX_ENTRIES }
        ensures whole { IsTrue (list_all is_whole self.now) }
    {
        self.entries.as_slice()
    }

    /// Whether the object may carry the list.
    pub fn fits(&self, holder: Holder) -> bool
        ensures { result ≡ fits holder self.now }
    {
        match holder {
            Holder::Plain => are_never_inherited(self.entries.as_slice()),
            Holder::Folder => true,
        }
    }

    /// The list of a new object of this kind, made in an album with this list (RFC 7530, section 6.2.1.4.1).
    ///
    /// # Errors
    ///
    /// `OutOfMemory`.
    pub fn inherit(&self, alloc: Global, holder: Holder) -> Result<AccessList, Refusal>
        ensures inherited { IfOk result (λ list. list ≡ inherited holder self.now) }
        ensures memory { IsOkUnless result Refusal.OutOfMemory }
    {
        let entries = inherited(alloc, self.entries.as_slice(), holder)?;
        Ok(AccessList {
            entries: SharedList::of(entries),
        })
    }

    /// Lets the copies that are made from now on share the entries.
    ///
    /// # Errors
    ///
    /// `OutOfMemory`. The list stays what it is.
    pub fn make_shared(&mut self) -> Result<(), Refusal>
        ensures same { self.new ≡ self.old }
        ensures memory { IsOkUnless result Refusal.OutOfMemory }
    {
        Ok(self.entries.make_shared()?)
    }

    /// The same list once more.
    ///
    /// # Errors
    ///
    /// `OutOfMemory`.
    pub fn copy(&self) -> Result<AccessList, Refusal>
        ensures copy { IfOk result (λ list. list ≡ self.now) }
        ensures memory { IsOkUnless result Refusal.OutOfMemory }
    {
        Ok(self.clone()?)
    }
}

fn are_whole(entries: &[Ace]) -> bool
    ensures { result ≡ list_all is_whole entries.now }
{
    entries.iter().all(is_whole)
}

fn is_whole(entry: &Ace) -> bool
    ensures { result ≡ is_whole entry.now }
{
    is_spelled(entry) && is_of_use(entry)
}

/// Whether a line can spell the entry.
#[tactic(auto, unfolding(crate::specs::Entries::is_spelled))]
fn is_spelled(entry: &Ace) -> bool
    ensures { result ≡ is_spelled entry.now }
{
    has_mask(entry) && has_flags(entry) && entry.who.goes_with(entry.flags)
}

fn has_mask(entry: &Ace) -> bool
    ensures { result ≡ is_mask (mask_bits entry.now.mask) }
{
    match Mask::of(entry.mask.bits()) {
        Ok(_) => true,
        Err(_) => false,
    }
}

fn has_flags(entry: &Ace) -> bool
    ensures { result ≡ is_within (flag_bits entry.now.flags) all_flag_bits }
{
    match AceFlags::of(entry.flags.bits()) {
        Ok(_) => true,
        Err(_) => false,
    }
}

/// Whether something inherits the entry, if it is only inherited.
#[tactic(auto, unfolding(crate::specs::Entries::is_of_use))]
fn is_of_use(entry: &Ace) -> bool
    ensures { result ≡ is_of_use entry.now }
{
    let flags = entry.flags;
    !flags.contains(AceFlags::INHERIT_ONLY)
        || flags.contains(AceFlags::FILE_INHERIT)
        || flags.contains(AceFlags::DIRECTORY_INHERIT)
}

fn are_never_inherited(entries: &[Ace]) -> bool
    ensures { result ≡ list_all is_never_inherited entries.now }
{
    entries.iter().all(is_never_inherited)
}

/// Whether nothing inherits the entry.
#[tactic(auto, unfolding(crate::specs::Entries::is_never_inherited))]
fn is_never_inherited(entry: &Ace) -> bool
    ensures { result ≡ is_never_inherited entry.now }
{
    !entry.flags.intersects(inheritance())
}

/// The flags that speak of inheritance (RFC 7530, section 6.2.1.4): the low four bits.
pub(crate) fn inheritance() -> AceFlags
    ensures { flag_bits result ≡ 15 }
{
    AceFlags::FILE_INHERIT
        .union(AceFlags::DIRECTORY_INHERIT)
        .union(AceFlags::NO_PROPAGATE_INHERIT)
        .union(AceFlags::INHERIT_ONLY)
}
