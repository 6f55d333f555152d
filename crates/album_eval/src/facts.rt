//! The principal of a request, and whose object it is about.
ghost use Rattle.std.specs.Prelude.{◌≡◌, ◌≢◌, ◌↔◌, ℕ, List, Option, Some, None, IfOk, IsOkUnless};
ghost use Rattle.std.specs.Option.{ok_or};
ghost use Rattle.album_stamps.specs.declared.refusals.Refusal.TheVariants.{BadWho};
ghost use Rattle.album_lists.specs.declared.lists.Ace.{Ace};
ghost use Rattle.album_lists.specs.declared.whos.Who.{Who};
ghost use Rattle.album_eval.specs.declared.facts.Principal.{Principal};
ghost use Rattle.album_eval.specs.declared.facts.Principal.TheVariants.{User, Root};
ghost use Rattle.album_eval.specs.Matching.{case_of, is_user, owns, is_for, is_match, IsPrincipalText, principal_of, is_named, acting};

use crate::policies::Policy;
use album_access::AceFlags;
use album_lists::{Ace, Name, Who, user_name};
use album_stamps::Refusal;
use bitflags::Flags;
use std::collections::BTreeSet;

/// The principal: the user, or the requester without authentication, on whose behalf something is requested.
#[derive(Clone, Debug, Drop)]
pub enum Principal {
    /// `ANONYMOUS@`
    Anonymous,
    /// `name@users`
    User(Name),
    /// The user whom the opening names as root: it has on every object what its owner has.
    Root(Name),
}

/// What a list is judged on: the policy, the principal, whose the object is, and the principal's groups.
#[derive(Clone, Copy, Debug)]
pub struct Facts<'a> {
    pub policy: Policy,
    /// On whose behalf something is requested.
    pub principal: &'a Principal,
    /// Whose the object is.
    pub owner: &'a Name,
    /// The number of the object's group (RFC 7530's owner_group).
    pub head_group: u64,
    /// The numbers of the groups that the principal is in.
    pub groups: &'a BTreeSet<u64>,
}

/// A law: the principal that is read of a text is the one that is spelled by it, and no other is.
pub fn principals_by_text()
    ensures { (p : Principal) (text : List ℕ) → (principal_of text ≡ Some p) ↔ IsPrincipalText p text }
{}

/// A law: a user acts as root exactly where it is the one who is named, and else as itself. Whoever acts is called as
/// before, and where nobody is named, nothing changes.
pub fn root_by_name()
    ensures root { (root : Option (List ℕ)) (name : List ℕ)
        → (acting root (User name) ≡ Root name) ↔ (root ≡ Some name) }
    ensures others { (root : Option (List ℕ)) (name : List ℕ)
        → (acting root (User name) ≡ User name) ↔ (root ≢ Some name) }
    ensures same { (root : Option (List ℕ)) (p : Principal) (name : List ℕ)
        → is_user (acting root p) name ≡ is_user p name }
    ensures nobody { (p : Principal) → acting None p ≡ p }
{}

impl Principal {
    /// The principal that the text is. It is no root: the opening alone makes one.
    ///
    /// # Errors
    ///
    /// `BadWho` where the text is no principal's.
    #[tactic(auto, unfolding(crate::specs::Matching::principal_of))]
    pub fn read(text: &str) -> Result<Principal, Refusal>
        ensures { result ≡ ok_or (principal_of text.now) BadWho }
    {
        if text == "ANONYMOUS@" {
            return Ok(Principal::Anonymous);
        }
        let name = user_name(text)?;
        Ok(Principal::User(name))
    }

    /// The same principal once more.
    ///
    /// # Errors
    ///
    /// `OutOfMemory`.
    pub fn copy(&self) -> Result<Principal, Refusal>
        ensures copy { IfOk result (λ principal. principal ≡ self.now) }
        ensures memory { IsOkUnless result Refusal.OutOfMemory }
    {
        Ok(self.clone()?)
    }

    /// Whether this is the user of that name.
    pub fn is_user(&self, name: &Name) -> bool
        ensures { result ≡ is_user self.now name.now }
    {
        match self {
            Principal::Anonymous => false,
            Principal::User(user) | Principal::Root(user) => user.as_str() == name.as_str(),
        }
    }

    /// Whether this has on that owner's objects what the owner has: as the owner, or as root.
    pub fn owns(&self, owner: &Name) -> bool
        ensures { result ≡ owns self.now owner.now }
    {
        match self {
            Principal::Anonymous | Principal::User(_) => self.is_user(owner),
            Principal::Root(_) => true,
        }
    }

    /// The principal as it acts where this user is root, or nobody is.
    pub fn acting(self, root: &Option<Name>) -> Principal
        ensures { result ≡ acting root.now self }
    {
        match self {
            Principal::Anonymous => Principal::Anonymous,
            Principal::User(name) => {
                if is_named(root, &name) {
                    Principal::Root(name)
                } else {
                    Principal::User(name)
                }
            }
            Principal::Root(name) => Principal::Root(name),
        }
    }
}

/// Whether who is named as root, perhaps nobody, has this name.
fn is_named(root: &Option<Name>, name: &Name) -> bool
    ensures { result ≡ is_named root.now name.now }
{
    match root {
        None => false,
        Some(root) => root.as_str() == name.as_str(),
    }
}

impl Facts<'_> {
    /// Whether the who means the principal (RFC 7530, section 6.2.1.5).
    fn is_for(&self, who: &Who) -> bool
        ensures { result ≡ is_for (case_of self.now) who.now }
    {
        match who {
            Who::User(name) => self.principal.is_user(name),
            Who::Group(number) => self.groups.contains(number),
            Who::Owner => self.principal.owns(self.owner),
            Who::OwnerGroup => self.groups.contains(&self.head_group),
            Who::Everyone => true,
            Who::Anonymous => matches!(self.principal, Principal::Anonymous),
            Who::Authenticated => matches!(self.principal, Principal::User(_) | Principal::Root(_)),
        }
    }

    /// Whether the entry takes part: it means the principal, and isn't there to be inherited only (RFC 7530, section
    /// 6.2.1.4).
    #[tactic(auto, unfolding(crate::specs::Matching::is_match))]
    pub(crate) fn is_match(&self, entry: &Ace) -> bool
        ensures { result ≡ is_match (case_of self.now) entry.now }
    {
        !entry.flags.contains(AceFlags::INHERIT_ONLY) && self.is_for(&entry.who)
    }
}
