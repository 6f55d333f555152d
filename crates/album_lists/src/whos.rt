//! Whos and members, by their texts.
ghost use Rattle.std.specs.Prelude.{◌≡◌, ◌↔◌, List, ℕ, Some, option_map, IfOk, IsOkUnless};
ghost use Rattle.std.specs.Option.{ok_or};
ghost use Rattle.album_stamps.specs.declared.refusals.Refusal.TheVariants.{BadWho};
ghost use Rattle.album_access.specs.declared.flags.AceFlags.{AceFlags};
ghost use Rattle.album_lists.specs.declared.whos.Member.{Member};
ghost use Rattle.album_lists.specs.declared.whos.Who.{Who};
ghost use Rattle.album_lists.specs.Whos.{IsUserText, IsMemberText, IsWhoText, before, user_of, goes_with, whole_number_of, group_of, member_of, special_of, who_of};

use crate::names::Name;
use album_access::AceFlags;
use album_stamps::Refusal;
use bitflags::Flags;

/// Whom an entry speaks of (RFC 7530, section 6.2.1.5).
#[derive(Clone, Debug, Drop)]
pub enum Who {
    /// `name@users`
    User(Name),
    /// `number@groups`, in an entry with `IDENTIFIER_GROUP`
    Group(u64),
    /// `OWNER@`: the owner of the object
    Owner,
    /// `GROUP@`: the members of the object's head group
    OwnerGroup,
    /// `EVERYONE@`
    Everyone,
    /// `ANONYMOUS@`: a requester without authentication
    Anonymous,
    /// `AUTHENTICATED@`: every user
    Authenticated,
}

/// A member of a group.
#[derive(Clone, Debug, Drop)]
pub enum Member {
    /// `name@users`
    User(Name),
    /// `number@groups`: each of its members is a member
    Group(u64),
}

/// A law: what is read of a text is what is spelled by it, and nothing else is.
pub fn whos_by_text()
    ensures users { (name : List ℕ) (text : List ℕ) → (user_of text ≡ Some name) ↔ IsUserText name text }
    ensures members { (m : Member) (text : List ℕ) → (member_of text ≡ Some m) ↔ IsMemberText m text }
    ensures whos { (w : Who) (flags : AceFlags) (text : List ℕ)
        → (who_of flags text ≡ Some w) ↔ IsWhoText w flags text }
{}

/// What comes before this end.
fn before<'a>(text: &'a str, end: &str) -> Option<&'a str>
    ensures { option_map (λ front. front.now) result ≡ before end.now text.now }
{
    text.strip_suffix(end)
}

/// The number that the text is, in decimal without leading zeros.
pub fn whole_number(text: &str) -> Option<u64>
    ensures { result ≡ whole_number_of text.now }
{
    let first = *text.as_bytes().first()?;
    if first == b'+' {
        return None;
    }
    if first == b'0' {
        return if text.len() == 1 { Some(0) } else { None };
    }
    text.parse().ok()
}

/// The name of the user whose text it is.
///
/// # Errors
///
/// `BadWho` where it is no user's.
#[tactic(auto, unfolding(crate::specs::Whos::user_of))]
pub fn user_name(text: &str) -> Result<Name, Refusal>
    ensures { result ≡ ok_or (user_of text.now) BadWho }
{
    let name = before(text, "@users").ok_or(Refusal::BadWho)?;
    Name::of(name)
}

/// The number of the group whose text it is.
#[tactic(auto, unfolding(crate::specs::Whos::group_of))]
fn group_number(text: &str) -> Option<u64>
    ensures { result ≡ group_of text.now }
{
    whole_number(before(text, "@groups")?)
}

impl Member {
    /// The member that the text is.
    ///
    /// # Errors
    ///
    /// `BadWho` where the text is no member's.
    #[tactic(auto, unfolding(crate::specs::Whos::member_of))]
    pub fn read(text: &str) -> Result<Member, Refusal>
        ensures { result ≡ ok_or (member_of text.now) BadWho }
    {
        if let Some(number) = group_number(text) {
            return Ok(Member::Group(number));
        }
        let name = user_name(text)?;
        Ok(Member::User(name))
    }

    /// The same member once more.
    ///
    /// # Errors
    ///
    /// `OutOfMemory`.
    pub fn copy(&self) -> Result<Member, Refusal>
        ensures copy { IfOk result (λ member. member ≡ self.now) }
        ensures memory { IsOkUnless result Refusal.OutOfMemory }
    {
        Ok(self.clone()?)
    }
}

impl Who {
    /// The who that the text is in an entry with these flags.
    ///
    /// # Errors
    ///
    /// `BadWho` where the text is no who, or one that doesn't go with the flags.
    #[tactic(auto, unfolding(crate::specs::Whos::who_of))]
    pub fn read(text: &str, flags: AceFlags) -> Result<Who, Refusal>
        ensures { result ≡ ok_or (who_of flags text.now) BadWho }
    {
        if let Some(who) = special(text) {
            return Ok(who);
        }
        if flags.contains(AceFlags::IDENTIFIER_GROUP) {
            let number = group_number(text).ok_or(Refusal::BadWho)?;
            return Ok(Who::Group(number));
        }
        let name = user_name(text)?;
        Ok(Who::User(name))
    }

    /// Whether an entry with these flags can have the who: a group has its flag, a user hasn't, and the
    /// others may.
    pub(crate) fn goes_with(&self, flags: AceFlags) -> bool
        ensures { result ≡ goes_with self.now flags }
    {
        let is_flagged = flags.contains(AceFlags::IDENTIFIER_GROUP);
        match self {
            Who::User(_) => !is_flagged,
            Who::Group(_) => is_flagged,
            Who::Owner | Who::OwnerGroup | Who::Everyone | Who::Anonymous | Who::Authenticated =>
                true,
        }
    }

    /// The same who once more.
    ///
    /// # Errors
    ///
    /// `OutOfMemory`.
    pub fn copy(&self) -> Result<Who, Refusal>
        ensures copy { IfOk result (λ who. who ≡ self.now) }
        ensures memory { IsOkUnless result Refusal.OutOfMemory }
    {
        Ok(self.clone()?)
    }
}

/// The who that has a word of its own.
#[tactic(auto, unfolding(crate::specs::Whos::special_of))]
fn special(text: &str) -> Option<Who>
    ensures { result ≡ special_of text.now }
{
    match text {
        "OWNER@" => Some(Who::Owner),
        "GROUP@" => Some(Who::OwnerGroup),
        "EVERYONE@" => Some(Who::Everyone),
        "ANONYMOUS@" => Some(Who::Anonymous),
        "AUTHENTICATED@" => Some(Who::Authenticated),
        _ => None,
    }
}
