//! Which asks are refused before anything is read.
ghost use Rattle.std.specs.Prelude.{◌≡◌, ◌==◌, ◌&&◌, ◌+◌, not, [], ◌∷◌, None, Some, IfOk, MatchResult, length, map};
ghost use Rattle.std.specs.List.{list_all, list_any};
ghost use Rattle.album_stamps.specs.Distinct.{no_two};
ghost use Rattle.album_lists.specs.Entries.{fits};
ghost use Rattle.album_views.specs.Asks.{headed, wanted};
ghost use Rattle.album_views.specs.Checks.{is_one_of, has_kinds, has_single_objects, same_object, same_group, is_room_for, has_room, new_lists, holder_of, has_fitting_lists, flaw_of, refusal_of};

use crate::asks::{Ask, NewList, NewMembership};
use album_eval::Principal;
use album_items::{ItemId, Kind, Members};
use album_lists::Holder;
use album_stamps::{MAX_MEMBERS, MAX_TRANSACTION_ITEMS, Refusal};

/// The kinds of what has a head, and so a list of its own.
const HEADED: [Kind; 3] = [Kind::Picture, Kind::Album, Kind::Group];

impl Ask {
    /// Whether the ask of this principal can be read for. It takes no memory.
    ///
    /// # Errors
    ///
    /// The first test that the ask fails decides, in this order. `BadRequest`: an object is of a kind that the ask
    /// doesn't allow for it, there is no object, or one occurs twice. `TooManyItems`: there are more than
    /// `MAX_TRANSACTION_ITEMS`. `ListFull`: a group is to have more than `MAX_MEMBERS` members. `BadFlags`: a list does
    /// not fit its object. `NoOwner`: Anonymous makes a new object. A group that a share names for its list and for its
    /// members counts as two, but is no object that occurs twice.
    pub fn check(&self, principal: &Principal) -> Result<(), Refusal>
        ensures refusal { MatchResult result
            (λ _. refusal_of self.now principal.now ≡ None)
            (λ e. refusal_of self.now principal.now ≡ Some e) }

        // An ask that is taken of somebody has no flaw of its own, so a viewing can begin with it.
        ensures sound { IfOk result (λ _. flaw_of self.now ≡ None) }
    {
        self.check_for_all()?;
        if self.is_adding() && matches!(principal, Principal::Anonymous) {
            return Err(Refusal::NoOwner);
        }
        Ok(())
    }

    /// The same, for any principal.
    #[tactic(auto, unfolding(crate::specs::Checks::flaw_of))]
    fn check_for_all(&self) -> Result<(), Refusal>
        ensures { MatchResult result (λ _. flaw_of self.now ≡ None) (λ e. flaw_of self.now ≡ Some e) }
    {
        if !(self.has_kinds() && self.has_single_objects()) {
            return Err(Refusal::BadRequest);
        }
        if self.named_len() > MAX_TRANSACTION_ITEMS {
            return Err(Refusal::TooManyItems);
        }
        if !self.has_room() {
            return Err(Refusal::ListFull);
        }
        if !self.has_fitting_lists() {
            return Err(Refusal::BadFlags);
        }
        Ok(())
    }

    /// Whether each object is of a kind that the ask allows for it.
    #[tactic(auto, using(crate::proofs::Flaws::kinds_lists, crate::proofs::Flaws::kinds_share))]
    fn has_kinds(&self) -> bool
        ensures { result ≡ has_kinds self.now }
    {
        match self {
            Ask::Read { object } => is_one_of(&[Kind::Picture, Kind::Group], *object),
            Ask::List { album } => is_one_of(&[Kind::Album], *album),
            Ask::GetList { object } => is_one_of(&HEADED, *object),
            Ask::Head { object } => is_one_of(&HEADED, *object),
            Ask::Children { album } => is_one_of(&[Kind::Album], *album),
            Ask::AddPicture { album, .. } => is_one_of(&[Kind::Album], *album),
            Ask::AddAlbum { album, .. } => is_one_of(&[Kind::Album], *album),
            Ask::AddGroup { album, .. } => is_one_of(&[Kind::Album], *album),
            Ask::Retitle { object, .. } => is_one_of(&[Kind::Picture, Kind::Album], *object),
            Ask::Replace { object, .. } => is_one_of(&[Kind::Picture], *object),
            Ask::Delete { object } => is_one_of(&[Kind::Picture], *object),
            Ask::Move { object, to } => {
                is_one_of(&[Kind::Picture], *object) && is_one_of(&[Kind::Album], *to)
            }
            Ask::SetLists { lists } => are_headed(lists.as_slice()),
            Ask::SetOwner { object, .. } => is_one_of(&HEADED, *object),
            Ask::SetMembers { object, .. } => is_one_of(&[Kind::Group], *object),
            Ask::Share { lists, members } => {
                are_headed(lists.as_slice()) && are_groups(members.as_slice())
            }
        }
    }

    /// Whether there is an object, and none occurs twice in one field.
    #[tactic(auto, using(crate::proofs::Flaws::single_lists, crate::proofs::Flaws::single_share))]
    fn has_single_objects(&self) -> bool
        ensures { result ≡ has_single_objects self.now }
    {
        match self {
            Ask::SetLists { lists } => {
                !lists.as_slice().is_empty() && have_single_objects(lists.as_slice())
            }
            Ask::Share { lists, members } => {
                has_single_in_fields(lists.as_slice(), members.as_slice())
            }
            Ask::Move { object, to } => !object.is(*to),
            Ask::Read { .. } | Ask::List { .. } | Ask::GetList { .. } => true,
            Ask::Head { .. } | Ask::Children { .. } => true,
            Ask::AddPicture { .. } | Ask::AddAlbum { .. } | Ask::AddGroup { .. } => true,
            Ask::Retitle { .. } | Ask::Replace { .. } | Ask::Delete { .. } => true,
            Ask::SetOwner { .. } | Ask::SetMembers { .. } => true,
        }
    }

    /// How many items are named, one that is named in two fields twice.
    #[tactic(auto, using(crate::proofs::Flaws::count_share))]
    fn named_len(&self) -> usize
        ensures { result ≡ length (wanted self.now) }
    {
        match self {
            Ask::SetLists { lists } => lists.as_slice().len(),
            Ask::Share { lists, members } => lists.as_slice().len() + members.as_slice().len(),
            Ask::Move { .. } => 2,
            Ask::Read { .. } | Ask::List { .. } | Ask::GetList { .. } => 1,
            Ask::Head { .. } | Ask::Children { .. } => 1,
            Ask::AddPicture { .. } | Ask::AddAlbum { .. } | Ask::AddGroup { .. } => 1,
            Ask::Retitle { .. } | Ask::Replace { .. } | Ask::Delete { .. } => 1,
            Ask::SetOwner { .. } | Ask::SetMembers { .. } => 1,
        }
    }

    /// Whether each group has room for the members that it is to have.
    fn has_room(&self) -> bool
        ensures { result ≡ has_room self.now }
    {
        match self {
            Ask::SetMembers { members, .. } => is_room_for(members),
            Ask::AddGroup { members, .. } => is_room_for(members),
            Ask::Share { members, .. } => have_room(members.as_slice()),
            Ask::Read { .. } | Ask::List { .. } | Ask::GetList { .. } => true,
            Ask::Head { .. } | Ask::Children { .. } => true,
            Ask::AddPicture { .. } | Ask::AddAlbum { .. } | Ask::Retitle { .. } => true,
            Ask::Replace { .. } | Ask::Delete { .. } | Ask::Move { .. } => true,
            Ask::SetLists { .. } | Ask::SetOwner { .. } => true,
        }
    }

    /// The lists that objects are to have.
    fn new_lists(&self) -> &[NewList]
        ensures { result.now ≡ new_lists self.now }
    {
        match self {
            Ask::SetLists { lists } => lists.as_slice(),
            Ask::Share { lists, .. } => lists.as_slice(),
            Ask::Read { .. } | Ask::List { .. } | Ask::GetList { .. } => &[],
            Ask::Head { .. } | Ask::Children { .. } => &[],
            Ask::AddPicture { .. } | Ask::AddAlbum { .. } | Ask::AddGroup { .. } => &[],
            Ask::Retitle { .. } | Ask::Replace { .. } => &[],
            Ask::Delete { .. } | Ask::Move { .. } => &[],
            Ask::SetOwner { .. } | Ask::SetMembers { .. } => &[],
        }
    }

    /// Whether each new list fits its object.
    fn has_fitting_lists(&self) -> bool
        ensures { result ≡ has_fitting_lists self.now }
    {
        self.new_lists()
            .iter()
            .all(|new| new.list.fits(holder_of(new.object)))
    }
}

/// Whether the item is of one of the kinds.
fn is_one_of(kinds: &[Kind], item: ItemId) -> bool
    ensures { result ≡ is_one_of kinds.now item }
{
    kinds.iter().any(|kind| kind.code() == item.kind().code())
}

fn are_headed(lists: &[NewList]) -> bool
    ensures { result ≡ list_all (λ new. is_one_of headed new.object) lists.now }
{
    lists.iter().all(|new| is_one_of(&HEADED, new.object))
}

fn are_groups(members: &[NewMembership]) -> bool
    ensures { result ≡ list_all (λ new. is_one_of (Kind.Group ∷ []) new.object) members.now }
{
    members
        .iter()
        .all(|new| is_one_of(&[Kind::Group], new.object))
}

/// Whether there is a list or a membership, and no two of either are for one object.
fn has_single_in_fields(lists: &[NewList], members: &[NewMembership]) -> bool
    ensures { result ≡ (not (length lists.now + length members.now == 0)
        && (no_two same_object lists.now && no_two same_group members.now)) }
{
    if lists.is_empty() && members.is_empty() {
        return false;
    }
    have_single_objects(lists) && have_single_groups(members)
}

/// Whether no object occurs twice.
fn have_single_objects(lists: &[NewList]) -> bool
    ensures { result ≡ no_two same_object lists.now }
{
    for index in 0..lists.len() {
        if names_object_of(&lists[index + 1..], &lists[index]) {
            return false;
        }
    }
    true
}

/// Whether one of them is for the object of this one.
fn names_object_of(lists: &[NewList], new: &NewList) -> bool
    ensures { result ≡ list_any (same_object new.now) lists.now }
{
    lists.iter().any(|other| new.object.is(other.object))
}

/// Whether no group occurs twice.
fn have_single_groups(members: &[NewMembership]) -> bool
    ensures { result ≡ no_two same_group members.now }
{
    for index in 0..members.len() {
        if names_group_of(&members[index + 1..], &members[index]) {
            return false;
        }
    }
    true
}

/// Whether one of them is for the group of this one.
fn names_group_of(members: &[NewMembership], new: &NewMembership) -> bool
    ensures { result ≡ list_any (same_group new.now) members.now }
{
    members.iter().any(|other| new.object.is(other.object))
}

fn have_room(members: &[NewMembership]) -> bool
    ensures { result ≡ list_all (λ new. is_room_for new.members) members.now }
{
    members.iter().all(|new| is_room_for(&new.members))
}

/// Whether a group may have these members.
fn is_room_for(members: &Members) -> bool
    ensures { result ≡ is_room_for members.now }
{
    members.as_slice().len() <= MAX_MEMBERS
}

/// What carries the list of an item: an album is a folder.
fn holder_of(item: ItemId) -> Holder
    ensures { result ≡ holder_of item }
{
    match item.kind() {
        Kind::Album => Holder::Folder,
        Kind::Picture | Kind::List | Kind::Group => Holder::Plain,
    }
}
