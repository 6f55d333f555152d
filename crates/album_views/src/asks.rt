//! What a client asks.
ghost use Rattle.std.specs.Prelude.{◌≡◌, ◌==◌, ◌++◌, List, IfOk, IsOkUnless, map};
ghost use Rattle.std.specs.List.{list_any};
ghost use Rattle.album_views.specs.Asks.{once, objects_of, needs_list_alone};

use album_items::{Content, ItemId, Members, Title};
use album_lists::{AccessList, Name};
use album_stamps::Refusal;
use indexmap::IndexSet;
use std::alloc::{AllocError, Global};
use std::marker::Model;

/// An object, and the list that it is to have.
#[derive(Clone, Debug, Drop)]
pub struct NewList {
    pub object: ItemId,
    /// The whole list that takes the place of the object's.
    pub list: AccessList,
}

/// Objects, each with the list that it is to have. Contracts see them in order.
#[derive(Clone, Debug)]
pub struct NewLists {
    lists: Vec<NewList>,
}

impl Model for NewLists {
    ghost use Rattle.std.specs.Prelude.{List};
    ghost use Rattle.album_views.specs.declared.asks.NewList.{NewList};

    ghost Value = { List NewList };

    ghost view = { λ l. l.lists.items };
}

// By hand, so that what lets it go is proved here, and not again in each crate above.
impl Drop for NewLists {
    fn drop(self) {
        let NewLists { lists } = self;
        drop(lists);
    }
}

impl NewLists {
    /// These objects with their lists.
    pub fn of(lists: Vec<NewList>) -> NewLists
        ensures { result ≡ lists.items }
    {
        NewLists { lists }
    }

    /// The objects with their lists, in order.
    pub fn as_slice(&self) -> &[NewList]
        ensures { result.now ≡ self.now }
    {
        self.lists.as_slice()
    }
}

/// A group, and the members that it is to have.
#[derive(Clone, Debug, Drop)]
pub struct NewMembership {
    pub object: ItemId,
    /// All the members that take the place of the group's.
    pub members: Members,
}

/// Groups, each with the members that it is to have. Contracts see them in order.
#[derive(Clone, Debug)]
pub struct NewMemberships {
    members: Vec<NewMembership>,
}

impl Model for NewMemberships {
    ghost use Rattle.std.specs.Prelude.{List};
    ghost use Rattle.album_views.specs.declared.asks.NewMembership.{NewMembership};

    ghost Value = { List NewMembership };

    ghost view = { λ m. m.members.items };
}

// By hand, so that what lets it go is proved here, and not again in each crate above.
impl Drop for NewMemberships {
    fn drop(self) {
        let NewMemberships { members } = self;
        drop(members);
    }
}

impl NewMemberships {
    /// These groups with their members.
    pub fn of(members: Vec<NewMembership>) -> NewMemberships
        ensures { result ≡ members.items }
    {
        NewMemberships { members }
    }

    /// The groups with their members, in order.
    pub fn as_slice(&self) -> &[NewMembership]
        ensures { result.now ≡ self.now }
    {
        self.members.as_slice()
    }
}

/// What a client asks. The items that it names are its objects.
#[derive(Clone, Debug, Drop)]
pub enum Ask {
    /// The title and the content of a picture, or the members of a group.
    Read {
        object: ItemId,
    },
    /// The children of an album, those that the principal may see, with their titles.
    List {
        album: ItemId,
    },
    /// The entries of the object's access list.
    GetList {
        object: ItemId,
    },
    /// Whose the object is and what it is called, and nothing of what it holds: its owner, its group, its list, its
    /// title, its home, and how many children or members it has.
    Head {
        object: ItemId,
    },
    /// The children of an album, all of them, without a look at any.
    Children {
        album: ItemId,
    },
    /// A new picture in the album.
    AddPicture {
        album: ItemId,
        title: Title,
        content: Content,
    },
    /// A new album in the album.
    AddAlbum {
        album: ItemId,
        title: Title,
    },
    /// A new group, for the lists of the album and of what is in it.
    AddGroup {
        album: ItemId,
        members: Members,
    },
    /// Another title of a picture or an album.
    Retitle {
        object: ItemId,
        title: Title,
    },
    /// Another content of a picture.
    Replace {
        object: ItemId,
        content: Content,
    },
    /// The picture is to be gone, from its home too.
    Delete {
        object: ItemId,
    },
    /// The picture is to be in the album `to`, and no longer in its home.
    Move {
        object: ItemId,
        to: ItemId,
    },
    /// Other access lists of objects, all at once.
    SetLists {
        lists: NewLists,
    },
    /// Another owner and another head group.
    SetOwner {
        object: ItemId,
        owner: Name,
        group: u64,
    },
    /// Other members of a group.
    SetMembers {
        object: ItemId,
        members: Members,
    },
    /// Other access lists of objects and other members of groups, all at once. A group may be named for both.
    Share {
        lists: NewLists,
        members: NewMemberships,
    },
}

impl Ask {
    /// The objects, in the order of the fields, each once.
    #[tactic(auto, using(crate::proofs::Flaws::objects_lists))]
    pub fn objects(&self, alloc: Global) -> Result<Vec<ItemId>, AllocError>
        ensures { IfOk result (λ objects. objects.items ≡ objects_of self.now) }
    {
        match self {
            Ask::Read { object } => Ok(vec![in alloc; *object]?),
            Ask::List { album } => Ok(vec![in alloc; *album]?),
            Ask::GetList { object } => Ok(vec![in alloc; *object]?),
            Ask::Head { object } => Ok(vec![in alloc; *object]?),
            Ask::Children { album } => Ok(vec![in alloc; *album]?),
            Ask::AddPicture { album, .. } => Ok(vec![in alloc; *album]?),
            Ask::AddAlbum { album, .. } => Ok(vec![in alloc; *album]?),
            Ask::AddGroup { album, .. } => Ok(vec![in alloc; *album]?),
            Ask::Retitle { object, .. } => Ok(vec![in alloc; *object]?),
            Ask::Replace { object, .. } => Ok(vec![in alloc; *object]?),
            Ask::Delete { object } => Ok(vec![in alloc; *object]?),
            Ask::Move { object, to } => Ok(vec![in alloc; *object, *to]?),
            Ask::SetLists { lists } => objects_of(alloc, lists.as_slice()),
            Ask::SetOwner { object, .. } => Ok(vec![in alloc; *object]?),
            Ask::SetMembers { object, .. } => Ok(vec![in alloc; *object]?),
            Ask::Share { lists, members } => {
                objects_of_share(alloc, lists.as_slice(), members.as_slice())
            }
        }
    }

    /// Whether the ask needs of the object the right to read or to set its list, and no other.
    pub(crate) fn needs_list_alone(&self, object: ItemId) -> bool
        ensures { result ≡ needs_list_alone self.now object }
    {
        match self {
            Ask::GetList { .. } | Ask::SetLists { .. } | Ask::AddGroup { .. } => true,
            Ask::Share { members, .. } => !has_membership(members.as_slice(), object),
            Ask::Read { .. } | Ask::List { .. } => false,
            Ask::Head { .. } | Ask::Children { .. } => false,
            Ask::AddPicture { .. } | Ask::AddAlbum { .. } => false,
            Ask::Retitle { .. } | Ask::Replace { .. } => false,
            Ask::Delete { .. } | Ask::Move { .. } => false,
            Ask::SetOwner { .. } | Ask::SetMembers { .. } => false,
        }
    }

    /// The same ask once more.
    ///
    /// # Errors
    ///
    /// `OutOfMemory`.
    pub fn copy(&self) -> Result<Ask, Refusal>
        ensures copy { IfOk result (λ ask. ask ≡ self.now) }
        ensures memory { IsOkUnless result Refusal.OutOfMemory }
    {
        Ok(self.clone()?)
    }
}

/// Whether the object is to have one of these memberships.
fn has_membership(members: &[NewMembership], object: ItemId) -> bool
    ensures { result ≡ list_any (λ new. new.object == object) members.now }
{
    members.iter().any(|new| new.object == object)
}

fn objects_of(alloc: Global, lists: &[NewList]) -> Result<Vec<ItemId>, AllocError>
    ensures { IfOk result (λ objects. objects.items ≡ map (λ new. new.object) lists.now) }
{
    lists.iter().map(|new| new.object).collect(alloc)
}

fn objects_of_share(
    alloc: Global,
    lists: &[NewList],
    members: &[NewMembership],
) -> Result<Vec<ItemId>, AllocError>
    ensures { IfOk result (λ objects. objects.items
        ≡ once (map (λ new. new.object) lists.now ++ map (λ new. new.object) members.now)) }
{
    let objects: IndexSet<ItemId> = lists
        .iter()
        .map(|new| new.object)
        .chain(members.iter().map(|new| new.object))
        .collect(alloc)?;
    Vec::from_slice(alloc, objects.as_slice())
}
