//! What each kind of ask does, and what it looks at beside its objects: the one table of both.
ghost use Rattle.std.specs.Prelude.{◌≡◌};
ghost use Rattle.album_views.specs.Asks.{deed_of, relatives_named, is_list, is_write, is_adding};

use crate::asks::Ask;
use album_items::{ItemId, Kind};

/// What an ask does.
#[derive(Clone, Copy, Debug)]
pub enum Deed {
    /// It is served what is there.
    Serves,
    /// It is served rows of what is in an album.
    Lists,
    /// It changes what is there.
    Changes,
    /// It makes an object of this kind.
    Makes(Kind),
}

/// What an ask looks at beside its objects.
#[derive(Clone, Copy, Debug)]
pub enum Relatives {
    None,
    /// The home of this picture.
    HomeOf(ItemId),
    /// The children of this album.
    ChildrenOf(ItemId),
}

impl Ask {
    /// What the ask does.
    pub(crate) fn deed(&self) -> Deed
        ensures { result ≡ deed_of self.now }
    {
        match self {
            Ask::Read { .. } | Ask::GetList { .. } => Deed::Serves,
            Ask::Head { .. } | Ask::Children { .. } => Deed::Serves,
            Ask::List { .. } => Deed::Lists,
            Ask::AddPicture { .. } => Deed::Makes(Kind::Picture),
            Ask::AddAlbum { .. } => Deed::Makes(Kind::Album),
            Ask::AddGroup { .. } => Deed::Makes(Kind::Group),
            Ask::Retitle { .. } | Ask::Replace { .. } => Deed::Changes,
            Ask::Delete { .. } | Ask::Move { .. } => Deed::Changes,
            Ask::SetLists { .. } | Ask::SetOwner { .. } => Deed::Changes,
            Ask::SetMembers { .. } | Ask::Share { .. } => Deed::Changes,
        }
    }

    /// What the ask looks at beside its objects.
    pub fn relatives(&self) -> Relatives
        ensures { result ≡ relatives_named self.now }
    {
        match self {
            Ask::List { album } => Relatives::ChildrenOf(*album),
            Ask::Delete { object } => Relatives::HomeOf(*object),
            Ask::Move { object, .. } => Relatives::HomeOf(*object),
            Ask::Read { .. } | Ask::GetList { .. } => Relatives::None,
            Ask::Head { .. } | Ask::Children { .. } => Relatives::None,
            Ask::AddPicture { .. } | Ask::AddAlbum { .. } => Relatives::None,
            Ask::AddGroup { .. } | Ask::Retitle { .. } | Ask::Replace { .. } => Relatives::None,
            Ask::SetLists { .. } | Ask::SetOwner { .. } => Relatives::None,
            Ask::SetMembers { .. } | Ask::Share { .. } => Relatives::None,
        }
    }

    /// Whether the ask lists an album.
    pub fn is_list(&self) -> bool
        ensures { result ≡ is_list self.now }
    {
        match self.deed() {
            Deed::Lists => true,
            Deed::Serves | Deed::Changes | Deed::Makes(_) => false,
        }
    }

    /// Whether the ask writes.
    pub fn is_write(&self) -> bool
        ensures { result ≡ is_write self.now }
    {
        match self.deed() {
            Deed::Changes | Deed::Makes(_) => true,
            Deed::Serves | Deed::Lists => false,
        }
    }

    /// Whether the ask makes a new object.
    pub(crate) fn is_adding(&self) -> bool
        ensures { result ≡ is_adding self.now }
    {
        match self.deed() {
            Deed::Makes(_) => true,
            Deed::Serves | Deed::Lists | Deed::Changes => false,
        }
    }
}
