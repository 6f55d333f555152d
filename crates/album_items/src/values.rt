//! The values of items.
ghost use Rattle.std.specs.Prelude.{◌≡◌, IfOk, IsOkUnless, option_to_list};
ghost use Rattle.std.specs.Option.{option_copied};
ghost use Rattle.album_items.specs.ItemIds.{code_of};
ghost use Rattle.album_items.specs.Values.{is_of, is_there, head_of, home_of, children_of, entries_of, members_of};

use crate::collections::{Items, Members};
use crate::item_ids::{ItemId, Kind};
use crate::texts::{Content, Title};
use album_lists::{AccessList, Ace, Member, Name};
use album_stamps::Refusal;

/// Whose an object is, the number of its group, and the number of its list.
#[derive(Clone, Debug, Drop)]
pub struct Head {
    /// Whose the object is.
    pub owner: Name,
    /// The number of its group, which `GROUP@` means.
    pub group: u64,
    /// The number of its access list.
    pub list: u64,
}

/// A picture, and the number of the album that is its home.
#[derive(Clone, Debug, Drop)]
pub struct Picture {
    pub title: Title,
    pub content: Content,
    pub head: Head,
    /// The number of the album.
    pub home: u64,
}

/// An album, and the number of the album that is its home, if it has one.
#[derive(Clone, Debug, Drop)]
pub struct Album {
    pub title: Title,
    pub head: Head,
    /// The number of the album.
    pub home: Option<u64>,
    /// The items in it, in order: at most `MAX_CHILDREN`.
    pub children: Items,
}

/// A group.
#[derive(Clone, Debug, Drop)]
pub struct Group {
    pub head: Head,
    /// At most `MAX_MEMBERS` users and groups.
    pub members: Members,
}

/// What an item is.
#[derive(Clone, Debug, Drop)]
pub enum Value {
    Missing,
    Picture(Picture),
    Album(Album),
    List(AccessList),
    Group(Group),
}

impl Head {
    /// The same head once more.
    ///
    /// # Errors
    ///
    /// `OutOfMemory`.
    pub fn copy(&self) -> Result<Head, Refusal>
        ensures copy { IfOk result (λ head. head ≡ self.now) }
        ensures memory { IsOkUnless result Refusal.OutOfMemory }
    {
        Ok(self.clone()?)
    }
}

impl Value {
    /// Whether an item of the kind can have the value: each can be missing.
    pub fn is_of(&self, kind: Kind) -> bool
        ensures { result ≡ is_of self.now (code_of kind) }
    {
        match self {
            Value::Missing => true,
            Value::Picture(_) => matches!(kind, Kind::Picture),
            Value::Album(_) => matches!(kind, Kind::Album),
            Value::List(_) => matches!(kind, Kind::List),
            Value::Group(_) => matches!(kind, Kind::Group),
        }
    }

    /// Whether it is there.
    pub fn is_there(&self) -> bool
        ensures { result ≡ is_there self.now }
    {
        !matches!(self, Value::Missing)
    }

    /// The head of a picture, an album or a group.
    pub fn head(&self) -> Option<&Head>
        ensures { option_copied result ≡ head_of self.now }
    {
        match self {
            Value::Picture(picture) => Some(&picture.head),
            Value::Album(album) => Some(&album.head),
            Value::Group(group) => Some(&group.head),
            Value::Missing | Value::List(_) => None,
        }
    }

    /// The album that is a picture's home.
    pub fn home(&self) -> Option<ItemId>
        ensures { option_to_list result ≡ home_of self.now }
    {
        match self {
            Value::Picture(picture) => Some(ItemId::new(Kind::Album, picture.home)),
            Value::Missing | Value::Album(_) | Value::List(_) | Value::Group(_) => None,
        }
    }

    /// The children of an album, in order; of another value none.
    pub fn children(&self) -> &[ItemId]
        ensures { result.now ≡ children_of self.now }
    {
        match self {
            Value::Album(album) => album.children.as_slice(),
            Value::Missing | Value::Picture(_) | Value::List(_) | Value::Group(_) => &[],
        }
    }

    /// The entries of a list, in order; of another value none.
    pub fn entries(&self) -> &[Ace]
        ensures { result.now ≡ entries_of self.now }
    {
        match self {
            Value::List(list) => list.entries(),
            Value::Missing | Value::Picture(_) | Value::Album(_) | Value::Group(_) => &[],
        }
    }

    /// The members of a group, in order; of another value none.
    pub fn members(&self) -> &[Member]
        ensures { result.now ≡ members_of self.now }
    {
        match self {
            Value::Group(group) => group.members.as_slice(),
            Value::Missing | Value::Picture(_) | Value::Album(_) | Value::List(_) => &[],
        }
    }

    /// Lets the copies that are made from now on share what the value holds: its entries, its members or its
    /// children, as its texts are shared from the first. Each copy then costs counts, whatever the value's size.
    /// It is for a partition, which shares the writes that it keeps before it copies them into replies.
    ///
    /// # Errors
    ///
    /// `OutOfMemory`, and then the copies may cost what they did. The value stays what it is.
    pub fn make_shared(&mut self) -> Result<(), Refusal>
        ensures same { self.new ≡ self.old }
        ensures memory { IsOkUnless result Refusal.OutOfMemory }
    {
        match self {
            Value::Missing | Value::Picture(_) => Ok(()),
            Value::Album(album) => album.children.make_shared(),
            Value::List(list) => list.make_shared(),
            Value::Group(group) => group.members.make_shared(),
        }
    }

    /// The same value once more.
    ///
    /// # Errors
    ///
    /// `OutOfMemory`.
    pub fn copy(&self) -> Result<Value, Refusal>
        ensures copy { IfOk result (λ value. value ≡ self.now) }
        ensures memory { IsOkUnless result Refusal.OutOfMemory }
    {
        Ok(self.clone()?)
    }
}
