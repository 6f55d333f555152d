//! What an object is by its attributes.
ghost use Rattle.std.specs.Prelude.{◌≡◌, IfOk, IsOkUnless};
ghost use Rattle.album_permits.specs.Attributes.{attributes_of};

use album_items::{Head, Title, Value};
use album_stamps::Refusal;

/// Whose an object is, what it is called, where it is, and how many children or members it has: nothing of what it
/// holds.
#[derive(Debug, Drop)]
pub enum Attributes {
    /// What is missing has none.
    Nothing,
    Picture {
        head: Head,
        title: Title,
        /// The number of the album that is its home.
        home: u64,
    },
    Album {
        head: Head,
        title: Title,
        /// The number of the album that is its home, if it has one.
        home: Option<u64>,
        /// How many children it has.
        count: usize,
    },
    Group {
        head: Head,
        /// How many members it has.
        count: usize,
    },
}

/// The attributes of what has this value.
pub(crate) fn attributes_of(value: &Value) -> Result<Attributes, Refusal>
    ensures attributes { IfOk result (λ attributes. attributes ≡ attributes_of value.now) }
    ensures memory { IsOkUnless result Refusal.OutOfMemory }
{
    match value {
        Value::Picture(picture) => Ok(Attributes::Picture {
            head: picture.head.copy()?,
            title: picture.title.copy()?,
            home: picture.home,
        }),
        Value::Album(album) => Ok(Attributes::Album {
            head: album.head.copy()?,
            title: album.title.copy()?,
            home: album.home,
            count: album.children.as_slice().len(),
        }),
        Value::Group(group) => Ok(Attributes::Group {
            head: group.head.copy()?,
            count: group.members.as_slice().len(),
        }),
        Value::Missing | Value::List(_) => Ok(Attributes::Nothing),
    }
}
