//! How much a partition's thread keeps.
use album_calls::{Body, Message, Request};
use album_items::{ItemId, Value};

/// What a row of a write takes besides its text, about, in bytes: in the mark, and once more in the version.
const ROW: u64 = 256;

/// What an entry of an access list, a member of a group or a child of an album takes, about, in bytes.
const PART: u64 = 64;

/// How much of an epoch a partition has taken up. Whoever asks for it has nothing counted, as the figures have.
#[derive(Clone, Copy, Debug)]
pub struct Load {
    /// How many marks it has, and will have once each stamp that is pending is decided.
    pub marks: u64,
    /// How many it may have.
    pub limit: u64,
    /// About how many bytes the writes take that it was asked to prepare. What came twice is counted twice.
    pub bytes: u64,
}

/// About how many bytes the writes of a message take, where it is a Prepare.
pub(crate) fn bytes_of(message: &Message) -> u64 {
    match message.body() {
        Body::Request(Request::Prepare(_, writes, _) | Request::PrepareOn(_, writes, _, _)) => {
            bytes_of_rows(writes.as_slice())
        }
        Body::Request(_) | Body::Reply(_) => 0,
    }
}

fn bytes_of_rows(rows: &[(ItemId, Value)]) -> u64 {
    let mut bytes = 0u64;
    for (_, value) in rows {
        bytes = bytes
            .saturating_add(ROW)
            .saturating_add(bytes_of_value(value));
    }
    bytes
}

fn bytes_of_value(value: &Value) -> u64 {
    match value {
        Value::Missing => 0,
        Value::Picture(picture) => {
            let text = picture.title.as_str().len() as u64;
            text.saturating_add(picture.content.as_slice().len() as u64)
        }
        Value::Album(album) => {
            let text = album.title.as_str().len() as u64;
            text.saturating_add(bytes_of_parts(album.children.as_slice().len()))
        }
        Value::List(list) => bytes_of_parts(list.entries().len()),
        Value::Group(group) => bytes_of_parts(group.members.as_slice().len()),
    }
}

/// What so many entries, members or children take, about.
fn bytes_of_parts(count: usize) -> u64 {
    PART.saturating_mul(count as u64)
}
