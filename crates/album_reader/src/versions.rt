//! What a message brings of an item: a version of it, or that it is gone.
ghost use Rattle.std.specs.Prelude.{◌≡◌, Option, option_map, IfOk};
ghost use Rattle.album_reader.specs.Answers.{reply_version, body_version, body_gone};
ghost use Rattle.album_reader.specs.Ends.{answer_of};

use crate::answers::ReadVersion;
use album_calls::{Body, Reply};
use album_items::{ItemId, SharedValue};
use album_stamps::Stamp;
use std::alloc::AllocError;

/// The version of an item, as a message has it.
#[derive(Clone, Copy)]
pub struct VersionIn<'a> {
    pub item: ItemId,
    pub stamp: Stamp,
    pub value: &'a SharedValue,
}

impl VersionIn<'_> {
    /// The version as an answer, which shares the value.
    pub fn answer(&self) -> Result<ReadVersion, AllocError>
        ensures { IfOk result (λ answer. answer ≡ answer_of self.now) }
    {
        Ok(ReadVersion {
            item: self.item,
            stamp: self.stamp,
            value: self.value.clone()?,
        })
    }
}

/// The version in the body, if there is one.
pub fn body_version(body: &Body) -> Option<VersionIn>
    ensures { option_map answer_of result ≡ body_version body.now }
{
    match body {
        Body::Request(_) => None,
        Body::Reply(reply) => reply_version(reply),
    }
}

fn reply_version(reply: &Reply) -> Option<VersionIn>
    ensures { option_map answer_of result ≡ reply_version reply.now }
{
    match reply {
        Reply::Version(item, stamp, value) => Some(VersionIn {
            item: *item,
            stamp: *stamp,
            value,
        }),
        Reply::Prepared(_) | Reply::Committed(_) | Reply::Discarded(_) => None,
        Reply::Status(_, _) | Reply::NotPrepared(_) | Reply::Clash | Reply::Full(_) => None,
        Reply::Gone(_) => None,
    }
}

/// The item that is gone by the body, if one is.
pub fn body_gone(body: &Body) -> Option<ItemId>
    ensures { result ≡ body_gone body.now }
{
    match body {
        Body::Reply(Reply::Gone(item)) => Some(*item),
        Body::Request(_) | Body::Reply(_) => None,
    }
}
