//! What a message replies to a write.
ghost use Rattle.std.specs.Prelude.{◌≡◌};
ghost use Rattle.album_writer.specs.WriteReplies.{write_reply_of, body_reply};

use album_calls::{Body, Reply};
use album_stamps::Stamp;

/// A reply to a write, by what it says of the write's stamp. `Nothing` is any other reply, and any request.
#[derive(Clone, Copy, Debug)]
pub enum WriteReply {
    Prepared,
    Committed,
    Discarded,
    Full,
    Nothing,
}

impl WriteReply {
    /// What the body replies for the stamp.
    pub fn from_body(stamp: Stamp, body: &Body) -> WriteReply
        ensures { result ≡ body_reply stamp body.now }
    {
        match body {
            Body::Request(_) => WriteReply::Nothing,
            Body::Reply(reply) => WriteReply::from_reply(stamp, reply),
        }
    }

    fn from_reply(stamp: Stamp, reply: &Reply) -> WriteReply
        ensures { result ≡ write_reply_of stamp reply.now }
    {
        match reply {
            Reply::Prepared(of) if *of == stamp => WriteReply::Prepared,
            Reply::Committed(of) if *of == stamp => WriteReply::Committed,
            Reply::Discarded(of) if *of == stamp => WriteReply::Discarded,
            Reply::Full(of) if *of == stamp => WriteReply::Full,
            Reply::Prepared(_) | Reply::Committed(_) | Reply::Discarded(_) | Reply::Full(_) => {
                WriteReply::Nothing
            }
            Reply::Version(_, _, _) | Reply::Status(_, _) | Reply::NotPrepared(_) =>
                WriteReply::Nothing,
            Reply::Clash | Reply::Gone(_) => WriteReply::Nothing,
        }
    }
}
