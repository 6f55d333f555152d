//! How a read begins: with Gets without stamps, which ask for the latest versions.
ghost use Rattle.std.specs.Prelude.{◌≡◌, false};
ghost use Rattle.album_channels.specs.Reads.{asks_latest, begins_read};

use album_calls::{Body, Message, Request};

/// Whether a read begins with these messages: the first of them asks for the latest version.
pub fn begins_read(sent: &[Message]) -> bool
    ensures { result ≡ begins_read sent.now }
{
    match sent.first() {
        Some(message) => asks_latest(message.body()),
        None => false,
    }
}

/// Whether it is a Get without stamps.
pub(crate) fn asks_latest(body: &Body) -> bool
    ensures { result ≡ asks_latest body.now }
{
    match body {
        Body::Request(Request::Get(_, stamps)) => stamps.as_slice().is_empty(),
        Body::Request(_) | Body::Reply(_) => false,
    }
}
