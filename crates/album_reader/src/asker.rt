//! The client of a read, and which messages are answers to it.
ghost use Rattle.std.specs.Prelude.{◌≡◌, ◌+◌, ◌<◌, ◌≤◌, ◌^◌};

use album_calls::{Body, Message, Node, Request, Stamps};
use album_items::{ItemId, place};
use album_stamps::{ClientNo, MAX_PARTS};
use std::marker::Model;

/// The client of a read, its tag, and how many partitions there are.
#[derive(Clone, Copy, Debug)]
pub struct Asker {
    client: ClientNo,
    tag: u64,
    parts: u16,
}

impl Model for Asker {
    ghost use Rattle.std.specs.Prelude.{◌≤◌};
    ghost use Rattle.album_stamps.specs.declared.limits.TheConstants.{MAX_PARTS};
    ghost use Rattle.album_reader.specs.Answers.{Asker as State};

    ghost Value = { State };

    ghost view = { λ a. record { client = a.client; tag = a.tag; parts = a.parts } };

    ghost invariant = { λ a. (1 ≤ a.parts) × (a.parts ≤ MAX_PARTS) };

    ghost inverse = { λ a. record { client = a.client; tag = a.tag; parts = a.parts } };
}

impl Asker {
    ghost use Rattle.album_reader.specs.Answers.{is_answer};
    ghost use Rattle.album_reader.specs.Rounds.{next_asker, get_of};

    /// The client under the tag, of so many partitions.
    pub fn new(client: ClientNo, tag: u64, parts: u16) -> Asker
        requires low { 1 ≤ parts }
        requires high { parts ≤ MAX_PARTS }
        ensures { result ≡ record { client = client; tag = tag; parts = parts } }
    {
        Asker { client, tag, parts }
    }

    /// The tag.
    pub fn tag(self) -> u64
        ensures { result ≡ self.tag }
    {
        self.tag
    }

    /// The same client under the tag one above.
    pub fn next(self) -> Asker
        requires { self.tag + 1 < 2 ^ 64 }
        ensures { result ≡ next_asker self }
    {
        Asker {
            client: self.client,
            tag: self.tag + 1,
            parts: self.parts,
        }
    }

    /// What it asks of the item's partition, with these stamps.
    pub fn get(self, item: ItemId, stamps: Stamps) -> Message
        ensures { result ≡ get_of self stamps item }
    {
        let part = Node::Part(place(item, self.parts));
        let get = Body::Request(Request::Get(item, stamps));
        Message::new(Node::Client(self.client), part, self.tag, get)
    }

    /// Whether the message answers it for the item.
    pub fn is_answered(self, message: &Message, item: ItemId) -> bool
        ensures { result ≡ is_answer self message.now item }
    {
        message.tag() == self.tag
            && message.to().is_client(self.client)
            && message.from().is_part(place(item, self.parts))
    }
}
