//! What was asked in one round, and the replies that the session has had from keepers in its own thread. By what was
//! asked it finds whether a reply that comes by mail counts. Such a one has to carry back one of the round's messages,
//! and its partition must have had by then all marks with which the round began.
ghost use Rattle.std.specs.Prelude.{◌≡◌, ◌≤◌, ◌<◌, All, IsTrue, IfSome, length};
ghost use Rattle.album_passes.specs.Cuts.{IsSound};
ghost use Rattle.album_keepers.specs.Replies.{IsLate};
ghost use Rattle.album_keepers.specs.Rounds.{Counts, IsAt};

use album_calls::{Body, Message, Node, Request, same_items, same_values};
use album_keepers::{DeskNames, RoundReply};
use album_passes::Pass;
use album_stamps::{MAX_PARTS, Refusal, Stamp};
use std::collections::VecDeque;
use std::marker::Model;

/// Why there is no reply to take.
#[derive(Drop)]
pub enum NoReply {
    /// None can come.
    Refused(Refusal),
    /// The read is overtaken: the partition that replies a version of an item has committed a newer one, and the cut
    /// with which the round began may have that. What the newer one's author had seen may be newer than what else is
    /// read, so nothing is shown of this read.
    Overtaken,
}

/// The messages of a round, a pass with the cut with which it began, and the replies that were given here and are not
/// yet taken. Contracts see the messages and the pass.
pub struct Asked<J: DeskNames> {
    pub(crate) sent: Vec<Message>,
    pub(crate) begun: Pass,
    /// Whether the session knows all replies by itself, so that nothing was sent.
    pub(crate) known: bool,
    replies: VecDeque<RoundReply<J>>,
}

impl<J: DeskNames> Model for Asked<J> {
    ghost use Rattle.std.specs.Prelude.{All};
    ghost use Rattle.album_keepers.specs.Rounds.{Counts};
    ghost use Rattle.album_channels.specs.Rounds.{AskedState};

    ghost Value = { AskedState };

    ghost view = { λ a. record { sent = a.sent.items; begun = a.begun } };

    ghost invariant = { λ a. All (Counts J.terms.limit a.begun.cut a.sent.items) a.replies.items };
}

// By hand, so that what lets it go is proved here, and not again in each crate above.
impl<J: DeskNames> Drop for Asked<J> {
    fn drop(self) {
        let Asked {
            sent,
            begun,
            known: _,
            replies,
        } = self;
        drop(sent);
        drop(begun);
        drop(replies);
    }
}

impl<J: DeskNames> Asked<J> {
    /// These messages, this beginning, and the replies that are there.
    pub(crate) fn new(
        sent: Vec<Message>,
        begun: Pass,
        known: bool,
        replies: VecDeque<RoundReply<J>>,
    ) -> Asked<J>
        requires { All (Counts J.terms.limit begun.cut sent.items) replies.items }
        ensures { result ≡ record { sent = sent.items; begun = begun } }
    {
        Asked {
            sent,
            begun,
            known,
            replies,
        }
    }

    /// The messages.
    pub fn sent(&self) -> &[Message]
        ensures { result.now ≡ self.now.sent }
    {
        &self.sent
    }

    /// The tag of the round: that of each of its messages.
    pub(crate) fn tag(&self) -> u64 {
        self.sent.first().map_or(0, |message| message.tag())
    }

    /// Takes the next of the replies that are there.
    pub(crate) fn next_reply(&mut self) -> Option<RoundReply<J>>
        ensures count { IfSome result (Counts J.terms.limit self.old.begun.cut self.old.sent) }
        ensures same { self.new ≡ self.old }
    {
        self.replies.pop_front()
    }

    /// The index of the request among the messages. It is looked for from `first` on, and then before `first`: replies
    /// come mostly in the order of the messages, so each is found next to the one before it.
    pub(crate) fn find(&self, request: &Message, first: usize) -> Option<usize>
        ensures { IfSome result (λ index. IsAt self.now.sent index request.now) }
    {
        match find_among(&self.sent, request, first, self.sent.len()) {
            Some(index) => Some(index),
            None => find_among(&self.sent, request, 0, first.min(self.sent.len())),
        }
    }

    /// Whether the round's beginning is before the reply: the reply's partition had by then, as the pass shows it, all
    /// marks with which the round began.
    pub(crate) fn is_before(&self, reply: &Message, pass: &Pass) -> bool
        ensures late { IsTrue result → IsLate self.now.begun.cut pass.now.cut reply.now }
        ensures sound { IsTrue result → IsSound pass.now.cut }
    {
        match reply.from() {
            Node::Part(part) => { part < MAX_PARTS && self.begun.length(part) <= pass.length(part) }
            Node::Client(_) => false,
        }
    }
}

/// The index of the request among the messages, from `first` on and before `end`.
fn find_among(sent: &[Message], request: &Message, first: usize, end: usize) -> Option<usize>
    requires { end ≤ length sent.now }
    ensures { IfSome result (λ index. IsAt sent.now index request.now) }
{
    for index in first..end {
        if is_same(&sent[index], request) {
            return Some(index);
        }
    }
    None
}

/// Whether these are one message, which requests something.
fn is_same(one: &Message, other: &Message) -> bool
    ensures { IsTrue result → one.now ≡ other.now }
{
    one.tag() == other.tag()
        && is_same_node(one.from(), other.from())
        && is_same_node(one.to(), other.to())
        && is_same_body(one.body(), other.body())
}

fn is_same_node(one: Node, other: Node) -> bool
    ensures { IsTrue result → one ≡ other }
{
    match one {
        Node::Part(part) => other.is_part(part),
        Node::Client(client) => other.is_client(client),
    }
}

fn is_same_body(one: &Body, other: &Body) -> bool
    ensures { IsTrue result → one.now ≡ other.now }
{
    match one {
        Body::Request(one) => matches!(other, Body::Request(other) if is_same_request(one, other)),
        Body::Reply(_) => false,
    }
}

fn is_same_request(one: &Request, other: &Request) -> bool
    ensures { IsTrue result → one.now ≡ other.now }
{
    match one {
        Request::Prepare(stamp, writes, items) => {
            matches!(other, Request::Prepare(of, other_writes, other_items) if of.value() == stamp.value()
                && same_items(items.as_slice(), other_items.as_slice())
                && same_values(writes.as_slice(), other_writes.as_slice()))
        }
        Request::PrepareOn(stamp, writes, items, bases) => {
            matches!(other, Request::PrepareOn(of, other_writes, other_items, other_bases)
                if of.value() == stamp.value()
                && same_items(items.as_slice(), other_items.as_slice())
                && same_values(writes.as_slice(), other_writes.as_slice())
                && are_same_stamps(bases.as_slice(), other_bases.as_slice()))
        }
        Request::Commit(stamp) => {
            matches!(other, Request::Commit(of) if of.value() == stamp.value())
        }
        Request::Get(item, stamps) => {
            matches!(other, Request::Get(of, with) if of.is(*item)
                && are_same_stamps(with.as_slice(), stamps.as_slice()))
        }
        Request::Check(stamp) => {
            matches!(other, Request::Check(of) if of.value() == stamp.value())
        }
    }
}

fn are_same_stamps(one: &[Stamp], other: &[Stamp]) -> bool
    ensures { IsTrue result → one.now ≡ other.now }
{
    one == other
}
