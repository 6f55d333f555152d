//! Messages to partitions and from them, made of short tables and spelled as short texts.
use crate::values::{album, list, picture};
use album_calls::{Body, Message, Node, Reply, Request, Stamps, Vote};
use album_items::{ItemId, ItemValues, Items, Value, read_item};
use album_stamps::{ClientNo, Refusal, Stamp};
use std::alloc::Global;
use std::process::Abort;
use std::test::Fail;

/// What an item is to be.
#[derive(Clone, Copy)]
pub enum Is {
    Missing,
    /// A picture under the list of this number.
    Picture(u64),
    Album,
    List,
}

/// Items, each with what it is to be.
pub type Rows = &'static [(&'static str, Is)];

/// What a partition is sent.
#[derive(Clone, Copy)]
pub enum Step {
    /// The stamp, the writes, and the items of the whole transaction.
    Prepare(u64, Rows, &'static [&'static str]),
    Commit(u64),
    Get(&'static str, &'static [u64]),
    Check(u64),
    /// Another partition's reply that a stamp is prepared.
    Prepared(u64),
}

/// The stamp of this value.
pub fn stamp_of(value: u64) -> Result<Stamp, Refusal> {
    Stamp::read(value).ok_or(Refusal::BadRequest)
}

/// The item of this text.
pub fn item_of(text: &str) -> Result<ItemId, Refusal> {
    read_item(text).ok_or(Refusal::BadRequest)
}

/// Client 1.
pub fn client() -> Result<Node, Refusal> {
    let client = ClientNo::of(1).ok_or(Refusal::BadRequest)?;
    Ok(Node::Client(client))
}

pub fn value_of(alloc: Global, is: Is) -> Result<Value, Refusal> {
    match is {
        Is::Missing => Ok(Value::Missing),
        Is::Picture(number) => picture(alloc, number),
        Is::Album => album(alloc),
        Is::List => list(alloc),
    }
}

fn push_row(
    alloc: Global,
    rows: &mut Vec<(ItemId, Value)>,
    text: &str,
    is: Is,
) -> Result<(), Refusal> {
    let item = item_of(text)?;
    rows.push((item, value_of(alloc, is)?))?;
    Ok(())
}

/// These items with their values.
pub fn rows_of(alloc: Global, texts: Rows) -> Result<ItemValues, Refusal> {
    let mut rows = Vec::new(alloc);
    for (text, is) in texts {
        push_row(alloc, &mut rows, text, *is)?;
    }
    Ok(ItemValues::of(rows))
}

pub fn items_of(alloc: Global, texts: &[&str]) -> Result<Items, Refusal> {
    let mut items = Vec::new(alloc);
    for text in texts {
        items.push(item_of(text)?)?;
    }
    Ok(Items::of(items))
}

fn stamps_of(alloc: Global, values: &[u64]) -> Result<Stamps, Refusal> {
    let mut stamps = Vec::new(alloc);
    for value in values {
        stamps.push(stamp_of(*value)?)?;
    }
    Ok(Stamps::of(stamps))
}

fn prepare_of(alloc: Global, stamp: u64, writes: Rows, items: &[&str]) -> Result<Request, Refusal> {
    let stamp = stamp_of(stamp)?;
    let items = items_of(alloc, items)?;
    Ok(Request::Prepare(stamp, rows_of(alloc, writes)?, items))
}

fn get_of(alloc: Global, item: &str, stamps: &[u64]) -> Result<Request, Refusal> {
    let item = item_of(item)?;
    Ok(Request::Get(item, stamps_of(alloc, stamps)?))
}

fn body_of(alloc: Global, step: Step) -> Result<Body, Refusal> {
    match step {
        Step::Prepare(stamp, writes, items) => {
            Ok(Body::Request(prepare_of(alloc, stamp, writes, items)?))
        }
        Step::Commit(stamp) => Ok(Body::Request(Request::Commit(stamp_of(stamp)?))),
        Step::Get(item, stamps) => Ok(Body::Request(get_of(alloc, item, stamps)?)),
        Step::Check(stamp) => Ok(Body::Request(Request::Check(stamp_of(stamp)?))),
        Step::Prepared(stamp) => Ok(Body::Reply(Reply::Prepared(stamp_of(stamp)?))),
    }
}

/// What client 1 sends to the node.
pub fn sent(alloc: Global, to: Node, tag: u64, step: Step) -> Result<Message, Refusal> {
    let from = client()?;
    Ok(Message::new(from, to, tag, body_of(alloc, step)?))
}

fn node_text(alloc: Global, node: Node) -> Result<String, Refusal> {
    match node {
        Node::Part(part) => Ok(format!(in alloc; "p{part}")?),
        Node::Client(client) => Ok(format!(in alloc; "c{}", client.number())?),
    }
}

fn value_word(value: &Value) -> &'static str {
    match value {
        Value::Missing => "missing",
        Value::Picture(_) => "picture",
        Value::Album(_) => "album",
        Value::List(_) => "list",
        Value::Group(_) => "group",
    }
}

fn vote_word(vote: Vote) -> &'static str {
    match vote {
        Vote::Prepared => "prepared",
        Vote::Committed => "committed",
        Vote::Never => "never",
    }
}

fn with_stamp(alloc: Global, word: &str, stamp: Stamp) -> Result<String, Refusal> {
    Ok(format!(in alloc; "{word} {}", stamp.value())?)
}

fn version_text(alloc: Global, item: ItemId, stamp: Stamp, word: &str) -> Result<String, Refusal> {
    let item = item.text(alloc)?;
    Ok(format!(in alloc; "version {} {} {word}", item.as_str(), stamp.value())?)
}

fn gone_text(alloc: Global, item: ItemId) -> Result<String, Refusal> {
    let item = item.text(alloc)?;
    Ok(format!(in alloc; "gone {}", item.as_str())?)
}

fn reply_text(alloc: Global, reply: &Reply) -> Result<String, Refusal> {
    match reply {
        Reply::Prepared(stamp) => with_stamp(alloc, "prepared", *stamp),
        Reply::Committed(stamp) => with_stamp(alloc, "committed", *stamp),
        Reply::Discarded(stamp) => with_stamp(alloc, "discarded", *stamp),
        Reply::Version(item, stamp, value) => {
            version_text(alloc, *item, *stamp, value_word(value.value()))
        }
        Reply::Status(stamp, vote) => Ok(format!(in alloc;
            "status {} {}",
            stamp.value(),
            vote_word(*vote)
        )?),
        Reply::NotPrepared(stamp) => with_stamp(alloc, "not prepared", *stamp),
        Reply::Clash => Ok(String::from_str(alloc, "clash")?),
        Reply::Full(stamp) => with_stamp(alloc, "full", *stamp),
        Reply::Gone(item) => gone_text(alloc, *item),
    }
}

fn request_text(alloc: Global, request: &Request) -> Result<String, Refusal> {
    match request {
        Request::Prepare(stamp, _, _) => with_stamp(alloc, "prepare", *stamp),
        Request::PrepareOn(stamp, _, _, _) => with_stamp(alloc, "prepare", *stamp),
        Request::Commit(stamp) => with_stamp(alloc, "commit", *stamp),
        Request::Get(item, _) => item.text(alloc),
        Request::Check(stamp) => with_stamp(alloc, "check", *stamp),
    }
}

fn body_text(alloc: Global, body: &Body) -> Result<String, Refusal> {
    match body {
        Body::Request(request) => request_text(alloc, request),
        Body::Reply(reply) => reply_text(alloc, reply),
    }
}

/// From, to, tag and what is said, as `p0 c1 7 prepared 65537`.
fn text_of(alloc: Global, message: &Message) -> Result<String, Refusal> {
    let from = node_text(alloc, message.from())?;
    let to = node_text(alloc, message.to())?;
    let body = body_text(alloc, message.body())?;
    let tag = message.tag();
    Ok(format!(in alloc; "{} {} {tag} {}", from.as_str(), to.as_str(), body.as_str())?)
}

/// The text of a reply, and a dash where there is none.
pub fn reply_or_dash(alloc: Global, reply: &Option<Message>) -> Result<String, Refusal> {
    match reply {
        None => Ok(String::from_str(alloc, "-")?),
        Some(message) => text_of(alloc, message),
    }
}

/// The texts of the messages, joined.
pub fn texts_of(alloc: Global, messages: &[Message]) -> Result<String, Refusal> {
    let mut text = String::new(alloc);
    for message in messages {
        let one = text_of(alloc, message)?;
        text.push_str(one.as_str())?;
        text.push_str("; ")?;
    }
    Ok(text)
}

/// The text is the expected one.
pub fn same(rt: &impl Abort, text: Result<String, Refusal>, expected: &str) -> Result<(), Fail> {
    let text = text?;
    assert!(rt;
        text.as_str() == expected,
        "{} at {expected}",
        text.as_str()
    );
    Ok(())
}
