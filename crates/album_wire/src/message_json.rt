//! The line of a message in a trace: {from, k = its number, say = a word, tag, to, and what it says}.
ghost use Rattle.std.specs.Prelude.{◌≡◌, ◌++◌, [], ◌∷◌, codes, string_bytes, map, IfOk};
ghost use Rattle.serde_json.specs.Data.{string};
ghost use Rattle.serde_json.specs.View.{view, members_view};
ghost use Rattle.album_items.specs.ItemIds.{picture, album};
ghost use Rattle.album_items.specs.declared.values.Value.TheVariants as ItemValue;
ghost use Rattle.album_lines.specs.Output.{line_text};
ghost use Rattle.album_wire.specs.ValueJson.{members_named};
ghost use Rattle.album_wire.specs.MessageJson.{node_text, vote_word, stamps_json, write_json, writes_json, envelope_of, envelope_fields, get_json, prepare_json, prepare_on_json, version_json, status_json, gone_json, clash_json, stamped_json, request_json, reply_json, said_json, message_json};

use crate::value_json::{item_json, item_list_json, value_json};
use album_calls::{Body, Message, Node, Reply, Request, Vote};
use album_items::ItemId;
use album_lines::{array_of, object_of, with_item, with_member};
use album_stamps::Stamp;
use serde_json::{Map, Value};
use std::alloc::{AllocError, Global};

/// What every line of a message has in addition to what the message says.
#[derive(Clone, Copy)]
struct Envelope {
    from: Node,
    number: u64,
    tag: u64,
    to: Node,
}

/// The message of this number.
pub(crate) fn message_json(
    alloc: Global,
    number: u64,
    message: &Message,
) -> Result<Value, AllocError>
    ensures { IfOk result (λ v. view v ≡ message_json number message.now) }
{
    let envelope = Envelope {
        from: message.from(),
        number,
        tag: message.tag(),
        to: message.to(),
    };
    match message.body() {
        Body::Request(request) => request_json(alloc, envelope, request),
        Body::Reply(reply) => reply_json(alloc, envelope, reply),
    }
}

/// A law: lines of messages that were worked out by hand.
pub fn worked_messages()
    ensures get { line_text (message_json 1 (record {
      from = Node.Client 2;
      to = Node.Part 0;
      tag = 1;
      body = Body.Request (Request.Get (picture 0) []);
    })) ≡ codes "{\"from\":\"c2\",\"item\":\"picture/0\",\"k\":1,\"say\":\"get\",\"stamps\":[],\"tag\":1,"
        ++ codes "\"to\":\"p0\"}\n" }
    ensures version { line_text (message_json 2 (record {
      from = Node.Part 0;
      to = Node.Client 2;
      tag = 1;
      body = Body.Reply (Reply.Version (picture 0) 0 (ItemValue.Picture (record {
        title = codes "Sea";
        content = 115 ∷ 101 ∷ 97 ∷ [];
        head = record { owner = codes "amy"; group = 0; list = 0 };
        home = 0;
      })));
    })) ≡ codes "{\"from\":\"p0\",\"item\":\"picture/0\",\"k\":2,\"say\":\"version\",\"stamp\":0,\"tag\":1,"
        ++ codes "\"to\":\"c2\",\"value\":{\"content\":\"736561\",\"group\":0,\"home\":0,\"list\":0,"
        ++ codes "\"owner\":\"amy@users\",\"title\":\"Sea\"}}\n" }
    ensures second_get { line_text (message_json 3 (record {
      from = Node.Client 2;
      to = Node.Part 0;
      tag = 2;
      body = Body.Request (Request.Get (picture 0) (0 ∷ []));
    })) ≡ codes "{\"from\":\"c2\",\"item\":\"picture/0\",\"k\":3,\"say\":\"get\",\"stamps\":[0],\"tag\":2,"
        ++ codes "\"to\":\"p0\"}\n" }
    ensures prepare { line_text (message_json 9 (record {
      from = Node.Client 1;
      to = Node.Part 2;
      tag = 5;
      body = Body.Request (Request.Prepare 65537 ((picture 2, ItemValue.Missing) ∷ []) (picture 2 ∷ album 0 ∷ []));
    })) ≡ codes "{\"from\":\"c1\",\"items\":[\"picture/2\",\"album/0\"],\"k\":9,\"say\":\"prepare\","
        ++ codes "\"stamp\":65537,\"tag\":5,\"to\":\"p2\",\"writes\":[[\"picture/2\",null]]}\n" }
    // The first write was made on a version of the opening, and the second on that of stamp 65537.
    ensures prepare_on { line_text (message_json 12 (record {
      from = Node.Client 2;
      to = Node.Part 2;
      tag = 5;
      body = Body.Request (Request.PrepareOn 65538 ((picture 2, ItemValue.Missing) ∷ (album 2, ItemValue.Missing) ∷ [])
          (picture 2 ∷ album 2 ∷ album 0 ∷ []) (0 ∷ 65537 ∷ []));
    })) ≡ codes "{\"bases\":[0,65537],\"from\":\"c2\",\"items\":[\"picture/2\",\"album/2\",\"album/0\"],\"k\":12,"
        ++ codes "\"say\":\"prepare\",\"stamp\":65538,\"tag\":5,\"to\":\"p2\","
        ++ codes "\"writes\":[[\"picture/2\",null],[\"album/2\",null]]}\n" }
    ensures status { line_text (message_json 19 (record {
      from = Node.Part 0;
      to = Node.Part 0;
      tag = 0;
      body = Body.Reply (Reply.Status 65537 Vote.Prepared);
    })) ≡ codes "{\"from\":\"p0\",\"k\":19,\"say\":\"status\",\"stamp\":65537,\"tag\":0,\"to\":\"p0\","
        ++ codes "\"vote\":\"prepared\"}\n" }
{}

fn request_json(alloc: Global, e: Envelope, request: &Request) -> Result<Value, AllocError>
    ensures { IfOk result (λ v. view v ≡ request_json e request.now) }
{
    match request {
        Request::Prepare(stamp, writes, items) => prepare_json(
            alloc,
            e,
            *stamp,
            writes.as_slice(),
            items.as_slice(),
        ),
        Request::PrepareOn(stamp, writes, items, bases) => prepare_on_json(
            alloc,
            e,
            *stamp,
            writes.as_slice(),
            items.as_slice(),
            bases.as_slice(),
        ),
        Request::Commit(stamp) => stamped_json(alloc, e, "commit", *stamp),
        Request::Get(item, stamps) => get_json(alloc, e, *item, stamps.as_slice()),
        Request::Check(stamp) => stamped_json(alloc, e, "check", *stamp),
    }
}

fn reply_json(alloc: Global, e: Envelope, reply: &Reply) -> Result<Value, AllocError>
    ensures { IfOk result (λ v. view v ≡ reply_json e reply.now) }
{
    match reply {
        Reply::Prepared(stamp) => stamped_json(alloc, e, "prepared", *stamp),
        Reply::Committed(stamp) => stamped_json(alloc, e, "committed", *stamp),
        Reply::Discarded(stamp) => stamped_json(alloc, e, "discarded", *stamp),
        Reply::Version(item, stamp, value) => version_json(alloc, e, *item, *stamp, value.value()),
        Reply::Status(stamp, vote) => status_json(alloc, e, *stamp, *vote),
        Reply::NotPrepared(stamp) => stamped_json(alloc, e, "not_prepared", *stamp),
        Reply::Clash => clash_json(alloc, e),
        Reply::Full(stamp) => stamped_json(alloc, e, "full", *stamp),
        Reply::Gone(item) => gone_json(alloc, e, *item),
    }
}

fn get_json(alloc: Global, e: Envelope, item: ItemId, stamps: &[Stamp]) -> Result<Value, AllocError>
    ensures { IfOk result (λ v. view v ≡ get_json e item stamps.now) }
{
    let fields = envelope_fields(alloc, e, "get");
    let fields = with_member(alloc, fields, "item", item_json(alloc, item));
    let fields = with_member(alloc, fields, "stamps", stamps_json(alloc, stamps));
    object_of(fields)
}

fn prepare_json(
    alloc: Global,
    e: Envelope,
    stamp: Stamp,
    writes: &[(ItemId, album_items::Value)],
    items: &[ItemId],
) -> Result<Value, AllocError>
    ensures { IfOk result (λ v. view v ≡ prepare_json e stamp writes.now items.now) }
{
    let fields = envelope_fields(alloc, e, "prepare");
    let fields = with_member(alloc, fields, "items", item_list_json(alloc, items));
    let fields = with_member(alloc, fields, "stamp", Ok(Value::from(stamp.value())));
    let fields = with_member(alloc, fields, "writes", writes_json(alloc, writes));
    object_of(fields)
}

/// What a Prepare has, and the base of each write.
fn prepare_on_json(
    alloc: Global,
    e: Envelope,
    stamp: Stamp,
    writes: &[(ItemId, album_items::Value)],
    items: &[ItemId],
    bases: &[Stamp],
) -> Result<Value, AllocError>
    ensures { IfOk result (λ v. view v ≡ prepare_on_json e stamp writes.now items.now bases.now) }
{
    let fields = envelope_fields(alloc, e, "prepare");
    let fields = with_member(alloc, fields, "bases", stamps_json(alloc, bases));
    let fields = with_member(alloc, fields, "items", item_list_json(alloc, items));
    let fields = with_member(alloc, fields, "stamp", Ok(Value::from(stamp.value())));
    let fields = with_member(alloc, fields, "writes", writes_json(alloc, writes));
    object_of(fields)
}

fn version_json(
    alloc: Global,
    e: Envelope,
    item: ItemId,
    stamp: Stamp,
    value: &album_items::Value,
) -> Result<Value, AllocError>
    ensures { IfOk result (λ v. view v ≡ version_json e item stamp value.now) }
{
    let fields = envelope_fields(alloc, e, "version");
    let fields = with_member(alloc, fields, "item", item_json(alloc, item));
    let fields = with_member(alloc, fields, "stamp", Ok(Value::from(stamp.value())));
    let fields = with_member(alloc, fields, "value", value_json(alloc, value));
    object_of(fields)
}

fn status_json(alloc: Global, e: Envelope, stamp: Stamp, vote: Vote) -> Result<Value, AllocError>
    ensures { IfOk result (λ v. view v ≡ status_json e stamp vote) }
{
    let fields = envelope_fields(alloc, e, "status");
    let fields = with_member(alloc, fields, "stamp", Ok(Value::from(stamp.value())));
    let vote = Value::try_from_str(alloc, vote_word(vote));
    object_of(with_member(alloc, fields, "vote", vote))
}

fn gone_json(alloc: Global, e: Envelope, item: ItemId) -> Result<Value, AllocError>
    ensures { IfOk result (λ v. view v ≡ gone_json e item) }
{
    let fields = envelope_fields(alloc, e, "gone");
    object_of(with_member(alloc, fields, "item", item_json(alloc, item)))
}

fn clash_json(alloc: Global, e: Envelope) -> Result<Value, AllocError>
    ensures { IfOk result (λ v. view v ≡ clash_json e) }
{
    object_of(envelope_fields(alloc, e, "clash"))
}

/// What is said by a word and a stamp alone.
fn stamped_json(alloc: Global, e: Envelope, word: &str, stamp: Stamp) -> Result<Value, AllocError>
    ensures { IfOk result (λ v. view v ≡ stamped_json e word.now stamp) }
{
    let fields = envelope_fields(alloc, e, word);
    object_of(with_member(alloc, fields, "stamp", Ok(Value::from(stamp.value()))))
}

/// What every line of a message has, and the word for what it says.
fn envelope_fields(alloc: Global, e: Envelope, word: &str) -> Result<Map<String, Value>, AllocError>
    ensures { IfOk result (λ fields. members_view fields.entries ≡ members_named (envelope_fields e word.now)) }
{
    let fields = Ok(Map::new(alloc));
    let fields = with_member(alloc, fields, "from", node_json(alloc, e.from));
    let fields = with_member(alloc, fields, "k", Ok(Value::from(e.number)));
    let fields = with_member(alloc, fields, "say", Value::try_from_str(alloc, word));
    let fields = with_member(alloc, fields, "tag", Ok(Value::from(e.tag)));
    with_member(alloc, fields, "to", node_json(alloc, e.to))
}

fn node_json(alloc: Global, node: Node) -> Result<Value, AllocError>
    ensures { IfOk result (λ v. view v ≡ string (node_text node)) }
{
    let text = node_text(alloc, node)?;
    Ok(Value::String(text))
}

/// `p` and the number of a partition, `c` and that of a client.
fn node_text(alloc: Global, node: Node) -> Result<String, AllocError>
    ensures { IfOk result (λ text. string_bytes text ≡ node_text node) }
{
    match node {
        Node::Part(number) => format!(in alloc; "p{number}"),
        Node::Client(client) => {
            let number = client.number();
            format!(in alloc; "c{number}")
        }
    }
}

fn vote_word(vote: Vote) -> &'static str
    ensures { result.now ≡ vote_word vote }
{
    match vote {
        Vote::Prepared => "prepared",
        Vote::Committed => "committed",
        Vote::Never => "never",
    }
}

pub(crate) fn stamps_json(alloc: Global, stamps: &[Stamp]) -> Result<Value, AllocError>
    ensures { IfOk result (λ v. view v ≡ stamps_json stamps.now) }
{
    let mut values = Vec::with_capacity(alloc, stamps.len());
    for stamp in stamps {
        values = with_item(values, Ok(Value::from(stamp.value())));
    }
    array_of(values)
}

pub(crate) fn writes_json(
    alloc: Global,
    writes: &[(ItemId, album_items::Value)],
) -> Result<Value, AllocError>
    ensures { IfOk result (λ v. view v ≡ writes_json writes.now) }
{
    let mut values = Vec::with_capacity(alloc, writes.len());
    for write in writes {
        values = with_item(values, write_json(alloc, write));
    }
    array_of(values)
}

/// [item, value]
fn write_json(alloc: Global, write: &(ItemId, album_items::Value)) -> Result<Value, AllocError>
    ensures { IfOk result (λ v. view v ≡ write_json write.now) }
{
    let pair = with_item(Ok(Vec::new(alloc)), item_json(alloc, write.0));
    array_of(with_item(pair, value_json(alloc, &write.1)))
}
