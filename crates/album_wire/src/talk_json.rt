//! The lines that a service writes in addition to the answers to asks.
ghost use Rattle.std.specs.Prelude.{◌≡◌, ◌++◌, ◌∷◌, [], codes, IfOk, IsOkUnless};
ghost use Rattle.serde_json.specs.Data.{string};
ghost use Rattle.serde_json.specs.View.{view, members_view};
ghost use Rattle.album_lines.specs.Output.{line_text};
ghost use Rattle.album_wire.specs.ValueJson.{members_named};
ghost use Rattle.album_wire.specs.TalkJson.{hello_json, hello_in_json, pending_json, done_json, dump_json, serving_json, restarted_json, counted_json, totals_fields, totals_json, talk_json, talk_text};

use crate::message_json::stamps_json;
use album_lines::{array_of, json_line, object_of, with_item, with_member};
use album_stamps::{ClientNo, Refusal, Stamp};
use serde_json::{Map, Value};
use std::alloc::{AllocError, Global};

/// How many records of a sort there are: of asks that succeeded, and of asks that failed.
#[derive(Debug, Clone, Copy)]
pub struct Counted {
    pub succeeded: u64,
    pub failed: u64,
}

/// What a service or a replay says in addition to the answers to asks.
#[derive(Debug, Drop)]
pub enum TalkOut {
    /// Who speaks is the client of this number.
    Hello(ClientNo),
    /// The same, in a service that tells its epochs apart: this one has this number.
    HelloIn(ClientNo, u64),
    /// These stamps are pending, rising.
    Pending(Vec<Stamp>),
    Swept,
    Trimmed,
    /// So many lines follow: an opening.
    Dump(u64),
    /// The service listens at this port.
    Serving(u16),
    /// The epoch of this number has opened. The first one is 1.
    Restarted(u64),
    /// What the audit book has in all.
    Totals { audits: Counted, alarms: Counted },
}

/// The line of it.
///
/// # Errors
///
/// `OutOfMemory`.
#[tactic(auto, using(crate::proofs::Floats::no_float_in_talk), unfolding(crate::specs::TalkJson::talk_text))]
pub fn write_talk(alloc: Global, out: &TalkOut) -> Result<Vec<u8>, Refusal>
    ensures text { IfOk result (λ bytes. bytes.items ≡ talk_text out.now) }
    ensures memory { IsOkUnless result Refusal.OutOfMemory }
{
    let value = talk_json(alloc, out);
    Ok(json_line(alloc, value)?)
}

/// A law: the text of each, byte for byte.
pub fn worked_talk_outs()
    ensures hello { talk_text (TalkOut.Hello 1) ≡ codes "{\"answer\":\"hello\",\"client\":1}\n" }
    ensures hello_in { talk_text (TalkOut.HelloIn 1 2)
        ≡ codes "{\"answer\":\"hello\",\"client\":1,\"epoch\":2}\n" }
    ensures swept { talk_text TalkOut.Swept ≡ codes "{\"answer\":\"swept\"}\n" }
    ensures trimmed { talk_text TalkOut.Trimmed ≡ codes "{\"answer\":\"trimmed\"}\n" }
    ensures dump { talk_text (TalkOut.Dump 4) ≡ codes "{\"answer\":\"dump\",\"lines\":4}\n" }
    ensures serving { talk_text (TalkOut.Serving 7070) ≡ codes "{\"answer\":\"serving\",\"port\":7070}\n" }
    ensures restarted { talk_text (TalkOut.Restarted 2) ≡ codes "{\"answer\":\"restarted\",\"epoch\":2}\n" }
    ensures totals { talk_text (TalkOut.Totals
        (record { succeeded = 1; failed = 0 }) (record { succeeded = 0; failed = 2 }))
        ≡ codes "{\"alarms\":[0,2],\"audits\":[1,0]}\n" }
{}

fn talk_json(alloc: Global, out: &TalkOut) -> Result<Value, AllocError>
    ensures { IfOk result (λ v. view v ≡ talk_json out.now) }
{
    match out {
        TalkOut::Hello(client) => hello_json(alloc, *client),
        TalkOut::HelloIn(client, epoch) => hello_in_json(alloc, *client, *epoch),
        TalkOut::Pending(stamps) => pending_json(alloc, stamps),
        TalkOut::Swept => done_json(alloc, "swept"),
        TalkOut::Trimmed => done_json(alloc, "trimmed"),
        TalkOut::Dump(lines) => dump_json(alloc, *lines),
        TalkOut::Serving(port) => serving_json(alloc, *port),
        TalkOut::Restarted(epoch) => restarted_json(alloc, *epoch),
        TalkOut::Totals { audits, alarms } => totals_json(alloc, *audits, *alarms),
    }
}

fn hello_json(alloc: Global, client: ClientNo) -> Result<Value, AllocError>
    ensures { IfOk result (λ v. view v ≡ hello_json client) }
{
    let fields = answer_fields(alloc, "hello");
    object_of(with_member(alloc, fields, "client", Ok(Value::from(client.number()))))
}

fn hello_in_json(alloc: Global, client: ClientNo, epoch: u64) -> Result<Value, AllocError>
    ensures { IfOk result (λ v. view v ≡ hello_in_json client epoch) }
{
    let fields = answer_fields(alloc, "hello");
    let fields = with_member(alloc, fields, "client", Ok(Value::from(client.number())));
    object_of(with_member(alloc, fields, "epoch", Ok(Value::from(epoch))))
}

fn pending_json(alloc: Global, stamps: &[Stamp]) -> Result<Value, AllocError>
    ensures { IfOk result (λ v. view v ≡ pending_json stamps.now) }
{
    let fields = answer_fields(alloc, "pending");
    object_of(with_member(alloc, fields, "stamps", stamps_json(alloc, stamps)))
}

fn done_json(alloc: Global, word: &str) -> Result<Value, AllocError>
    ensures { IfOk result (λ v. view v ≡ done_json word.now) }
{
    object_of(answer_fields(alloc, word))
}

fn dump_json(alloc: Global, lines: u64) -> Result<Value, AllocError>
    ensures { IfOk result (λ v. view v ≡ dump_json lines) }
{
    let fields = answer_fields(alloc, "dump");
    object_of(with_member(alloc, fields, "lines", Ok(Value::from(lines))))
}

fn serving_json(alloc: Global, port: u16) -> Result<Value, AllocError>
    ensures { IfOk result (λ v. view v ≡ serving_json port) }
{
    let fields = answer_fields(alloc, "serving");
    object_of(with_member(alloc, fields, "port", Ok(Value::from(port))))
}

fn restarted_json(alloc: Global, epoch: u64) -> Result<Value, AllocError>
    ensures { IfOk result (λ v. view v ≡ restarted_json epoch) }
{
    let fields = answer_fields(alloc, "restarted");
    object_of(with_member(alloc, fields, "epoch", Ok(Value::from(epoch))))
}

/// What each but the totals begins with: the word that says which it is.
fn answer_fields(alloc: Global, word: &str) -> Result<Map<String, Value>, AllocError>
    ensures { IfOk result
        (λ fields. members_view fields.entries ≡ members_named ((codes "answer", string word.now) ∷ [])) }
{
    let answer = Value::try_from_str(alloc, word);
    with_member(alloc, Ok(Map::new(alloc)), "answer", answer)
}

fn totals_json(alloc: Global, audits: Counted, alarms: Counted) -> Result<Value, AllocError>
    ensures { IfOk result (λ v. view v ≡ totals_json audits alarms) }
{
    object_of(totals_fields(alloc, audits, alarms))
}

/// How many records there are of each sort.
pub(crate) fn totals_fields(
    alloc: Global,
    audits: Counted,
    alarms: Counted,
) -> Result<Map<String, Value>, AllocError>
    ensures { IfOk result (λ fields. members_view fields.entries ≡ members_named (totals_fields audits alarms)) }
{
    let fields = Ok(Map::new(alloc));
    let fields = with_member(alloc, fields, "alarms", counted_json(alloc, alarms));
    with_member(alloc, fields, "audits", counted_json(alloc, audits))
}

/// [those that succeeded, those that failed]
fn counted_json(alloc: Global, counted: Counted) -> Result<Value, AllocError>
    ensures { IfOk result (λ v. view v ≡ counted_json counted) }
{
    let pair = with_item(Ok(Vec::new(alloc)), Ok(Value::from(counted.succeeded)));
    array_of(with_item(pair, Ok(Value::from(counted.failed))))
}
