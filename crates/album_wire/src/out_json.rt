//! The lines of an event's outputs: its notes, its answers, and in a trace its messages.
ghost use Rattle.std.specs.Prelude.{◌≡◌, ◌++◌, [], ◌∷◌, true, Some, None, codes, option_map, false, map, IfOk, IsOkUnless};
ghost use Rattle.serde_json.specs.View.{view, members_view};
ghost use Rattle.album_items.specs.ItemIds.{picture, album, group};
ghost use Rattle.album_wire.specs.MessageJson.{message_json};
ghost use Rattle.album_wire.specs.ValueJson.{members_named};
ghost use Rattle.album_wire.specs.OutJson.{note_fields, note_json, at_json, reason_json, reasons_json, denied_json, missing_json, why_word, busy_json, ended_json, unsettled_json, refused_json, answer_json, out_line};
ghost use Rattle.album_wire.specs.ShownStamps.{answer_shown, out_shown};
ghost use Rattle.album_lines.specs.Output.{line_text};

use crate::message_json::message_json;
use crate::object_text::{begin_answer, end_line, put_number};
use crate::served_json::{answer_fields, served_line};
use crate::value_json::item_json;
use album_calls::Message;
use album_eval::Verdict;
use album_items::{FirstStamps, ItemId};
use album_lines::{array_of, json_line, object_of, with_item, with_member};
use album_listing::Reason;
use album_permits::{Answer, Attributes, Note, Out, Served};
use album_stamps::{ClientNo, Refusal, Stamp};
use album_views::Why;
use bitflags::Flags;
use serde_json::{Map, Value};
use std::alloc::{AllocError, Global};

/// The line of an output. That a message is sent has a line where the message is given, and no byte where
/// it isn't.
///
/// # Errors
///
/// `OutOfMemory`.
pub fn write_out(alloc: Global, out: &Out, message: Option<&Message>) -> Result<Vec<u8>, Refusal>
    ensures text { IfOk result (λ bytes. bytes.items ≡ out_line out.now (option_map (λ m. m.now) message.entry)) }
    ensures memory { IsOkUnless result Refusal.OutOfMemory }
{
    write_shown_out(alloc, &FirstStamps::new(alloc), out, message)
}

/// The same in a later epoch, whose first values have these stamps.
///
/// # Errors
///
/// `OutOfMemory`.
#[tactic(auto, unfolding(crate::specs::OutJson::out_line))]
pub fn write_shown_out(
    alloc: Global,
    stamps: &FirstStamps,
    out: &Out,
    message: Option<&Message>,
) -> Result<Vec<u8>, Refusal>
    ensures text { IfOk result (λ bytes. bytes.items
        ≡ out_line (out_shown stamps.now out.now) (option_map (λ m. m.now) message.entry)) }
    ensures memory { IsOkUnless result Refusal.OutOfMemory }
{
    match (out, message) {
        (Out::Sent(_), None) => Ok(Vec::new(alloc)),
        (Out::Sent(number), Some(message)) => Ok(message_line(alloc, *number, message)?),
        (Out::Noted(client, note), _) => Ok(note_line(alloc, *client, *note)?),
        (Out::Answered(client, answer), _) => write_shown_answer(alloc, stamps, *client, answer),
    }
}

/// The line of an answer to this client.
///
/// # Errors
///
/// `OutOfMemory`.
pub fn write_answer(alloc: Global, client: ClientNo, answer: &Answer) -> Result<Vec<u8>, Refusal>
    ensures text { IfOk result (λ bytes. bytes.items ≡ line_text (answer_json client answer.now)) }
    ensures memory { IsOkUnless result Refusal.OutOfMemory }
{
    write_shown_answer(alloc, &FirstStamps::new(alloc), client, answer)
}

/// The same in a later epoch, whose first values have these stamps.
///
/// # Errors
///
/// `OutOfMemory`.
pub fn write_shown_answer(
    alloc: Global,
    stamps: &FirstStamps,
    client: ClientNo,
    answer: &Answer,
) -> Result<Vec<u8>, Refusal>
    ensures text { IfOk result
        (λ bytes. bytes.items ≡ line_text (answer_json client (answer_shown stamps.now answer.now))) }
    ensures memory { IsOkUnless result Refusal.OutOfMemory }
{
    Ok(answer_line(alloc, stamps, client, answer)?)
}

/// A law: lines of notes and answers that were worked out by hand.
pub fn worked_outs()
    ensures noted { out_line
        (Out.Noted 2 (record { object = picture 0; mask = record { 0 = 1 }; index = 1; alarm = false; success = true }))
        None
        ≡ codes "{\"alarm\":false,\"audit\":1,\"client\":2,\"mask\":1,\"object\":\"picture/0\",\"success\":true}\n" }
    ensures served { out_line
        (Out.Answered 2 (Answer.Served (Served.Picture (picture 0) 65537 (codes "Bay") (115 ∷ 101 ∷ 97 ∷ []))))
        None
        ≡ codes "{\"answer\":\"served\",\"client\":2,\"content\":\"736561\",\"object\":\"picture/0\","
        ++ codes "\"stamp\":65537,\"title\":\"Bay\"}\n" }
    ensures listed { out_line
        (Out.Answered 2 (Answer.Served
        (Served.Listed (album 0) 0 (record { item = picture 0; title = codes "Sea" } ∷ []))))
        None
        ≡ codes "{\"answer\":\"listed\",\"client\":2,\"object\":\"album/0\",\"rows\":[[\"picture/0\","
        ++ codes "\"Sea\"]],\"stamp\":0}\n" }
    ensures head_of_picture { out_line
        (Out.Answered 2 (Answer.Served (Served.Head (picture 1) 65537
        (Attributes.Picture (record { owner = codes "amy"; group = 3; list = 4 }) (codes "Bay") 5))))
        None
        ≡ codes "{\"answer\":\"served\",\"client\":2,\"group\":3,\"home\":5,\"list\":4,\"object\":\"picture/1\","
        ++ codes "\"owner\":\"amy@users\",\"stamp\":65537,\"title\":\"Bay\"}\n" }
    // An album without a home.
    ensures head_of_album { out_line
        (Out.Answered 2 (Answer.Served (Served.Head (album 1) 0
        (Attributes.Album (record { owner = codes "amy"; group = 3; list = 4 }) (codes "Trips") None 7))))
        None
        ≡ codes "{\"answer\":\"served\",\"client\":2,\"count\":7,\"group\":3,\"home\":null,\"list\":4,"
        ++ codes "\"object\":\"album/1\",\"owner\":\"amy@users\",\"stamp\":0,\"title\":\"Trips\"}\n" }
    ensures head_of_group { out_line
        (Out.Answered 2 (Answer.Served (Served.Head (group 1) 65537
        (Attributes.Group (record { owner = codes "amy"; group = 3; list = 4 }) 1))))
        None
        ≡ codes "{\"answer\":\"served\",\"client\":2,\"count\":1,\"group\":3,\"list\":4,\"object\":\"group/1\","
        ++ codes "\"owner\":\"amy@users\",\"stamp\":65537}\n" }
    ensures children { out_line
        (Out.Answered 2 (Answer.Served (Served.Children (album 1) 65537 (picture 1 ∷ album 2 ∷ []))))
        None
        ≡ codes "{\"answer\":\"served\",\"children\":[\"picture/1\",\"album/2\"],\"client\":2,\"object\":\"album/1\","
        ++ codes "\"stamp\":65537}\n" }
    ensures denied { out_line (Out.Answered 2 (Answer.Denied (
        record { object = picture 0; mask = record { 0 = 65536 }; verdict = Verdict.DeniedBy 0 }
        ∷ record { object = album 0; mask = record { 0 = 64 }; verdict = Verdict.DeniedAtEnd }
        ∷ []))) None
        ≡ codes "{\"answer\":\"denied\",\"client\":2,\"reasons\":[[\"picture/0\",65536,0],[\"album/0\",64,"
        ++ codes "\"end\"]]}\n" }
    ensures busy { out_line (Out.Answered 2 (Answer.Busy Why.Rounds)) None
        ≡ codes "{\"answer\":\"busy\",\"client\":2,\"why\":\"rounds\"}\n" }
    ensures committed { out_line (Out.Answered 1 (Answer.Committed 65537)) None
        ≡ codes "{\"answer\":\"committed\",\"client\":1,\"stamp\":65537}\n" }
    ensures aborted { out_line (Out.Answered 1 (Answer.Aborted 65537)) None
        ≡ codes "{\"answer\":\"aborted\",\"client\":1,\"stamp\":65537}\n" }
    ensures unsettled { out_line (Out.Answered 1 (Answer.Unsettled 131073 Refusal.Full)) None
        ≡ codes "{\"answer\":\"unsettled\",\"client\":1,\"name\":\"Full\",\"refused\":20,\"stamp\":131073}\n" }
    ensures refused { out_line (Out.Answered 1 (Answer.Refused Refusal.AlbumFull)) None
        ≡ codes "{\"client\":1,\"name\":\"AlbumFull\",\"refused\":10}\n" }
{}

#[tactic(auto, using(crate::proofs::Floats::no_float_in_message))]
fn message_line(alloc: Global, number: u64, message: &Message) -> Result<Vec<u8>, AllocError>
    ensures { IfOk result (λ bytes. bytes.items ≡ line_text (message_json number message.now)) }
{
    json_line(alloc, message_json(alloc, number, message))
}

#[tactic(auto, using(crate::proofs::Floats::no_float_in_note))]
fn note_line(alloc: Global, client: ClientNo, note: Note) -> Result<Vec<u8>, AllocError>
    ensures { IfOk result (λ bytes. bytes.items ≡ line_text (note_json client note)) }
{
    json_line(alloc, note_json(alloc, client, note))
}

#[tactic(auto, using(crate::proofs::Floats::no_float_in_answer))]
fn answer_line(
    alloc: Global,
    stamps: &FirstStamps,
    client: ClientNo,
    answer: &Answer,
) -> Result<Vec<u8>, AllocError>
    ensures { IfOk result
        (λ bytes. bytes.items ≡ line_text (answer_json client (answer_shown stamps.now answer.now))) }
{
    match answer {
        Answer::Served(served) => served_line(alloc, stamps, client, served),
        Answer::Denied(denial) => json_line(alloc, denied_json(alloc, client, denial.as_slice())),
        Answer::Missing(object) => json_line(alloc, missing_json(alloc, client, *object)),
        Answer::Busy(why) => json_line(alloc, busy_json(alloc, client, *why)),
        Answer::Committed(stamp) => ended_line(alloc, client, "committed", *stamp),
        Answer::Aborted(stamp) => ended_line(alloc, client, "aborted", *stamp),
        Answer::Unsettled(stamp, refusal) => {
            json_line(alloc, unsettled_json(alloc, client, *stamp, *refusal))
        }
        Answer::Refused(refusal) => json_line(alloc, refused_json(alloc, client, *refusal)),
    }
}

/// A write that ended, by the word that says how.
fn ended_line(
    alloc: Global,
    client: ClientNo,
    word: &str,
    stamp: Stamp,
) -> Result<Vec<u8>, AllocError>
    ensures { IfOk result (λ bytes. bytes.items ≡ line_text (ended_json client word.now stamp)) }
{
    let mut out = begin_answer(alloc, word, client)?;
    put_number(&mut out, "stamp", stamp.value())?;
    end_line(out)
}

fn note_json(alloc: Global, client: ClientNo, note: Note) -> Result<Value, AllocError>
    ensures { IfOk result (λ v. view v ≡ note_json client note) }
{
    object_of(note_fields(alloc, client, note))
}

/// What a note says, which a record says too.
pub(crate) fn note_fields(
    alloc: Global,
    client: ClientNo,
    note: Note,
) -> Result<Map<String, Value>, AllocError>
    ensures { IfOk result (λ fields. members_view fields.entries ≡ members_named (note_fields client note)) }
{
    let fields = Ok(Map::new(alloc));
    let fields = with_member(alloc, fields, "alarm", Ok(Value::from(note.alarm)));
    let fields = with_member(alloc, fields, "audit", Ok(Value::from(note.index)));
    let fields = with_member(alloc, fields, "client", Ok(Value::from(client.number())));
    let fields = with_member(alloc, fields, "mask", Ok(Value::from(note.mask.bits())));
    let fields = with_member(alloc, fields, "object", item_json(alloc, note.object));
    with_member(alloc, fields, "success", Ok(Value::from(note.success)))
}

fn denied_json(alloc: Global, client: ClientNo, reasons: &[Reason]) -> Result<Value, AllocError>
    ensures { IfOk result (λ v. view v ≡ denied_json client reasons.now) }
{
    let fields = answer_fields(alloc, "denied", client);
    object_of(with_member(alloc, fields, "reasons", reasons_json(alloc, reasons)))
}

fn reasons_json(alloc: Global, reasons: &[Reason]) -> Result<Value, AllocError>
    ensures { IfOk result (λ v. view v ≡ reasons_json reasons.now) }
{
    let mut values = Vec::with_capacity(alloc, reasons.len());
    for reason in reasons {
        values = with_item(values, reason_json(alloc, *reason));
    }
    array_of(values)
}

/// [object, mask, at]
fn reason_json(alloc: Global, reason: Reason) -> Result<Value, AllocError>
    ensures { IfOk result (λ v. view v ≡ reason_json reason) }
{
    let parts = with_item(Ok(Vec::new(alloc)), item_json(alloc, reason.object));
    let parts = with_item(parts, Ok(Value::from(reason.mask.bits())));
    array_of(with_item(parts, at_json(alloc, reason.verdict)))
}

/// The index of the entry that denies, or the end; of what is granted, nothing.
fn at_json(alloc: Global, verdict: Verdict) -> Result<Value, AllocError>
    ensures { IfOk result (λ v. view v ≡ at_json verdict) }
{
    match verdict {
        Verdict::Granted => Ok(Value::Null),
        Verdict::DeniedBy(index) => Ok(Value::from(index)),
        Verdict::DeniedAtEnd => Value::try_from_str(alloc, "end"),
    }
}

fn missing_json(alloc: Global, client: ClientNo, object: ItemId) -> Result<Value, AllocError>
    ensures { IfOk result (λ v. view v ≡ missing_json client object) }
{
    let fields = answer_fields(alloc, "missing", client);
    object_of(with_member(alloc, fields, "object", item_json(alloc, object)))
}

fn busy_json(alloc: Global, client: ClientNo, why: Why) -> Result<Value, AllocError>
    ensures { IfOk result (λ v. view v ≡ busy_json client why) }
{
    let fields = answer_fields(alloc, "busy", client);
    let why = Value::try_from_str(alloc, why_word(why));
    object_of(with_member(alloc, fields, "why", why))
}

fn why_word(why: Why) -> &'static str
    ensures { result.now ≡ why_word why }
{
    match why {
        Why::Rounds => "rounds",
        Why::Wide => "wide",
    }
}

fn unsettled_json(
    alloc: Global,
    client: ClientNo,
    stamp: Stamp,
    refusal: Refusal,
) -> Result<Value, AllocError>
    ensures { IfOk result (λ v. view v ≡ unsettled_json client stamp refusal) }
{
    let fields = answer_fields(alloc, "unsettled", client);
    let name = Value::try_from_str(alloc, refusal.name());
    let fields = with_member(alloc, fields, "name", name);
    let fields = with_member(alloc, fields, "refused", Ok(Value::from(refusal.number())));
    object_of(with_member(alloc, fields, "stamp", Ok(Value::from(stamp.value()))))
}

fn refused_json(alloc: Global, client: ClientNo, refusal: Refusal) -> Result<Value, AllocError>
    ensures { IfOk result (λ v. view v ≡ refused_json client refusal) }
{
    let fields = Ok(Map::new(alloc));
    let fields = with_member(alloc, fields, "client", Ok(Value::from(client.number())));
    let name = Value::try_from_str(alloc, refusal.name());
    let fields = with_member(alloc, fields, "name", name);
    object_of(with_member(alloc, fields, "refused", Ok(Value::from(refusal.number()))))
}
