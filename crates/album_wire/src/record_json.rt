//! The lines of an audit file: each is a note as a replay writes it, and the principal.
ghost use Rattle.std.specs.Prelude.{◌≡◌, ◌++◌, true, false, codes, string_bytes, IfOk, IsOkUnless};
ghost use Rattle.serde_json.specs.Data.{string};
ghost use Rattle.serde_json.specs.View.{view};
ghost use Rattle.album_items.specs.ItemIds.{picture};
ghost use Rattle.album_wire.specs.RecordJson.{principal_text, record_json, record_text};

use crate::out_json::note_fields;
use crate::value_json::owner_text;
use album_eval::Principal;
use album_lines::{json_line, object_of, with_member};
use album_permits::Note;
use album_stamps::{ClientNo, Refusal};
use serde_json::Value;
use std::alloc::{AllocError, Global};

/// The line of a note that was taken of what this client asked for this principal.
///
/// # Errors
///
/// `OutOfMemory`.
#[tactic(auto, using(crate::proofs::Floats::no_float_in_record), unfolding(crate::specs::RecordJson::record_text))]
pub fn write_record(
    alloc: Global,
    client: ClientNo,
    who: &Principal,
    note: Note,
) -> Result<Vec<u8>, Refusal>
    ensures text { IfOk result (λ bytes. bytes.items ≡ record_text client who.now note) }
    ensures memory { IsOkUnless result Refusal.OutOfMemory }
{
    let value = record_json(alloc, client, who, note);
    Ok(json_line(alloc, value)?)
}

/// A law: lines that were worked out by hand.
pub fn worked_records()
    ensures user { record_text 2 (Principal.User (codes "amy"))
        (record { object = picture 0; mask = record { 0 = 1 }; index = 1; alarm = false; success = true })
        ≡ codes "{\"alarm\":false,\"audit\":1,\"client\":2,\"mask\":1,\"object\":\"picture/0\","
        ++ codes "\"success\":true,\"who\":\"amy@users\"}\n" }
    // Root is called by its name.
    ensures root { record_text 2 (Principal.Root (codes "eve"))
        (record { object = picture 0; mask = record { 0 = 1 }; index = 1; alarm = false; success = true })
        ≡ codes "{\"alarm\":false,\"audit\":1,\"client\":2,\"mask\":1,\"object\":\"picture/0\","
        ++ codes "\"success\":true,\"who\":\"eve@users\"}\n" }
    ensures anonymous { record_text 3 Principal.Anonymous
        (record { object = picture 7; mask = record { 0 = 2 }; index = 0; alarm = true; success = false })
        ≡ codes "{\"alarm\":true,\"audit\":0,\"client\":3,\"mask\":2,\"object\":\"picture/7\","
        ++ codes "\"success\":false,\"who\":\"ANONYMOUS@\"}\n" }
{}

fn record_json(
    alloc: Global,
    client: ClientNo,
    who: &Principal,
    note: Note,
) -> Result<Value, AllocError>
    ensures { IfOk result (λ v. view v ≡ record_json client who.now note) }
{
    let fields = note_fields(alloc, client, note);
    object_of(with_member(alloc, fields, "who", principal_json(alloc, who)))
}

fn principal_json(alloc: Global, who: &Principal) -> Result<Value, AllocError>
    ensures { IfOk result (λ v. view v ≡ string (principal_text who.now)) }
{
    let text = principal_text(alloc, who)?;
    Ok(Value::String(text))
}

fn principal_text(alloc: Global, who: &Principal) -> Result<String, AllocError>
    ensures { IfOk result (λ text. string_bytes text ≡ principal_text who.now) }
{
    match who {
        Principal::Anonymous => String::from_str(alloc, "ANONYMOUS@"),
        Principal::User(name) | Principal::Root(name) => owner_text(alloc, name),
    }
}
