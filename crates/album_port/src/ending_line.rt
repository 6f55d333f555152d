//! The line of an audit file that says how a request has ended. It has the key `outcome`, which no line of a note has.
ghost use Rattle.std.specs.Prelude.{◌≡◌, ◌++◌, codes, string_bytes, None, Some, IfOk};
ghost use Rattle.album_items.specs.ItemIds.{picture};
ghost use Rattle.album_wire.specs.RecordJson.{principal_text};
ghost use Rattle.album_port.specs.Audits.{asked_members, ending_line, last_members, object_member, outcome_members, outcome_text, refusal_member, stamp_member};

use album_eval::Principal;
use album_items::ItemId;
use album_stamps::{ClientNo, Refusal};
use album_talk::{AskWord, Ending, Outcome};
use std::alloc::{AllocError, Global};

/// The line of a request of this client's, for this principal, that has ended so at this moment. Its keys are in the
/// order of their bytes.
///
/// # Errors
///
/// `OutOfMemory`.
pub(crate) fn ending_line(
    alloc: Global,
    moment: &str,
    client: ClientNo,
    who: &Principal,
    ending: &Ending,
) -> Result<Vec<u8>, Refusal>
    ensures { IfOk result (λ text. text.items ≡ ending_line moment.now client who.now ending.now) }
{
    let mut line = asked_members(alloc, ending.ask, client)?.into_bytes();
    line.extend_from_slice(refusal_member(alloc, &ending.outcome)?.as_bytes())?;
    line.extend_from_slice(object_member(alloc, ending.object)?.as_bytes())?;
    line.extend_from_slice(outcome_members(alloc, &ending.outcome)?.as_bytes())?;
    line.extend_from_slice(&last_members(alloc, moment, who)?)?;
    Ok(line)
}

/// The first two keys: what was asked, and by which client.
fn asked_members(alloc: Global, ask: AskWord, client: ClientNo) -> Result<String, AllocError>
    ensures { IfOk result (λ text. string_bytes text ≡ asked_members ask client) }
{
    let (ask, number) = (ask.as_str(), client.number());
    format!(in alloc; "{{\"ask\":\"{ask}\",\"client\":{number},")
}

/// The name of a refusal, where the outcome has one.
fn refusal_member(alloc: Global, outcome: &Outcome) -> Result<String, AllocError>
    ensures { IfOk result (λ text. string_bytes text ≡ refusal_member outcome.now) }
{
    match outcome {
        Outcome::Served | Outcome::Denied | Outcome::Missing | Outcome::Busy => Ok(String::new(
            alloc,
        )),
        Outcome::Committed(_) | Outcome::Aborted(_) => Ok(String::new(alloc)),
        Outcome::Unsettled(_, why) | Outcome::Refused(why) => {
            let name = why.name();
            format!(in alloc; "\"name\":\"{name}\",")
        }
    }
}

/// The object that was asked for, where it is one.
fn object_member(alloc: Global, object: Option<ItemId>) -> Result<String, Refusal>
    ensures { IfOk result (λ text. string_bytes text ≡ object_member object) }
{
    match object {
        None => Ok(String::new(alloc)),
        Some(object) => {
            let text = object.text(alloc)?;
            Ok(format!(in alloc; "\"object\":\"{text}\",")?)
        }
    }
}

/// The outcome, and the stamp of a write.
fn outcome_members(alloc: Global, outcome: &Outcome) -> Result<String, AllocError>
    ensures { IfOk result (λ text. string_bytes text ≡ outcome_members outcome.now) }
{
    let word = outcome_text(outcome);
    let stamp = stamp_member(alloc, outcome)?;
    format!(in alloc; "\"outcome\":\"{word}\",{stamp}")
}

/// The word of an answer with this outcome. A refusal has a name, and no word.
fn outcome_text(outcome: &Outcome) -> &'static str
    ensures { result.now ≡ outcome_text outcome.now }
{
    match outcome {
        Outcome::Served => "served",
        Outcome::Denied => "denied",
        Outcome::Missing => "missing",
        Outcome::Busy => "busy",
        Outcome::Committed(_) => "committed",
        Outcome::Aborted(_) => "aborted",
        Outcome::Unsettled(..) => "unsettled",
        Outcome::Refused(_) => "refused",
    }
}

fn stamp_member(alloc: Global, outcome: &Outcome) -> Result<String, AllocError>
    ensures { IfOk result (λ text. string_bytes text ≡ stamp_member outcome.now) }
{
    match outcome {
        Outcome::Served | Outcome::Denied | Outcome::Missing => Ok(String::new(alloc)),
        Outcome::Busy | Outcome::Refused(_) => Ok(String::new(alloc)),
        Outcome::Committed(stamp) | Outcome::Aborted(stamp) | Outcome::Unsettled(stamp, _) => {
            let number = stamp.value();
            format!(in alloc; "\"stamp\":{number},")
        }
    }
}

/// The moment, the principal, and the end of the line.
fn last_members(alloc: Global, moment: &str, who: &Principal) -> Result<Vec<u8>, AllocError>
    ensures { IfOk result (λ text. text.items ≡ last_members moment.now who.now) }
{
    let mut text = Vec::new(alloc);
    text.extend_from_slice(b"\"time\":\"")?;
    text.extend_from_slice(moment.as_bytes())?;
    text.extend_from_slice(b"\",\"who\":\"")?;
    text.extend_from_slice(who_text(alloc, who)?.as_bytes())?;
    text.extend_from_slice(b"\"}\n")?;
    Ok(text)
}

fn who_text(alloc: Global, who: &Principal) -> Result<String, AllocError>
    ensures { IfOk result (λ text. string_bytes text ≡ principal_text who.now) }
{
    match who {
        Principal::Anonymous => String::from_str(alloc, "ANONYMOUS@"),
        Principal::User(name) | Principal::Root(name) => {
            let name = name.as_str();
            format!(in alloc; "{name}@users")
        }
    }
}

/// A law: lines that were worked out by hand.
pub fn worked_endings()
    ensures committed { ending_line (codes "2026-11-29T21:25:21.008Z") 1 (Principal.User (codes "amy"))
        (record { ask = AskWord.Delete; object = Some (picture 0); outcome = Outcome.Committed 65537 })
        ≡ codes "{\"ask\":\"delete\",\"client\":1,\"object\":\"picture/0\",\"outcome\":\"committed\",\"stamp\":65537,"
        ++ codes "\"time\":\"2026-11-29T21:25:21.008Z\",\"who\":\"amy@users\"}\n" }
    ensures unsettled { ending_line (codes "2026-11-29T21:25:21.008Z") 2 Principal.Anonymous
        (record { ask = AskWord.SetLists; object = None; outcome = Outcome.Unsettled 65537 Refusal.Full })
        ≡ codes "{\"ask\":\"set_lists\",\"client\":2,\"name\":\"Full\",\"outcome\":\"unsettled\",\"stamp\":65537,"
        ++ codes "\"time\":\"2026-11-29T21:25:21.008Z\",\"who\":\"ANONYMOUS@\"}\n" }
    ensures denied { ending_line (codes "2026-11-29T21:25:21.008Z") 3 (Principal.Root (codes "eve"))
        (record { ask = AskWord.Read; object = Some (picture 7); outcome = Outcome.Denied })
        ≡ codes "{\"ask\":\"read\",\"client\":3,\"object\":\"picture/7\",\"outcome\":\"denied\","
        ++ codes "\"time\":\"2026-11-29T21:25:21.008Z\",\"who\":\"eve@users\"}\n" }
{}
