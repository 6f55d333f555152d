//! The line of a JSON object, written member by member: for those lines that a service writes most, and those that have
//! the most parts. No JSON value is made of them.
ghost use Rattle.std.specs.Prelude.{◌≡◌, ◌++◌, ◌∷◌, [], codes, decimal, IfOk, OnOk};
ghost use Rattle.json.specs.Print.{print};
ghost use Rattle.json.specs.Token.{begin_object, end_object, key, string, number};

use album_stamps::ClientNo;
use json::Writer;
use std::alloc::{AllocError, Global};

/// How many bytes a line has room for at first.
const ROOM: usize = 256;

/// The beginning of a line, before its first member.
pub(crate) fn begin_line(alloc: Global) -> Result<Writer, AllocError>
    ensures before { IfOk result (λ out. out.before ≡ []) }
    ensures tokens { IfOk result (λ out. out.tokens ≡ begin_object ∷ []) }
{
    let mut out = Writer::new(Vec::with_capacity(alloc, ROOM)?);
    out.begin_object()?;
    Ok(out)
}

/// The beginning of an answer to the client: the word that says which, and the client.
pub(crate) fn begin_answer(
    alloc: Global,
    word: &str,
    client: ClientNo,
) -> Result<Writer, AllocError>
    ensures before { IfOk result (λ out. out.before ≡ []) }
    ensures tokens { IfOk result (λ out. out.tokens ≡ begin_object
        ∷ key (codes "answer") ∷ string word.now ∷ key (codes "client") ∷ number (decimal client) ∷ []) }
{
    let mut out = begin_line(alloc)?;
    put_text(&mut out, "answer", word)?;
    put_number(&mut out, "client", u64::from(client.number()))?;
    Ok(out)
}

/// Adds a member that is a text.
pub(crate) fn put_text(out: &mut Writer, name: &str, text: &str) -> Result<(), AllocError>
    ensures before { OnOk result (out.new.before ≡ out.old.before) }
    ensures tokens { OnOk result (out.new.tokens ≡ out.old.tokens ++ key name.now ∷ string text.now ∷ []) }
{
    out.key(name)?;
    out.string(text)
}

/// Adds a member that is a whole number.
pub(crate) fn put_number(out: &mut Writer, name: &str, value: u64) -> Result<(), AllocError>
    ensures before { OnOk result (out.new.before ≡ out.old.before) }
    ensures tokens { OnOk result (out.new.tokens ≡ out.old.tokens ++ key name.now ∷ number (decimal value) ∷ []) }
{
    out.key(name)?;
    out.u64(value)
}

/// The line of the object, which ends here.
pub(crate) fn end_line(out: Writer) -> Result<Vec<u8>, AllocError>
    requires { out.before ≡ [] }
    ensures { IfOk result (λ bytes. bytes.items ≡ print (out.tokens ++ end_object ∷ []) ++ 10 ∷ []) }
{
    let mut out = out;
    out.end_object()?;
    let mut bytes = out.into_inner();
    bytes.push(b'\n')?;
    Ok(bytes)
}
