//! The name of a user.
ghost use Rattle.std.specs.Prelude.{◌≡◌, IsTrue, IfOk, IsOkUnless};
ghost use Rattle.std.specs.Option.{ok_or};
ghost use Rattle.std.specs.List.{list_all};
ghost use Rattle.album_stamps.specs.declared.refusals.Refusal.TheVariants.{BadWho};
ghost use Rattle.album_lists.specs.Names.{is_name, is_name_byte, name_of};

use album_stamps::{MAX_NAME, Refusal};
use arrayvec::ArrayString;
use std::marker::Model;

/// The name of a user: 1 to 64 bytes of a to z, 0 to 9, dot, hyphen and underscore, which lie in the
/// value itself. Contracts see them.
#[derive(Clone, Debug, Drop)]
pub struct Name {
    text: ArrayString<MAX_NAME>,
}

impl Model for Name {
    ghost use Rattle.std.specs.Prelude.{List, ℕ, IsTrue};
    ghost use Rattle.album_lists.specs.Names.{is_name};

    ghost Value = { List ℕ };

    ghost view = { λ n. n.text.bytes };

    ghost invariant = { λ n. IsTrue (is_name n.text.bytes) };
}

impl Name {
    /// The name that the text is. It lies in place, so no memory is asked for.
    ///
    /// # Errors
    ///
    /// `BadWho` where the text is no name.
    pub fn of(text: &str) -> Result<Name, Refusal>
        ensures { result ≡ ok_or (name_of text.now) BadWho }
    {
        if !is_name(text) {
            return Err(Refusal::BadWho);
        }
        let mut name = ArrayString::new();
        name.push_str(text);
        Ok(Name { text: name })
    }

    /// The text of the name.
    pub fn as_str(&self) -> &str
        ensures text { result.now ≡ self.now }
        ensures valid { IsTrue (is_name self.now) }
    {
        self.text.as_str()
    }

    /// The same name once more.
    ///
    /// # Errors
    ///
    /// `OutOfMemory`.
    pub fn copy(&self) -> Result<Name, Refusal>
        ensures copy { IfOk result (λ name. name ≡ self.now) }
        ensures memory { IsOkUnless result Refusal.OutOfMemory }
    {
        Ok(self.clone()?)
    }
}

fn is_name(text: &str) -> bool
    ensures { result ≡ is_name text.now }
{
    match text.len() {
        1..=MAX_NAME => has_name_bytes(text),
        _ => false,
    }
}

fn has_name_bytes(text: &str) -> bool
    ensures { result ≡ list_all is_name_byte text.now }
{
    text.bytes().all(is_name_byte)
}

fn is_name_byte(byte: u8) -> bool
    ensures { result ≡ is_name_byte byte }
{
    let letter = (b'a' <= byte) & (byte <= b'z');
    let digit = (b'0' <= byte) & (byte <= b'9');
    let mark = (byte == b'.') | (byte == b'-') | (byte == b'_');
    letter | digit | mark
}
