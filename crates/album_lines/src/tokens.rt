//! A JSON text, taken token by token from its front: those tokens that lines of the usual form have, and no others.
//! A text with an escape isn't taken, nor is a number that isn't whole: None then, and nothing more is to be taken.
ghost use Rattle.std.specs.Prelude.{◌≡◌, ◌<◌, ◌^◌, ◌∷◌, [], IsTrue, IfSome, OnSome, MatchOption, true, false, decimal, ◌+◌, ◌≤◌, length, take, drop, map};
ghost use Rattle.std.specs.Bool.{MatchBool};
ghost use Rattle.std.specs.List.{prefix_len};
ghost use Rattle.std.specs.Simd.Lanes.{mask_l};
ghost use Rattle.json.specs.Lex.{between, lex, begins_colon, token};
ghost use Rattle.json.specs.Lex as lexed;
ghost use Rattle.json.specs.Token.{begin_object, end_object, begin_array, end_array, key, string, number};
ghost use Rattle.json.specs.Run.{is_plain, is_stop};
ghost use Rattle.json.specs.Word.{ends_word};
ghost use Rattle.album_lines.specs.Front.{MayBegin, MayClose, GoesOn, is_blank};

use std::marker::Model;
use std::simd::prelude::*;

/// So many digits a number has at most: more don't fit into 64 bits with any digits.
const MAX_DIGITS: usize = 18;

/// What comes before what is left: a bracket or a colon, a comma, or a value.
#[derive(Clone, Copy, Drop)]
pub(crate) enum Place {
    Fresh,
    AfterComma,
    AfterValue,
}

/// What is left of a text. Contracts see its tokens.
#[derive(Drop)]
pub(crate) struct Tokens<'a> {
    rest: &'a str,
    place: Place,
}

impl<'a> Model for Tokens<'a> {
    ghost use Rattle.std.specs.Prelude.{List};
    ghost use Rattle.json.specs.Token.{Token, tokens_code};

    ghost Value = { List Token };

    ghost coded = { tokens_code };

    ghost use Rattle.album_lines.specs.Front.{tokens_at};

    ghost view = { λ t. tokens_at t.place t.rest.now };
}

impl<'a> Tokens<'a> {
    /// The tokens of a text.
    pub(crate) fn of(text: &'a str) -> Tokens<'a>
        ensures { result ≡ lexed.tokens text.now }
    {
        Tokens {
            rest: unspaced(text),
            place: Place::Fresh,
        }
    }

    /// Whether none is left.
    pub(crate) fn are_over(&self) -> bool
        ensures { IsTrue result → self.now ≡ [] }
    {
        match self.place {
            Place::AfterValue => self.rest.is_empty(),
            Place::Fresh | Place::AfterComma => false,
        }
    }

    /// The brace that opens an object.
    pub(crate) fn take_object(&mut self) -> Option<()>
        ensures { OnSome result (self.old ≡ begin_object ∷ self.new) }
    {
        self.rest = unspaced(behind(self.begun()?, b'{')?);
        self.place = Place::Fresh;
        Some(())
    }

    /// The name of a member, with its colon, or None at the brace that closes the object.
    pub(crate) fn take_key(&mut self) -> Option<Option<&'a str>>
        ensures { IfSome result (λ name. MatchOption name (self.old ≡ end_object ∷ self.new)
            (λ name. self.old ≡ key name.now ∷ self.new)) }
    {
        if let Some(more) = self.after_closing(b'}') {
            self.go_on(more)?;
            return Some(None);
        }
        let (name, more) = quoted(self.begun()?)?;
        self.rest = unspaced(behind(unspaced(more), b':')?);
        self.place = Place::Fresh;
        Some(Some(name))
    }

    /// The bracket that opens a list.
    pub(crate) fn take_list(&mut self) -> Option<()>
        ensures { OnSome result (self.old ≡ begin_array ∷ self.new) }
    {
        self.rest = unspaced(behind(self.begun()?, b'[')?);
        self.place = Place::Fresh;
        Some(())
    }

    /// The bracket that closes a list, if it is next.
    pub(crate) fn take_end(&mut self) -> Option<bool>
        ensures { IfSome result (λ taken. MatchBool taken (self.old ≡ end_array ∷ self.new) (self.new ≡ self.old)) }
    {
        let Some(more) = self.after_closing(b']') else {
            return Some(false);
        };
        self.go_on(more)?;
        Some(true)
    }

    /// A text.
    pub(crate) fn take_text(&mut self) -> Option<&'a str>
        ensures { IfSome result (λ text. self.old ≡ string text.now ∷ self.new) }
    {
        let (text, more) = quoted(self.begun()?)?;
        self.go_on(more)?;
        Some(text)
    }

    /// A whole number.
    pub(crate) fn take_whole(&mut self) -> Option<u64>
        ensures { IfSome result (λ n. (n < 2 ^ 64) × (self.old ≡ number (decimal n) ∷ self.new)) }
    {
        let (n, more) = whole(self.begun()?)?;
        self.go_on(more)?;
        Some(n)
    }

    /// What is left, where a value or a key may begin.
    fn begun(&self) -> Option<&'a str>
        ensures { IfSome result (λ text. MayBegin self.now text.now) }
    {
        match self.place {
            Place::Fresh | Place::AfterComma => Some(self.rest),
            Place::AfterValue => None,
        }
    }

    /// What follows this bracket or brace, where it is next and may close.
    fn after_closing(&self, byte: u8) -> Option<&'a str>
        ensures { IfSome result (λ more. MayClose self.now (byte ∷ more.now)) }
    {
        match self.place {
            Place::Fresh | Place::AfterValue => behind(self.rest, byte),
            Place::AfterComma => None,
        }
    }

    /// Continues with the text, which follows a value.
    fn go_on(&mut self, text: &'a str) -> Option<()>
        ensures { OnSome result (GoesOn text.now self.new) }
    {
        let text = unspaced(text);
        if let Some(more) = behind(text, b',') {
            self.rest = unspaced(more);
            self.place = Place::AfterComma;
            return Some(());
        }
        if !ends_here(text) {
            return None;
        }
        self.rest = text;
        self.place = Place::AfterValue;
        Some(())
    }
}

/// A text in quotes, and what follows it.
fn quoted(text: &str) -> Option<(&str, &str)>
    ensures { IfSome result (λ parts.
        lex between text.now ≡ token (string parts.0.now) ∷ lex between parts.1.now) }
{
    let body = behind(text, b'"')?;
    let (front, back) = body.split_at_checked(plain_len(body.as_bytes()))?;
    let more = behind(back, b'"')?;
    Some((front, more))
}

/// How many bytes are spelled as themselves in a text, before a quote, a backslash or a control byte: 16 at a time.
fn plain_len(text: &[u8]) -> usize
    ensures { result ≡ prefix_len is_plain text.now }
{
    let mut len = 0;
    while text.len() - len >= 16 {
        let found = stops(u8x16::from_slice(&text[len..]));
        if found != 0 {
            return len + found.trailing_zeros() as usize;
        }
        len += 16;
    }
    plain_end(text, len)
}

/// The bytes that don't, a bit for each.
fn stops(bytes: u8x16) -> u64
    ensures { result ≡ mask_l (map is_stop bytes) }
{
    (bytes.simd_eq(u8x16::splat(b'"'))
        | bytes.simd_eq(u8x16::splat(b'\\'))
        | bytes.simd_lt(u8x16::splat(0x20))).to_bitmask()
}

/// Where the first of them is from here on, or the end.
fn plain_end(text: &[u8], from: usize) -> usize
    requires { from ≤ length text.now }
    ensures { result ≡ from + prefix_len is_plain (drop from text.now) }
{
    let mut i = from;
    while i < text.len() && text[i] != b'"' && text[i] != b'\\' && text[i] >= 0x20 {
        i += 1;
    }
    i
}

/// A whole number, and what follows it.
fn whole(text: &str) -> Option<(u64, &str)>
    ensures { IfSome result (λ parts. (parts.0 < 2 ^ 64)
        × (lex between text.now ≡ token (number (decimal parts.0)) ∷ lex between parts.1.now)) }
{
    let (n, len) = number_at_front(text.as_bytes())?;
    let (_, more) = text.split_at_checked(len)?;
    if !ends_word(more) {
        return None;
    }
    Some((n, more))
}

/// The number at the front, without leading zeros, and how many digits it has. One of more than `MAX_DIGITS` isn't
/// taken, so none is too large here.
fn number_at_front(text: &[u8]) -> Option<(u64, usize)>
    ensures { IfSome result (λ found. (found.0 < 2 ^ 64) × (take found.1 text.now ≡ decimal found.0)) }
{
    if text.is_empty() {
        return None;
    }
    if text[0] == b'0' {
        return Some((0, 1));
    }
    let (mut n, mut len) = (0, 0);
    while len < text.len() && text[len].is_ascii_digit() {
        if len == MAX_DIGITS {
            return None;
        }
        n = n * 10 + u64::from(text[len] - b'0');
        len += 1;
    }
    if len == 0 { None } else { Some((n, len)) }
}

/// Whether a number may end here.
fn ends_word(text: &str) -> bool
    ensures { IsTrue result → ends_word text.now ≡ true }
{
    match text.as_bytes().first() {
        None => true,
        Some(byte) => matches!(byte, b',' | b']' | b'}' | b' ' | b'\t' | b'\n' | b'\r'),
    }
}

/// Whether a value may end here, with no comma after it.
fn ends_here(text: &str) -> bool
    ensures { IsTrue result → begins_colon (lex between text.now) ≡ false }
{
    match text.as_bytes().first() {
        None => true,
        Some(byte) => matches!(byte, b']' | b'}'),
    }
}

/// What follows this byte, where it is next.
fn behind(text: &str, byte: u8) -> Option<&str>
    ensures { IfSome result (λ more. text.now ≡ byte ∷ more.now) }
{
    if *text.as_bytes().first()? != byte {
        return None;
    }
    let (_, more) = text.split_at_checked(1)?;
    Some(more)
}

/// The text without the blanks at its front.
fn unspaced(text: &str) -> &str
    ensures { lex between result.now ≡ lex between text.now }
{
    if !may_be_blank(text) {
        return text;
    }
    match text.split_at_checked(blanks_len(text.as_bytes())) {
        Some((_, more)) => more,
        None => text,
    }
}

/// Whether a blank may be at the front. In most lines there is none, so this comes before they are counted.
fn may_be_blank(text: &str) -> bool {
    match text.as_bytes().first() {
        Some(byte) => *byte <= b' ',
        None => false,
    }
}

/// How many blanks are at the front.
fn blanks_len(text: &[u8]) -> usize
    ensures { result ≡ prefix_len is_blank text.now }
{
    let mut len = 0;
    while len < text.len() && is_blank(text[len]) {
        len += 1;
    }
    len
}

fn is_blank(byte: u8) -> bool
    ensures { result ≡ is_blank byte }
{
    byte == b' ' || (byte == b'\t' || (byte == b'\n' || byte == b'\r'))
}
