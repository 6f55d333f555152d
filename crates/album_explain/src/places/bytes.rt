//! The byte from which on a line is no JSON: the first of the token that can't be where it is, or the one after the
//! last byte, where more would have to come.
ghost use Rattle.std.specs.Prelude.{◌≡◌, ◌+◌, take, drop, slice_index, length, IfSome};
ghost use Rattle.std.specs.List.{prefix_len};
ghost use Rattle.std.specs.Str.{IsAsciiWhitespaceFrom};
ghost use Rattle.album_explain.specs.Bytes.{is_in_word};

use album_lines::{MAX_DEPTH, data};
use album_stamps::Refusal;
use json::{Reader, Scratch, Token};
use std::alloc::{AllocError, Global};
use std::str;

/// What may come next, by the brackets that are open and what came last.
#[derive(Drop)]
struct Place {
    /// Of each open bracket whether it is an object's.
    objects: Vec<bool>,
    /// Whether a key came last, whose value has to follow.
    has_key: bool,
    /// Whether the one value is whole.
    is_whole: bool,
}

/// The index of the byte, from 0, of a text that is no line's JSON.
pub(crate) fn bad_byte(alloc: Global, bytes: &[u8]) -> Result<usize, AllocError> {
    let text = match str::from_utf8(bytes) {
        Ok(text) => text,
        Err(error) => return Ok(error.valid_up_to()),
    };
    let at = bad_token(alloc, text)?;
    // The reader takes a text right after a number or a word for a part of that, and refuses it as no number and no
    // word. So what comes before the text is looked at alone: if all of that may be there, the text may not.
    match text.split_at_checked(word_end(bytes, at)) {
        Some((before, behind)) if behind.as_bytes().first() == Some(&b'"') => {
            bad_token(alloc, before)
        }
        _ => Ok(at),
    }
}

/// Where the reader's first token begins that can't be where it is, or the text's end where there is none.
fn bad_token(alloc: Global, text: &str) -> Result<usize, AllocError> {
    let mut scratch = Scratch::new(alloc);
    let mut numerals = Scratch::new(alloc);
    let mut reader = Reader::new(text, &mut scratch)?;
    let mut place = Place {
        objects: Vec::new(alloc),
        has_key: false,
        is_whole: false,
    };
    let mut at = reader.offset();
    while let Some(token) = reader.next() {
        if !may_stand(alloc, &mut numerals, &mut place, &token)? {
            return Ok(at);
        }
        at = reader.offset();
        // The reader passes over a comma after any value, and after the whole one there may be none.
        if place.is_whole {
            if let Some(comma) = comma_before(text, at) {
                return Ok(comma);
            }
        }
    }
    Ok(text.len())
}

/// Whether the token may be at this place, which then moves past it.
fn may_stand(
    alloc: Global,
    numerals: &mut Scratch,
    place: &mut Place,
    token: &Token<'_>,
) -> Result<bool, AllocError> {
    Ok(is_in_range(alloc, numerals, token)? && place.take(token)?)
}

/// Where the comma is that has nothing but blanks between itself and this byte, if there is one.
fn comma_before(text: &str, end: usize) -> Option<usize>
    ensures comma { IfSome result (λ at. slice_index text.now at ≡ 44) }
    ensures blanks { IfSome result (λ at. IsAsciiWhitespaceFrom (take end text.now) (at + 1)) }
{
    let (before, _) = text.split_at_checked(end)?;
    let more = before.trim_ascii_end().strip_suffix(',')?;
    Some(more.len())
}

/// Where the number or the word ends that begins at this byte. Where none begins it is this byte.
fn word_end(bytes: &[u8], from: usize) -> usize
    ensures { result ≡ from + prefix_len is_in_word (drop from bytes.now) }
{
    let mut end = from;
    while end < bytes.len() && is_in_word(bytes[end]) {
        end += 1;
    }
    end
}

/// Whether a number or a word may have this byte.
fn is_in_word(byte: u8) -> bool
    ensures { result ≡ is_in_word byte }
{
    !matches!(
        byte,
        b'"' | b'{' | b'}' | b'[' | b']' | b':' | b',' | b' ' | b'\t' | b'\n' | b'\r'
    )
}

/// Whether the token is no number that is out of range.
fn is_in_range(
    alloc: Global,
    scratch: &mut Scratch,
    token: &Token<'_>,
) -> Result<bool, AllocError> {
    let Token::Number(numeral) = token else {
        return Ok(true);
    };
    match data(alloc, scratch, numeral.as_bytes()) {
        Ok(_) => Ok(true),
        Err(Refusal::OutOfMemory) => Err(AllocError),
        Err(_) => Ok(false),
    }
}

impl Place {
    /// Moves past the token, if it may be here. Returns whether it may.
    fn take(&mut self, token: &Token<'_>) -> Result<bool, AllocError> {
        let is_in_object = self.objects.last().copied();
        match token {
            Token::Bad => return Ok(false),
            Token::Key(_) => {
                let may = is_in_object == Some(true) && !self.has_key;
                self.has_key = true;
                return Ok(may);
            }
            Token::EndObject | Token::EndArray => {
                let is_object = matches!(token, Token::EndObject);
                if is_in_object != Some(is_object) || self.has_key {
                    return Ok(false);
                }
                let _ = self.objects.pop();
            }
            _ => {
                if self.is_whole || (is_in_object == Some(true) && !self.has_key) {
                    return Ok(false);
                }
                if matches!(token, Token::BeginObject | Token::BeginArray) {
                    self.has_key = false;
                    self.objects.push(matches!(token, Token::BeginObject))?;
                    return Ok(self.objects.len() <= MAX_DEPTH);
                }
            }
        }
        self.has_key = false;
        self.is_whole = self.objects.is_empty();
        Ok(true)
    }
}
