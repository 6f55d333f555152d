//! A line that shows whether it is as it was written: its last member is the sum of what is before it.
//!
//! `{"a":1}` is sealed as `{"a":1,"sum":"a0c798bf319e411d"}`, where the digits are the sum of `{"a":1`. It is
//! SipHash-1-3 of eight zeros and those bytes, under keys of 0, or 1 in place of 0. It finds damage, and is no proof
//! against a forger.
ghost use Rattle.std.specs.Prelude.{◌≡◌, ◌≢◌, ◌+◌, ◌-◌, ◌<◌, ◌++◌, ℕ, List, length, take, slice_index, Some, None, IfSome, OnOk, OnErr};
ghost use Rattle.album_log.specs.Seals.{sealed, seal_of, digits_of, opening, closing};

use sqlite_disk::digest_of;
use std::alloc::AllocError;

/// How long a seal is.
const SEAL_LEN: usize = 26;

/// Seals the text of a JSON object that has a member: its last `}` becomes the seal.
///
/// # Errors
///
/// Out of memory, and then the text is as it was.
pub fn seal(text: &mut Vec<u8>) -> Result<(), AllocError>
    requires some { 0 < length text.old.items }
    requires object { slice_index text.old.items (length text.old.items - 1) ≡ 125 }
    ensures ok { OnOk result (text.new.items ≡ sealed (take (length text.old.items - 1) text.old.items)) }
    ensures err { OnErr result (text.new.items ≡ text.old.items) }
{
    let end = text.len() - 1;
    let seal = seal_of(&text[..end]);
    text.extend_from_slice(&seal[1..])?;
    text[end..].copy_from_slice(&seal);
    Ok(())
}

/// How many bytes are before the seal of a line, if it ends with the right one.
pub fn unseal(line: &[u8]) -> Option<usize>
    ensures right { IfSome result (λ n. line.now ≡ sealed (take n line.now)) }
    ensures found { (body : List ℕ) → line.now ≡ sealed body → result ≡ Some (length body) }
    ensures other { (body digits : List ℕ) → line.now ≡ body ++ (opening ++ (digits ++ closing))
        → length digits ≡ 16 → digits ≢ digits_of body → result ≡ None }
{
    if line.len() < SEAL_LEN {
        return None;
    }
    let end = line.len() - SEAL_LEN;
    let (body, seal) = line.split_at(end);
    if seal == seal_of(body).as_slice() {
        Some(end)
    } else {
        None
    }
}

/// The seal of these bytes.
fn seal_of(body: &[u8]) -> [u8; SEAL_LEN]
    ensures { result ≡ seal_of body.now }
{
    let mut seal = *b",\"sum\":\"0123456789abcdef\"}";
    let sum = digest_of(0, body).to_be_bytes();
    hex::encode_to_slice(sum.as_slice(), &mut seal[8..24]).unwrap();
    seal
}
