//! Which asks of a script are answered by none of its outputs.
use album_lines::{data, has, whole_under};
use json::Scratch;
use std::alloc::{AllocError, Global};
use std::collections::BTreeMap;

/// How many bytes of an output tell whose answer it is: more than `{"answer":"unsettled","client":65535,` has.
const FRONT: usize = 48;

/// The clients whose ask isn't answered, each with the line of its ask.
#[derive(Drop)]
pub(crate) struct Unanswered {
    alloc: Global,
    scratch: Scratch,
    /// What has come of the line that is read, and of the one that is written.
    asked: Vec<u8>,
    output: Vec<u8>,
    lines: BTreeMap<u64, u64>,
}

impl Unanswered {
    /// Nobody has asked.
    pub(crate) fn new(alloc: Global) -> Unanswered {
        Unanswered {
            alloc,
            scratch: Scratch::new(alloc),
            asked: Vec::new(alloc),
            output: Vec::new(alloc),
            lines: BTreeMap::new(alloc),
        }
    }

    /// A piece of the line of this number is read, which has ended with it or not.
    ///
    /// # Errors
    ///
    /// `AllocError`.
    pub(crate) fn hear(
        &mut self,
        piece: &[u8],
        number: u64,
        has_ended: bool,
    ) -> Result<(), AllocError> {
        self.asked.extend_from_slice(piece)?;
        if has_ended {
            if let Some(client) = asker(self.alloc, &mut self.scratch, &self.asked) {
                let _ = self.lines.insert(client, number)?;
            }
            self.asked.clear();
        }
        Ok(())
    }

    /// These bytes are written.
    ///
    /// # Errors
    ///
    /// `AllocError`.
    pub(crate) fn say(&mut self, written: &[u8]) -> Result<(), AllocError> {
        for byte in written {
            if *byte == b'\n' {
                if let Some(client) = answered(&self.output) {
                    let _ = self.lines.remove(&client);
                }
                self.output.clear();
            } else if self.output.len() < FRONT {
                self.output.push(*byte)?;
            }
        }
        Ok(())
    }

    /// The lines of asks that aren't answered, in order, each with its client.
    ///
    /// # Errors
    ///
    /// `AllocError`.
    pub(crate) fn lines(&self) -> Result<Vec<(u64, u64)>, AllocError> {
        let mut lines = Vec::new(self.alloc);
        for (client, line) in &self.lines {
            lines.push((*line, *client))?;
        }
        lines.sort_unstable();
        Ok(lines)
    }
}

/// The client that asks by this line, if it is an ask. A line that is refused is none, and the run ends with it.
fn asker(alloc: Global, scratch: &mut Scratch, line: &[u8]) -> Option<u64> {
    let value = data(alloc, scratch, line).ok()?;
    if !has(&value, "ask") {
        return None;
    }
    whole_under(&value, "client").ok()
}

/// The client whose answer begins so, if one does: notes and messages begin with other keys.
fn answered(output: &[u8]) -> Option<u64> {
    let rest = match output.strip_prefix(b"{\"answer\":\"") {
        Some(answer) => behind_word(answer)?.strip_prefix(b",\"client\":")?,
        None => output.strip_prefix(b"{\"client\":")?,
    };
    number_at(rest)
}

/// What comes behind the quotation mark that ends a word.
fn behind_word(text: &[u8]) -> Option<&[u8]> {
    let end = text.iter().position(|byte| *byte == b'"')?;
    text.get(end.saturating_add(1)..)
}

/// The number whose digits a text begins with.
fn number_at(text: &[u8]) -> Option<u64> {
    let mut number = None;
    for byte in text {
        if !byte.is_ascii_digit() {
            break;
        }
        let before: u64 = number.unwrap_or(0);
        number = Some(
            before
                .saturating_mul(10)
                .saturating_add(u64::from(byte.saturating_sub(b'0'))),
        );
    }
    number
}
