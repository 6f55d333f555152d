//! Requests, as the lines of a connection.

use album_judge::Fault;
use album_lines::{data, has};
use json::Scratch;
use serde_json::{Value, json};
use std::alloc::{AllocError, Global};

/// The line that says who the principal is.
pub(crate) fn hello_line(alloc: Global, who: &str) -> Result<Vec<u8>, Fault> {
    hello_text(alloc, who).map_err(|_| Fault::Memory)
}

fn hello_text(alloc: Global, who: &str) -> Result<Vec<u8>, AllocError> {
    let value: Value = json!(in alloc; {"who": who})?;
    json_line(alloc, &value)
}

/// The JSON text of the value, as a line.
pub(crate) fn json_line(alloc: Global, value: &Value) -> Result<Vec<u8>, AllocError> {
    let mut text = value.to_vec(alloc)?;
    text.push(b'\n')?;
    Ok(text)
}

/// The line of a connection for a request: one that has a key `do` is an ask, any other line stays as it is.
pub(crate) fn connection_line(alloc: Global, request: &[u8]) -> Result<Vec<u8>, Fault> {
    let is_ask = is_ask(alloc, request);
    line_of(alloc, request, is_ask).map_err(|_| Fault::Memory)
}

fn line_of(alloc: Global, request: &[u8], is_ask: bool) -> Result<Vec<u8>, AllocError> {
    let mut line = Vec::new(alloc);
    if is_ask {
        line.extend_from_slice(b"{\"ask\":")?;
    }
    line.extend_from_slice(request)?;
    if is_ask {
        line.push(b'}')?;
    }
    line.push(b'\n')?;
    Ok(line)
}

/// Whether the line is a JSON object with a key `do`.
fn is_ask(alloc: Global, request: &[u8]) -> bool {
    let mut scratch = Scratch::new(alloc);
    match data(alloc, &mut scratch, request) {
        Ok(value) => has(&value, "do"),
        Err(_) => false,
    }
}
