//! Whether what a connection says first is a request of HTTP.
//!
//! A browser, or a server that can be made to fetch an address, can send lines of somebody else's choice to a port of
//! its own machine, in the body of a request. So where the first line begins like one, it is the last that is read.
ghost use Rattle.std.specs.Prelude.{◌≤◌, length};

/// How many bytes of a first line are looked at: more than the longest method that there is.
const LOOKED_AT: usize = 40;

/// The beginning of the first line that isn't blank, as far as it has come.
#[derive(Drop)]
pub(crate) struct FirstLine {
    text: [u8; LOOKED_AT],
    len: usize,
    /// Whether it has come to its end.
    has_ended: bool,
}

impl FirstLine {
    /// Nothing has come yet.
    pub(crate) fn new() -> FirstLine {
        FirstLine {
            text: [0; LOOKED_AT],
            len: 0,
            has_ended: false,
        }
    }

    /// Takes the bytes that come next, and gives how many of them may be read: all of them, or those to the end of a
    /// first line that begins like a request of HTTP, and none after it.
    pub(crate) fn admit(&mut self, piece: &[u8]) -> usize
        ensures { result ≤ length piece.now }
    {
        for (index, byte) in piece.iter().enumerate() {
            if self.has_ended {
                return if self.is_request() {
                    index
                } else {
                    piece.len()
                };
            }
            self.take(*byte);
        }
        piece.len()
    }

    /// Takes a byte of the first line, or one before it.
    fn take(&mut self, byte: u8) {
        let is_blank = byte.is_ascii_whitespace();
        if self.len == 0 && is_blank {
            return;
        }
        if byte == b'\n' {
            self.has_ended = true;
            return;
        }
        if let Some(place) = self.text.get_mut(self.len) {
            *place = byte;
            self.len += 1;
        }
    }

    /// Whether the first line has ended, and begins like a request of HTTP.
    pub(crate) fn is_request(&self) -> bool {
        match self.text.get(..self.len) {
            Some(text) => self.has_ended && is_http(text),
            None => false,
        }
    }
}

/// Whether a line begins like a request of HTTP: a method, which is capital letters, a blank, and a path or an address.
fn is_http(line: &[u8]) -> bool {
    for (index, byte) in line.iter().enumerate() {
        if !byte.is_ascii_uppercase() {
            return index > 0 && *byte == b' ' && is_target(line.get(index + 1));
        }
    }
    false
}

/// Whether what comes after the blank begins a path, an address, or is the asterisk.
fn is_target(byte: Option<&u8>) -> bool {
    match byte {
        Some(byte) => matches!(*byte, b'/' | b'*' | b'[') || byte.is_ascii_alphanumeric(),
        None => false,
    }
}
