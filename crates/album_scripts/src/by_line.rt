//! A reader that gives at most one line a read.
use std::io;
use std::io::Read;

/// How many bytes are read ahead.
const PIECE: usize = 4096;

/// A reader of the same text. What a read gives ends with the first newline in it.
#[derive(Drop)]
pub(crate) struct ByLine<'a, R> {
    reader: &'a mut R,
    piece: [u8; PIECE],
    given: usize,
    len: usize,
}

impl<'a, R: Read> ByLine<'a, R> {
    /// The lines of this reader.
    pub(crate) fn new(reader: &'a mut R) -> ByLine<'a, R> {
        ByLine {
            reader,
            piece: [0; PIECE],
            given: 0,
            len: 0,
        }
    }
}

impl<R: Read> Read for ByLine<'_, R> {
    fn read(&mut self, buf: &mut [u8]) -> io::Result<usize> {
        if self.given >= self.len {
            self.len = self.reader.read(&mut self.piece)?;
            self.given = 0;
        }
        let rest = part(&self.piece, self.given, self.len);
        let line = match rest.iter().position(|byte| *byte == b'\n') {
            Some(at) => part(rest, 0, at.saturating_add(1)),
            None => rest,
        };
        let len = line.len().min(buf.len());
        buf[..len].copy_from_slice(&line[..len]);
        self.given = self.given.saturating_add(len);
        Ok(len)
    }
}

/// The bytes from an index to another, as far as there are.
fn part(text: &[u8], start: usize, end: usize) -> &[u8] {
    match text.get(start..end) {
        Some(part) => part,
        None => &[],
    }
}
