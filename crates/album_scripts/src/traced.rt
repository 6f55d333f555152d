//! A script whose header asks for a trace, whatever it says of one. The header is spelled anew from its values, so it
//! is never longer than a line may be. A first line that is no header stays as it is, and so does its refusal.
use crate::by_line::ByLine;
use album_lines::{data, field, has, member, only, text_under, truth, whole};
use album_stamps::{MAX_LINE, MAX_NAME, Refusal};
use json::{Scratch, Value, Writer};
use std::alloc::{AllocError, Global};
use std::io;
use std::io::Read;

/// How many bytes of a line a read may give.
const PIECE: usize = 4096;

/// How many bytes the text of a user may have: a name, and `@users`.
const MAX_ROOT: usize = MAX_NAME + 6;

/// A reader of a script, with a trace in its first line that isn't blank.
#[derive(Drop)]
pub struct Traced<'a, R> {
    alloc: Global,
    lines: ByLine<'a, R>,
    /// The line that is given on: a blank one, or the first other one with a trace.
    front: Vec<u8>,
    /// How much of it was given on.
    given: usize,
    /// Whether that line isn't blank: what follows it is given on as it is.
    has_begun: bool,
}

impl<'a, R: Read> Traced<'a, R> {
    /// The script of this reader.
    pub fn new(alloc: Global, reader: &'a mut R) -> Traced<'a, R> {
        Traced {
            alloc,
            lines: ByLine::new(reader),
            front: Vec::new(alloc),
            given: 0,
            has_begun: false,
        }
    }

    /// Takes the next line.
    fn take_line(&mut self) -> io::Result<()> {
        let line = next_line(self.alloc, &mut self.lines)?;
        self.has_begun = !line.iter().all(|byte| is_blank(*byte));
        self.front = if self.has_begun {
            with_trace(self.alloc, line)?
        } else {
            line
        };
        self.given = 0;
        Ok(())
    }
}

impl<R: Read> Read for Traced<'_, R> {
    fn read(&mut self, buf: &mut [u8]) -> io::Result<usize> {
        if self.given >= self.front.len() {
            if self.has_begun {
                return self.lines.read(buf);
            }
            self.take_line()?;
        }
        let rest = behind(&self.front, self.given);
        let len = rest.len().min(buf.len());
        buf[..len].copy_from_slice(&rest[..len]);
        self.given = self.given.saturating_add(len);
        Ok(len)
    }
}

/// The next line with its newline, or what the text ends in. Of a line that is too long no end is wanted.
fn next_line<R: Read>(alloc: Global, lines: &mut ByLine<'_, R>) -> io::Result<Vec<u8>> {
    let mut line = Vec::new(alloc);
    let mut piece = [0u8; PIECE];
    for _ in 0..u64::MAX {
        let len = lines.read(&mut piece)?;
        line.extend_from_slice(&piece[..len])?;
        if len == 0 || line.ends_with(b"\n") || line.len() > MAX_LINE {
            break;
        }
    }
    Ok(line)
}

fn is_blank(byte: u8) -> bool {
    matches!(byte, b' ' | b'\t' | b'\r' | b'\n')
}

/// The text from this index on.
fn behind(text: &[u8], at: usize) -> &[u8] {
    match text.get(at..) {
        Some(rest) => rest,
        None => &[],
    }
}

/// The line with a trace, if it is a header. Any other is the same.
fn with_trace(alloc: Global, line: Vec<u8>) -> Result<Vec<u8>, AllocError> {
    match traced_header(alloc, &line) {
        Ok(header) => Ok(header),
        Err(Refusal::OutOfMemory) => Err(AllocError),
        Err(_) => Ok(line),
    }
}

/// The header that a line says, with a trace. It has the keys of `open` in docs/FORMATS.md, each at most once, and no
/// blanks, so it is short.
///
/// # Errors
///
/// `BadLine`, `BadRequest` or `BadWho`, where the line is no header: whoever reads it refuses it too. `OutOfMemory`.
fn traced_header(alloc: Global, line: &[u8]) -> Result<Vec<u8>, Refusal> {
    let text = line.strip_suffix(b"\n").unwrap_or(line);
    if text.len() > MAX_LINE {
        return Err(Refusal::BadLine);
    }
    let mut scratch = Scratch::new(alloc);
    let value = data(alloc, &mut scratch, text)?;
    only(&value, &["open"])?;
    let open = field(&value, "open")?;
    only(
        open,
        &[
            "checked", "first", "limit", "parts", "policy", "root", "trace",
        ],
    )?;

    let mut writer = Writer::new(Vec::new(alloc));
    writer.begin_object()?;
    writer.key("open")?;
    writer.begin_object()?;
    if let Some(checked) = member(open, "checked") {
        writer.key("checked")?;
        writer.boolean(truth(checked)?)?;
    }
    for name in ["first", "limit", "parts", "policy"] {
        if let Some(number) = member(open, name) {
            writer.key(name)?;
            writer.u64(whole(number)?)?;
        }
    }
    if has(open, "root") {
        writer.key("root")?;
        writer.string(root_of(open)?)?;
    }
    writer.key("trace")?;
    writer.boolean(true)?;
    writer.end_object()?;
    writer.end_object()?;
    let mut header = writer.into_inner();
    header.push(b'\n')?;
    Ok(header)
}

/// The text of the root that the header names. One that is too long is no user's, and isn't spelled anew.
fn root_of<'a>(open: &Value<'a>) -> Result<&'a str, Refusal> {
    let text = text_under(open, "root")?;
    if text.len() > MAX_ROOT {
        return Err(Refusal::BadWho);
    }
    Ok(text)
}
