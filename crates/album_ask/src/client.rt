//! The conversation: the principal is said first, and then each request is answered before the next is sent.
ghost use Rattle.std.specs.Prelude.{◌≤◌, length};

use crate::requests::{connection_line, hello_line};
use crate::spelled::spelled;
use album_judge::{Fault, PIECE, write_text};
use album_lines::{LineIn, Lines};
use std::alloc::Global;
use std::collections::VecDeque;
use std::io::{Read, Write};

/// How a client talks.
#[derive(Clone, Copy, Debug)]
pub struct Asking<'a> {
    /// The principal: `name@users` or `ANONYMOUS@`.
    pub who: &'a str,
    /// Whether answers are spelled out for people.
    pub is_spelled: bool,
    /// Whether a prompt is printed where a request is waited for.
    pub has_prompt: bool,
    /// How many reads may be made of the requests, and of the service for each of them.
    pub turns: u64,
}

/// How a conversation has ended.
#[derive(Clone, Copy, Debug)]
pub enum Ended {
    /// All was answered.
    Whole,
    /// The service refused who talks.
    Refused,
    /// The service went away, or refused what all else rests on, before all was answered.
    Cut,
}

/// Says who the principal is, and then sends each line of the requests, to their end, and writes its answer.
/// Blank lines are left out. A line that has a key `do` is sent as an ask, any other as it is. Where the service
/// refuses the principal, the refusal is written, and nothing is asked.
///
/// # Errors
///
/// `Reading`, where a read fails, or `turns` reads did not come to the end; `Writing`, where a write fails or takes no
/// byte; `Memory`. The first that comes ends it.
pub fn ask<R: Read, W: Write, S: Read + Write>(
    alloc: Global,
    requests: &mut R,
    writer: &mut W,
    service: &mut S,
    asking: Asking<'_>,
) -> Result<Ended, Fault> {
    let mut client = Client::new(alloc, service, asking);
    match client.say_hello(writer)? {
        Ended::Whole => Ok(ended_by(client.pass_all_on(requests, writer)?)),
        ended => Ok(ended),
    }
}

/// How what was answered to the end, or wasn't, has ended.
fn ended_by(is_whole: bool) -> Ended {
    if is_whole { Ended::Whole } else { Ended::Cut }
}

/// Says who the principal is, asks for all that the service has, and writes that: the lines of an opening. Where the
/// service refuses the principal or the dump, the refusal is written.
///
/// # Errors
///
/// As `ask`.
pub fn dump<W: Write, S: Read + Write>(
    alloc: Global,
    writer: &mut W,
    service: &mut S,
    asking: Asking<'_>,
) -> Result<Ended, Fault> {
    let mut client = Client::new(alloc, service, asking);
    match client.say_hello(writer)? {
        Ended::Whole => Ok(ended_by(client.pass_dump_back(writer)?)),
        ended => Ok(ended),
    }
}

/// How many lines follow the answer, where it is that to a dump.
fn lines_behind(answer: &[u8]) -> Option<u64> {
    let line = std::str::from_utf8(answer).ok()?;
    let count = line.strip_prefix("{\"answer\":\"dump\",\"lines\":")?;
    count.strip_suffix("}\n")?.parse::<u64>().ok()
}

/// Whether the line is a refusal. (A hello has a key `answer`.)
fn is_refusal(answer: &[u8]) -> bool {
    !answer.starts_with(b"{\"answer\":")
}

/// A connection, with what was read of it and isn't taken yet.
#[derive(Drop)]
struct Client<'a, S> {
    alloc: Global,
    service: &'a mut S,
    asking: Asking<'a>,
    lines: Lines,
    /// Lines that have come and weren't taken.
    come: VecDeque<LineIn>,
}

impl<'a, S: Read + Write> Client<'a, S> {
    fn new(alloc: Global, service: &'a mut S, asking: Asking<'a>) -> Client<'a, S> {
        Client {
            alloc,
            service,
            asking,
            lines: Lines::new(alloc),
            come: VecDeque::new(alloc),
        }
    }

    /// Says who the principal is. A refusal is written.
    fn say_hello<W: Write>(&mut self, writer: &mut W) -> Result<Ended, Fault> {
        let hello = hello_line(self.alloc, self.asking.who)?;
        let Some(answer) = self.answer(&hello)? else {
            return Ok(Ended::Cut);
        };
        if is_refusal(&answer) {
            write_text(writer, &answer)?;
            return Ok(Ended::Refused);
        }
        Ok(Ended::Whole)
    }

    /// Asks for a dump, and writes its lines. Returns whether they have all come. A refusal is written.
    fn pass_dump_back<W: Write>(&mut self, writer: &mut W) -> Result<bool, Fault> {
        let Some(answer) = self.answer(b"{\"dump\":true}\n")? else {
            return Ok(false);
        };
        match lines_behind(&answer) {
            Some(count) => self.pass_back(writer, count),
            None => {
                write_text(writer, &answer)?;
                Ok(false)
            }
        }
    }

    /// Passes on each line of the requests, to their end. Returns whether all were answered.
    fn pass_all_on<R: Read, W: Write>(
        &mut self,
        requests: &mut R,
        writer: &mut W,
    ) -> Result<bool, Fault> {
        let mut lines = Lines::new(self.alloc);
        if !self.pass_ended_on(requests, writer, &mut lines)? {
            return Ok(false);
        }
        self.pass_last_on(writer, lines.end().as_ref())
    }

    /// Passes on each line that has its end, and leaves in `lines` what follows the last. Returns whether all were
    /// answered.
    fn pass_ended_on<R: Read, W: Write>(
        &mut self,
        requests: &mut R,
        writer: &mut W,
        lines: &mut Lines,
    ) -> Result<bool, Fault> {
        let mut piece = [0u8; PIECE];
        for _turn in 0..self.asking.turns {
            self.prompt(writer)?;
            let Ok(len) = requests.read(&mut piece) else {
                return Err(Fault::Reading);
            };
            if len == 0 {
                return Ok(true);
            }
            if !self.pass_each_on(writer, &lines.feed(&piece[..len])?)? {
                return Ok(false);
            }
        }
        Err(Fault::Reading)
    }

    /// Prints a prompt, where one is wanted.
    fn prompt<W: Write>(&self, writer: &mut W) -> Result<(), Fault> {
        if !self.asking.has_prompt {
            return Ok(());
        }
        write_text(writer, self.asking.who.as_bytes())?;
        write_text(writer, b"> ")?;
        writer.flush().map_err(|_| Fault::Writing)
    }

    /// Passes on what follows the last line's end, if anything does. Returns whether it was answered.
    fn pass_last_on<W: Write>(
        &mut self,
        writer: &mut W,
        line: Option<&LineIn>,
    ) -> Result<bool, Fault> {
        match line {
            None => Ok(true),
            Some(line) => self.pass_on(writer, line),
        }
    }

    /// Passes the lines on, up to one that isn't answered. Returns whether all were.
    fn pass_each_on<W: Write>(&mut self, writer: &mut W, lines: &[LineIn]) -> Result<bool, Fault> {
        for line in lines {
            if !self.pass_on(writer, line)? {
                return Ok(false);
            }
        }
        Ok(true)
    }

    /// Sends the request, and writes its answer. Returns whether it was answered.
    fn pass_on<W: Write>(&mut self, writer: &mut W, line: &LineIn) -> Result<bool, Fault> {
        if line.is_blank() {
            return Ok(true);
        }
        // A line that is too long is refused by the service as one that is no JSON.
        let request = line.bytes().unwrap_or(b"too long");
        let sent = connection_line(self.alloc, request)?;
        let Some(answer) = self.answer(&sent)? else {
            return Ok(false);
        };
        self.write_answer(writer, request, &answer)?;
        match lines_behind(&answer) {
            Some(count) => self.pass_back(writer, count),
            None => Ok(true),
        }
    }

    /// Writes the next lines of the service, so many. Returns whether they have come.
    fn pass_back<W: Write>(&mut self, writer: &mut W, count: u64) -> Result<bool, Fault> {
        for _line in 0..count {
            let Some(line) = self.next_line()? else {
                return Ok(false);
            };
            write_text(writer, &line)?;
        }
        writer.flush().map_err(|_| Fault::Writing)?;
        Ok(true)
    }

    /// Writes the answer, spelled out where that is wanted.
    fn write_answer<W: Write>(
        &self,
        writer: &mut W,
        request: &[u8],
        answer: &[u8],
    ) -> Result<(), Fault> {
        if self.asking.is_spelled {
            write_text(writer, &spelled(self.alloc, request, answer)?)?;
        } else {
            write_text(writer, answer)?;
        }
        writer.flush().map_err(|_| Fault::Writing)
    }

    /// Sends the line, and returns the line of its answer. None, where the connection ends before.
    fn answer(&mut self, line: &[u8]) -> Result<Option<Vec<u8>>, Fault> {
        write_text(self.service, line)?;
        self.service.flush().map_err(|_| Fault::Writing)?;
        self.next_line()
    }

    /// The next line of the service, with its end. None, where the connection ends before.
    fn next_line(&mut self) -> Result<Option<Vec<u8>>, Fault> {
        let mut piece = [0u8; PIECE];
        for _turn in 0..self.asking.turns {
            if let Some(line) = self.come.pop_front() {
                return self.with_end(&line).map(Some);
            }
            if !self.read_more(&mut piece)? {
                return Ok(None);
            }
        }
        Err(Fault::Reading)
    }

    /// Reads a piece, and keeps the lines that end in it. Returns whether there was one.
    fn read_more(&mut self, piece: &mut [u8; PIECE]) -> Result<bool, Fault> {
        let Ok(len) = self.service.read(piece) else {
            return Err(Fault::Reading);
        };
        if len == 0 {
            return Ok(false);
        }
        for line in self.lines.feed(&piece[..len])? {
            self.come.push_back(line).map_err(|_| Fault::Memory)?;
        }
        Ok(true)
    }

    /// The line with its end.
    fn with_end(&self, line: &LineIn) -> Result<Vec<u8>, Fault> {
        let mut text = Vec::new(self.alloc);
        text.extend_from_slice(line.bytes().unwrap_or(b""))
            .map_err(|_| Fault::Memory)?;
        text.push(b'\n').map_err(|_| Fault::Memory)?;
        Ok(text)
    }
}
