//! The opening of a service, read up to the line with which it is whole.
ghost use Rattle.std.specs.Prelude.{◌≡◌, true, IfOk};
ghost use Rattle.album_items.specs.Openings.{is_opening};

use album_items::Opening;
use album_judge::{Fault, PIECE};
use album_lines::{LineIn, Lines};
use album_replay::{SoFar, first_line, later_line};
use album_stamps::Refusal;
use json::Scratch;
use std::alloc::Global;
use std::io::Read;

/// The opening that the lines of a text spell, up to `begin`: for a program of one's own.
///
/// # Errors
///
/// That of the first line that is refused; `BadOpening` where the opening breaks a rule, or the text ends before
/// `begin`; else `OutOfMemory`.
pub fn opening_of_text(alloc: Global, text: &str) -> Result<Opening, Refusal>
    ensures checked { IfOk result (λ opening. is_opening opening ≡ true) }
{
    let mut bytes = text.as_bytes();
    match read_opening(alloc, &mut bytes, u64::MAX) {
        Ok(Ok(opening)) => {
            opening.check()?;
            Ok(opening)
        }
        Ok(Err(unopened)) => Err(unopened.why),
        // A text is read without a failure, and to its end: what is wanting is memory.
        Err(_) => Err(Refusal::OutOfMemory),
    }
}

/// Why an opening is refused, and in which of its lines, from 1.
#[derive(Clone, Copy)]
pub(crate) struct Unopened {
    pub(crate) line: u64,
    pub(crate) why: Refusal,
}

/// The opening that is read.
pub(crate) fn read_opening<R: Read>(
    alloc: Global,
    reader: &mut R,
    turns: u64,
) -> Result<Result<Opening, Unopened>, Fault> {
    let mut lines = Lines::new(alloc);
    let mut taken = TakenLines::new(alloc);
    match taken.read(reader, turns, &mut lines) {
        Ok(Some(opening)) => Ok(opening),
        Ok(None) => Ok(taken.end(lines)),
        Err(fault) => Err(fault),
    }
}

/// What is taken of an opening.
#[derive(Drop)]
struct TakenLines {
    alloc: Global,
    scratch: Scratch,
    so_far: Option<SoFar>,
    /// The number of the line taken last, or of the one that is missing.
    line: u64,
}

impl TakenLines {
    /// No line is taken yet.
    fn new(alloc: Global) -> TakenLines {
        TakenLines {
            alloc,
            scratch: Scratch::new(alloc),
            so_far: None,
            line: 0,
        }
    }

    /// Reads up to the piece in which the opening is whole, or refused. Nothing, where the input ends before.
    fn read<R: Read>(
        &mut self,
        reader: &mut R,
        turns: u64,
        lines: &mut Lines,
    ) -> Result<Option<Result<Opening, Unopened>>, Fault> {
        let mut piece = [0u8; PIECE];
        for _turn in 0..turns {
            let Ok(len) = reader.read(&mut piece) else {
                return Err(Fault::Reading);
            };
            if len == 0 {
                return Ok(None);
            }
            match self.feed(lines, &piece[..len])? {
                None => {}
                Some(opening) => return Ok(Some(opening)),
            }
        }
        Err(Fault::Reading)
    }

    /// Takes the lines that end in the piece.
    fn feed(
        &mut self,
        lines: &mut Lines,
        piece: &[u8],
    ) -> Result<Option<Result<Opening, Unopened>>, Fault> {
        let ended = lines.feed(piece)?;
        Ok(self.take(&ended))
    }

    /// Takes the lines. Nothing, where the opening is neither whole nor refused by then.
    fn take(&mut self, lines: &[LineIn]) -> Option<Result<Opening, Unopened>> {
        match self.take_all(lines) {
            Ok(None) => None,
            Ok(Some(opening)) => Some(Ok(opening)),
            Err(why) => Some(Err(Unopened {
                line: self.line,
                why,
            })),
        }
    }

    /// The opening, with what the input ends in.
    fn end(mut self, lines: Lines) -> Result<Opening, Unopened> {
        match self.take_last(lines) {
            Ok(opening) => Ok(opening),
            Err(why) => Err(Unopened {
                line: self.line,
                why,
            }),
        }
    }

    fn take_last(&mut self, lines: Lines) -> Result<Opening, Refusal> {
        let last = match lines.end() {
            None => None,
            Some(line) => self.take_all(&[line])?,
        };
        match last {
            Some(opening) => Ok(opening),
            None => {
                // It is the line that is missing.
                self.line = self.line.saturating_add(1);
                Err(Refusal::BadOpening)
            }
        }
    }

    /// Takes lines up to the one with which the opening is whole.
    fn take_all(&mut self, lines: &[LineIn]) -> Result<Option<Opening>, Refusal> {
        for line in lines {
            self.line = self.line.saturating_add(1);
            if !line.is_blank() {
                match self.next(line)? {
                    SoFar::Whole(header, values) => return Ok(Some(values.into_opening(header))),
                    SoFar::More(header, values) => self.so_far = Some(SoFar::More(header, values)),
                }
            }
        }
        Ok(None)
    }

    /// What the lines have said, with this one.
    fn next(&mut self, line: &LineIn) -> Result<SoFar, Refusal> {
        match self.so_far.take() {
            None => first_line(self.alloc, &mut self.scratch, line),
            Some(SoFar::More(header, values)) => {
                later_line(self.alloc, &mut self.scratch, header, values, line)
            }
            Some(SoFar::Whole(header, values)) => Ok(SoFar::Whole(header, values)),
        }
    }
}
