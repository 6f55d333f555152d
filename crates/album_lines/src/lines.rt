//! Lines, cut out of a text that comes in pieces: text = { line newline } [ line ], a line having no newline.
ghost use Rattle.std.specs.Prelude.{◌≡◌, ◌==◌, ◌≤◌, ◌++◌, ◌∷◌, [], List, ℕ, Some, None, IsTrue, IfOk, IfSome, IfNone, OnErr, OnOk, IsOkUnless, map, option_map, position, length};
ghost use Rattle.std.specs.List.{fold, list_all, flat_map};
ghost use Rattle.std.specs.Option.{ok_or, option_to_list};
ghost use Rattle.album_stamps.specs.declared.refusals.Refusal.TheVariants.{BadLine};
ghost use Rattle.album_stamps.specs.Outcome.{Gives};
ghost use Rattle.album_lines.specs.Lines.{Line, said, is_blank, cut, continued, kept, last, lines_of, has_no_newline};

use album_stamps::{MAX_LINE, Refusal};
use memchr::memchr;
use std::alloc::{AllocError, Global};
use std::marker::Model;

/// A line without its newline.
#[derive(Debug, PartialEq, Drop)]
pub enum LineIn {
    Text(Vec<u8>),
    /// More than `MAX_LINE` bytes. None of them is kept.
    TooLong,
}

impl LineIn {
    /// Whether the line is skipped: it has nothing but spaces, tabs and carriage returns.
    pub fn is_blank(&self) -> bool
        ensures { result ≡ is_blank (said self.now) }
    {
        match self {
            LineIn::TooLong => false,
            LineIn::Text(bytes) => are_blank(bytes),
        }
    }

    /// Its bytes.
    ///
    /// # Errors
    ///
    /// `BadLine`, where it is too long.
    pub fn bytes(&self) -> Result<&[u8], Refusal>
        ensures { Gives (λ bytes. bytes.now) result (ok_or (said self.now) BadLine) }
    {
        match self {
            LineIn::TooLong => Err(Refusal::BadLine),
            LineIn::Text(bytes) => Ok(bytes),
        }
    }
}

fn are_blank(bytes: &[u8]) -> bool
    ensures { result ≡ is_blank (Some bytes.now) }
{
    bytes
        .iter()
        .all(|b| *b == b' ' || *b == b'\t' || *b == b'\r')
}

/// The lines of a text that comes in pieces. A newline ends a line, and no other byte does. Contracts
/// see the line that isn't ended, as far as it has come, and nothing else is kept.
#[derive(Drop)]
pub struct Lines {
    alloc: Global,
    unfinished: LineIn,
}

impl Model for Lines {
    ghost use Rattle.album_lines.specs.Lines.{Line, said, IsShort};

    ghost Value = { Line };

    ghost view = { λ l. said l.unfinished };

    ghost invariant = { λ l. IsShort (said l.unfinished) };
}

impl Lines {
    ghost use Rattle.album_lines.specs.Lines.{cut, continued, last, longer, IsShort};

    /// The start of a text.
    pub fn new(alloc: Global) -> Lines
        ensures { result ≡ Some [] }
    {
        let unfinished = LineIn::Text(Vec::new(alloc));
        Lines { alloc, unfinished }
    }

    /// Takes the next piece, and gives the lines that end in it.
    ///
    /// # Errors
    ///
    /// `OutOfMemory`; then nothing is taken.
    pub fn feed(&mut self, piece: &[u8]) -> Result<Vec<LineIn>, Refusal>
        ensures lines { IfOk result (λ lines.
            cut self.old piece.now ≡ (map said lines.items, self.new)) }
        ensures short { IfSome self.new (λ bytes. length bytes ≤ MAX_LINE) }
        ensures unchanged { OnErr result (self.new ≡ self.old) }
        ensures memory { IsOkUnless result Refusal.OutOfMemory }
    {
        let Some((front, behind)) = first_line(piece) else {
            self.add(piece)?;
            return Ok(Vec::new(self.alloc));
        };

        // The first line has a place here, and it is filled last: what can fail comes before `self` changes.
        let mut lines = vec![in self.alloc; LineIn::TooLong]?;
        let next = Lines::later_lines(self.alloc, &mut lines, behind)?;
        self.add(front)?;
        lines[0] = self.take();
        *self = next;
        Ok(lines)
    }

    /// The line that the text ends in, where it has a byte.
    pub fn end(self) -> Option<LineIn>
        ensures { option_to_list (option_map said result) ≡ last self }
    {
        let Lines { unfinished, .. } = self;
        match unfinished {
            LineIn::TooLong => Some(LineIn::TooLong),
            LineIn::Text(bytes) => {
                if bytes.is_empty() {
                    return None;
                }
                Some(LineIn::Text(bytes))
            }
        }
    }

    /// Appends the lines that end in a text to those that are there, and returns the next line as far as it has come.
    fn later_lines(alloc: Global, lines: &mut Vec<LineIn>, text: &[u8]) -> Result<Lines, AllocError>
        ensures { IfOk result (λ next.
            (map said lines.new.items, next)
            ≡ continued (map said lines.old.items) (cut (Some []) text.now)) }
    {
        let mut next = Lines::new(alloc);
        let mut rest = text;
        while let Some((line, behind)) = first_line(rest) {
            next.add(line)?;
            lines.push(next.take())?;
            rest = behind;
        }
        next.add(rest)?;
        Ok(next)
    }

    /// Extends the unfinished line by the part, which has no newline.
    fn add(&mut self, part: &[u8]) -> Result<(), AllocError>
        ensures ok { OnOk result (self.new ≡ fold longer self.old part.now) }
        ensures short { IfSome self.new (λ bytes. length bytes ≤ MAX_LINE) }
        ensures err { OnErr result (self.new ≡ self.old) }
    {
        let LineIn::Text(bytes) = &mut self.unfinished else {
            return Ok(());
        };
        if part.len() > MAX_LINE - bytes.len() {
            self.unfinished = LineIn::TooLong;
            return Ok(());
        }
        bytes.extend_from_slice(part)?;
        Ok(())
    }

    /// The unfinished line ends, and the next begins.
    fn take(&mut self) -> LineIn
        ensures line { said result ≡ self.old }
        ensures empty { self.new ≡ Some [] }
    {
        std::mem::replace(&mut self.unfinished, LineIn::Text(Vec::new(self.alloc)))
    }
}

/// The text before the first newline, and the text after it.
fn first_line(text: &[u8]) -> Option<(&[u8], &[u8])>
    ensures found { IfSome result (λ parts. text.now ≡ parts.0.now ++ 10 ∷ parts.1.now) }
    ensures first { IfSome result (λ parts. IsTrue (has_no_newline parts.0.now)) }
    ensures none { IfNone result (IsTrue (has_no_newline text.now)) }
{
    let at = newline_index(text)?;
    Some((text.split_at(at).0, text.split_at(at + 1).1))
}

fn newline_index(text: &[u8]) -> Option<usize>
    ensures { result ≡ position (λ byte. byte == 10) text.now }
{
    memchr(b'\n', text)
}

/// A law: it doesn't matter how a text is cut into pieces.
pub fn any_pieces()
    ensures { (line : Line) (a b : List ℕ) →
        cut line (a ++ b) ≡ continued (cut line a).0 (cut (cut line a).1 b) }
{}

/// A law: the lines of a text are the parts between its newlines, each whole where it is not too long.
/// What follows the last newline is a line only where it has a byte.
pub fn joined_lines()
    ensures { (lines : List (List ℕ)) (rest : List ℕ) →
        IsTrue (list_all has_no_newline lines) → IsTrue (has_no_newline rest) →
        lines_of (flat_map (λ line. line ++ 10 ∷ []) lines ++ rest)
        ≡ map kept lines ++ last (kept rest) }
{}
