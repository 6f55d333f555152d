//! The explanations of the lines of a script: first those of its opening, then the events after it.
ghost use Rattle.std.specs.Prelude.{◌≡◌, ◌≢◌, ◌++◌, ◌∷◌, [], Ok, Err, IfOk};
ghost use Rattle.album_stamps.specs.Outcome.{Gives};
ghost use Rattle.album_lines.specs.Lines.{said};
ghost use Rattle.album_wire.specs.FirstValues.{no_values};
ghost use Rattle.album_wire.specs.OpeningLine.{opening_line_of};
ghost use Rattle.album_explain_store.specs.Readings.{read_by};
ghost use Rattle.album_explain_store.specs.Explanations.{IsReply, ExplainsBy};
ghost use Rattle.album_explain_store.specs.Openings.{Unopened, BeingOpened, stage_of, has_begun, taken_opening, header_said, header_reading, opened_by, first_step, later_step, begin_reading, ExplainsScriptLine};

use crate::events::explain_event;
use crate::explanations::{Kind, Lines, Taken, explain_reading, explain_refused, explain_taken};
use crate::places::opened::bad_opening;
use crate::places::tables::Table;
use album_explain::Explainer;
use album_lines::LineIn;
use album_stamps::Refusal;
use album_wire::{
    DEFAULT_LIMIT, DEFAULT_POLICY, FirstValues, Header, OpeningLine, read_opening_line,
};
use json::Scratch;
use std::alloc::Global;
use std::mem;

/// Explains the lines of an opening, and the events after it.
#[derive(Drop)]
pub enum OpeningLines {
    /// No line was read.
    Unopened,
    /// The items so far that were taken.
    BeingOpened(SoFar),
    /// All items are there.
    Begun,
}

/// What the lines of an opening have said so far.
#[derive(Drop)]
pub struct SoFar {
    pub header: Header,
    /// The number of the header's line.
    pub header_line: u64,
    pub values: FirstValues,
    /// The number of each item's line.
    pub lines: Vec<u64>,
}

/// The header that is thought of where the first line is refused: none of its numbers is wrong, and it has no root.
const ANY_HEADER: Header = Header {
    parts: 1,
    limit: DEFAULT_LIMIT,
    policy: DEFAULT_POLICY,
    checked: false,
    root: None,
    first: 0,
    trace: false,
};

impl Explainer for OpeningLines {
    ghost use Rattle.album_explain_store.specs.Openings.{ExplainsScriptLine, script_line_explanation};

    ghost IsExplanation = { ExplainsScriptLine };

    fn explain(
        &mut self,
        alloc: Global,
        scratch: &mut Scratch,
        line: &LineIn,
        number: u64,
    ) -> Result<(Vec<u8>, bool), Refusal> {
        let old = mem::replace(self, OpeningLines::Begun);
        let (explanation, next) = explain_script_line(alloc, scratch, line, number, old)?;
        drop(mem::replace(self, next));
        Ok(explanation)
    }

    ghost goes_on = { script_line_explanation };
}

impl OpeningLines {
    /// Whether all items are there.
    pub(crate) fn has_begun(&self) -> bool
        ensures { result ≡ has_begun (stage_of self.now) }
    {
        matches!(self, OpeningLines::Begun)
    }
}

/// A line's explanation, whether the line is refused, and its explainer's state then.
type Explained = ((Vec<u8>, bool), OpeningLines);

fn explain_script_line(
    alloc: Global,
    scratch: &mut Scratch,
    line: &LineIn,
    number: u64,
    old: OpeningLines,
) -> Result<Explained, Refusal>
    ensures { IfOk result (λ t. ExplainsScriptLine old number (said line.now) t.0.1 t.0.0.items t.1) }
{
    match old {
        OpeningLines::Unopened => explain_first(alloc, scratch, line, number),
        OpeningLines::BeingOpened(so_far) => explain_later(alloc, scratch, line, number, so_far),
        OpeningLines::Begun => {
            let explanation = explain_event(alloc, scratch, line, number)?;
            Ok((explanation, OpeningLines::Begun))
        }
    }
}

/// The first line is the header's. Where it is refused, `ANY_HEADER` takes its place.
fn explain_first(
    alloc: Global,
    scratch: &mut Scratch,
    line: &LineIn,
    number: u64,
) -> Result<Explained, Refusal>
    ensures { IfOk result (λ t. ExplainsBy (first_step (read_by opening_line_of (said line.now)))
        Unopened number t.0.1 t.0.0.items (stage_of t.1)) }
{
    let header = first_header(alloc, scratch, line);
    let reading = header_reading(&header);
    let explanation = explain_reading(alloc, scratch, line, number, Table::Opening, reading)?;
    Ok((explanation, opened_by(alloc, header, number)))
}

/// The header that the first line says.
fn first_header(alloc: Global, scratch: &mut Scratch, line: &LineIn) -> Result<Header, Refusal>
    ensures { Gives (λ header. header) result (header_said (read_by opening_line_of (said line.now))) }
{
    let OpeningLine::Open(header) = opening_line(alloc, scratch, line)? else {
        return Err(Refusal::BadRequest);
    };
    Ok(header)
}

fn header_reading(header: &Result<Header, Refusal>) -> Result<Taken, Refusal>
    ensures { result ≡ header_reading header.now }
{
    match header {
        Ok(header) => Ok(taken_opening(Kind::Open {
            checked: header.checked,
        })),
        Err(refusal) => Err(*refusal),
    }
}

/// The explainer's state after the first line. Where memory ran out on that line, the next line is the first.
fn opened_by(alloc: Global, header: Result<Header, Refusal>, header_line: u64) -> OpeningLines
    ensures read { header ≢ Err Refusal.OutOfMemory → stage_of result ≡ opened_by header }
    ensures memory { header ≡ Err Refusal.OutOfMemory → stage_of result ≡ Unopened }
{
    match header {
        Ok(header) => opened_with(alloc, header, header_line),
        Err(Refusal::OutOfMemory) => OpeningLines::Unopened,
        Err(_) => opened_with(alloc, ANY_HEADER, header_line),
    }
}

/// Then come the items, and then that these are all. A line that is refused is left out.
fn explain_later(
    alloc: Global,
    scratch: &mut Scratch,
    line: &LineIn,
    number: u64,
    so_far: SoFar,
) -> Result<Explained, Refusal>
    ensures { IfOk result (λ t.
        ExplainsBy (later_step so_far.header so_far.values (read_by opening_line_of (said line.now)))
        (BeingOpened so_far.header so_far.values) number t.0.1 t.0.0.items (stage_of t.1)) }
{
    match opening_line(alloc, scratch, line) {
        Ok(said) => explain_said(alloc, scratch, line, number, so_far, said),
        Err(refusal) => {
            let explanation = explain_bad(alloc, scratch, line, number, refusal)?;
            Ok((explanation, OpeningLines::BeingOpened(so_far)))
        }
    }
}

/// The same of a line that can be read.
fn explain_said(
    alloc: Global,
    scratch: &mut Scratch,
    line: &LineIn,
    number: u64,
    so_far: SoFar,
    said: OpeningLine,
) -> Result<Explained, Refusal>
    ensures { IfOk result (λ t. ExplainsBy (later_step so_far.header so_far.values (Ok said))
        (BeingOpened so_far.header so_far.values) number t.0.1 t.0.0.items (stage_of t.1)) }
{
    match said {
        OpeningLine::Open(_) => {
            let explanation = explain_bad(alloc, scratch, line, number, Refusal::BadRequest)?;
            Ok((explanation, OpeningLines::BeingOpened(so_far)))
        }
        OpeningLine::Item(item, stamp, value) => {
            let SoFar {
                header,
                header_line,
                mut values,
                mut lines,
            } = so_far;
            values.add(item, stamp, value)?;
            lines.push(number)?;
            let explanation = explain_taken(alloc, number, taken_opening(Kind::Item))?;
            Ok((
                explanation,
                OpeningLines::BeingOpened(SoFar {
                    header,
                    header_line,
                    values,
                    lines,
                }),
            ))
        }
        OpeningLine::Begin => {
            let explanation = explain_begin(alloc, number, so_far)?;
            Ok((explanation, OpeningLines::Begun))
        }
    }
}

/// The line of a refusal of one line.
fn explain_bad(
    alloc: Global,
    scratch: &mut Scratch,
    line: &LineIn,
    number: u64,
    refusal: Refusal,
) -> Result<(Vec<u8>, bool), Refusal>
    ensures { IfOk result (λ explanation. IsReply number (Err refusal) explanation.1 explanation.0.items) }
{
    explain_reading(alloc, scratch, line, number, Table::Opening, Err(refusal))
}

fn opened_with(alloc: Global, header: Header, header_line: u64) -> OpeningLines
    ensures { stage_of result ≡ BeingOpened header no_values }
{
    OpeningLines::BeingOpened(SoFar {
        header,
        header_line,
        values: FirstValues::new(alloc),
        lines: Vec::new(alloc),
    })
}

/// The explanation of `begin`, where all items are there: whether they make an opening.
fn explain_begin(alloc: Global, number: u64, so_far: SoFar) -> Result<(Vec<u8>, bool), Refusal>
    ensures { IfOk result (λ explanation.
        IsReply number (begin_reading so_far.header so_far.values) explanation.1 explanation.0.items) }
{
    let SoFar {
        header,
        header_line,
        values,
        lines,
    } = so_far;
    let opened = values.into_opening(header);
    match opened.check() {
        Ok(()) => explain_taken(alloc, number, taken_opening(Kind::Begin)),
        Err(refusal) => {
            let found = bad_opening(alloc, &opened, header_line, &lines)?;
            explain_refused(alloc, number, refusal, found.as_ref())
        }
    }
}

/// What a line of the opening says. Of a line that is too long nothing is read.
fn opening_line(alloc: Global, scratch: &mut Scratch, line: &LineIn) -> Result<OpeningLine, Refusal>
    ensures { Gives (λ line. line) result (read_by opening_line_of (said line.now)) }
{
    read_opening_line(alloc, scratch, line.bytes()?)
}

fn taken_opening(kind: Kind) -> Taken
    ensures { result ≡ taken_opening kind }
{
    Taken {
        lines: Lines::Opening,
        kind,
    }
}
