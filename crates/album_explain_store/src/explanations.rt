//! What a line is, and the line that says so: {"kind", "line", "reads", and perhaps "remark"}. That of a refusal is
//! `album_explain`'s.
ghost use Rattle.std.specs.Prelude.{◌≡◌, Err, IfOk};
ghost use Rattle.serde_json.specs.View.{view};
ghost use Rattle.album_lines.specs.Output.{line_text};
ghost use Rattle.album_explain_store.specs.Explanations.{kind_word, lines_word, is_unchecked, taken_json, IsReply};

use crate::places::find;
use crate::places::tables::Table;
use album_explain::{Found, write_refused};
use album_lines::{LineIn, json_line, object_of, with_member};
use album_stamps::Refusal;
use json::Scratch;
use serde_json::{Map, Value};
use std::alloc::{AllocError, Global};

/// Where a line is: in an opening, among the events of a script, or in a connection.
#[derive(Clone, Copy, Debug, PartialEq, Eq)]
pub enum Lines {
    Opening,
    Events,
    Talk,
}

/// What a line says: which of its names says so.
#[derive(Clone, Copy, Debug, PartialEq, Eq)]
pub enum Kind {
    Open {
        /// Whether the store is to be checked.
        checked: bool,
    },
    Item,
    Begin,
    Ask,
    Deliver,
    Sweep,
    Stop,
    Restart,
    Trim,
    Who,
    Pending,
    Dump,
}

/// A line that is taken.
#[derive(Clone, Copy, Debug, PartialEq, Eq)]
pub struct Taken {
    pub lines: Lines,
    pub kind: Kind,
}

/// The explanation of what was read, and whether that is a refusal. Where it is refused, `table` finds.
pub(crate) fn explain_reading(
    alloc: Global,
    scratch: &mut Scratch,
    line: &LineIn,
    number: u64,
    table: Table,
    reading: Result<Taken, Refusal>,
) -> Result<(Vec<u8>, bool), Refusal>
    ensures { IfOk result (λ explanation. IsReply number reading explanation.1 explanation.0.items) }
{
    match reading {
        Ok(taken) => explain_taken(alloc, number, taken),
        Err(Refusal::OutOfMemory) => explain_refused(alloc, number, Refusal::OutOfMemory, None),
        Err(refusal) => {
            let found = find(alloc, scratch, line, table)?;
            explain_refused(alloc, number, refusal, Some(&found))
        }
    }
}

/// The line of a refusal, with the place where it is found.
pub(crate) fn explain_refused(
    alloc: Global,
    number: u64,
    refusal: Refusal,
    found: Option<&Found>,
) -> Result<(Vec<u8>, bool), Refusal>
    ensures { IfOk result (λ explanation. IsReply number (Err refusal) explanation.1 explanation.0.items) }
{
    let text = write_refused(alloc, number, refusal, found)?;
    Ok((text, true))
}

/// The line of a line that is taken.
#[tactic(auto, using(crate::proofs::Floats::no_float_in_taken))]
pub(crate) fn explain_taken(
    alloc: Global,
    number: u64,
    taken: Taken,
) -> Result<(Vec<u8>, bool), Refusal>
    ensures { IfOk result (λ explanation. IsReply number (Ok taken) explanation.1 explanation.0.items) }
{
    let text = json_line(alloc, taken_json(alloc, number, taken))?;
    Ok((text, false))
}

fn taken_json(alloc: Global, number: u64, taken: Taken) -> Result<Value, AllocError>
    ensures { IfOk result (λ v. view v ≡ taken_json number taken) }
{
    let kind = Value::try_from_str(alloc, kind_word(taken.kind));
    let fields = with_member(alloc, Ok(Map::new(alloc)), "kind", kind);
    let fields = with_member(alloc, fields, "line", Ok(Value::from(number)));
    let lines = Value::try_from_str(alloc, lines_word(taken.lines));
    let fields = with_member(alloc, fields, "reads", lines);
    if !is_unchecked(taken.kind) {
        return object_of(fields);
    }
    let remark =
        "of writes of one item that race, all but one may be lost; checked true prevents it";
    let remark = Value::try_from_str(alloc, remark);
    object_of(with_member(alloc, fields, "remark", remark))
}

/// Whether the line is the header of a store that isn't checked: what that means is said besides.
fn is_unchecked(kind: Kind) -> bool
    ensures { result ≡ is_unchecked kind }
{
    matches!(kind, Kind::Open { checked: false })
}

fn kind_word(kind: Kind) -> &'static str
    ensures { result.now ≡ kind_word kind }
{
    match kind {
        Kind::Open { .. } => "open",
        Kind::Item => "item",
        Kind::Begin => "begin",
        Kind::Ask => "ask",
        Kind::Deliver => "deliver",
        Kind::Sweep => "sweep",
        Kind::Stop => "stop",
        Kind::Restart => "restart",
        Kind::Trim => "trim",
        Kind::Who => "who",
        Kind::Pending => "pending",
        Kind::Dump => "dump",
    }
}

fn lines_word(lines: Lines) -> &'static str
    ensures { result.now ≡ lines_word lines }
{
    match lines {
        Lines::Opening => "opening",
        Lines::Events => "event",
        Lines::Talk => "talk",
    }
}
