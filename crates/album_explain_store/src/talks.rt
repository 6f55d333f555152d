//! The explanations of the lines of a connection: the first says who talks.
ghost use Rattle.std.specs.Prelude.{◌≡◌};
ghost use Rattle.album_stamps.specs.Outcome.{Gives};
ghost use Rattle.album_lines.specs.Lines.{said};
ghost use Rattle.album_wire.specs.TalkLine.{hello_line_of, talk_line_of};
ghost use Rattle.album_explain_store.specs.Readings.{read_by, kind_of_talk};

use crate::asks::explain_ask;
use crate::explanations::{Kind, Lines, Taken, explain_reading, explain_taken};
use crate::places::tables::Table;
use album_eval::Principal;
use album_explain::Explainer;
use album_lines::LineIn;
use album_stamps::Refusal;
use album_wire::{TalkLine, read_hello, read_talk};
use json::Scratch;
use std::alloc::Global;

/// Explains the lines of a connection.
#[derive(Debug, Drop)]
pub enum TalkLines {
    /// It isn't said yet who talks.
    Stranger,
    Known(Principal),
}

impl Explainer for TalkLines {
    ghost use Rattle.album_explain_store.specs.Explanations.{ExplainsBy, out_of_memory_explanation};
    ghost use Rattle.album_explain_store.specs.Steps.{talk_step};

    ghost IsExplanation = { λ old number line is_refused text new.
        ExplainsBy (talk_step old line) old number is_refused text new };

    fn explain(
        &mut self,
        alloc: Global,
        scratch: &mut Scratch,
        line: &LineIn,
        number: u64,
    ) -> Result<(Vec<u8>, bool), Refusal> {
        match self {
            TalkLines::Stranger => match hello_in(alloc, scratch, line) {
                Ok(who) => {
                    *self = TalkLines::Known(who);
                    explain_taken(alloc, number, taken_as(Kind::Who))
                }
                Err(refusal) => {
                    explain_reading(alloc, scratch, line, number, Table::Hello, Err(refusal))
                }
            },
            TalkLines::Known(who) => match line_in(alloc, scratch, line) {
                Ok(TalkLine::Ask(ask)) => explain_ask(alloc, number, Lines::Talk, &ask, who),
                Ok(said) => explain_taken(alloc, number, taken_as(kind_of_talk(&said))),
                Err(refusal) => {
                    explain_reading(alloc, scratch, line, number, Table::Talk, Err(refusal))
                }
            },
        }
    }

    ghost goes_on = { λ old number line. out_of_memory_explanation (talk_step old line) old number };
}

fn taken_as(kind: Kind) -> Taken
    ensures lines { result.lines ≡ Lines.Talk }
    ensures kind { result.kind ≡ kind }
{
    Taken {
        lines: Lines::Talk,
        kind,
    }
}

/// Who the first line says.
fn hello_in(alloc: Global, scratch: &mut Scratch, line: &LineIn) -> Result<Principal, Refusal>
    ensures { Gives (λ who. who) result (read_by hello_line_of (said line.now)) }
{
    read_hello(alloc, scratch, line.bytes()?)
}

/// What a later line says.
fn line_in(alloc: Global, scratch: &mut Scratch, line: &LineIn) -> Result<TalkLine, Refusal>
    ensures { Gives (λ said. said) result (read_by talk_line_of (said line.now)) }
{
    read_talk(alloc, scratch, line.bytes()?)
}

fn kind_of_talk(line: &TalkLine) -> Kind
    ensures { result ≡ kind_of_talk line.now }
{
    match line {
        TalkLine::Ask(_) => Kind::Ask,
        TalkLine::Pending(_) => Kind::Pending,
        TalkLine::Sweep(..) => Kind::Sweep,
        TalkLine::Dump => Kind::Dump,
        TalkLine::Trim(..) => Kind::Trim,
    }
}
