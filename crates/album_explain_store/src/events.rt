//! The explanations of the lines of events.
ghost use Rattle.std.specs.Prelude.{◌≡◌, IfOk};
ghost use Rattle.album_stamps.specs.Outcome.{Gives};
ghost use Rattle.album_lines.specs.Lines.{said};
ghost use Rattle.album_wire.specs.EventLine.{event_line_of};
ghost use Rattle.album_explain_store.specs.Explanations.{IsReplyIfRoom};
ghost use Rattle.album_explain_store.specs.Readings.{read_by, event_reading, kind_of_event, kind_of_events};

use crate::asks::explain_ask;
use crate::explanations::{Kind, Lines, Taken, explain_reading, explain_taken};
use crate::places::tables::Table;
use album_explain::Explainer;
use album_lines::LineIn;
use album_permits::Event;
use album_stamps::Refusal;
use album_wire::{Spelled, read_event};
use json::Scratch;
use std::alloc::Global;

/// Explains lines of events, each by itself.
#[derive(Clone, Copy, Debug)]
pub struct EventLines;

impl Explainer for EventLines {
    ghost use Rattle.album_explain_store.specs.Explanations.{ExplainsBy, out_of_memory_explanation};
    ghost use Rattle.album_explain_store.specs.Steps.{event_step};

    ghost IsExplanation = { λ old number line is_refused text new.
        ExplainsBy (event_step old line) old number is_refused text new };

    fn explain(
        &mut self,
        alloc: Global,
        scratch: &mut Scratch,
        line: &LineIn,
        number: u64,
    ) -> Result<(Vec<u8>, bool), Refusal> {
        explain_event(alloc, scratch, line, number)
    }

    ghost goes_on = { λ old number line. out_of_memory_explanation (event_step old line) old number };
}

/// The explanation of the line of an event, and whether the line is refused.
pub(crate) fn explain_event(
    alloc: Global,
    scratch: &mut Scratch,
    line: &LineIn,
    number: u64,
) -> Result<(Vec<u8>, bool), Refusal>
    ensures { IfOk result (λ explanation.
        IsReplyIfRoom number (event_reading (said line.now)) explanation.1 explanation.0.items) }
{
    match events_in(alloc, scratch, line) {
        Ok(Spelled::One(Event::Ask(_, who, ask))) => {
            explain_ask(alloc, number, Lines::Events, &ask, &who)
        }
        Ok(events) => explain_taken(
            alloc,
            number,
            Taken {
                lines: Lines::Events,
                kind: kind_of_events(&events),
            },
        ),
        Err(refusal) => {
            explain_reading(alloc, scratch, line, number, Table::Event, Err(refusal))
        }
    }
}

/// What the line of an event says.
fn events_in(alloc: Global, scratch: &mut Scratch, line: &LineIn) -> Result<Spelled, Refusal>
    ensures { Gives (λ events. events) result (read_by event_line_of (said line.now)) }
{
    read_event(alloc, scratch, line.bytes()?)
}

fn kind_of_events(events: &Spelled) -> Kind
    ensures { result ≡ kind_of_events events.now }
{
    match events {
        Spelled::One(event) => kind_of_event(event),
        Spelled::Range(..) => Kind::Deliver,
        Spelled::Restart => Kind::Restart,
    }
}

fn kind_of_event(event: &Event) -> Kind
    ensures { result ≡ kind_of_event event.now }
{
    match event {
        Event::Ask(..) => Kind::Ask,
        Event::Deliver(_) => Kind::Deliver,
        Event::Sweep(..) => Kind::Sweep,
        Event::Stop(_) => Kind::Stop,
        Event::Trim(..) => Kind::Trim,
    }
}
