//! The events that a line spells: they run one after another, and the outputs of each are written before the next.
ghost use Rattle.std.specs.Prelude.{◌≡◌, ◌==◌, ◌||◌, not, true, IfErr, OnOk};
ghost use Rattle.std.specs.Option.{option_copied};
ghost use Rattle.std.specs.Io.KnownBytes.{Appends};
ghost use Rattle.album_stamps.specs.Outcome.{Gives};
ghost use Rattle.album_stamps.specs.Refusals.{number_of};
ghost use Rattle.album_items.specs.declared.openings.Opening.{Opening};
ghost use Rattle.album_world.specs.Past.{Past};
ghost use Rattle.album_wire.specs.EventLine.{deliveries};
ghost use Rattle.album_lines.specs.Lines.{said};
ghost use Rattle.album_wire.specs.OutJson.{out_line};
ghost use Rattle.album_wire.specs.ShownStamps.{out_shown};
ghost use Rattle.album_replay.specs.Replay.{Happens, Delivers, delivery_text, event_text, text_in, acting_event, acting_events, event_line_read, message_shown, outputs_text, showing};
ghost use Rattle.album_replay.specs.Epochs.{HasLed, Leads, MayLead};
ghost use Rattle.album_judge.specs.Writes.{Writes, LeavesOf};

use album_calls::Message;
use album_items::FirstStamps;
use album_judge::{Fault, write_refused, write_text};
use album_lines::LineIn;
use album_lists::Name;
use album_permits::{Event, Out};
use album_stamps::Refusal;
use album_wire::{Spelled, read_event, write_shown_out};
use album_world::World;
use json::Scratch;
use std::alloc::Global;
use std::io::Write;

/// The events that a line spells, each by the principal that acts, or a restart. Of a line that is too long nothing is
/// read.
pub(crate) fn event_line(
    alloc: Global,
    scratch: &mut Scratch,
    root: &Option<Name>,
    line: &LineIn,
) -> Result<Spelled, Refusal>
    ensures { Gives (λ events. events) result (event_line_read root.now (said line.now)) }
{
    let events = read_event(alloc, scratch, line.bytes()?)?;
    Ok(acting_events(root, events))
}

/// The same events, by the principal that acts.
fn acting_events(root: &Option<Name>, events: Spelled) -> Spelled
    ensures { result ≡ acting_events root.now events }
{
    match events {
        Spelled::One(event) => Spelled::One(acting_event(root, event)),
        Spelled::Range(first, last) => Spelled::Range(first, last),
        Spelled::Restart => Spelled::Restart,
    }
}

/// Who asks acts as root where it is the one that is named.
fn acting_event(root: &Option<Name>, event: Event) -> Event
    ensures { result ≡ acting_event root.now event }
{
    match event {
        Event::Ask(client, principal, ask) => Event::Ask(client, principal.acting(root), ask),
        Event::Deliver(number) => Event::Deliver(number),
        Event::Sweep(part, stamp) => Event::Sweep(part, stamp),
        Event::Stop(client) => Event::Stop(client),
        Event::Trim(part, item) => Event::Trim(part, item),
    }
}

/// Runs an event that a line spells by itself.
pub(crate) fn run_one<W: Write>(
    alloc: Global,
    trace: bool,
    stamps: &FirstStamps,
    world: &mut World,
    event: Event,
    writer: &mut W,
) -> Result<(), Fault>
    ensures ok { OnOk result ((past : Past) → Writes
        (Leads (λ before. Happens event_text world.old.terms (showing trace stamps.now) before event)
        world.old world.new past)
        (W.contents writer.old) (W.contents writer.new)) }
    ensures fault { IfErr result (λ fault. (past : Past) → Writes
        (LeavesOf fault
        (MayLead (λ before. Happens event_text world.old.terms (showing trace stamps.now) before event) world.old past))
        (W.contents writer.old) (W.contents writer.new)) }
    ensures terms { world.new.terms ≡ world.old.terms }
    ensures led { (opening : Opening) → HasLed opening world.old → HasLed opening world.new }
{
    run_event(alloc, trace, stamps, false, world, &event, writer)
}

/// Runs the event, and writes its outputs, or why it is refused. Of one in a range that is written only for memory.
fn run_event<W: Write>(
    alloc: Global,
    trace: bool,
    stamps: &FirstStamps,
    in_range: bool,
    world: &mut World,
    event: &Event,
    writer: &mut W,
) -> Result<(), Fault>
    ensures ok { OnOk result ((past : Past) → Writes
        (Leads (λ before. Happens (text_in in_range) world.old.terms (showing trace stamps.now) before event.now)
        world.old world.new past)
        (W.contents writer.old) (W.contents writer.new)) }
    ensures fault { IfErr result (λ fault. (past : Past) → Writes
        (LeavesOf fault
        (MayLead (λ before. Happens (text_in in_range) world.old.terms (showing trace stamps.now) before event.now)
        world.old past))
        (W.contents writer.old) (W.contents writer.new)) }
    ensures terms { world.new.terms ≡ world.old.terms }
    ensures led { (opening : Opening) → HasLed opening world.old → HasLed opening world.new }
{
    match world.step(event) {
        Ok(outs) => write_outputs(alloc, trace, stamps, world, &outs, writer),
        Err(refusal) => {
            if is_printed(in_range, refusal) {
                return write_refused(alloc, refusal, writer);
            }
            Ok(())
        }
    }
}

/// Whether the refusal of an event is written.
fn is_printed(in_range: bool, refusal: Refusal) -> bool
    ensures { result ≡ (not in_range || number_of refusal == number_of Refusal.OutOfMemory) }
{
    !in_range || refusal.number() == Refusal::OutOfMemory.number()
}

/// Gives the messages of the range to whom they are sent.
pub(crate) fn deliver_range<W: Write>(
    alloc: Global,
    trace: bool,
    stamps: &FirstStamps,
    world: &mut World,
    first: u64,
    last: u64,
    writer: &mut W,
) -> Result<(), Fault>
    ensures ok { OnOk result ((past : Past) → Writes
        (Leads (λ before. Delivers world.old.terms (showing trace stamps.now) before (deliveries first last))
        world.old world.new past)
        (W.contents writer.old) (W.contents writer.new)) }
    ensures fault { IfErr result (λ fault. (past : Past) → Writes
        (LeavesOf fault
        (MayLead (λ before. Delivers world.old.terms (showing trace stamps.now) before (deliveries first last))
        world.old past))
        (W.contents writer.old) (W.contents writer.new)) }
    ensures terms { world.new.terms ≡ world.old.terms }
    ensures led { (opening : Opening) → HasLed opening world.old → HasLed opening world.new }
{
    if first > last {
        return Ok(());
    }
    for number in first..last {
        deliver(alloc, trace, stamps, world, number, writer)?;
    }
    deliver(alloc, trace, stamps, world, last, writer)
}

/// Gives the message of this number to whom it is sent.
fn deliver<W: Write>(
    alloc: Global,
    trace: bool,
    stamps: &FirstStamps,
    world: &mut World,
    number: u64,
    writer: &mut W,
) -> Result<(), Fault>
    ensures ok { OnOk result ((past : Past) → Writes
        (Leads
        (λ before. Happens delivery_text world.old.terms (showing trace stamps.now) before (Event.Deliver number))
        world.old world.new past)
        (W.contents writer.old) (W.contents writer.new)) }
    ensures fault { IfErr result (λ fault. (past : Past) → Writes
        (LeavesOf fault (MayLead
        (λ before. Happens delivery_text world.old.terms (showing trace stamps.now) before (Event.Deliver number))
        world.old past))
        (W.contents writer.old) (W.contents writer.new)) }
    ensures terms { world.new.terms ≡ world.old.terms }
    ensures led { (opening : Opening) → HasLed opening world.old → HasLed opening world.new }
{
    run_event(
        alloc,
        trace,
        stamps,
        true,
        world,
        &Event::Deliver(number),
        writer,
    )
}

/// Writes the outputs, line by line.
fn write_outputs<W: Write>(
    alloc: Global,
    trace: bool,
    stamps: &FirstStamps,
    world: &World,
    outs: &[Out],
    writer: &mut W,
) -> Result<(), Fault>
    ensures ok { OnOk result (Appends (W.contents writer.old) (W.contents writer.new)
        (outputs_text (showing trace stamps.now) world.now.kept outs.now)) }
    ensures fault { IfErr result (λ fault. Writes
        (LeavesOf fault (λ whole. whole ≡ outputs_text (showing trace stamps.now) world.now.kept outs.now))
        (W.contents writer.old) (W.contents writer.new)) }
{
    for out in outs {
        write_output(alloc, trace, stamps, world, out, writer)?;
    }
    Ok(())
}

/// Writes an output: its line, or nothing.
fn write_output<W: Write>(
    alloc: Global,
    trace: bool,
    stamps: &FirstStamps,
    world: &World,
    out: &Out,
    writer: &mut W,
) -> Result<(), Fault>
    ensures ok { OnOk result (Appends (W.contents writer.old) (W.contents writer.new)
        (out_line (out_shown stamps.now out.now) (message_shown trace world.now.kept out.now))) }
    ensures fault { IfErr result (λ fault.
        Writes (LeavesOf fault (λ whole.
        whole ≡ out_line (out_shown stamps.now out.now) (message_shown trace world.now.kept out.now)))
        (W.contents writer.old) (W.contents writer.new)) }
{
    let text = write_shown_out(alloc, stamps, out, message_shown(trace, world, out))?;
    write_text(writer, &text)
}

/// The message that is sent, where the world runs in a trace.
fn message_shown<'a>(trace: bool, world: &'a World, out: &Out) -> Option<&'a Message>
    ensures { option_copied result ≡ message_shown trace world.now.kept out.now }
{
    match out {
        Out::Sent(number) => { if trace { world.message(*number) } else { None } }
        Out::Noted(..) | Out::Answered(..) => None,
    }
}
