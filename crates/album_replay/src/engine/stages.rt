//! The stage of a replay between two lines, and what a line makes of it.
//!
//! `replay` keeps one `Stage`, and gives it each line. The lines of the opening are gathered (`openings`), until one
//! says that the items are all there: then the first epoch begins (`epochs`). From then on the events of a line run in
//! its world (`events`), and a restart begins the next epoch. A replay whose opening is refused is over.
ghost use Rattle.std.specs.Prelude.{◌≡◌, ◌≢◌, [], IfErr, OnErr, OnOk};
ghost use Rattle.std.specs.Io.KnownBytes.{Appends};
ghost use Rattle.album_lines.specs.Lines.{said};
ghost use Rattle.album_world.specs.Past.{Past};
ghost use Rattle.album_wire.specs.FirstValues.{opening_of};
ghost use Rattle.album_replay.specs.Replay.{Prints, Step, begun, end_text};
ghost use Rattle.album_replay.specs.Stages.{GoesOn, Opens, Steps, stage_of, step_by, no_past, is_over};
ghost use Rattle.album_judge.specs.Writes.{Writes, LeavesOf};

use crate::engine::epochs::Epoch;
use crate::openings::{SoFar, first_line, later_line};
use album_judge::{Fault, write_refused};
use album_lines::LineIn;
use album_stamps::Refusal;
use album_wire::{FirstValues, Header};
use json::Scratch;
use std::alloc::Global;
use std::io::Write;
use std::mem;

/// The stage of a replay between two lines.
#[derive(Drop)]
pub(crate) enum Stage {
    /// Nothing is opened yet.
    Unopened,
    /// The world is being opened, with these items so far.
    BeingOpened(Header, FirstValues),
    /// The world of an epoch runs.
    Running(Epoch),
    /// The opening was refused.
    Over,
}

impl Stage {
    /// Takes a line, and writes its outputs or its refusal. A blank line is skipped.
    pub fn take<W: Write>(
        &mut self,
        alloc: Global,
        scratch: &mut Scratch,
        line: &LineIn,
        writer: &mut W,
    ) -> Result<(), Fault>
        ensures ok { OnOk result ((past : Past) → Writes (Steps self.old past (said line.now) self.new)
            (W.contents writer.old) (W.contents writer.new)) }
        ensures fault { IfErr result (λ fault. (past : Past) → Writes
            (LeavesOf fault (Prints (stage_of self.old past) (said line.now)))
            (W.contents writer.old) (W.contents writer.new)) }
    {
        if line.is_blank() {
            return Ok(());
        }
        match self {
            Stage::Unopened => {
                let next = stage_after(alloc, first_line(alloc, scratch, line));
                self.go_on(alloc, next, writer)
            }
            Stage::BeingOpened(header, values) => {
                let header = header.take_out();
                let values = mem::replace(values, FirstValues::new(alloc));
                let next = stage_after(alloc, later_line(alloc, scratch, header, values, line));
                self.go_on(alloc, next, writer)
            }
            Stage::Running(epoch) => epoch.take(alloc, scratch, line, writer),
            Stage::Over => Ok(()),
        }
    }

    /// The opening continues, or its refusal is written.
    fn go_on<W: Write>(
        &mut self,
        alloc: Global,
        next: Result<Stage, Refusal>,
        writer: &mut W,
    ) -> Result<(), Fault>
        ensures stage { stage_of self.new no_past ≡ (step_by next).next }
        ensures ok { OnOk result (Appends (W.contents writer.old) (W.contents writer.new) (step_by next).text) }
        ensures fault { IfErr result (λ fault. Writes (LeavesOf fault (λ whole. whole ≡ (step_by next).text))
            (W.contents writer.old) (W.contents writer.new)) }
    {
        match next {
            Ok(stage) => {
                drop(mem::replace(self, stage));
                Ok(())
            }
            Err(refusal) => {
                drop(mem::replace(self, Stage::Over));
                write_refused(alloc, refusal, writer)
            }
        }
    }

    /// An input that ends before the world runs is no opening.
    #[tactic(auto, using(crate::proofs::Standing::some_line_text))]
    pub fn end<W: Write>(&self, alloc: Global, writer: &mut W) -> Result<(), Fault>
        ensures ok { OnOk result ((past : Past) →
            Appends (W.contents writer.old) (W.contents writer.new) (end_text (stage_of self.now past))) }
        ensures fault { IfErr result (λ fault. (past : Past) → Writes
            (LeavesOf fault (λ whole. whole ≡ end_text (stage_of self.now past)))
            (W.contents writer.old) (W.contents writer.new)) }
        ensures memory { OnErr result ((past : Past) → end_text (stage_of self.now past) ≢ []) }
    {
        match self {
            Stage::Unopened | Stage::BeingOpened(..) => {
                write_refused(alloc, Refusal::BadOpening, writer)
            }
            Stage::Running(..) | Stage::Over => Ok(()),
        }
    }

    /// Whether the opening was refused.
    pub fn is_over(&self) -> bool
        ensures { result ≡ is_over self.now }
    {
        matches!(self, Stage::Over)
    }
}

/// The stage after a line of the opening: the world opens once the opening is whole.
fn stage_after(alloc: Global, so_far: Result<SoFar, Refusal>) -> Result<Stage, Refusal>
    ensures { (says : Step) → GoesOn says so_far → Opens says result }
{
    match so_far? {
        SoFar::More(header, values) => Ok(Stage::BeingOpened(header, values)),
        SoFar::Whole(header, values) => begin(alloc, header, values),
    }
}

/// The first epoch begins, where its world may open.
#[tactic(auto, using(crate::proofs::Standing::world_opens, crate::proofs::Standing::world_refused))]
fn begin(alloc: Global, header: Header, values: FirstValues) -> Result<Stage, Refusal>
    ensures { Opens (begun (opening_of header values) header.trace) result }
{
    let trace = header.trace;
    let epoch = Epoch::first(alloc, values.into_opening(header), trace)?;
    Ok(Stage::Running(epoch))
}
