//! An epoch: the world that runs in it, and what it opened on. A restart ends it, and the next one opens on what its
//! world leaves.
ghost use Rattle.std.specs.Prelude.{◌≡◌, ◌≢◌, ◌+◌, true, IfErr, IfOk, IsOkUnless, OnOk, OnErr};
ghost use Rattle.album_stamps.specs.Outcome.{Makes};
ghost use Rattle.album_world.specs.Past.{Past};
ghost use Rattle.album_lines.specs.Lines.{said};
ghost use Rattle.album_wire.specs.TalkJson.{talk_text};
ghost use Rattle.album_wire.specs.declared.talk_json.TalkOut.TheVariants as talk;
ghost use Rattle.album_replay.specs.Epochs.{first_epoch, IsAfter, MayRestart, Restarts, TakesLine, PrintsLine};
ghost use Rattle.album_judge.specs.Writes.{Writes, LeavesOf};

use crate::engine::events::{deliver_range, event_line, run_one};
use album_items::Opening;
use album_judge::{Fault, write_refused, write_text};
use album_lines::LineIn;
use album_restarts::next_opening;
use album_stamps::Refusal;
use album_wire::{Spelled, TalkOut, write_talk};
use album_world::World;
use json::Scratch;
use std::alloc::Global;
use std::io::Write;
use std::marker::Model;
use std::mem;

/// An epoch of a replay. Contracts see what it opened on, its number, whether its messages are shown, and its world.
pub(crate) struct Epoch {
    opening: Opening,
    /// The first is 1.
    number: u64,
    trace: bool,
    world: World,
}

impl Model for Epoch {
    ghost use Rattle.album_replay.specs.Epochs.{EpochState, HasLed};

    ghost Value = { EpochState };

    ghost view = { λ e. record {
      of = record { opening = e.opening; number = e.number; trace = e.trace };
      world = e.world;
    } };

    ghost invariant = { λ e. HasLed e.opening e.world };
}

impl Drop for Epoch {
    fn drop(self) {
        let Epoch {
            opening,
            number: _,
            trace: _,
            world,
        } = self;
        drop(opening);
        drop(world);
    }
}

impl Epoch {
    /// The first epoch, whose world opens where it may.
    ///
    /// # Errors
    ///
    /// `BadOpening` exactly where the opening's check refuses it. Else `OutOfMemory`.
    pub fn first(alloc: Global, opening: Opening, trace: bool) -> Result<Epoch, Refusal>
        ensures { Makes (λ epoch. epoch) result (first_epoch opening trace) }
    {
        let world = World::open(alloc, &opening)?;
        Ok(Epoch {
            opening,
            number: 1,
            trace,
            world,
        })
    }

    /// Takes a line: its events run, and their outputs are written; or the next epoch opens, and that is written; or
    /// the line's refusal is written.
    pub fn take<W: Write>(
        &mut self,
        alloc: Global,
        scratch: &mut Scratch,
        line: &LineIn,
        writer: &mut W,
    ) -> Result<(), Fault>
        ensures ok { OnOk result ((past : Past) → Writes (TakesLine self.old past (said line.now) self.new)
            (W.contents writer.old) (W.contents writer.new)) }
        ensures fault { IfErr result (λ fault. (past : Past) → Writes
            (LeavesOf fault (PrintsLine self.old past (said line.now)))
            (W.contents writer.old) (W.contents writer.new)) }
    {
        let (trace, stamps, world) = (self.trace, &self.opening.stamps, &mut self.world);
        match event_line(alloc, scratch, &self.opening.root, line) {
            Ok(Spelled::One(event)) => run_one(alloc, trace, stamps, world, event, writer),
            Ok(Spelled::Range(first, last)) => {
                deliver_range(alloc, trace, stamps, world, first, last, writer)
            }
            Ok(Spelled::Restart) => self.restart(alloc, writer),
            Err(refusal) => write_refused(alloc, refusal, writer),
        }
    }

    /// The next epoch opens, and that is written. Where memory runs out this epoch goes on, and that is written.
    fn restart<W: Write>(&mut self, alloc: Global, writer: &mut W) -> Result<(), Fault>
        ensures ok { OnOk result (Writes (Restarts self.old self.new)
            (W.contents writer.old) (W.contents writer.new)) }
        ensures fault { IfErr result (λ fault. Writes (LeavesOf fault (MayRestart self.old))
            (W.contents writer.old) (W.contents writer.new)) }
    {
        match self.next(alloc) {
            Ok((next, text)) => {
                drop(mem::replace(self, next));
                write_text(writer, &text)
            }
            Err(refusal) => write_refused(alloc, refusal, writer),
        }
    }

    /// The epoch that opens on what this one's world leaves, and the text that says so.
    ///
    /// # Errors
    ///
    /// `OutOfMemory`.
    fn next(&self, alloc: Global) -> Result<(Epoch, Vec<u8>), Refusal>
        ensures next { IfOk result (λ next. IsAfter self.now next.0) }
        ensures text { IfOk result (λ next. next.1.items ≡ talk_text (talk.Restarted next.0.of.number)) }
        ensures memory { IsOkUnless result Refusal.OutOfMemory }
    {
        // So many restarts need so many lines, so memory runs out long before.
        let number = self.number.checked_add(1).ok_or(Refusal::OutOfMemory)?;
        let text = write_talk(alloc, &TalkOut::Restarted(number))?;
        let opening = next_opening(alloc, &self.world, &self.opening)?;
        let world = World::open_on(alloc, &opening)?;
        let next = Epoch {
            opening,
            number,
            trace: self.trace,
            world,
        };
        Ok((next, text))
    }
}
