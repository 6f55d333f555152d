//! Runs of an engine over a reader and a writer that give and take little, or fail: what is written at each read and at
//! each fault (docs/FORMATS.md, "Programs").
use crate::streams::{Pieces, Taking};
use album_judge::Fault;
use std::alloc::Global;
use std::process::Abort;

/// What answers lines that are read.
pub(crate) trait Engine {
    fn run(
        &mut self,
        alloc: Global,
        reader: &mut Pieces,
        writer: &mut Taking,
        turns: u64,
    ) -> Result<(), Fault>;
}

/// What an engine reads, and what it has to write.
pub(crate) struct Script {
    pub(crate) input: &'static str,
    pub(crate) output: &'static str,
    /// For each line with an output: where the line ends in the input, and how much is written by then. The output of
    /// the last line comes with the end of the input alone.
    pub(crate) ends: &'static [(usize, usize)],
    /// The lengths of what is written at once.
    pub(crate) writes: &'static [usize],
}

/// How a run is disturbed: at which read, at which write and how, and after how many turns.
#[derive(Clone, Copy)]
struct Trouble {
    read: u64,
    write: u64,
    fails: bool,
    turns: u64,
}

const NONE: Trouble = Trouble {
    read: u64::MAX,
    write: u64::MAX,
    fails: true,
    turns: 1000,
};

#[derive(Drop)]
struct Ended {
    taken: Vec<u8>,
    fault: Option<Fault>,
    reads: u64,
    writes: u64,
}

/// A run in which each read gives, and each write takes, at most so many bytes.
fn run_of<E: Engine>(
    engine: &mut E,
    alloc: Global,
    script: &Script,
    most: usize,
    trouble: Trouble,
) -> Ended {
    let mut reader = Pieces {
        left: script.input.as_bytes(),
        most,
        reads: 0,
        fails_at: trouble.read,
    };
    let mut writer = Taking {
        taken: Vec::new(alloc),
        most,
        writes: 0,
        stops_at: trouble.write,
        fails: trouble.fails,
    };
    let done = engine.run(alloc, &mut reader, &mut writer, trouble.turns);
    let Taking { taken, writes, .. } = writer;
    Ended {
        taken,
        fault: done.err(),
        reads: reader.reads,
        writes,
    }
}

/// Whether the run ended with this fault, and wrote exactly so many bytes of the output.
fn has_ended(end: &Ended, script: &Script, fault: Option<Fault>, len: usize) -> bool {
    end.fault == fault && end.taken.len() == len && script.output.as_bytes().starts_with(&end.taken)
}

/// How much is written for the lines that have ended once so many bytes were read.
fn answered_len(script: &Script, read: u64) -> usize {
    let mut len = 0;
    for (input, output) in script.ends {
        if *input as u64 <= read {
            len = *output;
        }
    }
    len
}

/// How many bytes are written once a writer of seven bytes a write has taken so many writes.
fn written(script: &Script, writes: u64) -> usize {
    let mut len: usize = 0;
    let mut left = writes;
    for text in script.writes {
        let whole = (*text as u64).div_ceil(7);
        len = len.wrapping_add(if left < whole {
            left as usize * 7
        } else {
            *text
        });
        left = left.saturating_sub(whole);
        if left == 0 {
            return len;
        }
    }
    len
}

/// Whether the whole output is written, however few bytes each read gives and each write takes: one, at first.
fn holds_in_pieces<E: Engine>(engine: &mut E, alloc: Global, script: &Script) -> bool {
    for most in [1, 2, 7, 4096] {
        let end = run_of(engine, alloc, script, most, NONE);
        if !has_ended(&end, script, None, script.output.len()) {
            return false;
        }
    }
    true
}

/// Whether before each read, which fails, what is to be written of each line that has ended is there.
fn holds_at_each_read<E: Engine>(engine: &mut E, alloc: Global, script: &Script) -> bool {
    let reads = run_of(engine, alloc, script, 7, NONE).reads;
    for at in 0..reads {
        let end = run_of(engine, alloc, script, 7, Trouble { read: at, ..NONE });
        let len = answered_len(script, at.wrapping_mul(7));
        if !has_ended(&end, script, Some(Fault::Reading), len) {
            return false;
        }
    }
    true
}

/// Whether each write in turn, where it fails in this way, ends the run with exactly what was written before.
pub(crate) fn stops_at_each_write<E: Engine>(
    engine: &mut E,
    alloc: Global,
    script: &Script,
    fails: bool,
) -> bool {
    let writes = run_of(engine, alloc, script, 7, NONE).writes;
    for at in 0..writes {
        let trouble = Trouble {
            write: at,
            fails,
            ..NONE
        };
        let end = run_of(engine, alloc, script, 7, trouble);
        if !has_ended(&end, script, Some(Fault::Writing), written(script, at)) {
            return false;
        }
    }
    true
}

/// Whether each number of turns, where they run out, ends the run with exactly the answers to what they read.
fn holds_at_each_turn<E: Engine>(engine: &mut E, alloc: Global, script: &Script) -> bool {
    let reads = run_of(engine, alloc, script, 7, NONE).reads;
    for turns in 0..reads {
        let end = run_of(engine, alloc, script, 7, Trouble { turns, ..NONE });
        let len = answered_len(script, turns.wrapping_mul(7));
        if !has_ended(&end, script, Some(Fault::Reading), len) || end.reads != turns {
            return false;
        }
    }
    let all = Trouble {
        turns: reads,
        ..NONE
    };
    let end = run_of(engine, alloc, script, 7, all);
    has_ended(&end, script, None, script.output.len())
}

/// The whole output is written after so many reads.
pub(crate) fn assert_read<R: Abort, E: Engine>(
    rt: &R,
    engine: &mut E,
    alloc: Global,
    script: &Script,
    reads: u64,
) {
    let end = run_of(engine, alloc, script, 7, NONE);
    assert!(rt; has_ended(&end, script, None, script.output.len()) && end.reads == reads);
}

/// The engine keeps to the script, in pieces and at each fault.
pub(crate) fn assert_kept<R: Abort, E: Engine>(
    rt: &R,
    engine: &mut E,
    alloc: Global,
    script: &Script,
) {
    assert!(rt; holds_in_pieces(engine, alloc, script), "in pieces");
    assert!(rt; holds_at_each_read(engine, alloc, script), "at each read");
    assert!(rt;
        stops_at_each_write(engine, alloc, script, true),
        "at each write that fails"
    );
    assert!(rt;
        stops_at_each_write(engine, alloc, script, false),
        "at each write of nothing"
    );
    assert!(rt; holds_at_each_turn(engine, alloc, script), "at each turn");
}
