//! What a running service has: it is printed each so many seconds, and there is a warning before something is spent.
ghost use Rattle.std.specs.Prelude.{◌≤◌, ◌*◌, ◌↔◌, IsTrue};

use crate::connections::Connections;
use crate::moments::now;
use crate::notices::Notice;
use crate::one_epoch::Shared;
use crate::port::Host;
use album_threads::{Figures, Gauge, Load, ServiceNames};
use album_wire::{Counted, ServiceFigures, write_figures};
use crossbeam_channel::{Receiver, RecvTimeoutError};
use std::alloc::{AllocError, Global};
use std::sync::{Arc, Wait};
use std::time;
use std::time::{Duration, Instant};

/// How many seconds lie between two looks, where nobody wants figures.
const PAUSE: u32 = 10;

/// How many milliseconds lie between two looks at whether the epoch is to turn.
const TURN_PAUSE: u64 = 50;

/// Of what it was warned: of the marks of these partitions, and of the connections.
#[derive(Drop)]
struct Warned {
    parts: Vec<usize>,
    connections: bool,
}

/// Looks at the figures each so many seconds, until it is ended. Where `stats` is not 0 they are printed each time.
/// Where epochs turn it looks more often whether this one is to turn.
pub(crate) fn watch<J: ServiceNames, T: Host>(
    rt: &T,
    alloc: Global,
    shared: &Arc<Shared<J, T>, Global>,
    ended: &Receiver<()>,
) {
    let seconds = if shared.stats == 0 {
        PAUSE
    } else {
        shared.stats
    };
    let period = Duration::from_secs(u64::from(seconds));
    let pause = match &shared.turn {
        None => period,
        Some(_) => period.min(Duration::from_millis(TURN_PAUSE)),
    };
    let mut warned = Warned {
        parts: Vec::new(alloc),
        connections: false,
    };
    let mut last = Instant::now(rt).ok();
    for _ in rt.forever() {
        if ends_within(rt, ended, pause) {
            return;
        }
        let now = Instant::now(rt).ok();
        let is_due = shared.turn.is_none() || is_past(last, now, period);
        if is_due {
            last = now;
        }
        look(rt, alloc, shared, is_due, &mut warned);
    }
    // `forever` has no end.
    unreachable!()
}

/// Whether so much time lies between the two, as far as the clock says.
fn is_past(last: Option<Instant>, now: Option<Instant>, period: Duration) -> bool {
    match (last, now) {
        (Some(last), Some(now)) => now.saturating_duration_since(last) >= period,
        _ => true,
    }
}

/// Waits so long, or until it is ended. Returns whether it is.
fn ends_within<T: Wait + time::Clock>(rt: &T, ended: &Receiver<()>, pause: Duration) -> bool {
    match ended.recv_timeout(rt, pause) {
        Err(RecvTimeoutError::Timeout) => false,
        Ok(()) | Err(RecvTimeoutError::Disconnected) => true,
    }
}

/// Looks at them once. Where they are due, it warns of what is nearly spent, and prints them.
fn look<J: ServiceNames, T: Host>(
    rt: &T,
    alloc: Global,
    shared: &Arc<Shared<J, T>, Global>,
    is_due: bool,
    warned: &mut Warned,
) {
    if let Some(turn) = &shared.turn
        // Without memory, or where a partition's thread has ended, there are none this time.
        && let Ok(loads) = shared.gauge.loads(rt)
        && turn.is_due(&loads)
    {
        turn.begin();
    }
    if is_due && let Ok(parts) = shared.gauge.figures(rt) {
        let connections = &shared.connections;
        let figures = figures_of(rt, &shared.gauge, connections, parts);
        let _ = warned.warn(rt, alloc, connections, shared.turn.is_some(), &figures);
        if shared.stats > 0
            && let Ok(loads) = shared.gauge.loads(rt)
        {
            print(rt, alloc, connections, &figures, &loads);
        }
    }
}

fn figures_of<J: ServiceNames, T: Wait>(
    rt: &T,
    gauge: &Gauge<J>,
    connections: &Connections,
    parts: Vec<Figures>,
) -> ServiceFigures {
    let totals = gauge.totals(rt);
    // Those that have ended first: each of them has begun.
    let ended = connections.ended();
    let begun = connections.begun();
    ServiceFigures {
        connected: begun.saturating_sub(ended),
        begun,
        most: connections.most(),
        parts,
        audits: Counted {
            succeeded: totals.audit_ok,
            failed: totals.audit_failed,
        },
        alarms: Counted {
            succeeded: totals.alarm_ok,
            failed: totals.alarm_failed,
        },
    }
}

/// Prints the figures, unless what was to be printed before still waits: then nobody reads it.
fn print<T: Wait + time::Clock>(
    rt: &T,
    alloc: Global,
    connections: &Connections,
    figures: &ServiceFigures,
    loads: &[Load],
) {
    let notices = &connections.notices;
    if let Ok(line) = write_figures(alloc, figures)
        && let Ok(line) = String::from_utf8(line)
        && let Ok(line) = completed(rt, alloc, notices.are_dated(), loads, line)
    {
        notices.send_if_read(rt, Notice::Figures(line));
    }
}

/// The line of figures, with the bytes and the moment in their places among the keys, where a line says when.
///
/// # Errors
///
/// `AllocError`.
fn completed<T: time::Clock>(
    rt: &T,
    alloc: Global,
    is_dated: bool,
    loads: &[Load],
    line: String,
) -> Result<String, AllocError> {
    match parts_of(&line) {
        Some((notes, marks, versions)) if is_dated => {
            let (at, bytes) = (now(rt), bytes_text(alloc, loads)?);
            format!(in alloc;
                "{notes},\"bytes\":[{bytes}],\"connections\":{marks},\"time\":\"{at:.3}\",\"versions\":{versions}"
            )
        }
        _ => Ok(line),
    }
}

/// What stands before the connections, from there to the versions, and from these on.
fn parts_of(line: &str) -> Option<(&str, &str, &str)> {
    let (notes, behind) = line.split_once(",\"connections\":")?;
    let (marks, versions) = behind.split_once(",\"versions\":")?;
    Some((notes, marks, versions))
}

/// About how many bytes the writes take, a number for each partition.
fn bytes_text(alloc: Global, loads: &[Load]) -> Result<String, AllocError> {
    let mut text = String::new(alloc);
    for load in loads {
        let comma = if text.is_empty() { "" } else { "," };
        let bytes = load.bytes;
        text.push_str(&format!(in alloc; "{comma}{bytes}")?)?;
    }
    Ok(text)
}

impl Warned {
    /// Warns once of each thing that is nearly spent, unless the epoch turns before that.
    ///
    /// # Errors
    ///
    /// `AllocError`. It warns the next time.
    fn warn<T: Wait + time::Clock>(
        &mut self,
        rt: &T,
        alloc: Global,
        connections: &Connections,
        has_turn: bool,
        figures: &ServiceFigures,
    ) -> Result<(), AllocError> {
        for (part, has) in figures.parts.iter().enumerate() {
            let made = has.marks.saturating_add(has.pending);
            if !has_turn && is_nearly_spent(made, has.limit) && !self.parts.contains(&part) {
                self.parts.push(part)?;
                let limit = has.limit;
                let text = format!(in alloc; "partition {part}: {made} of {limit} marks")?;
                connections.notices.send(rt, Notice::Warning(text));
            }
        }
        let (counted, most) = (connections.counted(), connections.most());
        if is_nearly_spent(counted, most) && !connections.is_unlimited() && !self.connections {
            let text = format!(in alloc; "{counted} of {most} connections")?;
            self.connections = true;
            connections.notices.send(rt, Notice::Warning(text));
        }
        Ok(())
    }
}

/// Whether nine tenths are made of what there may be. Of less than a hundred nobody is warned: who sets so low a limit
/// wants it reached.
fn is_nearly_spent(made: u64, most: u64) -> bool
    ensures { IsTrue result ↔ ((100 ≤ most) × (9 * most ≤ 10 * made)) }
{
    most >= 100 && 9 * u128::from(most) <= 10 * u128::from(made)
}
