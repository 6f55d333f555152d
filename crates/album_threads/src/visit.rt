//! A service for the time of one visit. The type that names it (`J`) is picked here, and hidden. It is closed whatever
//! the visit returns.
ghost use Rattle.std.specs.Prelude.{◌≡◌};
ghost use Rattle.album_threads.specs.Opened.{opened_as};

use crate::opened::Opened;
use crate::service::Service;
use album_items::Opening;
use album_keepers::{Gate, MarkLog, NoLog, Open};
use album_sessions::ServiceNames;
use album_stamps::Refusal;
use std::alloc::Global;
use std::marker::Brand;
use std::sync::Wait;
use std::thread::Threads;
use std::time;

/// What is done with a running service, over the runtime `R`.
pub trait Visit<R>: Drop {
    type Answer;

    fn visit<J: ServiceNames + Send + Sync>(
        self,
        rt: &R,
        alloc: Global,
        service: &Service<J>,
    ) -> Self::Answer;
}

/// Opens a service for so many sessions, and at least one, has it visited, and closes it. What the visit returns is
/// given back, be it an error.
///
/// # Errors
///
/// As `Opened::new`, or `OutOfMemory`, also where a thread can't be had. Then there was no visit.
pub fn with_service<R, V>(
    rt: R,
    alloc: Global,
    opening: &Opening,
    sessions: u16,
    visit: V,
) -> Result<V::Answer, Refusal>
where
    R: Threads + Wait + time::Clock + Copy + Send + Sync + 'static,
    V: Visit<R>,
{
    let opened = Opened::new(alloc, opening, sessions.max(1))?;
    // `Open` is the gate that each message passes at once.
    with_opened(rt, alloc, opened, Open, visit)
}

/// The same with what was opened, and with a gate that each message passes.
///
/// # Errors
///
/// `OutOfMemory`, also where a thread can't be had.
pub fn with_opened<R, G, V>(
    rt: R,
    alloc: Global,
    opened: Opened,
    gate: G,
    visit: V,
) -> Result<V::Answer, Refusal>
where
    R: Threads + Wait + time::Clock + Copy + Send + Sync + 'static,
    G: Gate + Drop + Send + Sync + 'static,
    V: Visit<R>,
{
    visited_with::<NoLog, R, G, V>(rt, alloc, opened, gate, None, visit)
}

/// The same with a log: what is prepared is kept there before anybody hears of it.
///
/// # Errors
///
/// `OutOfMemory`, also where a thread can't be had.
pub fn with_logged<L, R, G, V>(
    rt: R,
    alloc: Global,
    opened: Opened,
    gate: G,
    log: L,
    visit: V,
) -> Result<V::Answer, Refusal>
where
    L: MarkLog + Drop + Send + 'static,
    R: Threads + Wait + time::Clock + Copy + Send + Sync + 'static,
    G: Gate + Drop + Send + Sync + 'static,
    V: Visit<R>,
{
    visited_with(rt, alloc, opened, gate, Some(log), visit)
}

/// The same with a log, if there is one.
fn visited_with<L, R, G, V>(
    rt: R,
    alloc: Global,
    opened: Opened,
    gate: G,
    log: Option<L>,
    visit: V,
) -> Result<V::Answer, Refusal>
where
    L: MarkLog + Drop + Send + 'static,
    R: Threads + Wait + time::Clock + Copy + Send + Sync + 'static,
    G: Gate + Drop + Send + Sync + 'static,
    V: Visit<R>,
{
    visited_as::<Brand, L, R, G, V>(rt, alloc, opened, gate, log, visit)
}

/// The same under the names J: of these `list` is the board's, and the last four are ledgers of the audit totals.
fn visited_as<J, L, R, G, V>(
    rt: R,
    alloc: Global,
    opened: Opened,
    gate: G,
    log: Option<L>,
    visit: V,
) -> Result<V::Answer, Refusal>
where
    J: ServiceNames + Send + Sync + 'static,
    L: MarkLog + Drop + Send + 'static,
    R: Threads + Wait + time::Clock + Copy + Send + Sync + 'static,
    G: Gate + Drop + Send + Sync + 'static,
    V: Visit<R>,
    requires named { opened ≡ opened_as J.table J.terms J.policy J.list
        J.audit_ok J.audit_failed J.alarm_ok J.alarm_failed }
{
    let service = Service::<J>::open_logged(rt, alloc, opened, gate, log)?;
    let answer = visit.visit(&rt, alloc, &service);
    service.close(&rt);
    Ok(answer)
}
