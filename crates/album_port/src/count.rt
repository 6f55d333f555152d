//! What the thread that accepts connections knows of those that came and of those that didn't, and what it does about
//! that: who is told, who is ended, and how long it waits.
use crate::connections::Connections;
use crate::failing::Failing;
use crate::notices::Notice;
use crate::one_epoch::Shared;
use crate::port::Host;
use crate::waker::Door;
use album_stamps::Refusal;
use album_threads::ServiceNames;
use std::alloc::Global;
use std::net::Ipv4Addr;
use std::sync::Wait;
use std::time::{Duration, Instant};
use std::{io, thread, time};

/// How many milliseconds the thread that accepts sleeps, where a connection can't be had.
const NAP: u64 = 10;

/// How often it sleeps so after a connection failed to come, unless one has ended meanwhile.
const NAPS: u32 = 10;

/// How many seconds lie between two times that it is said that an address has as many as it may have.
const CROWDED: u64 = 60;

/// Linux's numbers for want of files: the process's, and the machine's.
const OF_PROCESS: i32 = 24;

const OF_MACHINE: i32 = 23;

/// How many milliseconds an epoch that turns waits for a client that takes no answer.
const STALL: u64 = 1_000;

/// What is known of the connections that came, in an epoch.
#[derive(Drop)]
pub(crate) struct Count {
    /// How many were counted.
    counted: u16,
    /// How many had ended as one last failed to come, and as one last gave way.
    failed_at: Option<u64>,
    gave_way_at: Option<u64>,
    /// Where the service is closed: when those that are open are ended, and whether they are.
    until: Option<Instant>,
    is_cut: bool,
    /// Where the epoch turns: when stalled ones are looked for, and how often they were since it began to turn.
    look_at: Option<Instant>,
    looks: u32,
    /// Whether it was said that no more are served.
    has_said: bool,
    /// When it was last said that an address has as many as it may have.
    crowded_at: Option<Instant>,
    failing: Failing,
    /// Whether no session could be opened for a minute.
    is_spent: bool,
}

impl Count {
    /// Nobody has come.
    pub(crate) fn new() -> Count {
        Count {
            counted: 0,
            failed_at: None,
            gave_way_at: None,
            until: None,
            is_cut: false,
            look_at: None,
            looks: 0,
            has_said: false,
            crowded_at: None,
            failing: Failing::new(),
            is_spent: false,
        }
    }

    /// One more has come that counts.
    pub(crate) fn come(&mut self) {
        self.counted = self.counted.saturating_add(1);
    }

    /// Whether no session could be opened for a minute.
    pub(crate) fn is_spent(&self) -> bool {
        self.is_spent
    }

    /// The epoch doesn't turn now.
    pub(crate) fn put_off(&mut self) {
        self.look_at = None;
        self.looks = 0;
    }

    /// Whether as many have come as are served. Where the service doesn't end by their number, those count that have
    /// said who they are, and else those that failed to come too.
    pub(crate) fn is_full<J: ServiceNames, T: Host>(&self, shared: &Shared<J, T>) -> bool {
        if shared.limits.until_closed {
            let connections = &shared.connections;
            return !connections.is_unlimited() && connections.counted() >= connections.most();
        }
        self.counted >= shared.limits.conns
    }

    /// Says once that no more are served, unless the service is closed.
    pub(crate) fn say_full<T: Wait + time::Clock>(
        &mut self,
        rt: &T,
        alloc: Global,
        connections: &Connections,
    ) {
        if self.has_said || !connections.notices.are_dated() || connections.is_closed(rt) {
            return;
        }
        let most = connections.most();
        if let Ok(text) = format!(in alloc;
            "{most} of {most} connections have come: whoever comes now is refused"
        ) {
            self.has_said = true;
            connections.notices.send(rt, Notice::Warning(text));
        }
    }

    /// Says that the address has as many connections as it may have, at most once a minute.
    pub(crate) fn say_crowded<T: Wait + time::Clock>(
        &mut self,
        rt: &T,
        alloc: Global,
        connections: &Connections,
        address: u32,
    ) {
        let now = Instant::now(rt).ok();
        if let (Some(said), Some(now)) = (self.crowded_at, now)
            && now.saturating_duration_since(said) < Duration::from_secs(CROWDED)
        {
            return;
        }
        let address = Ipv4Addr::from_bits(address);
        if connections.notices.are_dated()
            && let Ok(text) = format!(in alloc;
                "{address} has as many connections as it may have: whoever comes from there is refused"
            )
        {
            self.crowded_at = now;
            connections.notices.send(rt, Notice::Warning(text));
        }
    }

    /// A session was opened for a connection, or why not. Where none can be for a minute, that is said, and the service
    /// ends: those that are open are read to the end of what has come.
    pub(crate) fn note<J: ServiceNames, T: Host>(
        &mut self,
        rt: &T,
        shared: &Shared<J, T>,
        opened: Result<(), Refusal>,
    ) {
        if opened.is_ok() {
            self.failing.end();
        }
        if !shared.limits.until_closed || !matches!(opened, Err(Refusal::OutOfMemory)) {
            return;
        }
        if let Ok(now) = Instant::now(rt)
            && self.failing.fail(now)
            && !self.is_spent
        {
            self.is_spent = true;
            shared.connections.notices.send(rt, Notice::NoSession);
            shared.connections.close(rt);
        }
    }

    /// Ends the connections that are open still, where the service was closed so long ago as they are given.
    pub(crate) fn cut_late<J: ServiceNames, T: Host>(&mut self, rt: &T, shared: &Shared<J, T>) {
        let (Some(grace), Ok(now)) = (shared.limits.grace, Instant::now(rt)) else {
            return;
        };
        let until = self.until;
        match until {
            None => self.until = now.checked_add(grace),
            Some(until) if now >= until && !self.is_cut => {
                self.is_cut = true;
                shared.connections.cut(rt);
                shared.journal.give_up(rt);
            }
            Some(_) => {}
        }
    }

    /// Whether the epoch that turns has waited as long as one client may hold it up.
    pub(crate) fn has_waited(&self) -> bool {
        self.looks > 1
    }

    /// The epoch turns, and waits for what is still to be answered, but not for a client that takes no answer.
    pub(crate) fn await_quiet<T: Host>(
        &mut self,
        rt: &T,
        door: &mut Door,
        connections: &Connections,
    ) {
        let now = Instant::now(rt).ok();
        let until = self.look_at;
        match (until, now) {
            (Some(until), Some(now)) if now < until => {}
            _ => {
                connections.cut_stalled(rt);
                self.looks = self.looks.saturating_add(1);
                self.look_at = now.and_then(|now| now.checked_add(Duration::from_millis(STALL)));
            }
        }
        wait(rt, door, Some(Duration::from_millis(NAP)));
    }

    /// How long the thread that accepts may wait: until they are ended, if they are to be.
    pub(crate) fn left<T: time::Clock>(&self, rt: &T) -> Option<Duration> {
        if self.is_cut {
            return None;
        }
        let (Some(until), Ok(now)) = (self.until, Instant::now(rt)) else {
            return None;
        };
        Some(until.saturating_duration_since(now))
    }

    /// A connection fails to come. It counts, unless the one before failed too and none has ended since: where there
    /// are no more files to be had, waiting for an end is all that helps.
    pub(crate) fn fail<T: Wait + time::Clock>(&mut self, rt: &T, connections: &Connections) {
        let ended = connections.ended();
        if self.failed_at != Some(ended) {
            self.failed_at = Some(ended);
            self.come();
        }
        await_end(rt, connections, ended);
    }

    /// No file is left. Where somebody waits to be taken, the oldest that hasn't said who it is gives way, and the next
    /// one once that has ended.
    pub(crate) fn make_room<T: Wait + time::Clock>(
        &mut self,
        rt: &T,
        door: &mut Door,
        connections: &Connections,
    ) {
        if !door.has_somebody().unwrap_or(true) {
            wait(rt, door, self.left(rt));
            return;
        }
        let ended = connections.ended();
        if self.gave_way_at != Some(ended) && connections.give_way(rt) {
            self.gave_way_at = Some(ended);
        }
        await_end(rt, connections, ended);
    }
}

/// Sleeps until a connection ends of which so many had ended, but not long.
fn await_end<T: time::Clock>(rt: &T, connections: &Connections, ended: u64) {
    for _ in 0..NAPS {
        sleep(rt);
        if connections.ended() != ended {
            return;
        }
    }
}

/// Whether a file couldn't be had, since the process or the machine has as many open as it may have.
pub(crate) fn is_want_of_files(error: &io::Error) -> bool {
    matches!(error.raw_os_error(), Some(OF_PROCESS | OF_MACHINE))
}

fn sleep<T: time::Clock>(rt: &T) {
    thread::sleep(rt, Duration::from_millis(NAP));
}

/// Waits until somebody comes or wakes it, or so long.
pub(crate) fn wait<T: time::Clock>(rt: &T, door: &mut Door, most: Option<Duration>) {
    if door.wait(most).is_err() {
        sleep(rt);
    }
}
