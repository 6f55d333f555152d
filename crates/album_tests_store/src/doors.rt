//! A gate that holds each of four partitions at every message, until it is let take it.
use crate::scripts::Who;
use album_threads::Gate;
use std::alloc::Global;
use std::sync::Arc;
use std::sync::atomic::{AtomicBool, AtomicU64, Ordering};
use std::thread;

/// What a partition has come to, and what it may do. Each of these numbers only grows.
#[derive(Drop)]
pub struct Door {
    /// One more than the number of the message that it took last out of its mailbox.
    pub come: AtomicU64,
    /// It may do what messages of numbers below this one ask.
    pub open: AtomicU64,
    /// How many messages it has done, with the replies to them sent.
    pub done: AtomicU64,
}

impl Door {
    fn new() -> Door {
        Door {
            come: AtomicU64::new(0),
            open: AtomicU64::new(0),
            done: AtomicU64::new(0),
        }
    }
}

/// The doors of four partitions, and how many asks amy and bo may have made.
#[derive(Drop)]
pub struct Doors {
    zero: Door,
    one: Door,
    two: Door,
    three: Door,
    amy: AtomicU64,
    bo: AtomicU64,
    /// Whether someone gave up waiting. Then nobody waits any more.
    gave_up: AtomicBool,
}

impl Doors {
    pub fn new() -> Doors {
        Doors {
            zero: Door::new(),
            one: Door::new(),
            two: Door::new(),
            three: Door::new(),
            amy: AtomicU64::new(0),
            bo: AtomicU64::new(0),
            gave_up: AtomicBool::new(false),
        }
    }

    /// The door of the partition.
    pub fn door(&self, part: u16) -> &Door {
        match part {
            0 => &self.zero,
            1 => &self.one,
            2 => &self.two,
            _ => &self.three,
        }
    }

    /// How many asks they may have made.
    pub fn asks(&self, who: Who) -> &AtomicU64 {
        match who {
            Who::Amy => &self.amy,
            Who::Bo => &self.bo,
        }
    }

    pub fn has_given_up(&self) -> bool {
        self.gave_up.load(Ordering::SeqCst)
    }

    /// Waits until the number is so great. It gives up after some ten seconds.
    pub fn wait(&self, number: &AtomicU64, least: u64) {
        for _ in 0..20_000_000u32 {
            if number.load(Ordering::SeqCst) >= least || self.has_given_up() {
                return;
            }
            thread::yield_now();
        }
        self.gave_up.store(true, Ordering::SeqCst);
    }
}

/// Holds a partition at its door.
#[derive(Drop)]
pub struct Held {
    pub doors: Arc<Doors, Global>,
}

impl Gate for Held {
    fn enter(&self, part: u16, number: u64) {
        let doors: &Doors = &self.doors;
        let door = doors.door(part);
        let next = number.wrapping_add(1);
        door.come.store(next, Ordering::SeqCst);
        doors.wait(&door.open, next);
    }

    fn leave(&self, part: u16, number: u64) {
        let doors: &Doors = &self.doors;
        let door = doors.door(part);
        door.done.store(number.wrapping_add(1), Ordering::SeqCst);
    }
}
