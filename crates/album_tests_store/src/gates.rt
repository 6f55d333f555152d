//! Gates for the tests of sessions: one that counts, and others that hold partitions until something else has happened.
use album_threads::Gate;
use std::alloc::Global;
use std::sync::Arc;
use std::sync::atomic::{AtomicBool, AtomicU64, Ordering};
use std::thread;

/// Waits until the number is so great, and says whether it is. It gives up after some seconds.
fn comes_to(number: &AtomicU64, least: u64) -> bool {
    for _ in 0..1_000_000u32 {
        if number.load(Ordering::SeqCst) >= least {
            return true;
        }
        thread::yield_now();
    }
    false
}

/// How many messages partitions 0 and 2 of three took.
#[derive(Drop)]
pub struct Counts {
    zero: AtomicU64,
    two: AtomicU64,
}

impl Counts {
    pub fn new() -> Counts {
        Counts {
            zero: AtomicU64::new(0),
            two: AtomicU64::new(0),
        }
    }

    /// How many messages partition 0 and partition 2 took so far.
    pub fn so_far(&self) -> (u64, u64) {
        let zero = self.zero.load(Ordering::SeqCst);
        (zero, self.two.load(Ordering::SeqCst))
    }

    /// How many more they took since they had taken so many.
    pub fn since(&self, before: (u64, u64)) -> (u64, u64) {
        let now = self.so_far();
        (now.0.wrapping_sub(before.0), now.1.wrapping_sub(before.1))
    }

    /// Counts the message of this number, which the partition takes.
    fn take(&self, part: u16, number: u64) {
        match part {
            0 => count(&self.zero, number),
            2 => count(&self.two, number),
            _ => {}
        }
    }
}

/// Counts the messages that are taken, where each has the number of those before it.
#[derive(Drop)]
pub struct Counting {
    pub counts: Arc<Counts, Global>,
}

/// Counts one more message, if this is its number.
fn count(counter: &AtomicU64, number: u64) {
    if counter.load(Ordering::SeqCst) == number {
        counter.fetch_add(1, Ordering::SeqCst);
    }
}

impl Gate for Counting {
    fn enter(&self, part: u16, number: u64) {
        self.counts.take(part, number);
    }

    fn leave(&self, _part: u16, _number: u64) {}
}

/// Whether partitions 0 and 1 took their first messages, and whether one of them gave up the other.
#[derive(Drop)]
pub struct Entered {
    /// 1 once partition 0 has taken its first message, and so on.
    zero: AtomicU64,
    one: AtomicU64,
    gave_up: AtomicBool,
}

impl Entered {
    pub fn new() -> Entered {
        Entered {
            zero: AtomicU64::new(0),
            one: AtomicU64::new(0),
            gave_up: AtomicBool::new(false),
        }
    }

    /// Whether both took their first messages, and neither gave up the other.
    pub fn at_once(&self) -> bool {
        self.zero.load(Ordering::SeqCst) == 1
            && self.one.load(Ordering::SeqCst) == 1
            && !self.gave_up.load(Ordering::SeqCst)
    }

    /// Says that one of them is here, and waits for the other.
    fn wait(&self, here: &AtomicU64, other: &AtomicU64) {
        here.store(1, Ordering::SeqCst);
        if !comes_to(other, 1) {
            self.gave_up.store(true, Ordering::SeqCst);
        }
    }
}

/// Lets partitions 0 and 1 continue with their first messages once both have taken theirs.
#[derive(Drop)]
pub struct Together {
    pub entered: Arc<Entered, Global>,
}

impl Gate for Together {
    fn enter(&self, part: u16, number: u64) {
        let entered: &Entered = &self.entered;
        match (part, number) {
            (0, 0) => entered.wait(&entered.zero, &entered.one),
            (1, 0) => entered.wait(&entered.one, &entered.zero),
            _ => {}
        }
    }

    fn leave(&self, _part: u16, _number: u64) {}
}

/// How far a read and a write have come, which run side by side.
#[derive(Drop)]
pub struct Overtakes {
    /// 1 once partition 2 has come to the last message of amy's reads.
    amy: AtomicU64,
    /// How many messages partition 0 has taken.
    zero: AtomicU64,
    gave_up: AtomicBool,
}

impl Overtakes {
    pub fn new() -> Overtakes {
        Overtakes {
            amy: AtomicU64::new(0),
            zero: AtomicU64::new(0),
            gave_up: AtomicBool::new(false),
        }
    }

    /// Whether somebody has waited in vain.
    pub fn has_given_up(&self) -> bool {
        self.gave_up.load(Ordering::SeqCst)
    }

    /// Waits until partition 2 has come to the last message of amy's reads.
    pub fn wait_for_amy(&self) {
        self.wait_for(&self.amy, 1);
    }

    /// Waits until partition 0 has taken so many messages.
    fn wait_for_zero(&self, count: u64) {
        self.wait_for(&self.zero, count);
    }

    fn wait_for(&self, number: &AtomicU64, least: u64) {
        if !comes_to(number, least) {
            self.gave_up.store(true, Ordering::SeqCst);
        }
    }
}

/// Has a write commit between the rounds of a read. Partition 2 is held at the last of amy's reads until bo has read
/// the picture at partition 0 in the first round of his last read: the messages 8 and 9 there. Then it is held at bo's
/// list, until amy's new title is prepared and committed at partition 0: the messages 10 and 11.
#[derive(Drop)]
pub struct Overtaking {
    pub overtakes: Arc<Overtakes, Global>,
}

impl Gate for Overtaking {
    fn enter(&self, part: u16, number: u64) {
        let overtakes: &Overtakes = &self.overtakes;
        match (part, number) {
            (2, 1) => {
                overtakes.amy.store(1, Ordering::SeqCst);
                overtakes.wait_for_zero(10);
            }
            (2, 2) => overtakes.wait_for_zero(12),
            _ => {}
        }
    }

    fn leave(&self, part: u16, number: u64) {
        if part == 0 {
            self.overtakes
                .zero
                .store(number.wrapping_add(1), Ordering::SeqCst);
        }
    }
}

/// How many messages partitions took while something is held: a write between its two rounds, or a mail on its way.
#[derive(Drop)]
pub struct Hold {
    pub counts: Counts,
    /// 1 once it may continue.
    released: AtomicU64,
    gave_up: AtomicBool,
}

impl Hold {
    pub fn new() -> Hold {
        Hold {
            counts: Counts::new(),
            released: AtomicU64::new(0),
            gave_up: AtomicBool::new(false),
        }
    }

    /// Waits until partitions 0 and 2 have taken so many messages.
    pub fn wait_for(&self, zero: u64, two: u64) {
        if !(comes_to(&self.counts.zero, zero) && comes_to(&self.counts.two, two)) {
            self.gave_up.store(true, Ordering::SeqCst);
        }
    }

    /// Lets it continue.
    pub fn release(&self) {
        self.released.store(1, Ordering::SeqCst);
    }

    /// Whether somebody has waited in vain.
    pub fn has_given_up(&self) -> bool {
        self.gave_up.load(Ordering::SeqCst)
    }

    /// Waits until it is released.
    pub fn wait(&self) {
        if !comes_to(&self.released, 1) {
            self.gave_up.store(true, Ordering::SeqCst);
        }
    }
}

/// Counts the messages, and holds none.
#[derive(Drop)]
pub struct Watching {
    pub hold: Arc<Hold, Global>,
}

impl Gate for Watching {
    fn enter(&self, part: u16, number: u64) {
        self.hold.counts.take(part, number);
    }

    fn leave(&self, _part: u16, _number: u64) {}
}

/// Counts the messages, and holds partition 2 at its message 1 until the write is released.
#[derive(Drop)]
pub struct Holding {
    pub hold: Arc<Hold, Global>,
}

impl Gate for Holding {
    fn enter(&self, part: u16, number: u64) {
        let hold: &Hold = &self.hold;
        hold.counts.take(part, number);
        if (part, number) == (2, 1) {
            hold.wait();
        }
    }

    fn leave(&self, _part: u16, _number: u64) {}
}
