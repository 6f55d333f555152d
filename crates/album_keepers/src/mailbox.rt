//! Mailboxes: their mails, and how a thread waits for the next.
use crate::breakage::Breakage;
use crate::control::{ControlReply, ControlRequest};
use crate::envelopes::{ReplyEnvelope, RequestEnvelope};
use crate::load::Load;
use crate::names::DeskNames;
use album_partition::Figures;
use crossbeam_channel::{Receiver, RecvTimeoutError, Sender};
use std::alloc::Global;
use std::collections::VecDeque;
use std::hint::spin_loop;
use std::sync::Wait;
use std::time::{Duration, Instant};
use std::{thread, time};

/// How often a thread that waits lets others run and looks again, before it sleeps: some 50 microseconds, where no
/// other thread is to run. To be woken costs ten times what a message costs that comes meanwhile.
const LOOKS: u32 = 100;

/// How often it looks before it lets others run.
const GLANCES: u32 = 5;

/// How many microseconds it may take until a thread that lets others run is let run again. Where one that only computes
/// shares its processor it takes some thousands.
const LATE: u64 = 1_000;

/// How many milliseconds a session waits for a reply until it looks whether the service is broken.
const PATIENCE: u64 = 100;

/// How many times a thread that was let run late sleeps at once, before it looks again.
const NAPS: u32 = 256;

/// A mail to a partition. Large ones are boxed, since a mailbox moves what it takes.
#[derive(Drop)]
pub enum PartitionMail<J: DeskNames> {
    /// A session of this number begins, and takes its mails here.
    Register(u16, Sender<SessionMail<J>>),
    /// Messages of one session, or one of another partition: those of a round that go to this partition, in order.
    Envelopes(Vec<RequestEnvelope<J>>),
    /// A control request of a session.
    ControlRequest(Box<ControlRequest<J>, Global>),
    /// Asks for the figures of the partition, which are sent here.
    Figures(Sender<Figures>),
    /// Asks how much of its epoch the partition has taken up, which is sent here.
    Load(Sender<Load>),
    /// The session of this number is over.
    Forget(u16),
    /// The service closes.
    Leave,
}

/// A mail to a session.
#[derive(Drop)]
pub enum SessionMail<J: DeskNames> {
    /// The replies to the messages of one mail, in order.
    Replies(VecDeque<ReplyEnvelope<J>>),
    /// The reply to a control request.
    ControlReply(Box<ControlReply<J>, Global>),
    /// The partition had no memory for a message of the round of this tag, and has done nothing for it.
    OutOfMemory(u64),
}

/// Where a thread takes what lies in its mailbox.
pub struct Inbox<T> {
    from: Receiver<T>,
    /// How many times more it sleeps at once.
    naps: u32,
}

// By hand, so that what lets it go is proved here, and not again in each crate above.
impl<T: Drop> Drop for Inbox<T> {
    fn drop(self) {
        let Inbox { from, naps: _ } = self;
        drop(from);
    }
}

impl<T: Drop> Inbox<T> {
    /// What comes here.
    pub fn new(from: Receiver<T>) -> Inbox<T> {
        Inbox { from, naps: 0 }
    }

    /// What comes next, or `None` where all who could send it are gone.
    pub fn next<R: Wait + time::Clock>(&mut self, rt: &R) -> Option<T> {
        match self.look_or_nap(rt) {
            Some(message) => Some(message),
            None => self.from.recv(rt).ok(),
        }
    }

    /// What is there by now.
    pub fn next_there<R: Wait>(&mut self, rt: &R) -> Option<T> {
        self.from.try_recv(rt).ok()
    }

    /// The same, or `None` once the service is found broken.
    pub fn next_unless<R: Wait + time::Clock>(&mut self, rt: &R, breakage: &Breakage) -> Option<T> {
        if let Some(message) = self.look_or_nap(rt) {
            return Some(message);
        }
        for _ in rt.forever() {
            match self.from.recv_timeout(rt, Duration::from_millis(PATIENCE)) {
                Ok(message) => return Some(message),
                Err(RecvTimeoutError::Disconnected) => return None,
                Err(RecvTimeoutError::Timeout) => {
                    if breakage.is_set() {
                        return None;
                    }
                }
            }
        }
        // `forever` has no end.
        unreachable!()
    }

    /// What comes while it looks, unless it was let run late lately: then it sleeps at once.
    fn look_or_nap<R: Wait + time::Clock>(&mut self, rt: &R) -> Option<T> {
        if self.naps > 0 {
            self.naps -= 1;
            return None;
        }
        self.look(rt)
    }

    /// What comes while it looks. Once it is let run late, it gives up; so it does where the clock can't be read.
    fn look<R: Wait + time::Clock>(&mut self, rt: &R) -> Option<T> {
        let mut before = Instant::now(rt).ok()?;
        for _ in 0..LOOKS {
            if let Some(message) = self.glance(rt) {
                return Some(message);
            }
            thread::yield_now();
            let now = Instant::now(rt).ok()?;
            if now.duration_since(before) > Duration::from_micros(LATE) {
                self.naps = NAPS;
                return None;
            }
            before = now;
        }
        None
    }

    /// What is there, or comes at once.
    fn glance<R: Wait>(&self, rt: &R) -> Option<T> {
        for _ in 0..GLANCES {
            if let Ok(message) = self.from.try_recv(rt) {
                return Some(message);
            }
            spin_loop();
        }
        None
    }
}
