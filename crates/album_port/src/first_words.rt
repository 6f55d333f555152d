//! What a connection says until it has said who it is: how long that may take, and what it may not be.
use crate::connections::Connections;
use crate::incoming::Incoming;
use crate::resumed::{Peer, Resumed};
use album_eval::Principal;
use album_judge::Fault;
use album_stamps::{ClientNo, Refusal};
use album_talk::{AskWord, Ending, Journal};
use album_threads::{ServiceNames, Session};
use std::alloc::{AllocError, Global};
use std::io::{ErrorKind, Read};
use std::sync::atomic::{AtomicBool, Ordering};
use std::sync::{Mutex, Wait};
use std::time::{Duration, Instant};
use std::{io, time};

/// Who talks over a connection, once it has said that.
#[derive(Drop)]
pub(crate) struct Said {
    has_said: AtomicBool,
    who: Mutex<Option<Principal>>,
}

impl Said {
    /// Nothing has been said.
    pub(crate) fn new() -> Said {
        Said {
            has_said: AtomicBool::new(false),
            who: Mutex::new(None),
        }
    }

    fn is_known(&self) -> bool {
        self.has_said.load(Ordering::SeqCst)
    }

    /// It is this one. Without memory it stays unnamed.
    fn is<T: Wait>(&self, rt: &T, who: &Principal) {
        self.has_said.store(true, Ordering::SeqCst);
        *self.who.lock(rt) = who.copy().ok();
    }

    /// The text of who it is, or that nobody knows.
    ///
    /// # Errors
    ///
    /// `AllocError`.
    pub(crate) fn text<T: Wait>(&self, rt: &T, alloc: Global) -> Result<String, AllocError> {
        match &*self.who.lock(rt) {
            None => String::from_str(alloc, "nobody yet"),
            Some(Principal::Anonymous) => String::from_str(alloc, "ANONYMOUS@"),
            Some(Principal::User(name) | Principal::Root(name)) => {
                let name = name.as_str();
                format!(in alloc; "{name}@users")
            }
        }
    }
}

/// Reads a connection. Until it has said who it is, it is read until that time alone, and no further than a first line
/// that begins like a request of HTTP.
#[derive(Drop)]
pub(crate) struct FirstWords<'a, T> {
    pub rt: T,
    pub peer: &'a Peer,
    pub incoming: &'a mut Incoming,
    /// Whether it has said who it is.
    pub said: &'a Said,
    /// How long it may say nothing afterwards.
    pub idle: Option<Duration>,
}

impl<'a, T> FirstWords<'a, T> {
    /// Of what comes from the peer.
    pub(crate) fn new(
        rt: T,
        peer: &'a Peer,
        incoming: &'a mut Incoming,
        said: &'a Said,
        idle: Option<Duration>,
    ) -> FirstWords<'a, T> {
        FirstWords {
            rt,
            peer,
            incoming,
            said,
            idle,
        }
    }
}

impl<T: Wait + time::Clock + Copy> Read for FirstWords<'_, T> {
    fn read(&mut self, buf: &mut [u8]) -> io::Result<usize> {
        let mut from = Resumed {
            rt: self.rt,
            stream: &self.peer.stream,
        };
        if self.incoming.first.is_request() {
            return Err(io::Error::from(ErrorKind::InvalidData));
        }
        if self.said.is_known() {
            self.lift_limit();
            return from.read(buf);
        }
        self.limit()?;
        let len = from.read(buf)?;
        match buf.get(..len) {
            Some(piece) => Ok(self.incoming.first.admit(piece)),
            None => Ok(len),
        }
    }
}

impl<T: Wait + time::Clock + Copy> FirstWords<'_, T> {
    /// Whether something of the epoch before is read again.
    pub(crate) fn has_rest(&self) -> bool {
        self.incoming.has_rest()
    }

    /// The next read ends by the limit, or by the one of each silence, whichever comes first.
    ///
    /// # Errors
    ///
    /// `TimedOut`, where the limit has passed.
    fn limit(&self) -> io::Result<()> {
        let Some(until) = self.incoming.until else {
            return Ok(());
        };
        let left = until.saturating_duration_since(Instant::now(&self.rt)?);
        if left.is_zero() {
            return Err(io::Error::from(ErrorKind::TimedOut));
        }
        let most = match self.idle {
            Some(idle) => left.min(idle),
            None => left,
        };
        self.peer.stream.set_read_timeout(Some(most))
    }

    /// From now on each silence alone is limited.
    fn lift_limit(&mut self) {
        if self.incoming.until.take().is_some() {
            let _ = self.peer.stream.set_read_timeout(self.idle);
        }
    }
}

/// A journal that notes when a connection has said who it is: it is told before each answer.
#[derive(Drop)]
pub(crate) struct Hearing<'a, A> {
    pub journal: &'a A,
    pub connections: &'a Connections,
    /// The connection's number.
    pub number: u64,
    pub said: &'a Said,
}

impl<A: Journal> Journal for Hearing<'_, A> {
    ghost use Rattle.std.specs.Prelude.{⊤};

    ghost recorded = { λ _ _ _. ⊤ };

    fn begin<T: Wait>(
        &self,
        rt: &T,
        client: ClientNo,
        who: &Principal,
        ask: AskWord,
    ) -> Result<(), Refusal> {
        self.journal.begin(rt, client, who, ask)
    }

    fn settle<J: ServiceNames, T: Wait>(
        &self,
        rt: &T,
        session: &Session<J>,
        who: Option<&Principal>,
        ending: Option<Ending>,
    ) -> Result<(), Fault> {
        if let Some(who) = who
            && !self.said.is_known()
        {
            self.said.is(rt, who);
            self.connections.name(rt, self.number);
        }
        self.journal.settle(rt, session, who, ending)
    }
}
