//! What the thread that accepts connections waits for: a connection, or to be woken by another thread.
use crate::resumed::Peer;
use album_stamps::Refusal;
use album_threads::Gate;
use mio::unix::SourceFd;
use mio::{Events, Interest, Poll, Token};
use std::alloc::Global;
use std::io;
use std::net::{IpAddr, Ipv4Addr, Net, SocketAddr, TcpListener};
use std::os::fd::AsRawFd;
use std::sync::Arc;
use std::time::Duration;

/// What tells a connection from a wake-up. Both are looked for after either.
const COMES: Token = Token(0);

const WOKEN: Token = Token(1);

/// How many of them are told of at once.
const TOLD: usize = 4;

/// A port at which the service listens, and the wait for whoever comes there.
#[derive(Drop)]
pub(crate) struct Door {
    listener: TcpListener,
    poll: Poll,
    events: Events<Global>,
    /// Whether it was woken as it looked for somebody: that ends its next wait.
    is_woken: bool,
}

/// Ends a wait at the door, from any thread.
#[derive(Drop)]
pub(crate) struct Waker {
    of: Arc<mio::Waker, Global>,
}

impl Door {
    /// Listens at the port of 127.0.0.1.
    ///
    /// # Errors
    ///
    /// Where the port can't be had, or there are no files or no memory.
    pub(crate) fn open<T: Net>(rt: &T, alloc: Global, port: u16) -> io::Result<(Door, Waker)> {
        let listener = TcpListener::from(mio::net::TcpListener::bind(rt, local(port))?);
        let poll = Poll::new(rt)?;
        let number = listener.as_raw_fd();
        poll.registry()
            .register(&mut SourceFd(&number), COMES, Interest::READABLE)?;
        let waker = mio::Waker::new(poll.registry(), WOKEN)?;
        let door = Door {
            listener,
            poll,
            events: Events::with_capacity(alloc, TOLD)?,
            is_woken: false,
        };
        let of = Arc::new(alloc, waker)?;
        Ok((door, Waker { of }))
    }

    /// Whoever has come next.
    ///
    /// # Errors
    ///
    /// `WouldBlock`, where nobody has; else where a connection fails to come.
    pub(crate) fn accept(&self) -> io::Result<Peer> {
        let (stream, from) = self.listener.accept()?;
        Ok(Peer::new(stream, address_of(from.ip())))
    }

    /// Whether somebody waits to be accepted. Where no file is left, `accept` fails also where nobody does.
    ///
    /// # Errors
    ///
    /// Where that can't be known.
    pub(crate) fn has_somebody(&mut self) -> io::Result<bool> {
        // Whoever came earlier is told of anew.
        let number = self.listener.as_raw_fd();
        self.poll
            .registry()
            .reregister(&mut SourceFd(&number), COMES, Interest::READABLE)?;
        self.poll.poll(&mut self.events, Some(Duration::ZERO))?;
        if self.events.iter().any(|event| event.token() == WOKEN) {
            self.is_woken = true;
        }
        Ok(self.events.iter().any(|event| event.token() == COMES))
    }

    /// Waits until somebody comes or wakes it, or so long.
    ///
    /// # Errors
    ///
    /// Where the wait fails.
    pub(crate) fn wait(&mut self, most: Option<Duration>) -> io::Result<()> {
        if self.is_woken {
            self.is_woken = false;
            return Ok(());
        }
        self.poll.poll(&mut self.events, most)
    }
}

impl Waker {
    /// The same once more.
    ///
    /// # Errors
    ///
    /// `OutOfMemory`.
    pub(crate) fn copy(&self) -> Result<Waker, Refusal> {
        Ok(Waker {
            of: Arc::try_clone(&self.of)?,
        })
    }

    /// Ends the wait, or else the next.
    pub(crate) fn wake(&self) {
        let _ = self.of.wake();
    }
}

/// A gate that holds nothing up. Where a partition's thread or the log fails, the thread that accepts is woken, and
/// finds the service broken then.
impl Gate for Waker {
    fn is_open(&self) -> bool {
        true
    }

    fn enter(&self, _part: u16, _number: u64) {}

    fn leave(&self, _part: u16, _number: u64) {}

    fn fail(&self, _part: u16) {
        self.wake();
    }

    fn fail_log(&self) {
        self.wake();
    }
}

/// The number of the address. One that has more bits, as none at this port has, counts as 0.
fn address_of(ip: IpAddr) -> u32 {
    match ip {
        IpAddr::V4(ip) => ip.to_bits(),
        IpAddr::V6(_) => 0,
    }
}

/// The port of 127.0.0.1.
fn local(port: u16) -> SocketAddr {
    SocketAddr::new(IpAddr::V4(Ipv4Addr::new(127, 0, 0, 1)), port)
}
