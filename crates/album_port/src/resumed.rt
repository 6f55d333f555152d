//! The stream of a connection, as its thread reads it and writes to it.

use std::io;
use std::io::{ErrorKind, Read, Write};
use std::net::TcpStream;
use std::sync::Wait;
use std::sync::atomic::{AtomicBool, AtomicU64, Ordering};

/// Whoever is at the other end of a connection.
#[derive(Drop)]
pub(crate) struct Peer {
    pub stream: TcpStream,
    /// The number of its address.
    pub address: u32,
    /// Whether something was read of it that isn't answered yet.
    pub is_busy: AtomicBool,
    /// How many writes to it have begun, and ended: an odd number while one is under way. And how many there were when
    /// somebody last looked.
    writes: AtomicU64,
    looked: AtomicU64,
}

impl Peer {
    /// Nothing was read.
    pub(crate) fn new(stream: TcpStream, address: u32) -> Peer {
        Peer {
            stream,
            address,
            is_busy: AtomicBool::new(false),
            writes: AtomicU64::new(0),
            looked: AtomicU64::new(0),
        }
    }

    /// Whether the write that is under way was so when somebody last looked.
    pub(crate) fn is_stalled(&self) -> bool {
        let writes = self.writes.load(Ordering::SeqCst);
        let before = self.looked.swap(writes, Ordering::SeqCst);
        writes == before && writes % 2 == 1
    }
}

/// A stream that makes an interrupted read again. Under Linux a read that has a time limit is interrupted where the
/// process was stopped and continues, and the connection has lost nothing by that.
#[derive(Drop)]
pub(crate) struct Resumed<'a, T> {
    pub rt: T,
    pub stream: &'a TcpStream,
}

impl<T: Wait> Read for Resumed<'_, T> {
    fn read(&mut self, buf: &mut [u8]) -> io::Result<usize> {
        let mut stream: &TcpStream = self.stream;
        for _ in self.rt.forever() {
            match stream.read(buf) {
                Err(error) if error.kind() == ErrorKind::Interrupted => {}
                ended => return ended,
            }
        }
        // `forever` has no end.
        unreachable!()
    }
}

/// What the answers are written to.
#[derive(Drop)]
pub(crate) struct Answered<'a> {
    pub peer: &'a Peer,
}

impl Write for Answered<'_> {
    fn write(&mut self, buf: &[u8]) -> io::Result<usize> {
        self.peer.writes.fetch_add(1, Ordering::SeqCst);
        let mut stream: &TcpStream = &self.peer.stream;
        let written = stream.write(buf);
        self.peer.writes.fetch_add(1, Ordering::SeqCst);
        written
    }

    fn flush(&mut self) -> io::Result<()> {
        let mut stream: &TcpStream = &self.peer.stream;
        stream.flush()
    }
}
