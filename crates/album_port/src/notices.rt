//! What is printed on standard error while a service runs. A thread of its own prints it, so that no connection waits
//! where nobody reads there.
use crate::moments::now;
use album_judge::Fault;
use album_stamps::Refusal;
use crossbeam_channel::{Receiver, Sender, unbounded};
use jiff::Timestamp;
use std::alloc::Global;
use std::io::ErrorKind;
use std::sync::{Arc, Mutex, Wait};
use std::thread::Threads;
use std::time::Duration;
use std::{fmt, io, str, thread, time};

/// How many seconds are given to what is still to be printed as the service ends.
const LAST: u64 = 1;

/// What is printed.
#[derive(Debug, Drop)]
pub(crate) enum Notice {
    /// A connection ended by a fault.
    Fault(Fault),
    /// A connection ended, since its first line begins like a request of HTTP.
    Http,
    /// A connection that hasn't said who it is was closed, since there were no more files for others.
    GaveWay,
    /// A connection has come for which no thread could be had.
    NoThread,
    /// No session could be opened for a minute.
    NoSession,
    /// The input has ended before anyone came.
    Ended,
    /// Why the service is about to end, or is soon to refuse.
    Warning(String),
    /// The figures of the service, a line.
    Figures(String),
}

impl fmt::Display for Notice {
    fn fmt<W: fmt::Write>(&self, f: &mut fmt::Formatter<W>) -> fmt::Result {
        match self {
            Notice::Fault(fault) => write!(f, "{fault}"),
            Notice::Http => f.write_str(
                "a request of HTTP came, and nothing after its first line was read",
            ),
            Notice::GaveWay => f.write_str("gave way to a newcomer"),
            Notice::NoSession => {
                f.write_str("no session could be opened for a minute, and the service ends")
            }
            Notice::NoThread => f.write_str("no thread could be had for it"),
            Notice::Ended => {
                f.write_str("standard input has ended before anyone came, and so does the service")
            }
            Notice::Warning(text) | Notice::Figures(text) => f.write_str(text),
        }
    }
}

/// A notice, when it came to be, where that is printed, and the connection that it is of.
#[derive(Drop)]
struct Line {
    at: Option<Timestamp>,
    of: Option<String>,
    notice: Notice,
}

/// Where what is to be printed is sent.
#[derive(Drop)]
pub(crate) struct Notices {
    to: Sender<Line>,
    /// Whether a line says when, and of which connection it is.
    is_dated: bool,
    /// Who holds it prints: so each line is whole.
    printing: Arc<Mutex<()>, Global>,
}

impl Notices {
    /// The same once more.
    ///
    /// # Errors
    ///
    /// `OutOfMemory`.
    pub(crate) fn copy(&self) -> Result<Notices, Refusal> {
        Ok(Notices {
            to: self.to.clone()?,
            is_dated: self.is_dated,
            printing: Arc::try_clone(&self.printing)?,
        })
    }

    /// Whether each line says when, and of which connection it is.
    pub(crate) fn are_dated(&self) -> bool {
        self.is_dated
    }

    /// Has the notice printed, some time.
    pub(crate) fn send<T: Wait + time::Clock>(&self, rt: &T, notice: Notice) {
        self.send_of(rt, None, notice);
    }

    /// The same, of this connection.
    pub(crate) fn send_of<T: Wait + time::Clock>(
        &self,
        rt: &T,
        of: Option<String>,
        notice: Notice,
    ) {
        let at = if self.is_dated { Some(now(rt)) } else { None };
        let _ = self.to.send(rt, Line { at, of, notice });
    }

    /// Prints these lines at once, when no other is printed. Waits where nobody reads them.
    ///
    /// # Errors
    ///
    /// Where they are no text, and where standard error fails.
    pub(crate) fn print_whole<T: Wait + Eprint>(&self, rt: &T, lines: &[u8]) -> io::Result<()> {
        let Ok(lines) = str::from_utf8(lines) else {
            return Err(io::Error::from(ErrorKind::InvalidData));
        };
        let _printing = self.printing.lock(rt);
        eprint!(rt; "{lines}")
    }

    /// Has the notice printed, where no other waits to be printed.
    pub(crate) fn send_if_read<T: Wait + time::Clock>(&self, rt: &T, notice: Notice) {
        if self.to.is_empty() {
            self.send(rt, notice);
        }
    }
}

/// The thread that prints it.
#[derive(Drop)]
pub(crate) struct Printer {
    /// Is closed as the thread ends.
    ended: Receiver<()>,
    /// Is held while something is printed.
    printing: Arc<Mutex<()>, Global>,
}

impl Printer {
    /// Starts it, and gives where to send what is to be printed, with dates or without. It ends once all who could send
    /// some are gone.
    ///
    /// # Errors
    ///
    /// `OutOfMemory`, also where a thread can't be had.
    pub(crate) fn open<T>(
        rt: T,
        alloc: Global,
        is_dated: bool,
    ) -> Result<(Printer, Notices), Refusal>
    where
        T: Threads + Wait + Eprint + Copy + Send + 'static,
    {
        let (to, from) = unbounded(alloc)?;
        let (end, ended) = unbounded(alloc)?;
        let printing = Arc::new(alloc, Mutex::new(()))?;
        let its_own = Arc::try_clone(&printing)?;
        let printer = Printer {
            ended,
            printing: Arc::try_clone(&printing)?,
        };
        let thread = thread::spawn(&rt, move || print_all(&rt, &from, &its_own, end));
        if thread.is_err() {
            return Err(Refusal::OutOfMemory);
        }
        let notices = Notices {
            to,
            is_dated,
            printing,
        };
        Ok((printer, notices))
    }

    /// Waits until all is printed, but no longer than a second: nobody may read it. Returns whether somebody does: then
    /// nothing is being printed still.
    pub(crate) fn close<T: Wait + time::Clock>(self, rt: &T) -> bool {
        let _ = self.ended.recv_timeout(rt, Duration::from_secs(LAST));
        self.printing.try_lock().is_some()
    }
}

/// Prints each by one line. `end` is let go afterwards.
fn print_all<T: Wait + Eprint>(
    rt: &T,
    from: &Receiver<Line>,
    printing: &Arc<Mutex<()>, Global>,
    end: Sender<()>,
) {
    for line in from.iter(rt) {
        let whole = printing.lock(rt);
        print(rt, &line);
        drop(whole);
    }
    drop(end);
}

fn print<T: Eprint>(rt: &T, line: &Line) {
    let Line { at, of, notice } = line;
    let _ = match (notice, at, of) {
        (Notice::Figures(figures), _, _) => eprint!(rt; "{figures}"),
        (_, Some(at), Some(of)) => eprintln!(rt; "{at:.3} album: {of}: {notice}"),
        (_, Some(at), None) => eprintln!(rt; "{at:.3} album: {notice}"),
        (_, None, _) => eprintln!(rt; "album: {notice}"),
    };
}
