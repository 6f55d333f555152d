//! The input of a service, where that ends with it: it is read for its end alone.
use crate::waker::Waker;
use album_stamps::Refusal;
use std::alloc::Global;
use std::io::Read;
use std::sync::atomic::{AtomicBool, Ordering};
use std::sync::{Arc, Wait};
use std::thread::Threads;
use std::time::Duration;
use std::{thread, time};

/// How many bytes are read at once: what a pipe has room for.
const LARGE: usize = 65_536;

/// Of a piece longer than this, nobody types as much, the thread that reads sleeps so many milliseconds: an input that
/// pours keeps no processor busy.
const TYPED: usize = 4_096;

const NAP: u64 = 10;

/// Whether the input has ended.
#[derive(Drop)]
pub(crate) struct Input {
    has_ended: AtomicBool,
    /// Wakes the thread that accepts.
    waker: Waker,
}

impl Input {
    /// Has it read in a thread of its own, which the service doesn't wait for: where it ends before its input, that may
    /// say nothing any more. Where there is no thread, the input has ended.
    ///
    /// # Errors
    ///
    /// `OutOfMemory`.
    pub(crate) fn begin<T, R>(
        rt: T,
        alloc: Global,
        reader: R,
        waker: Waker,
        turns: u64,
    ) -> Result<Arc<Input, Global>, Refusal>
    where
        T: Threads + Wait + time::Clock + Copy + Send + 'static,
        R: Read + Send + Drop + 'static,
    {
        let input = Input {
            has_ended: AtomicBool::new(false),
            waker,
        };
        let input = Arc::new(alloc, input)?;
        let shared = Arc::try_clone(&input)?;
        let thread = thread::spawn(&rt, move || read_to_end(&rt, reader, &shared, turns));
        if thread.is_err() {
            input.end();
        }
        Ok(input)
    }

    pub(crate) fn has_ended(&self) -> bool {
        self.has_ended.load(Ordering::SeqCst)
    }

    fn end(&self) {
        self.has_ended.store(true, Ordering::SeqCst);
        self.waker.wake();
    }
}

/// Reads to the end, or to where reading fails.
fn read_to_end<T, R>(rt: &T, mut reader: R, input: &Arc<Input, Global>, turns: u64)
where
    T: time::Clock,
    R: Read + Drop,
{
    let mut piece = [0u8; LARGE];
    for _turn in 0..turns {
        match reader.read(&mut piece) {
            Ok(0) | Err(_) => break,
            Ok(len) if len > TYPED => thread::sleep(rt, Duration::from_millis(NAP)),
            Ok(_) => {}
        }
    }
    input.end();
}
