//! Standard input, output and error, where one of them is closed as the program starts.
use std::fs::{File, OpenOptions};
use std::io;
use std::os::fd::{AsRawFd, IntoRawFd};
use std::rt::Files;

/// The number of standard error, which comes after those of standard input and output.
const LAST: i32 = 2;

/// Puts the null device where one of them is closed: else the file or the socket that is opened next would be given its
/// number, and what is printed would be written there. It can be no more read or written than what is closed.
pub(crate) fn fill_descriptors<T: Files<File = File>>(rt: &T) {
    for _ in 0..=LAST {
        let Ok(null) = null_device(rt) else {
            return;
        };
        if null.as_raw_fd() > LAST {
            return;
        }
        // It stays open as long as the program runs.
        let _ = null.into_raw_fd();
    }
}

/// The null device at the least number that is free: to be written in the place of standard input, and else to be read.
///
/// # Errors
///
/// Where it can't be opened.
fn null_device<T: Files<File = File>>(rt: &T) -> io::Result<File> {
    let null = File::open(rt, "/dev/null")?;
    if null.as_raw_fd() != 0 {
        return Ok(null);
    }
    drop(null);
    OpenOptions::new().write(true).open(rt, "/dev/null")
}
