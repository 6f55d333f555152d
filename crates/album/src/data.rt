//! The epochs of `serve --data` and `serve --epochs`: what a service opens on, and the log that keeps what it writes.
use crate::serving::served;
use album_commands::{TURNS, open};
use album_data::{FileLog, Folder, FolderError, Unread, next_opening};
use album_items::Opening;
use album_judge::{Fault, write_refused};
use album_log::{Log, LogError, read_text};
use album_port::{Served, first_opening, opening_of_text};
use album_stamps::Refusal;
use album_talk::Epoch;
use album_wire::text_of_opening;
use sqlite_disk::Disk;
use sqlite_std_file::File as DiskFile;
use std::alloc::{AllocError, Global};
use std::io::{Read, Write};
use std::process::ExitCode;
use std::sync::Arc;

/// An epoch that has begun, and its log, where it is of a folder. The next epoch begins on its opening too, so that is
/// kept while this one is served.
#[derive(Drop)]
pub(crate) struct Begun {
    pub number: u64,
    pub epoch: Arc<Epoch, Global>,
    pub log: Option<EpochLog>,
}

/// The log of an epoch, and the path of its file.
#[derive(Drop)]
pub(crate) struct EpochLog {
    pub log: FileLog<DiskFile>,
    pub path: String,
}

/// Why no epoch begins.
#[derive(Drop)]
pub(crate) enum Unbegun {
    /// The first opening was refused, and that is written; or there was a fault.
    Ended(Result<Served, Fault>),
    /// This file of the folder, or the folder, is the reason.
    Folder(String, FolderError),
    /// The log of this file failed.
    Log(String, LogError),
    /// The folder has no epoch.
    Empty(String),
    /// The log of this file has fewer lines.
    Short(String, u64),
    /// The line of this number in the log of this file, from this byte on, can't be read.
    Damaged(String, u64, usize, Refusal),
    /// The opening of the newest epoch is none.
    BadOpening(String, Refusal),
    /// What an epoch leaves in memory is none.
    NoNext(Refusal),
}

impl From<AllocError> for Unbegun {
    fn from(_error: AllocError) -> Unbegun {
        Unbegun::Ended(Err(Fault::Memory))
    }
}

impl From<Fault> for Unbegun {
    fn from(fault: Fault) -> Unbegun {
        Unbegun::Ended(Err(fault))
    }
}

/// The folder of this path, which nobody else has from now on.
pub(crate) fn open_folder(rt: &HostRuntime, alloc: Global, path: &str) -> Result<Folder, Unbegun> {
    match Folder::open(rt, path) {
        Ok(folder) => Ok(folder),
        Err(error) => Err(Unbegun::Folder(String::from_str(alloc, path)?, error)),
    }
}

/// The number of the folder's newest epoch, if it has one.
pub(crate) fn newest_of(
    rt: &HostRuntime,
    alloc: Global,
    folder: &Folder,
) -> Result<Option<u64>, Unbegun> {
    match folder.newest(rt) {
        Ok(newest) => Ok(newest),
        Err(error) => Err(Unbegun::Folder(String::from_str(alloc, folder.path())?, error)),
    }
}

/// Begins the first epoch that this service has. Without a folder it is on the opening that is read from the file, if
/// there is one, and else from the input; so it is with a folder that has no epoch. Else it is on what the newest one
/// leaves.
pub(crate) fn begin<R: Read, W: Write>(
    rt: &HostRuntime,
    alloc: Global,
    folder: Option<&Folder>,
    file: Option<&str>,
    reader: &mut R,
    writer: &mut W,
) -> Result<Begun, Unbegun> {
    let Some(folder) = folder else {
        let opening = read_first(rt, alloc, file, reader, writer)?;
        return epoch_in_memory(alloc, 1, opening);
    };
    match newest_of(rt, alloc, folder)? {
        None => {
            let opening = read_first(rt, alloc, file, reader, writer)?;
            epoch_on(rt, alloc, folder, 1, opening)
        }
        Some(number) => {
            let opening = read_epoch(rt, alloc, folder, number)?;
            epoch_after(rt, alloc, folder, number, &opening)
        }
    }
}

/// Begins the epoch after the one of this number, which opened on this, and has left that. Where it isn't known what it
/// has left, its log is read.
pub(crate) fn begin_after(
    rt: &HostRuntime,
    alloc: Global,
    folder: Option<&Folder>,
    number: u64,
    opening: &Opening,
    left: Result<Opening, Refusal>,
) -> Result<Begun, Unbegun> {
    match (folder, left) {
        (None, Ok(next)) => match next.check() {
            Ok(()) => epoch_in_memory(alloc, number.saturating_add(1), next),
            Err(why) => Err(Unbegun::NoNext(why)),
        },
        (None, Err(why)) => Err(Unbegun::NoNext(why)),
        (Some(folder), Ok(next)) => {
            let name = path_or_memory(folder.log_path(rt, number))?;
            let next = checked(name, next)?;
            epoch_on(rt, alloc, folder, number.saturating_add(1), next)
        }
        (Some(folder), Err(_)) => epoch_after(rt, alloc, folder, number, opening),
    }
}

/// The epoch after the one of this number, which opened on this, and whose log is read.
fn epoch_after(
    rt: &HostRuntime,
    alloc: Global,
    folder: &Folder,
    number: u64,
    opening: &Opening,
) -> Result<Begun, Unbegun> {
    let text = read_log(rt, alloc, folder, number)?;
    epoch_after_text(rt, alloc, folder, number, opening, &text)
}

/// The epoch after the one of this number, which opened on this, and whose log has this text.
fn epoch_after_text(
    rt: &HostRuntime,
    alloc: Global,
    folder: &Folder,
    number: u64,
    opening: &Opening,
    text: &[u8],
) -> Result<Begun, Unbegun> {
    let next = what_follows(rt, alloc, folder, number, opening, text)?;
    epoch_on(rt, alloc, folder, number.saturating_add(1), next)
}

/// Begins the epoch after the one of this number, on so many lines of its log. The log stays as it is.
pub(crate) fn repair(
    rt: &HostRuntime,
    alloc: Global,
    folder: &Folder,
    number: u64,
    lines: u64,
) -> Result<(), Unbegun> {
    let text = read_log(rt, alloc, folder, number)?;
    let Some(end) = end_of_lines(&text, lines) else {
        let name = path_or_memory(folder.log_path(rt, number))?;
        return Err(Unbegun::Short(name, lines));
    };
    let opening = read_epoch(rt, alloc, folder, number)?;
    let text = text.get(..end).unwrap_or(&text);
    let _begun = epoch_after_text(rt, alloc, folder, number, &opening, text)?;
    Ok(())
}

/// Where so many lines end, if there are so many.
fn end_of_lines(text: &[u8], lines: u64) -> Option<usize> {
    let (mut left, mut end) = (lines, 0);
    for (index, byte) in text.iter().enumerate() {
        if left == 0 {
            break;
        }
        if *byte == b'\n' {
            left -= 1;
            end = index.saturating_add(1);
        }
    }
    if left == 0 { Some(end) } else { None }
}

/// The opening of a folder's first epoch.
fn read_first<R: Read, W: Write>(
    rt: &HostRuntime,
    alloc: Global,
    file: Option<&str>,
    reader: &mut R,
    writer: &mut W,
) -> Result<Opening, Unbegun> {
    let read = match file {
        None => first_opening(rt, alloc, reader, writer, TURNS)?,
        Some(path) => {
            let mut file = open(rt, path)?;
            first_opening(rt, alloc, &mut file, writer, TURNS)?
        }
    };
    let opening = match read {
        Ok(opening) => opening,
        Err(served) => return Err(Unbegun::Ended(Ok(served))),
    };
    if let Err(why) = opening.check() {
        let _ = eprintln!(rt; "album: opening: {}", why.name());
        write_refused(alloc, why, writer)?;
        return Err(Unbegun::Ended(Ok(Served::Refused)));
    }
    Ok(opening)
}

/// The text of whole lines that the log of this epoch has.
pub(crate) fn read_log(
    rt: &HostRuntime,
    alloc: Global,
    folder: &Folder,
    number: u64,
) -> Result<Vec<u8>, Unbegun> {
    let name = path_or_memory(folder.log_path(rt, number))?;
    let mut disk = match folder.open_log(rt, number) {
        Ok(disk) => disk,
        Err(error) => return Err(Unbegun::Folder(name, error)),
    };
    if !disk.may_be_used() {
        return Err(Unbegun::Log(name, LogError::Closed));
    }
    read_text(alloc, &mut disk).map_err(|error| Unbegun::Log(name, error))
}

/// What the epoch of this number leaves to the next one, where it opened on this, and its log has this text.
pub(crate) fn what_follows(
    rt: &HostRuntime,
    alloc: Global,
    folder: &Folder,
    number: u64,
    opening: &Opening,
    text: &[u8],
) -> Result<Opening, Unbegun> {
    let name = path_or_memory(folder.log_path(rt, number))?;
    match next_opening(alloc, opening, text) {
        Ok(next) => checked(name, next),
        Err(Unread::OutOfMemory) => Err(Unbegun::Ended(Err(Fault::Memory))),
        Err(Unread::Damaged { line, why }) => {
            let byte = end_of_lines(text, line.saturating_sub(1)).unwrap_or(0);
            Err(Unbegun::Damaged(name, line, byte, why))
        }
        Err(Unread::BadOpening) => Err(Unbegun::BadOpening(name, Refusal::BadOpening)),
        Err(Unread::Spent) => Err(Unbegun::BadOpening(name, Refusal::StampsSpent)),
    }
}

/// The opening that the log of this name leaves, if it is one.
fn checked(name: String, next: Opening) -> Result<Opening, Unbegun> {
    match next.check() {
        Ok(()) => Ok(next),
        Err(why) => Err(Unbegun::BadOpening(name, why)),
    }
}

/// The opening of the epoch of this number.
pub(crate) fn read_epoch(
    rt: &HostRuntime,
    alloc: Global,
    folder: &Folder,
    number: u64,
) -> Result<Opening, Unbegun> {
    let name = path_or_memory(folder.opening_path(rt, number))?;
    let bytes = match folder.read_opening(rt, number) {
        Ok(bytes) => bytes,
        Err(error) => return Err(Unbegun::Folder(name, error)),
    };
    let Ok(text) = std::str::from_utf8(&bytes) else {
        return Err(Unbegun::BadOpening(name, Refusal::BadLine));
    };
    match opening_of_text(alloc, text) {
        Ok(opening) => Ok(opening),
        Err(Refusal::OutOfMemory) => Err(Unbegun::Ended(Err(Fault::Memory))),
        Err(why) => Err(Unbegun::BadOpening(name, why)),
    }
}

/// The epoch of this number, which begins on the opening. Its log is there before its opening is, and from then on it
/// is the newest. The one before the last is removed.
fn epoch_on(
    rt: &HostRuntime,
    alloc: Global,
    folder: &Folder,
    number: u64,
    opening: Opening,
) -> Result<Begun, Unbegun> {
    let name = path_or_memory(folder.log_path(rt, number))?;
    let disk = match folder.begin_log(rt, number) {
        Ok(disk) => disk,
        Err(error) => return Err(Unbegun::Folder(name, error)),
    };
    if !disk.may_be_used() {
        return Err(Unbegun::Log(name, LogError::Closed));
    }
    let log = match Log::begin(alloc, disk) {
        Ok(log) => log,
        Err(error) => return Err(Unbegun::Log(name, error)),
    };
    let text = match text_of_opening(alloc, &opening) {
        Ok(text) => text,
        Err(_) => return Err(Unbegun::Ended(Err(Fault::Memory))),
    };
    if let Err(error) = folder.write_opening(rt, number, &text) {
        let name = path_or_memory(folder.opening_path(rt, number))?;
        return Err(Unbegun::Folder(name, error));
    }
    if number > 2 {
        // What can't be removed does no harm.
        let _ = folder.forget(rt, number - 2);
    }
    let log = EpochLog {
        log: FileLog::new(alloc, log)?,
        path: name,
    };
    begun_on(alloc, number, opening, Some(log))
}

/// The epoch of this number, which begins on the opening, and of which nothing is kept on a disk.
fn epoch_in_memory(alloc: Global, number: u64, opening: Opening) -> Result<Begun, Unbegun> {
    begun_on(alloc, number, opening, None)
}

/// The epoch of this number, on the opening.
fn begun_on(
    alloc: Global,
    number: u64,
    opening: Opening,
    log: Option<EpochLog>,
) -> Result<Begun, Unbegun> {
    let epoch = Epoch {
        opening,
        number: Some(number),
    };
    Ok(Begun {
        number,
        epoch: Arc::new(alloc, epoch).map_err(|_| Fault::Memory)?,
        log,
    })
}

/// A path that there is memory for.
fn path_or_memory(path: Result<String, FolderError>) -> Result<String, Unbegun> {
    path.map_err(|_| Unbegun::Ended(Err(Fault::Memory)))
}

/// Says why no epoch begins, and gives the status. Of damage it says besides what comes of it.
pub(crate) fn end_of(rt: &HostRuntime, unbegun: Unbegun, so: &str) -> ExitCode {
    let _ = match unbegun {
        Unbegun::Ended(outcome) => return served(rt, outcome),
        Unbegun::Folder(name, error) => eprintln!(rt; "album: {name}: {error}"),
        Unbegun::Log(name, error) => eprintln!(rt; "album: {name}: {error}"),
        Unbegun::Empty(name) => eprintln!(rt; "album: {name}: it has no epoch"),
        Unbegun::Short(name, lines) => eprintln!(rt;
            "album: {name}: it has less than {lines} lines"
        ),
        Unbegun::Damaged(name, line, byte, why) => {
            let why = why.name();
            eprintln!(rt; "album: {name}: line {line}, from byte {byte}, is damaged ({why}){so}")
        }
        Unbegun::BadOpening(name, why) => {
            let why = why.name();
            eprintln!(rt; "album: {name}: {why}{so}")
        }
        Unbegun::NoNext(why) => {
            let why = why.name();
            eprintln!(rt; "album: the next epoch: {why}")
        }
    };
    ExitCode::from(1)
}
