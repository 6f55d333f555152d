//! Where a service appends its notes: to a file, or to standard error. A file is known by its path: where another one
//! is there, as after a rotation, that is gone on with.
use album_judge::Fault;
use std::alloc::Global;
use std::fs::{File, Metadata, OpenOptions, metadata};
use std::io;
use std::io::{ErrorKind, Read, Seek, SeekFrom, Write};
use std::os::unix::fs::{FileTypeExt, MetadataExt};
use std::rt::Files;

/// The path that stands for standard error, and how messages call it.
const STANDARD_ERROR: &str = "-";

const ITS_NAME: &str = "standard error";

/// Where notes are appended, and what messages call it: a file by its path.
#[derive(Drop)]
pub struct AuditFile {
    pub(crate) path: String,
    pub(crate) to: AppendedTo,
}

/// What notes are appended to.
#[derive(Drop)]
pub(crate) enum AppendedTo {
    File(File),
    /// As lines between others, each of them whole.
    StandardError,
}

/// What became of an audit file that was looked for by its path.
#[derive(Clone, Copy, Debug)]
pub(crate) enum Looked {
    /// It is the one that is open.
    Same,
    /// It was another, or none, and that is open now.
    Another,
    /// The same, and its last line was torn.
    Torn,
}

impl AuditFile {
    /// The file at the path, made where there is none; or standard error, where the path is `-`. The file's last line
    /// is whole: where it was torn, since a disk was full or the machine stopped, it is ended, and standard error says
    /// so.
    ///
    /// # Errors
    ///
    /// `Writing`, where it can't be had, or is the opening's, and standard error says why; `Memory`.
    pub fn open<T: Files<File = File> + Eprint>(
        rt: &T,
        alloc: Global,
        path: &str,
        opening: Option<&str>,
    ) -> Result<AuditFile, Fault> {
        if path == STANDARD_ERROR {
            let path = String::from_str(alloc, ITS_NAME).map_err(|_| Fault::Memory)?;
            let to = AppendedTo::StandardError;
            return Ok(AuditFile { path, to });
        }
        if let Some(why) = unfit(rt, path, opening) {
            let _ = eprintln!(rt; "album: {path}: {why}");
            return Err(Fault::Writing);
        }
        match open_to_append(rt, path) {
            Ok((file, is_torn)) => {
                if is_torn {
                    let _ = eprintln!(rt; "album: {path}: the last line was torn, and is ended");
                }
                let path = String::from_str(alloc, path).map_err(|_| Fault::Memory)?;
                let to = AppendedTo::File(file);
                Ok(AuditFile { path, to })
            }
            Err(error) => {
                let _ = eprintln!(rt; "album: {path}: {error}");
                Err(Fault::Writing)
            }
        }
    }

    /// Looks whether the file at its path is the one that is open, and opens what is there where it isn't. Of what
    /// can't be looked at nothing is known, and nothing is done; and standard error has no path.
    ///
    /// # Errors
    ///
    /// Where there is no file any more or another one, and it can't be had.
    pub(crate) fn look<T: Files<File = File>>(&mut self, rt: &T) -> io::Result<Looked> {
        let AppendedTo::File(file) = &self.to else {
            return Ok(Looked::Same);
        };
        match (metadata(rt, &self.path), file.metadata()) {
            (Ok(found), Ok(open)) if !is_same(&found, &open) => self.reopen(rt),
            (Err(error), _) if error.kind() == ErrorKind::NotFound => self.reopen(rt),
            _ => Ok(Looked::Same),
        }
    }

    fn reopen<T: Files<File = File>>(&mut self, rt: &T) -> io::Result<Looked> {
        if unfit(rt, &self.path, None).is_some() {
            return Err(io::Error::from(ErrorKind::InvalidInput));
        }
        let (file, is_torn) = open_to_append(rt, &self.path)?;
        self.to = AppendedTo::File(file);
        Ok(if is_torn {
            Looked::Torn
        } else {
            Looked::Another
        })
    }
}

/// Why notes can't be appended to what is at the path: nobody may read a pipe, and then the service would wait for
/// ever; and the opening would be spoilt. A file that isn't there is made.
fn unfit<T: Files>(rt: &T, path: &str, opening: Option<&str>) -> Option<&'static str> {
    let found = metadata(rt, path).ok()?;
    let kind = found.file_type();
    if kind.is_fifo() || kind.is_socket() {
        return Some("a pipe or a socket is no audit file");
    }
    let other = metadata(rt, opening?).ok()?;
    if found.is_file() && is_same(&found, &other) {
        return Some("the opening is no audit file");
    }
    None
}

/// Whether both are of one file.
fn is_same(one: &Metadata, other: &Metadata) -> bool {
    one.dev() == other.dev() && one.ino() == other.ino()
}

/// The file at the path, made where there is none, to be appended to. A torn last line is ended. Returns whether there
/// was one.
fn open_to_append<T: Files<File = File>>(rt: &T, path: &str) -> io::Result<(File, bool)> {
    let mut options = OpenOptions::new();
    let mut file = options.append(true).create(true).open(rt, path)?;
    let is_torn = is_torn(rt, path);
    if is_torn {
        file.write_all(b"\n")?;
    }
    Ok((file, is_torn))
}

/// Whether the file has a last line that no newline ends. What can't be read isn't known to, nor is a device.
fn is_torn<T: Files<File = File>>(rt: &T, path: &str) -> bool {
    let is_file = matches!(metadata(rt, path), Ok(found) if found.is_file());
    is_file && matches!(last_byte(rt, path), Ok(byte) if byte != b'\n')
}

/// The last byte of the file.
///
/// # Errors
///
/// Where there is none, or it can't be read.
fn last_byte<T: Files<File = File>>(rt: &T, path: &str) -> io::Result<u8> {
    let mut file = File::open(rt, path)?;
    file.seek(SeekFrom::End(-1))?;
    let mut byte = [0u8; 1];
    file.read_exact(&mut byte)?;
    Ok(byte[0])
}
