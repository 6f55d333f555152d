//! The folder of a service: a lock, and for each epoch the opening and the log. The newest epoch counts; that before it
//! stays, for whoever wants to look at it.
use sqlite_std_file::{File as DiskFile, OpenError, Unknown, open};
use std::alloc::AllocError;
use std::fs::{File, OpenOptions, TryLockError, create_dir_all, read_dir, remove_file, rename};
use std::io::Write;
use std::{fmt, fs, io};

/// Why a folder can't be had, or a file in it.
#[derive(Debug, Drop)]
pub enum FolderError {
    /// Another service has it.
    Busy,
    /// There is no memory.
    OutOfMemory,
    /// The system says so.
    Failed(io::Error),
}

impl From<io::Error> for FolderError {
    fn from(error: io::Error) -> FolderError {
        FolderError::Failed(error)
    }
}

impl From<AllocError> for FolderError {
    fn from(_error: AllocError) -> FolderError {
        FolderError::OutOfMemory
    }
}

impl From<OpenError> for FolderError {
    fn from(error: OpenError) -> FolderError {
        match error {
            OpenError::Io(error) => FolderError::Failed(error),
            OpenError::OutOfMemory => FolderError::OutOfMemory,
            OpenError::Busy => FolderError::Busy,
            OpenError::HotJournal => FolderError::Failed(io::ErrorKind::InvalidInput.into()),
        }
    }
}

impl fmt::Display for FolderError {
    fn fmt<W: fmt::Write>(&self, f: &mut fmt::Formatter<W>) -> fmt::Result {
        match self {
            FolderError::Busy => f.write_str("another service has it"),
            FolderError::OutOfMemory => f.write_str("out of memory"),
            FolderError::Failed(error) => write!(f, "{error}"),
        }
    }
}

/// A folder that no other service has, as long as this is kept.
#[derive(Drop)]
pub struct Folder {
    path: String,
    lock: File,
}

impl Folder {
    /// Opens the folder, which is made where there is none, and locks it.
    ///
    /// # Errors
    ///
    /// `Busy` where another service has it.
    pub fn open(rt: &HostRuntime, path: &str) -> Result<Folder, FolderError> {
        create_dir_all(rt, path)?;
        let name = format!(in rt.alloc(); "{path}/lock")?;
        let lock = OpenOptions::new()
            .write(true)
            .create(true)
            .open(rt, name.as_str())?;
        match lock.try_lock() {
            Ok(()) => {}
            Err(TryLockError::WouldBlock) => return Err(FolderError::Busy),
            Err(TryLockError::Error(error)) => return Err(FolderError::Failed(error)),
        }
        let path = String::from_str(rt.alloc(), path)?;
        Ok(Folder { path, lock })
    }

    /// Its path.
    pub fn path(&self) -> &str {
        self.path.as_str()
    }

    /// The number of the newest epoch of which there is an opening. One that was begun and isn't there yet doesn't
    /// count.
    ///
    /// # Errors
    ///
    /// Where the folder can't be read.
    pub fn newest(&self, rt: &HostRuntime) -> Result<Option<u64>, FolderError> {
        let mut newest = None;
        for entry in read_dir(rt, self.path.as_str())? {
            let entry = entry?;
            newest = newest.max(epoch_of(entry.file_name()));
        }
        Ok(newest)
    }

    /// The text of the opening of this epoch.
    ///
    /// # Errors
    ///
    /// Where it can't be read.
    pub fn read_opening(&self, rt: &HostRuntime, epoch: u64) -> Result<Vec<u8>, FolderError> {
        let name = self.opening_path(rt, epoch)?;
        Ok(fs::read(rt, name.as_str())?)
    }

    /// Writes the text of the opening of this epoch. From then on it is the newest: whatever happens meanwhile, the
    /// opening is there whole, or not at all.
    ///
    /// # Errors
    ///
    /// Where it can't be written.
    pub fn write_opening(
        &self,
        rt: &HostRuntime,
        epoch: u64,
        text: &[u8],
    ) -> Result<(), FolderError> {
        let path = self.path.as_str();
        let begun = format!(in rt.alloc(); "{path}/epoch-{epoch}.begun")?;
        let mut file = File::create(rt, begun.as_str())?;
        file.write_all(text)?;
        file.sync_all()?;
        let name = self.opening_path(rt, epoch)?;
        rename(rt, begun.as_str(), name.as_str())?;
        self.sync(rt)
    }

    /// The log of this epoch. It was there before the epoch's opening was.
    ///
    /// # Errors
    ///
    /// Where it is gone, or can't be had.
    pub fn open_log(&self, rt: &HostRuntime, epoch: u64) -> Result<DiskFile, FolderError> {
        let name = self.log_path(rt, epoch)?;
        let _found = fs::metadata(rt, name.as_str())?;
        self.open_file(rt, name)
    }

    /// The file of a log, which is made where there is none.
    fn open_file(&self, rt: &HostRuntime, name: String) -> Result<DiskFile, FolderError> {
        let files = open(rt, name.as_str(), Unknown)?;
        // The opener makes a second file, which nothing is written to.
        let second = format!(in rt.alloc(); "{}-wal", name.as_str())?;
        let _ = remove_file(rt, second.as_str());
        Ok(files.db)
    }

    /// An empty log of this epoch. What is left of one that was begun, and never had an opening, is removed.
    ///
    /// # Errors
    ///
    /// Where it can't be had.
    pub fn begin_log(&self, rt: &HostRuntime, epoch: u64) -> Result<DiskFile, FolderError> {
        let name = self.log_path(rt, epoch)?;
        self.remove(rt, name.as_str())?;
        self.open_file(rt, name)
    }

    /// Removes the files of this epoch.
    ///
    /// # Errors
    ///
    /// Where they can't be removed.
    pub fn forget(&self, rt: &HostRuntime, epoch: u64) -> Result<(), FolderError> {
        self.remove(rt, self.opening_path(rt, epoch)?.as_str())?;
        self.remove(rt, self.log_path(rt, epoch)?.as_str())
    }

    /// Removes a file, if it is there.
    fn remove(&self, rt: &HostRuntime, name: &str) -> Result<(), FolderError> {
        match remove_file(rt, name) {
            Ok(()) => Ok(()),
            Err(error) if error.kind() == io::ErrorKind::NotFound => Ok(()),
            Err(error) => Err(FolderError::Failed(error)),
        }
    }

    /// Makes the names in the folder last.
    fn sync(&self, rt: &HostRuntime) -> Result<(), FolderError> {
        File::open(rt, self.path.as_str())?.sync_all()?;
        Ok(())
    }

    /// The path of the opening of this epoch.
    ///
    /// # Errors
    ///
    /// `OutOfMemory`.
    pub fn opening_path(&self, rt: &HostRuntime, epoch: u64) -> Result<String, FolderError> {
        let path = self.path.as_str();
        Ok(format!(in rt.alloc(); "{path}/epoch-{epoch}.opening")?)
    }

    /// The path of the log of this epoch.
    ///
    /// # Errors
    ///
    /// `OutOfMemory`.
    pub fn log_path(&self, rt: &HostRuntime, epoch: u64) -> Result<String, FolderError> {
        let path = self.path.as_str();
        Ok(format!(in rt.alloc(); "{path}/epoch-{epoch}.log")?)
    }
}

/// The epoch whose opening has this name.
fn epoch_of(name: &str) -> Option<u64> {
    name.strip_prefix("epoch-")?
        .strip_suffix(".opening")?
        .parse::<u64>()
        .ok()
}
