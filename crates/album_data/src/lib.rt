//! A service that lasts: what its partitions prepare is kept in a log, and the next service opens on what is there.
//!
//! What comes in: the marks that partitions prepare, and a folder. What goes out: lines in the log of the folder, and
//! after a start the opening of the next epoch.
//!
//! Read `entries` first: the line of a mark. `file_log` keeps such lines in a file, and `recovery` reads them and folds
//! them into the next opening. `folder` has the files.
#![tactic(auto)]

// The line of a mark, and the log that keeps such lines.
mod entries;
mod file_log;

// What is read at a start, and what is opened on it.
mod recovery;

// The files of a service.
mod folder;

// What a log keeps is what it is opened on.
mod laws;

pub use entries::{entry_text, read_entry};
pub use file_log::FileLog;
pub use folder::{Folder, FolderError};
pub use laws::what_is_kept_is_read;
pub use recovery::{Unread, next_opening};
