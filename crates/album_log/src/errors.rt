//! Why a call of the log fails.
ghost use Rattle.std.specs.Prelude.{◌≡◌};
ghost use Rattle.album_log.specs.declared.errors.LogError.TheVariants.{OutOfMemory, Failed};

use std::alloc::{AllocError, AllocFailed};
use std::io;
use thiserror::Error;

/// Why a call of the log fails.
#[derive(Clone, Copy, Debug, Error)]
pub enum LogError {
    #[error("out of memory")]
    OutOfMemory,
    #[error("the file of the log is not empty")]
    NotEmpty,
    #[error("the log is longer than 64 bits can count")]
    Full,
    #[error("the log is closed, since an earlier call of it failed")]
    Closed,
    #[error("the disk failed: {0}")]
    Failed(io::Error),
}

impl From<AllocError> for LogError {
    ghost from_gives = { λ _ e. e ≡ OutOfMemory };

    fn from(_error: AllocError) -> LogError {
        LogError::OutOfMemory
    }
}

impl<T: Drop> From<AllocFailed<T>> for LogError {
    ghost from_gives = { λ _ e. e ≡ OutOfMemory };

    fn from(_error: AllocFailed<T>) -> LogError {
        LogError::OutOfMemory
    }
}

impl From<io::Error> for LogError {
    ghost from_gives = { λ error e. e ≡ Failed error };

    fn from(error: io::Error) -> LogError {
        LogError::Failed(error)
    }
}
