//! How a write ends.

use album_stamps::Stamp;

/// How a write ended.
#[derive(Clone, Copy, Debug)]
pub enum Outcome {
    /// Each of its partitions has committed it.
    Committed(Stamp),
    /// One of its partitions has discarded it: it never will be read.
    Aborted(Stamp),
    /// One of its partitions has no room for it.
    Full(Stamp),
}
