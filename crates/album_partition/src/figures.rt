//! How much a partition holds.

/// How much a partition holds, and how many marks it may have.
#[derive(Clone, Copy, Debug, PartialEq, Eq)]
pub struct Figures {
    /// How many marks its history has.
    pub marks: u64,
    /// How many marks its history may have.
    pub limit: u64,
    /// How many stamps are pending.
    pub pending: u64,
    /// How many versions are kept, of all items.
    pub versions: u64,
}
