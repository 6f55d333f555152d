//! The limits of the service that more than one crate has to know, and docs/FORMATS.md lists all. How many deliveries a
//! line may spell is in `album_wire`, and the limits of hints are in `album_sessions`.

/// How many partitions a service may have.
pub const MAX_PARTS: u16 = 16;

/// How many items one transaction may write.
pub const MAX_TRANSACTION_ITEMS: usize = 16;

/// How many items one read may have.
pub const MAX_READ_ITEMS: usize = 512;

/// How many reads may be made for one view.
pub const MAX_READS: u8 = 8;

/// How few marks the history of a partition may have room for.
pub const MIN_MARKS: u64 = 2;

/// How many marks it may have room for.
pub const MAX_MARKS: u64 = 1_000_000;

/// How many entries an access list may have.
pub const MAX_ENTRIES: usize = 128;

/// How many members a group may have.
pub const MAX_MEMBERS: usize = 128;

/// How many children an album may have.
pub const MAX_CHILDREN: usize = 128;

/// How many bytes a user's name may have.
pub const MAX_NAME: usize = 64;

/// How many bytes a title may have.
pub const MAX_TITLE: usize = 200;

/// How many bytes a content may have.
pub const MAX_CONTENT: usize = 4096;

/// How many items an opening may have.
pub const MAX_OPENING_ITEMS: usize = 4096;

/// The greatest number of an item, a list or a home that an opening may use.
pub const MAX_OPENING_NUMBER: u64 = 65_535;

/// How many bytes a line may have, without its newline.
pub const MAX_LINE: usize = 65_536;

/// How many numbers the clients take up in a stamp, its low 16 bits: 0, which is no client's, and the clients'.
pub const CLIENTS: u64 = 65_536;

/// The greatest counter of a stamp, which has 40 bits.
pub const MAX_COUNTER: u64 = (1 << 40) - 1;
