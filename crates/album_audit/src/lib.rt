//! The audit book: who was noted for what, and how many notes there are of each kind.
//!
//! What comes in: the notes of a ruling, with the client that asked. What goes out: four totals. A session has a
//! share of the book, in which its own notes count too; once every share is gathered, the totals are their sums.
//!
//! Read `totals` first, then `share` and `book`. `names` says which book a share is of, and `tally` keeps one
//! total with its part of the shares.
#![tactic(auto)]

// The totals, the book that keeps them, and a session's share of it.
mod book;
mod names;
mod share;
mod tally;
mod totals;

// What holds of the totals.
mod laws;

pub use book::AuditBook;
pub use laws::each_record_counts_once;
pub use names::{Blanks, Books};
pub use share::Share;
pub use totals::{Record, Totals};
