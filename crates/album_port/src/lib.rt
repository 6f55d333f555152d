//! The service of a port: it is opened by lines, and whoever connects has a session.
//!
//! What comes in: a reader of the opening, the port, and then what the connections say. What goes out: to each of these
//! its talk, which is `album_talk`'s; to a writer that the port is served, and at the end the totals; or a fault.
//!
//! Read `port` first: it opens a service (`opening`), whose epoch (`one_epoch`) gives each connection a thread
//! (`accepting`, `connections`), writes its notes to a file, and how the requests have ended that were noted
//! (`audit`, `log`, `ending_line`, `writer`), and prints its figures (`watch`). `waker` waits for whoever connects,
//! `resumed` reads anew after an interruption, and `first_words` reads until it is said who talks. specs/Audits.antt
//! says what the audit file has.
//!
//! Nobody locks it out: an address has so many connections at once (`addresses`), where files are short the
//! oldest that hasn't said who it is gives way (`silent`), and a service that can open no session ends (`failing`).
//!
//! `serve` ends with its connections; `serve_for` has options; `serve_until` ends with its input; `serve_beside` takes
//! the opening from another input. A `Port` (`epochs`) is served from epoch to epoch, with a log or without: its
//! connections stay (`turn`), and what they have said before is answered in the next one (`incoming`).
#![tactic(auto)]

// How a service is opened, and what it prints on standard error.
mod moments;
mod notices;
mod opening;

// The audit file.
mod audit;
mod audit_file;
mod ending_line;
mod log;
mod writer;

// The connections, what they say first, and what the thread that accepts them is woken by.
mod accepting;
mod addresses;
mod connections;
mod count;
mod failing;
mod first_line;
mod first_words;
mod incoming;
mod input;
mod peers;
mod resumed;
mod silent;
mod turn;
mod waker;

// The service, and its epochs.
mod epochs;
mod one_epoch;
mod port;
mod watch;

pub use audit_file::AuditFile;
pub use ending_line::worked_endings;
pub use epochs::{EpochEnd, Port};
pub use opening::opening_of_text;
pub use port::{Host, Served, Serving, first_opening, serve, serve_beside, serve_for, serve_until};
pub use turn::EpochBound;
