//! The store, running: each partition on a thread of its own, and sessions that ask it.
//!
//! What comes in: an opening, and then requests of sessions. What goes out: answers, and at the end the audit totals.
//!
//! A session, which is `album_sessions`', sends envelopes to the mailboxes of partitions by its channel, which is
//! `album_channels`'. A partition's thread, which is `album_keepers`', gives the message to the partition. It sends the
//! reply back with a pass that shows the reply's history. A service opens the threads, gives each session its channel,
//! and has what they share: a board, an audit book, and hints.
//!
//! Read `service` first, then `running`, `opened` and `visit`, with specs/Opened.antt. `gauge` has the figures of a
//! running service (`--stats`).
#![tactic(auto)]

// What a service is opened with, and the service: its threads, its sessions, its totals.
mod gauge;
mod opened;
mod owned_session;
mod running;
mod service;
mod visit;

pub use album_grounds::{grounds_stay, no_new_enemy, reads_are_stable, reads_go_on};
pub use album_keepers::{
    Control, ControlAnswer, ControlReply, ControlRequest, DeskNames, Figures, Gate, Load, LogEntry,
    MarkLog, NoLog, NotKept, Open, PartitionMail, ReplyEnvelope, RequestEnvelope,
};
pub use album_sessions::{Acknowledged, ServiceNames, Session, acknowledged_is_visible};
pub use gauge::Gauge;
pub use opened::Opened;
pub use owned_session::OwnedSession;
pub use service::Service;
pub use visit::{Visit, with_logged, with_opened, with_service};
