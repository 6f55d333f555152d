//! A partition on a thread of its own, and what is sent to it and back.
//!
//! What comes in: an envelope with a message, or a control request, each with a pass that shows what it rests on. What
//! goes out: the partition's reply, with a pass that shows the partition as it was when it had replied.
//!
//! Read `envelopes` and `control` first, then `keeper`: a partition with the owner of its history. The keeper settles
//! the stamps that a reader has seen committed elsewhere, does what the message asks, and makes each mark in the
//! partition and in its owner's history. So a Get that is refused may have made marks.
//!
//! `thread` is the loop around it, `mailbox` is how threads wait, and `start` starts them. specs/Replies.antt says when
//! a reply counts for the session that has asked. The sessions are `album_sessions`', and the service is
//! `album_threads`', which makes the mailboxes; they have no bound.
//!
//! A thread that fails for want of memory *breaks* the service (`breakage`): sessions then answer `Closed`, and a port
//! hears of it by `Gate::fail`. (*Stopped* is said of clients alone.)
#![tactic(auto)]

// What is sent to a partition and back: messages with their passes, and requests of whoever runs the service.
mod control;
mod envelopes;
mod round_reply;

// A partition with the owner of its history, and the lock under which threads share it.
mod keeper;
mod shared_keeper;

// What a service with a log keeps before it is said.
mod held;
mod log_entries;
mod logger;

// Its thread: how it waits, what it does, how it starts, and what tests hold it by.
mod breakage;
mod gate;
mod load;
mod mailbox;
mod outbox;
mod start;
mod thread;

// The names that tie all of that to one service.
mod names;

pub use album_partition::Figures;
pub use breakage::Breakage;
pub use control::{Control, ControlAnswer, ControlReply, ControlRequest};
pub use envelopes::{ReplyEnvelope, RequestEnvelope};
pub use gate::{Gate, Open};
pub use held::HeldMail;
pub use load::Load;
pub use log_entries::{LogEntry, MarkLog, NoLog, NotKept};
pub use mailbox::{Inbox, PartitionMail, SessionMail};
pub use names::DeskNames;
pub use round_reply::RoundReply;
pub use shared_keeper::SharedKeeper;
pub use start::{start_all, start_log};
