//! One client: what a request and a message do to it.
//!
//! What comes in: the request of a principal, and then the messages that reach the client. What goes out, at each: what
//! the client does from then on, the messages that it sends, what is noted of a ruling, and at most one answer. The
//! client waits for nothing: who drives it carries the messages, be it a simulated world or a session of a running
//! service.
//!
//! Read `clients` and `transitions` first, then specs/Steps.antt, the table of a client's transition at each event.
//! `ClientStep::ask` and `ClientStep::take` do what it says: they begin in `reads`, and continue in `rulings` and
//! `writes`.
#![tactic(auto)]

// What a client is.
mod clients;
mod pending_asks;
mod terms;

// What it does at one event.
mod reads;
mod rulings;
mod transitions;
mod writes;

pub use clients::{Client, Phase};
pub use pending_asks::PendingAsk;
pub use terms::Terms;
pub use transitions::{ClientStep, Transition};
