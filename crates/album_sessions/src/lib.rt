//! A session: a client that asks the partitions of a service.
//!
//! What comes in: an ask of a principal, and the replies of the partitions' threads. What goes out: the messages of
//! each round, notes, and one answer, whose grounds are `album_grounds`'.
//!
//! A session sends its messages by its channel, which is `album_channels`'. The channel joins the pass of each reply.
//! The session gives the reply to its client, which is `album_client`'s (`step`), until the client answers (`ask`). The
//! first read asks for the items of an earlier view, where `hints` has them (`hinted`). Asked in order (`in_order`), a
//! session listens to the service's board before it asks, and publishes there what it has seen before it answers. In a
//! checked store a write that is aborted is attempted anew (`attempts`), after those before it (`stripes`).
//!
//! Read `session` and `ask` first, and specs/ in the order of specs/Lib.antt. Calls of `is_sound` compute nothing: each
//! says by its clauses what the channel's invariant knows, for the proof of its caller. The service, which has the
//! threads and gives each session its channel, is `album_threads`'.
#![tactic(auto)]

// The names of a service, the hints of what to read, and stripes for writes, which its sessions share.
mod hints;
mod service_names;
mod stripes;

// A session, and how it asks the partitions.
mod ask;
mod attempts;
mod hinted;
mod in_order;
mod note;
mod session;
mod step;

// What holds of the answers.
mod laws;

pub use attempts::MAX_ATTEMPTS;
pub use hints::{Hints, MAX_HINTS};
pub use in_order::Acknowledged;
pub use laws::acknowledged_is_visible;
pub use service_names::ServiceNames;
pub use session::Session;
pub use stripes::Stripes;
