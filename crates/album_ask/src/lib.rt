//! A client of a running service, for a terminal or a pipe: each line of its input is sent, and its answer is printed.
//!
//! What comes in: a reader of requests, a connection to a service, and the principal. What goes out: a line for each
//! request that isn't blank, as the service answers it, or spelled out for people.
//!
//! Read `client` first. `requests` makes the line of a connection of a request, and `spelled` an answer for people.
//! Nothing is promised of it but that it is safe and ends: rows show the rest.
#![tactic(auto)]

// The conversation.
mod client;

// The lines on either side.
mod requests;
mod spelled;

pub use client::{Asking, Ended, ask, dump};
