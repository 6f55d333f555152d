//! The store as one machine: partitions, clients and the messages between them, and what each event does.
//!
//! What comes in: an opening, and then events in any order: asks and stops of clients, deliveries of messages, sweeps
//! and trims. What goes out of each event: notes, the numbers of the messages that it sends, and an answer.
//!
//! The promises hold for every list of events, with any losses, repeats and reorderings of messages. An answer that
//! rests on a view is what the written policy says of that view's lists, owners and groups. A denial names the first
//! denying entry, or the list's end. The view is read atomic. Each of its items is no older than what the item's
//! partition had committed before the view's read. In a checked world each write is committed only on the versions that
//! its author saw. `World::step` promises this, clause by clause.
//!
//! Read `Event` and `Out` of `album_permits` first, and then `world`. Then read specs/ in the order of specs/Lib.antt:
//! what a world keeps, what has happened to it, what an event changes and outputs, and the promises. `laws` states the
//! promises once more, as facts of the definitions alone, and what follows: what is acknowledged stays, where a world
//! opened checked.
#![tactic(auto)]

// What a client does at one event, and the outputs of that.
mod client_events;
mod outputs;

// What an event does, and the world.
mod clients;
mod opening;
mod sending;
mod state;
mod stopped;
mod world;

// What holds of every run.
mod laws;

pub use album_permits::{Event, Out};
pub use laws::{
    a_read_begins_with_its_partitions, acknowledged_writes_stay, answers_are_to_requests,
    busy_has_its_cause, clocks_rise, committed_is_never_discarded, each_output_is_given_once,
    no_update_is_lost, no_view_holds_a_part_of_a_share, one_finding_of_a_view, outcomes_are_true,
    outputs_are_in_the_past, rulings_hold, stamps_are_above_the_opening, stops_are_for_good,
    the_past_is_remembered, transitions_are_tidy, views_are_fresh, views_are_read_atomic,
    what_is_committed_stays, what_is_served_is_what_is_asked, writes_are_granted,
};
pub use world::World;
