//! Rulings on asks, and the permits that they grant: what a granted ask is served, and what it writes.
//!
//! What comes in: a view, and the principal. What goes out: a permit, which is spent on what the ask is served or on
//! what it writes; or why it is denied; or which object is missing.
//!
//! Read `needs` and `findings` first, then `permits` with what they are spent on: `serving`, and `effects` where the
//! ask writes. Tables of what is needed, found, noted, served and written are in specs/, a definition for each.
//! `rights` and `disclosure` have laws alone. `Event`, `Answer` and `Out` are a store's inputs and outputs: they are
//! here, below the crates that carry them out and the crate that writes their lines.
#![tactic(auto)]

// What is ruled on an ask, and what is noted of it.
mod findings;
mod needs;
mod notes;
mod rulings;

// What a granted ask may do.
mod attributes;
mod permits;
mod serving;

// What it writes: `effects` has each ask's, made of new objects and of values with one thing changed, `merging` leaves
// one write of each item, and `writes` is the result with its permit.
mod additions;
mod changes;
mod effects;
mod merging;
mod writes;

// The events of a store, the answers to asks, and the outputs of events.
mod answers;
mod events;
mod outs;

// What holds of rulings, and of what is written.
mod disclosure;
mod effect_laws;
mod grant_laws;
mod note_laws;
mod rights;
mod ruling_laws;

pub use answers::Answer;
pub use attributes::Attributes;
pub use disclosure::{answers_disclose_nothing, secrets_decide_nothing};
pub use effect_laws::an_effect_is_one_transaction;
pub use events::Event;
pub use findings::{Denial, Finding};
pub use grant_laws::{
    a_share_writes_each_of_its_items, granted_where_each_need_is_met, what_is_written_is_needed,
};
pub use note_laws::{notes_go_with_the_ruling, notes_say_the_verdict, what_takes_note_is_noted};
pub use notes::Note;
pub use outs::Out;
pub use permits::Permit;
pub use rights::{heads_show_no_contents, what_changes_is_granted, what_is_served_is_granted};
pub use ruling_laws::{
    one_ruling, permits_are_spent_on_what_is_named, rulings_look_at_what_is_named,
};
pub use rulings::{Ruled, Ruling, rule_on};
pub use serving::Served;
pub use writes::Writes;
