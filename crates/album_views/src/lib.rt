//! What clients ask, and the views on which it is ruled: a view is one snapshot that has every item that
//! the ruling looks at.
//!
//! What comes in: an ask, and then the snapshot of each read that is made for it. What goes out: the items
//! to read first, and with each snapshot the items to read next, or a view, or why there is none.
//!
//! Read `asks`, `deeds` and `checks` first, then `read_set`, which gives the items that a ruling looks at, and
//! `covering`, which mostly does without them, then `view` and `viewing`.
#![tactic(auto)]

// What is asked.
mod asks;
mod checks;
mod deeds;

// What a ruling looks at, and the reads until a snapshot has it.
mod covering;
mod read_set;
mod view;
mod viewing;

// What holds of them.
mod laws;

pub use asks::{Ask, NewList, NewLists, NewMembership, NewMemberships};
pub use deeds::{Deed, Relatives};
pub use laws::{
    a_view_is_the_first_closed_read, asks_without_flaw, heads_and_children_are_narrow,
    names_are_what_is_named,
};
pub use read_set::{looker, names};
pub use view::View;
pub use viewing::{ViewStep, Viewing, Why};
