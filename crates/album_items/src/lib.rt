//! The items of the service, their values, and the state that the service opens with.
//!
//! What comes in: kinds, numbers, texts and lists. What goes out: items, the partition at which each is placed, values
//! with their parts, and an `Opening`, with the check whether the service may open with it.
//!
//! Read `item_ids` first, then `places`. Then read `values`, with the lists and texts that they are made of
//! (`collections`, `texts`), and `shared_values`. `openings` comes last, with `first_stamps`; by `pairs` it tests every
//! two rows.
#![tactic(auto)]

// Items, and where each is placed.
mod item_ids;
mod places;

// Their values, the parts of these, and values that are shared.
mod collections;
mod shared_values;
mod texts;
mod values;

// What the service opens with.
mod first_stamps;
mod openings;
mod pairs;

pub use collections::{ItemValues, Items, Members};
pub use first_stamps::FirstStamps;
pub use item_ids::{ItemId, Kind, items_by_text, place, read_item};
pub use openings::{
    Opening, a_root_is_of_policy_3, an_opening_is_a_base, are_distinct, has_own_value,
    has_single_rows,
};
pub use places::{lies_at, others_of, places_of, rows_placed_at};
pub use shared_values::SharedValue;
pub use texts::{Content, Title};
pub use values::{Album, Group, Head, Picture, Value};
