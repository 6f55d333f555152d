//! What every ruling is based on (the policy, the principal, its groups, and what a view has), and what the policy
//! shows of an album by that.
//!
//! What comes in: a view, and the principal. What goes out: the rows of the album's children that the principal may
//! see.
//!
//! Read `view_lookups`, `groups`, `reasons` and `ruling_contexts` first, which rulings on all other asks use too, then
//! `listing`.
//! (A reason is an alternative with its verdict.)
//! `disclosure` and `titles` have laws alone.
#![tactic(auto)]

// What a ruling is based on.
mod groups;
mod reasons;
mod ruling_contexts;
mod view_lookups;

// The rows of an album.
mod listing;
mod rows;

// What holds of them.
mod basis_laws;
mod disclosure;
mod laws;
mod titles;

pub use basis_laws::a_ruling_has_a_basis;
pub use disclosure::listings_disclose_nothing;
pub use groups::groups_in;
pub use laws::{listings_are_alike, listings_look_at_what_is_named};
pub use listing::{list, list_with};
pub use reasons::{Alternative, Reason};
pub use rows::{Row, Rows};
pub use ruling_contexts::RulingContext;
pub use titles::titles_are_shown_where_granted;
pub use view_lookups::ViewLookup;
