//! Laws that test definitions: what a user would say of them, in other words than theirs.
//!
//! What comes in: the definitions that the contracts of the judge and of the store cite. What goes out: laws alone, so
//! that a wrong definition is refused, with the code that follows it. They are apart from those definitions, and no
//! crate of the program waits for them.
//!
//! Read `writing` first: what each ask writes. Then read `serving`, `judging` and `needing`. `checking` and `filling`
//! are of limits, and the others of what is inherited, of the names of bits, and of openings.
#![tactic(auto)]

// What asks pass, what they write, and what they are served.
mod checking;
mod filling;
mod serving;
mod writing;

// What is judged, and by what, and which right an ask needs.
mod judging;
mod needing;

// What is inherited, what bits are called, and what an opening may name.
mod inheriting;
mod naming;
mod opening;

pub use checking::what_passes_fits;
pub use filling::albums_keep_to_their_limit;
pub use inheriting::inheritance_goes_down;
pub use judging::{denials_name_what_denies, the_store_judges_as_the_judge_does};
pub use naming::bits_have_their_names;
pub use needing::{
    a_deletion_needs_one_of_two_rights, a_share_needs_each_right, an_ask_needs_its_right,
    owners_are_never_locked_out,
};
pub use opening::what_is_drawn_is_named_by_no_opening;
pub use serving::what_is_served_has_its_stamp;
pub use writing::{
    a_deletion_is_as_asked, a_move_is_as_asked, a_new_group_is_as_asked, additions_are_as_asked,
    contents_are_as_asked, lists_are_as_asked, members_are_as_asked, owners_are_as_asked,
    root_writes_as_the_user, shares_are_as_asked, titles_are_as_asked,
};
