//! Who is in which group, what an access list says of a request, and which entries take note of it.
//!
//! The principal, the groups and the policy come in, and a verdict goes out. Read `facts`, `groups` and
//! `policies` first, then `verdicts`.
#![tactic(auto)]

// The principal, the object's owner, and who is in which group.
mod facts;
mod groups;

// What a list says of that: which entries take note, and the verdict by a policy.
mod notes;
mod policies;
mod verdicts;

pub use facts::{Facts, Principal, principals_by_text, root_by_name};
pub use groups::members;
pub use notes::{audits, owners_way_is_noted_without_groups};
pub use policies::Policy;
pub use verdicts::{Verdict, evaluate, given_to_owners, one_verdict, root_as_owner};
