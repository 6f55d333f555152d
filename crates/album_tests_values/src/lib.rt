//! Tests of what lies below partitions and lines: the log in a file, stamps, lists, verdicts, items and versions; and
//! of what an epoch leaves of them.
//!
//! Read `lists` first, then `items`: they make values for the others.
#![tactic(auto)]

#[cfg(test)]
mod eval;
#[cfg(test)]
mod folds;
#[cfg(test)]
mod items;
#[cfg(test)]
mod lists;
#[cfg(test)]
mod logs;
#[cfg(test)]
mod openings;
#[cfg(test)]
mod stamps;
#[cfg(test)]
mod versions;
