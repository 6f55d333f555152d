//! Tests of what no script of lines reaches, over a store that a table spells. They are of asks and their copies, the
//! names of a snapshot, what root has, a listing of what is missing, what writes keep, and replies to a write. Others
//! are of the audit book, and of calls that are refused for want of memory. The scripts in `rows/replay` show the
//! answers to asks.
//!
//! Read `store` and `asks` first, which spell what the tests begin with.
#![tactic(auto)]

// The store and the asks that tests begin with.
#[cfg(test)]
mod asks;
#[cfg(test)]
mod ruling;
#[cfg(test)]
mod store;
#[cfg(test)]
mod viewing;

// The tests.
#[cfg(test)]
mod audits;
#[cfg(test)]
mod checks;
#[cfg(test)]
mod effects;
#[cfg(test)]
mod listings;
#[cfg(test)]
mod refused;
#[cfg(test)]
mod roots;
#[cfg(test)]
mod views;
#[cfg(test)]
mod writes;
