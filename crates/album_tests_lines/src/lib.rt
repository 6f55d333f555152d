//! Tests of lines, of the engines that answer, replay and talk over readers and writers in memory, and of a world by
//! calls that no line makes.
//!
//! Read `streams` and `runs` first: the readers and writers, and what the tests of engines do with them.
#![tactic(auto)]

// Readers and writers in memory, and what is done with them.
#[cfg(test)]
mod runs;
#[cfg(test)]
mod streams;

// The tests.
#[cfg(test)]
mod engine_runs;
#[cfg(test)]
mod lines;
#[cfg(test)]
mod talk_runs;
#[cfg(test)]
mod worlds;
