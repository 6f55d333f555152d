//! Tests of partitions, reads and passes that no script of `rows/replay` reaches. Most of them are driven by tables of
//! messages that are spelled as short texts. Other tests are of sessions of a running service, with gates that its
//! partitions pass, and of a world and a service in which the same happens.
//!
//! Read `messages` first, which spells messages, then `partition`. Before the tests of sessions read `gates`, and
//! before those of worlds `scripts`.
#![tactic(auto)]

// Messages, values and answers as short texts.
#[cfg(test)]
mod answers;
#[cfg(test)]
mod messages;
#[cfg(test)]
mod values;

// Tests of partitions, reads and passes by themselves.
#[cfg(test)]
mod partition;
#[cfg(test)]
mod passes;
#[cfg(test)]
mod reader;
#[cfg(test)]
mod refused;
#[cfg(test)]
mod terminate;

// What is asked, and what holds a thread or a mail.
#[cfg(test)]
mod asked;
#[cfg(test)]
mod gates;

// Tests of writes that race in a world.
#[cfg(test)]
mod checked;

// Tests of sessions of a service.
#[cfg(test)]
mod acknowledged;
#[cfg(test)]
mod between_rounds;
#[cfg(test)]
mod delayed;
#[cfg(test)]
mod hints;
#[cfg(test)]
mod pending;
#[cfg(test)]
mod sessions;

// A world and a service in which the same happens.
#[cfg(test)]
mod conducted;
#[cfg(test)]
mod doors;
#[cfg(test)]
mod mails;
#[cfg(test)]
mod orders;
#[cfg(test)]
mod scripts;
