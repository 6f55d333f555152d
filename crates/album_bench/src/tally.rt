//! How often each reply came.
use album_calls::{Body, Message, Reply};
use album_items::Value;
use std::fmt;

#[derive(Clone, Copy, Default)]
pub struct Tally {
    prepared: u64,
    committed: u64,
    discarded: u64,
    values: u64,
    missing: u64,
    statuses: u64,
    not_prepared: u64,
    clashes: u64,
    full: u64,
    gone: u64,
    none: u64,
    trimmed: u64,
    /// How many values the Prepares had that were sent.
    sent: u64,
    pub marks: u64,
}

impl Tally {
    /// Counts a reply, or that there was none.
    pub fn count(&mut self, reply: &Option<Message>) {
        match reply {
            None => raise(&mut self.none),
            Some(message) => self.count_body(message.body()),
        }
    }

    /// Counts a trim that was done.
    pub fn count_trim(&mut self) {
        raise(&mut self.trimmed);
    }

    /// Counts the values of a Prepare.
    pub fn count_sent(&mut self, values: usize) {
        self.sent = self.sent.wrapping_add(values as u64);
    }

    fn count_body(&mut self, body: &Body) {
        match body {
            Body::Request(_) => {}
            Body::Reply(reply) => self.count_reply(reply),
        }
    }

    fn count_reply(&mut self, reply: &Reply) {
        match reply {
            Reply::Prepared(_) => raise(&mut self.prepared),
            Reply::Committed(_) => raise(&mut self.committed),
            Reply::Discarded(_) => raise(&mut self.discarded),
            Reply::Version(_, _, value) => self.count_value(value.value()),
            Reply::Status(_, _) => raise(&mut self.statuses),
            Reply::NotPrepared(_) => raise(&mut self.not_prepared),
            Reply::Clash => raise(&mut self.clashes),
            Reply::Full(_) => raise(&mut self.full),
            Reply::Gone(_) => raise(&mut self.gone),
        }
    }

    fn count_value(&mut self, value: &Value) {
        if value.is_there() {
            raise(&mut self.values);
        } else {
            raise(&mut self.missing);
        }
    }
}

fn raise(count: &mut u64) {
    *count = count.wrapping_add(1);
}

impl fmt::Display for Tally {
    fn fmt<W: fmt::Write>(&self, f: &mut fmt::Formatter<W>) -> fmt::Result {
        write!(
            f,
            "prepared={} committed={} discarded={} values={} missing={} statuses={} not_prepared={} \
             clashes={} full={} gone={} none={} trimmed={} sent={} marks={}",
            self.prepared,
            self.committed,
            self.discarded,
            self.values,
            self.missing,
            self.statuses,
            self.not_prepared,
            self.clashes,
            self.full,
            self.gone,
            self.none,
            self.trimmed,
            self.sent,
            self.marks
        )
    }
}
