//! A gate: it sees each message that a partition takes, and may hold the partition up. Tests order messages by it.

/// A partition's thread calls `enter` once it has taken its message of this number, from 0, and before
/// it does what the message asks, and `leave` once its reply is sent, or the log has it: those that came
/// in one mail enter one after another, and leave when the replies to all of them are sent. Registrations
/// and control requests aren't numbered, and don't call it.
pub trait Gate {
    /// Whether it sees no message, and holds no partition up. Then a session may let a partition take its messages in
    /// the session's own thread, and neither `enter` nor `leave` is called for these.
    fn is_open(&self) -> bool {
        false
    }

    fn enter(&self, part: u16, number: u64);

    fn leave(&self, part: u16, number: u64);

    /// A partition's thread calls it where it had no memory for what others wait for. It ends then, and the service is
    /// broken: its sessions answer `Closed`.
    fn fail(&self, _part: u16) {}

    /// The same of the log's thread, where the log failed.
    fn fail_log(&self) {}
}

/// A gate that does nothing.
#[derive(Drop)]
pub struct Open;

impl Gate for Open {
    fn is_open(&self) -> bool {
        true
    }

    fn enter(&self, _part: u16, _number: u64) {}

    fn leave(&self, _part: u16, _number: u64) {}
}
