//! The outputs of an event.
use crate::answers::Answer;
use crate::notes::Note;
use album_stamps::ClientNo;

/// One output of an event.
#[derive(Debug, Drop)]
pub enum Out {
    /// The message of this number is sent.
    Sent(u64),
    /// An entry of an access list notes the client's ask in the audit.
    Noted(ClientNo, Note),
    /// The client's ask is answered.
    Answered(ClientNo, Answer),
}
