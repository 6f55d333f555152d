//! The mailboxes to which a partition's thread sends, and what of it waits for a log first.
ghost use Rattle.std.specs.Prelude.{◌≡◌, List, true, All, None, is_some};
ghost use Rattle.album_partition.specs.declared.marks.Mark.{Mark as Made};
ghost use Rattle.album_keepers.specs.Held.{stamp_prepared, IsCoveredAmong, IsFree};

use crate::control::ControlReply;
use crate::envelopes::{ReplyEnvelope, RequestEnvelope};
use crate::held::{Destination, HeldMail, Outgoing};
use crate::log_entries::LogEntry;
use crate::mailbox::{PartitionMail, SessionMail};
use crate::names::DeskNames;
use album_calls::Node;
use album_stamps::ClientNo;
use crossbeam_channel::{SendError, Sender};
use std::alloc::{AllocError, Global};
use std::collections::{BTreeMap, VecDeque};
use std::sync::Wait;

/// The mailboxes to which a partition's thread sends.
#[derive(Drop)]
pub(crate) struct Outbox<J: DeskNames> {
    alloc: Global,
    /// Of the partitions, in the order of their numbers.
    parts: Vec<Sender<PartitionMail<J>>>,
    /// Of the sessions that are not over, by their numbers.
    sessions: BTreeMap<u16, Sender<SessionMail<J>>>,
    /// Of the log, where the service has one.
    log: Option<Sender<HeldMail<J>>>,
}

impl<J: DeskNames> Outbox<J> {
    /// These partitions, this log, and no session.
    pub(crate) fn new(
        alloc: Global,
        parts: Vec<Sender<PartitionMail<J>>>,
        log: Option<Sender<HeldMail<J>>>,
    ) -> Outbox<J> {
        Outbox {
            alloc,
            parts,
            sessions: BTreeMap::new(alloc),
            log,
        }
    }

    /// Whether the service has a log.
    pub(crate) fn is_logged(&self) -> bool
        ensures { result ≡ is_some self.now.log }
    {
        self.log.is_some()
    }

    pub(crate) fn register(
        &mut self,
        client: u16,
        end: Sender<SessionMail<J>>,
    ) -> Result<(), AllocError> {
        self.sessions.insert(client, end)?;
        Ok(())
    }

    pub(crate) fn forget(&mut self, client: u16) {
        let _ = self.sessions.remove(&client);
    }

    /// Sends a mail to the session. One that is over takes none.
    fn send_to<R: Wait>(
        &self,
        rt: &R,
        client: ClientNo,
        mail: SessionMail<J>,
    ) -> Result<(), AllocError> {
        match self.sessions.get(&client.number()) {
            None => Ok(()),
            Some(end) => taken(end.send(rt, mail)),
        }
    }

    /// Refuses a message for which there was no memory. A partition that asks for a stamp's state gets no refusal: the
    /// stamp stays pending there, and may be swept again.
    pub(crate) fn refuse<R: Wait>(&self, rt: &R, from: Node, tag: u64) -> Result<(), AllocError> {
        match from {
            Node::Client(client) => self.send_to(rt, client, SessionMail::OutOfMemory(tag)),
            Node::Part(_) => Ok(()),
        }
    }

    /// Sends an envelope to its partition. Where the service has a log, it doesn't wait for it.
    pub(crate) fn post<R: Wait>(
        &self,
        rt: &R,
        envelope: RequestEnvelope<J>,
    ) -> Result<(), AllocError>
        requires { is_some self.now.log ≡ true → stamp_prepared envelope.message.body ≡ None }
    {
        post_to(rt, self.alloc, &self.parts, envelope)
    }

    /// Sends an envelope to its partition: by the log, where the service has one and there is an entry that the
    /// envelope rests on.
    pub(crate) fn post_out<R: Wait>(
        &self,
        rt: &R,
        envelope: RequestEnvelope<J>,
        entry: Option<LogEntry>,
    ) -> Result<(), AllocError>
        requires { is_some self.now.log ≡ true
            → (marks : List Made) × IsCoveredAmong marks entry envelope.message }
    {
        let Some(log) = &self.log else {
            drop(entry);
            return self.post(rt, envelope);
        };
        let Some(entry) = entry else {
            return self.post(rt, envelope);
        };
        let parts = copies_of(self.alloc, &self.parts)?;
        let mail = HeldMail::of_vote(self.alloc, entry, envelope, parts)?;
        taken(log.send(rt, mail))
    }

    /// Sends the replies on, those that wait for the log by the log.
    pub(crate) fn send_out<R: Wait>(&self, rt: &R, outgoing: Outgoing<J>) -> Result<(), AllocError>
        requires { outgoing.logged ≡ is_some self.now.log }
    {
        match &self.log {
            None => self.send(rt, outgoing.into_replies()),
            Some(log) => {
                if outgoing.is_free() {
                    self.send(rt, outgoing.into_replies())
                } else {
                    self.hold(rt, log, outgoing)
                }
            }
        }
    }

    /// Hands the replies to the log, which sends them on once it keeps what they rest on. To a session that is over
    /// nothing goes.
    fn hold<R: Wait>(
        &self,
        rt: &R,
        log: &Sender<HeldMail<J>>,
        outgoing: Outgoing<J>,
    ) -> Result<(), AllocError>
        requires { outgoing.logged ≡ true }
    {
        let Some(to) = self.destination_of(&outgoing)? else {
            drop(outgoing);
            return Ok(());
        };
        taken(log.send(rt, HeldMail::new(self.alloc, outgoing, to)))
    }

    /// Where the replies go, if anywhere.
    ///
    /// # Errors
    ///
    /// `AllocError`.
    fn destination_of(&self, outgoing: &Outgoing<J>) -> Result<Option<Destination<J>>, AllocError> {
        let Some(receiver) = outgoing.receiver() else {
            return Ok(None);
        };
        match receiver {
            Node::Client(client) => self.session_of(client),
            Node::Part(_) => Ok(Some(Destination::Parts(copies_of(self.alloc, &self.parts)?))),
        }
    }

    /// The session of this client, if it isn't over.
    ///
    /// # Errors
    ///
    /// `AllocError`.
    fn session_of(&self, client: ClientNo) -> Result<Option<Destination<J>>, AllocError> {
        let Some(end) = self.sessions.get(&client.number()) else {
            return Ok(None);
        };
        Ok(Some(Destination::Session(end.clone()?)))
    }

    /// The replies to the messages of one mail, which are all to one session, or each to a partition.
    /// Where the service has a log, none of them waits for it.
    fn send<R: Wait>(&self, rt: &R, replies: VecDeque<ReplyEnvelope<J>>) -> Result<(), AllocError>
        requires { is_some self.now.log ≡ true → All IsFree replies.items }
    {
        let Some(first) = replies.front() else {
            return Ok(());
        };
        match first.reply().to() {
            Node::Client(client) => self.send_to(rt, client, SessionMail::Replies(replies)),
            Node::Part(_) => {
                for reply in replies {
                    self.post(rt, reply.into_envelope())?;
                }
                Ok(())
            }
        }
    }

    /// The same of a reply to the client.
    pub(crate) fn notify<R: Wait>(
        &self,
        rt: &R,
        client: ClientNo,
        reply: ControlReply<J>,
    ) -> Result<(), AllocError> {
        let reply = Box::new(self.alloc, reply)?;
        self.send_to(rt, client, SessionMail::ControlReply(reply))
    }
}

/// The same mailboxes once more.
///
/// # Errors
///
/// `AllocError`.
pub(crate) fn copies_of<J: DeskNames>(
    alloc: Global,
    mailboxes: &[Sender<PartitionMail<J>>],
) -> Result<Vec<Sender<PartitionMail<J>>>, AllocError> {
    let mut copies = Vec::new(alloc);
    for mailbox in mailboxes {
        copies.push(mailbox.clone()?)?;
    }
    Ok(copies)
}

/// Sends an envelope to its partition, which is one of these.
pub(crate) fn post_to<J: DeskNames, R: Wait>(
    rt: &R,
    alloc: Global,
    parts: &[Sender<PartitionMail<J>>],
    envelope: RequestEnvelope<J>,
) -> Result<(), AllocError> {
    let Some(end) = mailbox_of(parts, envelope.message().to()) else {
        drop(envelope);
        return Ok(());
    };
    let envelopes = one(alloc, envelope)?;
    taken(end.send(rt, PartitionMail::Envelopes(envelopes)))
}

/// The mailbox of the partition that the node is.
fn mailbox_of<J: DeskNames>(
    parts: &[Sender<PartitionMail<J>>],
    node: Node,
) -> Option<&Sender<PartitionMail<J>>> {
    match node {
        Node::Part(part) => parts.get(usize::from(part)),
        Node::Client(_) => None,
    }
}

/// A list of this item alone.
fn one<T: Drop>(alloc: Global, item: T) -> Result<Vec<T>, AllocError> {
    let mut items = Vec::new(alloc);
    items.push(item)?;
    Ok(items)
}

/// Whether there was memory for what was sent. Who is gone needs none.
pub(crate) fn taken<T: Drop>(sent: Result<(), SendError<T>>) -> Result<(), AllocError> {
    match sent {
        Ok(()) | Err(SendError::Disconnected(_)) => Ok(()),
        Err(SendError::OutOfMemory(_)) => Err(AllocError),
    }
}
