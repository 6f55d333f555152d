//! The replies of a partition, and those among them that wait for a log. Whoever hears that a stamp is prepared may
//! have it committed elsewhere, so the log keeps it first. All other replies wait for nothing.
ghost use Rattle.std.specs.Prelude.{◌≡◌, ◌∷◌, [], List, true, IfOk, All, None, Some};
ghost use Rattle.album_partition.specs.declared.marks.Mark.{Mark as Made};
ghost use Rattle.album_keepers.specs.Held.{IsCoveredAmong, IsCoveredBy, IsFree};

use crate::envelopes::{ReplyEnvelope, RequestEnvelope};
use crate::log_entries::{LogEntry, MarkLog};
use crate::mailbox::{PartitionMail, SessionMail};
use crate::names::DeskNames;
use crate::outbox::{post_to, taken};
use album_calls::Node;
use crossbeam_channel::Sender;
use std::alloc::{AllocError, Global};
use std::collections::VecDeque;
use std::marker::Model;
use std::sync::Wait;

/// The replies to the messages of one mail, in order. Where the service has a log, each that says that a stamp is
/// prepared comes with the entry that it rests on.
pub(crate) struct Outgoing<J: DeskNames> {
    logged: bool,
    replies: VecDeque<ReplyEnvelope<J>>,
    entries: Vec<LogEntry>,
}

impl<J: DeskNames> Model for Outgoing<J> {
    ghost use Rattle.std.specs.Prelude.{◌≡◌, true};
    ghost use Rattle.album_keepers.specs.Held.{OutgoingState, AreCovered};

    ghost Value = { OutgoingState };

    ghost view = { λ o. record { logged = o.logged; replies = o.replies.items; entries = o.entries.items } };

    ghost invariant = { λ o. o.logged ≡ true → AreCovered o.entries.items o.replies.items };
}

impl<J: DeskNames> Drop for Outgoing<J> {
    fn drop(self) {
        let Outgoing {
            logged: _,
            replies,
            entries,
        } = self;
        drop(replies);
        drop(entries);
    }
}

impl<J: DeskNames> Outgoing<J> {
    /// No reply yet, with room for so many.
    ///
    /// # Errors
    ///
    /// `AllocError`.
    pub(crate) fn with_room(
        alloc: Global,
        logged: bool,
        count: usize,
    ) -> Result<Outgoing<J>, AllocError>
        ensures { IfOk result (λ none. none.logged ≡ logged) }
    {
        let mut replies = VecDeque::new(alloc);
        replies.reserve(count)?;
        Ok(Outgoing {
            logged,
            replies,
            entries: Vec::new(alloc),
        })
    }

    /// Whether the service has a log.
    pub(crate) fn logged(&self) -> bool
        ensures { result ≡ self.now.logged }
    {
        self.logged
    }

    /// Adds a reply, with the entry that it rests on, where the service has a log and the reply says that a stamp is
    /// prepared.
    ///
    /// # Errors
    ///
    /// `AllocError`.
    pub(crate) fn add(
        &mut self,
        reply: ReplyEnvelope<J>,
        entry: Option<LogEntry>,
    ) -> Result<(), AllocError>
        requires { self.old.logged ≡ true → IsCoveredBy entry reply }
        ensures { self.new.logged ≡ self.old.logged }
    {
        match entry {
            None => self.add_free(reply),
            Some(entry) => self.add_held(reply, entry),
        }
    }

    /// Adds a reply that rests on no entry.
    fn add_free(&mut self, reply: ReplyEnvelope<J>) -> Result<(), AllocError>
        requires { self.old.logged ≡ true → IsCoveredBy None reply }
        ensures { self.new.logged ≡ self.old.logged }
    {
        self.replies.push_back(reply)?;
        Ok(())
    }

    /// Adds a reply that rests on this entry.
    fn add_held(&mut self, reply: ReplyEnvelope<J>, entry: LogEntry) -> Result<(), AllocError>
        requires { self.old.logged ≡ true → IsCoveredBy (Some entry) reply }
        ensures { self.new.logged ≡ self.old.logged }
    {
        self.entries.push(entry)?;
        self.replies.push_back(reply)?;
        Ok(())
    }

    /// To whom the first of them goes, if there is one.
    pub(crate) fn receiver(&self) -> Option<Node> {
        let first = self.replies.front()?;
        Some(first.reply().to())
    }

    /// Whether none of them waits for a log.
    pub(crate) fn is_free(&self) -> bool
        ensures { result ≡ true → self.now.logged ≡ true → All IsFree self.now.replies }
    {
        !self.logged || self.entries.is_empty()
    }

    /// The replies and the entries.
    fn open(self) -> (VecDeque<ReplyEnvelope<J>>, Vec<LogEntry>)
        ensures replies { result.0.items ≡ self.replies }
        ensures entries { result.1.items ≡ self.entries }
    {
        let Outgoing {
            logged: _,
            replies,
            entries,
        } = self;
        (replies, entries)
    }

    /// The replies.
    pub(crate) fn into_replies(self) -> VecDeque<ReplyEnvelope<J>>
        ensures { result.items ≡ self.replies }
    {
        let (replies, entries) = self.open();
        drop(entries);
        replies
    }
}

/// Where held replies go: to one session, or each to its partition.
#[derive(Drop)]
pub(crate) enum Destination<J: DeskNames> {
    Session(Sender<SessionMail<J>>),
    Parts(Vec<Sender<PartitionMail<J>>>),
}

/// What waits for the log.
#[derive(Drop)]
enum Held<J: DeskNames> {
    /// The replies of one mail, and where they go.
    Replies(VecDeque<ReplyEnvelope<J>>, Destination<J>),
    /// A vote, and the partitions.
    Vote(RequestEnvelope<J>, Vec<Sender<PartitionMail<J>>>),
}

/// A mail that waits for the log. Contracts see the entries that it waits for.
pub struct HeldMail<J: DeskNames> {
    alloc: Global,
    entries: Vec<LogEntry>,
    held: Held<J>,
}

impl<J: DeskNames> Model for HeldMail<J> {
    ghost use Rattle.std.specs.Prelude.{List};
    ghost use Rattle.album_keepers.specs.declared.log_entries.LogEntry.{LogEntry as Entry};

    ghost Value = { List Entry };

    ghost view = { λ h. h.entries.items };
}

impl<J: DeskNames> Drop for HeldMail<J> {
    fn drop(self) {
        let HeldMail {
            alloc: _,
            entries,
            held,
        } = self;
        drop(entries);
        drop(held);
    }
}

impl<J: DeskNames> HeldMail<J> {
    /// These replies wait for the log, and go there then.
    pub(crate) fn new(alloc: Global, outgoing: Outgoing<J>, to: Destination<J>) -> HeldMail<J>
        requires { outgoing.logged ≡ true }
        ensures { result ≡ outgoing.entries }
    {
        let (replies, entries) = outgoing.open();
        HeldMail {
            alloc,
            entries,
            held: Held::Replies(replies, to),
        }
    }

    /// This vote waits for the log, and goes to its partition then.
    ///
    /// # Errors
    ///
    /// `AllocError`.
    pub(crate) fn of_vote(
        alloc: Global,
        entry: LogEntry,
        vote: RequestEnvelope<J>,
        parts: Vec<Sender<PartitionMail<J>>>,
    ) -> Result<HeldMail<J>, AllocError>
        requires { (marks : List Made) × IsCoveredAmong marks (Some entry) vote.message }
        ensures { IfOk result (λ mail. mail ≡ entry ∷ []) }
    {
        let mut entries = Vec::new(alloc);
        entries.push(entry)?;
        Ok(HeldMail {
            alloc,
            entries,
            held: Held::Vote(vote, parts),
        })
    }

    /// The entries that it waits for.
    pub fn entries(&self) -> &[LogEntry]
        ensures { result.now ≡ self.now }
    {
        &self.entries
    }

    /// Sends it on, once the log keeps what it rests on.
    ///
    /// # Errors
    ///
    /// `AllocError`, where there is no memory for what is sent.
    pub fn release<L: MarkLog, R: Wait>(self, rt: &R, _log: &L) -> Result<(), AllocError>
        requires { All (L.keeps _log.now) self }
    {
        let HeldMail {
            alloc,
            entries,
            held,
        } = self;
        drop(entries);
        match held {
            Held::Replies(replies, to) => send_there(rt, alloc, to, replies),
            Held::Vote(vote, parts) => post_to(rt, alloc, &parts, vote),
        }
    }
}

/// Sends the replies there.
fn send_there<J: DeskNames, R: Wait>(
    rt: &R,
    alloc: Global,
    to: Destination<J>,
    replies: VecDeque<ReplyEnvelope<J>>,
) -> Result<(), AllocError> {
    match to {
        Destination::Session(end) => taken(end.send(rt, SessionMail::Replies(replies))),
        Destination::Parts(parts) => post_all(rt, alloc, &parts, replies),
    }
}

/// Sends each reply to its partition.
fn post_all<J: DeskNames, R: Wait>(
    rt: &R,
    alloc: Global,
    parts: &[Sender<PartitionMail<J>>],
    replies: VecDeque<ReplyEnvelope<J>>,
) -> Result<(), AllocError> {
    for reply in replies {
        post_to(rt, alloc, parts, reply.into_envelope())?;
    }
    Ok(())
}
