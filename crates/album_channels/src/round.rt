//! Rounds: messages that a session sends, and the replies to them.
ghost use Rattle.std.specs.Prelude.{◌≡◌, All, None, IfOk, IfErr, OnOk, IfSome, IfNone, IsOkUnless};
ghost use Rattle.album_keepers.specs.Rounds.{Counts};
ghost use Rattle.album_passes.specs.Cuts.{IsSound};
ghost use Rattle.album_keepers.specs.Envelopes.{Shows};
ghost use Rattle.album_keepers.specs.Replies.{IsReplied};
ghost use Rattle.album_channels.specs.Sending.{sent_at, sent_last};
ghost use Rattle.album_channels.specs.Channels.{IsLater, IsClosedOrOutOfMemory, IsNoReply};

use crate::asked::{Asked, NoReply};
use crate::channel::PartitionChannel;
use crate::reads::begins_read;
use crate::sightings::sighting_of;
use album_calls::Message;
use album_keepers::{DeskNames, PartitionMail, ReplyEnvelope, RequestEnvelope, RoundReply};
use album_passes::Pass;
use album_stamps::Refusal;
use std::collections::VecDeque;
use std::sync::Wait;
use std::time;

impl<J: DeskNames> PartitionChannel<J> {
    /// Sends the messages of a round, all of them before the first reply is taken; or none, where the session knows
    /// what would be replied.
    ///
    /// # Errors
    ///
    /// `Closed` or `OutOfMemory`.
    pub fn send_round<R: Wait>(
        &mut self,
        rt: &R,
        messages: Vec<Message>,
    ) -> Result<Asked<J>, Refusal>
        requires shown { All (Shows self.old.cut) messages.items }
        ensures sent { IfOk result (λ asked. asked.sent ≡ messages.items) }
        ensures begun { IfOk result (λ asked. asked.begun.cut ≡ self.old.cut) }
        ensures sound { IsSound self.old.cut }
        ensures refused { IfErr result IsClosedOrOutOfMemory }
        ensures same { self.new ≡ self.old }
    {
        let begun = self.split();
        let known = self.knows_all(&begun, &messages);
        let replies = self.post_all(rt, &messages, known)?;
        if begins_read(&messages) {
            // What the first replies show as latest is kept from now on.
            self.sights(messages.len());
        }
        // From here on the message is looked for that a reply answers.
        self.found = 0;
        Ok(Asked::new(messages, begun, known, replies))
    }

    /// Sends the messages, if there are any. Then the replies to these are outstanding, and no longer those to the
    /// round before.
    ///
    /// # Errors
    ///
    /// `Closed` or `OutOfMemory`.
    pub fn send_next_round<R: Wait>(
        &mut self,
        rt: &R,
        asked: Asked<J>,
        sent: Vec<Message>,
    ) -> Result<Asked<J>, Refusal>
        requires shown { All (Shows self.old.cut) sent.items }
        ensures sent { IfOk result (λ more. more.sent ≡ sent_last asked.sent sent.items) }
        ensures begun { IfOk result (λ more. more.begun.cut ≡ sent_at asked.begun.cut self.old.cut sent.items) }
        ensures refused { IfErr result IsClosedOrOutOfMemory }
        ensures same { self.new ≡ self.old }
    {
        if sent.is_empty() {
            return Ok(asked);
        }
        self.send_round(rt, sent)
    }

    /// Sends the messages, unless it is known what would be replied: to each partition at once those that go there.
    /// Gives the replies that keepers have given here.
    fn post_all<R: Wait>(
        &mut self,
        rt: &R,
        messages: &[Message],
        known: bool,
    ) -> Result<VecDeque<RoundReply<J>>, Refusal>
        requires shown { All (Shows self.old.cut) messages.now }
        ensures count { IfOk result (λ replies. All (Counts J.terms.limit self.old.cut messages.now) replies.items) }
        ensures refused { IfErr result IsClosedOrOutOfMemory }
        ensures same { self.new ≡ self.old }
    {
        let mut replies = VecDeque::new(self.alloc);
        if known {
            return Ok(replies);
        }
        for part in 0..self.parts() {
            self.post(rt, part, messages, &mut replies)?;
        }
        Ok(replies)
    }

    /// Has the partition take those of the messages that go to it, all at once: in this thread, where the session may,
    /// and else by its mailbox.
    fn post<R: Wait>(
        &mut self,
        rt: &R,
        part: u16,
        messages: &[Message],
        replies: &mut VecDeque<RoundReply<J>>,
    ) -> Result<(), Refusal>
        requires shown { All (Shows self.old.cut) messages.now }
        ensures count { All (Counts J.terms.limit self.old.cut messages.now) replies.old.items
            → All (Counts J.terms.limit self.old.cut messages.now) replies.new.items }
        ensures refused { IfErr result IsClosedOrOutOfMemory }
        ensures same { self.new ≡ self.old }
    {
        let count = count_to(part, messages);
        if count == 0 || self.answer_here(rt, part, messages, replies)? {
            return Ok(());
        }
        let envelopes = self.envelopes_to(part, count, messages)?;
        self.send(rt, part, PartitionMail::Envelopes(envelopes))
    }

    /// Those of the messages that go to the partition, so many, each with a pass.
    fn envelopes_to(
        &mut self,
        part: u16,
        count: usize,
        messages: &[Message],
    ) -> Result<Vec<RequestEnvelope<J>>, Refusal>
        requires shown { All (Shows self.old.cut) messages.now }
        ensures memory { IsOkUnless result Refusal.OutOfMemory }
        ensures same { self.new ≡ self.old }
    {
        let mut envelopes = Vec::with_capacity(self.alloc, count)?;
        for message in messages {
            if message.to().is_part(part) {
                envelopes.push(RequestEnvelope::new(message.copy()?, self.split()))?;
            }
        }
        Ok(envelopes)
    }

    /// Waits for a reply to one of the messages that were asked, of a read or not.
    ///
    /// # Errors
    ///
    /// `Closed`, or `OutOfMemory` where a partition had none for one of them; or the read is overtaken.
    #[tactic(auto, using(crate::proofs::ChannelLemmas::later_same))]
    pub fn hear<R: Wait + time::Clock>(
        &mut self,
        rt: &R,
        asked: &mut Asked<J>,
        reads: bool,
    ) -> Result<Message, NoReply>
        ensures replied { IfOk result (IsReplied J.terms.limit asked.new.begun.cut self.new.cut asked.new.sent) }
        ensures sound { OnOk result (IsSound self.new.cut) }
        ensures refused { IfErr result (IsNoReply reads) }
        ensures later { IsLater self.old self.new }
        ensures asked { asked.new ≡ asked.old }
    {
        for _ in rt.forever() {
            if let Some(reply) = self.hear_next(rt, asked, reads)? {
                return Ok(reply);
            }
        }
        // `forever` has no end.
        unreachable!()
    }

    /// Takes the next reply that was given here, or what is known, or the next envelope, and gives the reply, where it
    /// is one to one of these messages.
    #[tactic(auto, using(crate::proofs::ChannelLemmas::later_same))]
    fn hear_next<R: Wait + time::Clock>(
        &mut self,
        rt: &R,
        asked: &mut Asked<J>,
        reads: bool,
    ) -> Result<Option<Message>, NoReply>
        ensures replied { IfOk result (λ reply. IfSome reply
            (IsReplied J.terms.limit asked.new.begun.cut self.new.cut asked.new.sent)) }
        ensures sound { IfOk result (λ reply. IfSome reply (λ _. IsSound self.new.cut)) }
        ensures other { IfOk result (λ reply. IfNone reply (self.new ≡ self.old)) }
        ensures refused { IfErr result (IsNoReply reads) }
        ensures later { IsLater self.old self.new }
        ensures asked { asked.new ≡ asked.old }
    {
        if asked.known {
            return self.hear_known(asked, reads);
        }
        if let Some(given) = asked.next_reply() {
            return self.take_reply(asked, reads, given);
        }
        match self.next_envelope(rt, asked.tag()) {
            Err(why) => Err(NoReply::Refused(why)),
            Ok(None) => Ok(None),
            Ok(Some(envelope)) => self.take(asked, reads, envelope),
        }
    }

    /// Takes in the reply in the envelope, where it answers one of these messages, at a point of the partition's
    /// history no earlier than the session had seen when they were sent.
    #[tactic(auto, using(crate::proofs::ChannelLemmas::later_same))]
    fn take(
        &mut self,
        asked: &Asked<J>,
        reads: bool,
        envelope: ReplyEnvelope<J>,
    ) -> Result<Option<Message>, NoReply>
        ensures replied { IfOk result (λ reply. IfSome reply
            (IsReplied J.terms.limit asked.now.begun.cut self.new.cut asked.now.sent)) }
        ensures sound { IfOk result (λ reply. IfSome reply (λ _. IsSound self.new.cut)) }
        ensures other { IfOk result (λ reply. IfNone reply (self.new ≡ self.old)) }
        ensures refused { IfErr result (IsNoReply reads) }
        ensures later { IsLater self.old self.new }
    {
        let (overtaken, below) = (envelope.is_overtaken(), envelope.settled_below());
        let (request, reply, pass) = envelope.open();
        let Some(found) = asked.find(&request, self.found) else {
            let_go(request, reply, pass);
            return Ok(None);
        };
        if !asked.is_before(&reply, &pass) {
            let_go(request, reply, pass);
            return Ok(None);
        }
        drop(request);
        self.found = found;
        let given = RoundReply::new(found, reply, overtaken, below, pass);
        self.take_reply(asked, reads, given)
    }

    /// Takes in a reply to one of these messages. An overtaken one ends the read: a newer version of its item may have
    /// been committed when the round began. It doesn't where the first round has shown that this version is new enough.
    #[tactic(auto, using(crate::proofs::ChannelLemmas::later_same))]
    fn take_reply(
        &mut self,
        asked: &Asked<J>,
        reads: bool,
        given: RoundReply<J>,
    ) -> Result<Option<Message>, NoReply>
        requires { Counts J.terms.limit asked.now.begun.cut asked.now.sent given }
        ensures replied { IfOk result (λ reply. IfSome reply
            (IsReplied J.terms.limit asked.now.begun.cut self.new.cut asked.now.sent)) }
        ensures sound { IfOk result (λ reply. IfSome reply (λ _. IsSound self.new.cut)) }
        ensures other { IfOk result (λ reply. IfNone reply (self.new ≡ self.old)) }
        ensures refused { IfErr result (IsNoReply reads) }
        ensures later { IsLater self.old self.new }
    {
        let (index, below) = (given.index(), given.settled_below());
        let overtaken = given.is_overtaken();
        let (reply, pass) = given.open();
        if overtaken {
            if !self.is_new_enough(asked, index, &reply) {
                drop(reply);
                drop(pass);
                return ends_read(reads);
            }
            // It isn't the latest version, so it is no sighting.
            self.join(pass);
            return Ok(Some(reply));
        }
        let sighting = sighting_of::<J>(&asked.sent()[index], &reply, below, &pass);
        self.join(pass);
        self.keep(index, sighting);
        Ok(Some(reply))
    }
}

/// An envelope that doesn't count is let go. The prover looks at its parts once here, and not at each way out.
fn let_go(request: Message, reply: Message, pass: Pass) {
    drop(request);
    drop(reply);
    drop(pass);
}

/// What an overtaken reply leads to: only a read asks for versions.
pub(crate) fn ends_read(reads: bool) -> Result<Option<Message>, NoReply>
    ensures none { IfOk result (λ reply. reply ≡ None) }
    ensures refused { IfErr result (IsNoReply reads) }
{
    if reads {
        Err(NoReply::Overtaken)
    } else {
        Ok(None)
    }
}

/// How many of the messages go to the partition.
fn count_to(part: u16, messages: &[Message]) -> usize {
    messages
        .iter()
        .filter(|message| message.to().is_part(part))
        .count()
}
