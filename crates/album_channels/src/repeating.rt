//! What a session knows of a read's second round by its first: which versions are new enough, and what a partition
//! would reply where none of the round's stamps was pending. There it gives itself the replies, and sends nothing.
ghost use Rattle.std.specs.Prelude.{◌≡◌, None, IsTrue, IfOk, IfErr, IfSome, IfNone};
ghost use Rattle.album_passes.specs.Cuts.{IsSound};
ghost use Rattle.album_keepers.specs.Replies.{IsCurrent, IsReplied};
ghost use Rattle.album_channels.specs.Channels.{IsLater, IsNoReply};

use crate::asked::{Asked, NoReply};
use crate::channel::PartitionChannel;
use crate::round::ends_read;
use album_calls::Message;
use album_keepers::DeskNames;
use album_passes::Pass;
use album_stamps::Refusal;
use std::alloc::AllocError;

impl<J: DeskNames> PartitionChannel<J> {
    /// Whether it knows what the partitions would reply to each of the messages: to the Gets of a second round, where
    /// none of their stamps was pending, and no partition has made a mark since, by what is known of it.
    pub(crate) fn knows_all(&self, begun: &Pass, messages: &[Message]) -> bool {
        if !self.repeats || messages.is_empty() {
            return false;
        }
        for index in 0..messages.len() {
            let Some(Some(sighting)) = self.sightings.get(index) else {
                return false;
            };
            if !sighting.repeats(begun, &messages[index]) {
                return false;
            }
        }
        true
    }

    /// The next of the replies that it knows. They go by the messages, in order.
    #[tactic(auto, using(crate::proofs::ChannelLemmas::later_same))]
    pub(crate) fn hear_known(
        &mut self,
        asked: &Asked<J>,
        reads: bool,
    ) -> Result<Option<Message>, NoReply>
        ensures replied { IfOk result (λ reply. IfSome reply
            (IsReplied J.terms.limit asked.now.begun.cut self.new.cut asked.now.sent)) }
        ensures sound { IfOk result (λ reply. IfSome reply (λ _. IsSound self.new.cut)) }
        ensures same { self.new ≡ self.old }
        ensures refused { IfErr result (IsNoReply reads) }
    {
        self.is_sound();
        let index = self.found;
        match self.known_reply(asked, index) {
            Err(AllocError) => Err(NoReply::Refused(Refusal::OutOfMemory)),
            // It has said before that it knows them all.
            Ok(None) => ends_read(reads),
            Ok(Some(reply)) => {
                self.found = index.saturating_add(1);
                Ok(Some(reply))
            }
        }
    }

    /// The reply to the message of this index, if it is known.
    #[tactic(auto, using(crate::proofs::SightingLemmas::repeated_replied))]
    fn known_reply(&self, asked: &Asked<J>, index: usize) -> Result<Option<Message>, AllocError>
        ensures { IfOk result (λ reply. IfSome reply
            (IsReplied J.terms.limit asked.now.begun.cut self.now.cut asked.now.sent)) }
    {
        if index >= asked.sent.len() || index >= self.sightings.len() {
            return Ok(None);
        }
        let message = &asked.sent[index];
        let Some(sighting) = &self.sightings[index] else {
            return Ok(None);
        };
        if !sighting.repeats(&asked.begun, message) {
            return Ok(None);
        }
        Ok(Some(sighting.repeat(message)?))
    }

    /// Whether the version that is replied to the message of this index is known to be new enough: the item had no
    /// newer one by the cut with which the round began.
    pub(crate) fn is_new_enough(&self, asked: &Asked<J>, index: usize, reply: &Message) -> bool
        ensures { IsTrue result → IsCurrent asked.now.begun.cut self.now.cut reply.now }
    {
        if index >= self.sightings.len() {
            return false;
        }
        match &self.sightings[index] {
            Some(sighting) => sighting.shows(&asked.begun, reply),
            None => false,
        }
    }
}
