//! Envelopes between threads: a message, and a pass that shows what the message rests on.
ghost use Rattle.std.specs.Prelude.{◌≡◌, false, None};
ghost use Rattle.album_keepers.specs.Envelopes.{Shows, IsAnswered, IsSettledBelow, IsUpToDate};

use crate::names::DeskNames;
use album_calls::Message;
use album_passes::Pass;
use std::marker::{Model, PhantomData};

/// A message to a partition, with a pass of the desk that J names. The pass has no number. Its cut shows what the
/// message needs:
///
/// - a Prepare: its items are announced, and its writes with their values and bases;
/// - a Commit: each participant has prepared its stamp;
/// - a Get: each of its stamps is committed somewhere;
/// - a Check: an item of its stamp is placed at the receiver;
/// - a vote: the mark that it reports.
pub struct RequestEnvelope<J: DeskNames> {
    message: Message,
    pass: Pass,
    of: PhantomData<J>,
}

impl<J: DeskNames> Model for RequestEnvelope<J> {
    ghost use Rattle.album_keepers.specs.Envelopes.{RequestEnvelopeState, IsRequestEnvelope};

    ghost Value = { RequestEnvelopeState };

    ghost view = { λ l. record { message = l.message; pass = l.pass } };

    ghost invariant = { λ l. IsRequestEnvelope J.table (record { message = l.message; pass = l.pass }) };
}

// By hand, so that what lets it go is proved here, and not again in each crate above.
impl<J: DeskNames> Drop for RequestEnvelope<J> {
    fn drop(self) {
        let RequestEnvelope {
            message,
            pass,
            of: _,
        } = self;
        drop(message);
        drop(pass);
    }
}

impl<J: DeskNames> RequestEnvelope<J> {
    /// The message with this pass.
    pub fn new(message: Message, pass: Pass) -> RequestEnvelope<J>
        requires of { pass.table ≡ J.table }
        requires unnumbered { pass.number ≡ None }
        requires shown { Shows pass.cut message }
        ensures { result ≡ record { message = message; pass = pass } }
    {
        RequestEnvelope {
            message,
            pass,
            of: PhantomData,
        }
    }

    /// The message.
    pub fn message(&self) -> &Message
        ensures { result.now ≡ self.now.message }
    {
        &self.message
    }

    /// The message and the pass.
    pub fn open(self) -> (Message, Pass)
        ensures message { result.0 ≡ self.message }
        ensures pass { result.1 ≡ self.pass }
        ensures of { result.1.table ≡ J.table }
        ensures unnumbered { result.1.number ≡ None }
        ensures shown { Shows result.1.cut result.0 }
    {
        let RequestEnvelope {
            message,
            pass,
            of: _,
        } = self;
        (message, pass)
    }
}

/// A partition's reply, with the request that it answers and a pass of the desk that J names. The pass has no number,
/// and its cut shows the partition exactly as it was when it had replied. Where it replies a version of an item, the
/// envelope says whether the partition had committed a newer one by then. It has a number, too, below which no stamp
/// was pending there.
pub struct ReplyEnvelope<J: DeskNames> {
    request: Message,
    reply: Message,
    overtaken: bool,
    /// A low watermark: no stamp below it was pending at the partition.
    settled_below: u64,
    pass: Pass,
    of: PhantomData<J>,
}

impl<J: DeskNames> Model for ReplyEnvelope<J> {
    ghost use Rattle.album_keepers.specs.Envelopes.{ReplyEnvelopeState, IsReplyEnvelope};

    ghost Value = { ReplyEnvelopeState };

    ghost view = { λ a. record {
      request = a.request;
      reply = a.reply;
      overtaken = a.overtaken;
      settled_below = a.settled_below;
      pass = a.pass;
    } };

    ghost invariant = { λ a. IsReplyEnvelope J.table J.terms.limit (record {
      request = a.request;
      reply = a.reply;
      overtaken = a.overtaken;
      settled_below = a.settled_below;
      pass = a.pass;
    }) };
}

// By hand, so that what lets it go is proved here, and not again in each crate above.
impl<J: DeskNames> Drop for ReplyEnvelope<J> {
    fn drop(self) {
        let ReplyEnvelope {
            request,
            reply,
            overtaken: _,
            settled_below: _,
            pass,
            of: _,
        } = self;
        drop(request);
        drop(reply);
        drop(pass);
    }
}

impl<J: DeskNames> ReplyEnvelope<J> {
    /// The reply to the request, which a newer version has overtaken or not, of a partition where no stamp below this
    /// number is pending, with this pass.
    pub fn new(
        request: Message,
        reply: Message,
        overtaken: bool,
        settled_below: u64,
        pass: Pass,
    ) -> ReplyEnvelope<J>
        requires of { pass.table ≡ J.table }
        requires unnumbered { pass.number ≡ None }
        requires answered { IsAnswered J.terms.limit pass.cut request reply }
        requires latest { overtaken ≡ false → IsUpToDate pass.cut reply }
        requires settled { IsSettledBelow settled_below pass.cut reply }
        ensures { result ≡ record {
          request = request;
          reply = reply;
          overtaken = overtaken;
          settled_below = settled_below;
          pass = pass;
        } }
    {
        ReplyEnvelope {
            request,
            reply,
            overtaken,
            settled_below,
            pass,
            of: PhantomData,
        }
    }

    /// What is replied.
    pub fn reply(&self) -> &Message
        ensures { result.now ≡ self.now.reply }
    {
        &self.reply
    }

    /// Whether the partition had committed a newer version of the item than the one that it replies.
    pub fn is_overtaken(&self) -> bool
        ensures { result ≡ self.now.overtaken }
    {
        self.overtaken
    }

    /// A number below which no stamp was pending at the partition.
    pub fn settled_below(&self) -> u64
        ensures { result ≡ self.now.settled_below }
    {
        self.settled_below
    }

    /// The request, what is replied, and the pass.
    pub fn open(self) -> (Message, Message, Pass)
        ensures request { result.0 ≡ self.request }
        ensures reply { result.1 ≡ self.reply }
        ensures pass { result.2 ≡ self.pass }
        ensures of { result.2.table ≡ J.table }
        ensures unnumbered { result.2.number ≡ None }
        ensures answered { IsAnswered J.terms.limit result.2.cut result.0 result.1 }
        ensures latest { self.overtaken ≡ false → IsUpToDate result.2.cut result.1 }
        ensures settled { IsSettledBelow self.settled_below result.2.cut result.1 }
    {
        let ReplyEnvelope {
            request,
            reply,
            overtaken: _,
            settled_below: _,
            pass,
            of: _,
        } = self;
        (request, reply, pass)
    }

    /// The reply alone, as it goes to another partition: its pass shows the mark that it reports.
    pub fn into_envelope(self) -> RequestEnvelope<J>
        ensures { result ≡ record { message = self.reply; pass = self.pass } }
    {
        let (request, reply, pass) = self.open();
        drop(request);
        RequestEnvelope::new(reply, pass)
    }
}
