//! A partition's reply to one of the messages of a round, for the session that has sent them. The message itself stays
//! with the session: the reply has its index among them.
ghost use Rattle.std.specs.Prelude.{◌≡◌, None};

use crate::names::DeskNames;
use album_calls::Message;
use album_passes::Pass;
use std::marker::{Model, PhantomData};

/// What is replied to the message of this index, and what a reply's envelope has with it: whether the partition had
/// committed a newer version by then, a number below which no stamp was pending there, and a pass of the desk that J
/// names. The pass has no number.
pub struct RoundReply<J: DeskNames> {
    index: usize,
    reply: Message,
    overtaken: bool,
    /// A low watermark: no stamp below it was pending at the partition.
    settled_below: u64,
    pass: Pass,
    of: PhantomData<J>,
}

impl<J: DeskNames> Model for RoundReply<J> {
    ghost use Rattle.album_keepers.specs.Rounds.{RoundReplyState, IsRoundReply};

    ghost Value = { RoundReplyState };

    ghost view = { λ r. record {
      index = r.index;
      reply = r.reply;
      overtaken = r.overtaken;
      settled_below = r.settled_below;
      pass = r.pass;
    } };

    ghost invariant = { λ r. IsRoundReply J.table (record {
      index = r.index;
      reply = r.reply;
      overtaken = r.overtaken;
      settled_below = r.settled_below;
      pass = r.pass;
    }) };
}

// By hand, so that what lets it go is proved here, and not again in each crate above.
impl<J: DeskNames> Drop for RoundReply<J> {
    fn drop(self) {
        let RoundReply {
            index: _,
            reply,
            overtaken: _,
            settled_below: _,
            pass,
            of: _,
        } = self;
        drop(reply);
        drop(pass);
    }
}

impl<J: DeskNames> RoundReply<J> {
    /// The reply to the message of this index, which a newer version has overtaken or not, of a partition where no
    /// stamp below this number is pending, with this pass.
    pub fn new(
        index: usize,
        reply: Message,
        overtaken: bool,
        settled_below: u64,
        pass: Pass,
    ) -> RoundReply<J>
        requires of { pass.table ≡ J.table }
        requires unnumbered { pass.number ≡ None }
        ensures { result ≡ record {
          index = index;
          reply = reply;
          overtaken = overtaken;
          settled_below = settled_below;
          pass = pass;
        } }
    {
        RoundReply {
            index,
            reply,
            overtaken,
            settled_below,
            pass,
            of: PhantomData,
        }
    }

    /// The index of the message that it answers.
    pub fn index(&self) -> usize
        ensures { result ≡ self.now.index }
    {
        self.index
    }

    /// Whether the partition had committed a newer version of the item than the one that it replies.
    pub fn is_overtaken(&self) -> bool
        ensures { result ≡ self.now.overtaken }
    {
        self.overtaken
    }

    /// A number below which no stamp was pending at the partition.
    pub fn settled_below(&self) -> u64
        ensures { result ≡ self.now.settled_below }
    {
        self.settled_below
    }

    /// What is replied, and the pass.
    pub fn open(self) -> (Message, Pass)
        ensures reply { result.0 ≡ self.reply }
        ensures pass { result.1 ≡ self.pass }
        ensures of { result.1.table ≡ J.table }
        ensures unnumbered { result.1.number ≡ None }
    {
        let RoundReply {
            index: _,
            reply,
            overtaken: _,
            settled_below: _,
            pass,
            of: _,
        } = self;
        (reply, pass)
    }
}
