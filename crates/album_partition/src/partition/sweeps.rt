//! What a partition sends for a stamp that is pending there.
ghost use Rattle.std.specs.Prelude.{◌≡◌, ◌∷◌, [], IfOk, IsOkUnless};
ghost use Rattle.album_partition.specs.Marks.{state_of, items_at};
ghost use Rattle.album_items.specs.Places.{others_of};
ghost use Rattle.album_partition.specs.Sweeps.{own_vote, sent_by};

use crate::partition::Partition;
use album_calls::{Body, Message, Node, Reply, Vote};
use album_stamps::{Refusal, Stamp};
use album_terminate::{StampState, checks};

impl Partition {
    /// Asks the other partitions of the items, or votes to itself where there is none.
    pub(super) fn ask_others(&self, stamp: Stamp) -> Result<Vec<Message>, Refusal>
        requires { state_of self.now.marks stamp ≡ StampState.Pending }
        ensures messages { IfOk result (λ messages. messages.items ≡ sent_by self.now.number stamp
            (others_of self.now.number self.now.parts (items_at self.now.marks stamp))) }
        ensures memory { IsOkUnless result Refusal.OutOfMemory }
    {
        let others = self.seat.others_of(self.alloc, self.stored.items(stamp))?;
        if others.is_empty() {
            return self.own_vote(stamp);
        }
        checks(self.alloc, self.seat.number, &others, stamp)
    }

    /// The partition's vote to itself: the stamp is prepared here.
    fn own_vote(&self, stamp: Stamp) -> Result<Vec<Message>, Refusal>
        ensures messages { IfOk result (λ messages. messages.items ≡ own_vote self.now.number stamp ∷ []) }
        ensures memory { IsOkUnless result Refusal.OutOfMemory }
    {
        let number = self.seat.number;
        let vote = Body::Reply(Reply::Status(stamp, Vote::Prepared));
        let mut messages = Vec::new(self.alloc);
        messages.push(Message::new(Node::Part(number), Node::Part(number), 0, vote))?;
        Ok(messages)
    }
}
