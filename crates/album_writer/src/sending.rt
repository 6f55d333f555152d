//! What a write sends.
ghost use Rattle.std.specs.Prelude.{◌≡◌, ◌≤◌, ◌+◌, ◌<◌, ◌^◌, IfOk, IsOkUnless, map};
ghost use Rattle.album_items.specs.Openings.{Row};
ghost use Rattle.album_items.specs.Transactions.{items_written};
ghost use Rattle.album_listing.specs.ViewLookups.{stamp_seen};
ghost use Rattle.album_writer.specs.Writing.{prepare_request, prepare_to, prepares_of, commit_to, commit_round, commits_of};

use crate::writing::Writing;
use album_calls::{Body, Message, Node, Request, Stamps};
use album_items::{ItemId, ItemValues, Items, Value, rows_placed_at};
use album_listing::ViewLookup;
use album_stamps::{MAX_PARTS, Refusal};
use album_views::View;
use std::alloc::{AllocError, Global};

impl Writing {
    /// The Prepares: one for each participant.
    pub fn prepares(&self, alloc: Global) -> Result<Vec<Message>, Refusal>
        ensures messages { IfOk result (λ messages. messages.items ≡ prepares_of self.now) }
        ensures memory { IsOkUnless result Refusal.OutOfMemory }
    {
        let mut messages = Vec::new(alloc);
        for place in self.places() {
            messages.push(self.prepare(alloc, *place)?)?;
        }
        Ok(messages)
    }

    /// The Prepare to a partition: exactly the writes that are placed there.
    fn prepare(&self, alloc: Global, place: u16) -> Result<Message, Refusal>
        requires low { 1 ≤ self.now.parts }
        requires high { self.now.parts ≤ MAX_PARTS }
        ensures message { IfOk result (λ message. message ≡ prepare_to self.now place) }
        ensures memory { IsOkUnless result Refusal.OutOfMemory }
    {
        let writes = rows_placed_at(alloc, place, self.parts(), self.list())?;
        let body = Body::Request(self.prepare_request(alloc, writes)?);
        Ok(Message::new(
            Node::Client(self.client()),
            Node::Part(place),
            self.tag(),
            body,
        ))
    }

    /// The request to prepare these of the writes, with the items of the whole write: on their bases where the store is
    /// checked.
    fn prepare_request(&self, alloc: Global, writes: ItemValues) -> Result<Request, AllocError>
        ensures { IfOk result (λ request. request ≡ prepare_request self.now writes) }
    {
        let items = items_written(alloc, self.list())?;
        if self.is_checked() {
            let bases = bases_of(alloc, self.permit().view(), writes.as_slice())?;
            Ok(Request::PrepareOn(self.stamp(), writes, items, bases))
        } else {
            Ok(Request::Prepare(self.stamp(), writes, items))
        }
    }

    /// The Commits: one for each participant, under the tag one above.
    pub fn commits(&self, alloc: Global) -> Result<Vec<Message>, AllocError>
        requires { self.now.tag + 1 < 2 ^ 64 }
        ensures { IfOk result (λ messages. messages.items ≡ commits_of (commit_round self.now)) }
    {
        let mut messages = Vec::new(alloc);
        for place in self.places() {
            messages.push(self.commit(*place))?;
        }
        Ok(messages)
    }

    fn commit(&self, place: u16) -> Message
        requires { self.now.tag + 1 < 2 ^ 64 }
        ensures { result ≡ commit_to (commit_round self.now) place }
    {
        let body = Body::Request(Request::Commit(self.stamp()));
        Message::new(
            Node::Client(self.client()),
            Node::Part(place),
            self.tag() + 1,
            body,
        )
    }
}

/// The items that are written, in order.
pub fn items_written(alloc: Global, writes: &[(ItemId, Value)]) -> Result<Items, AllocError>
    ensures { IfOk result (λ items. items ≡ items_written writes.now) }
{
    let mut items = Vec::new(alloc);
    for write in writes {
        items.push(write.0)?;
    }
    Ok(Items::of(items))
}

/// The bases of these writes, in order: the stamp at which the view shows each item, and 0 for one that it doesn't.
fn bases_of(alloc: Global, view: &View, writes: &[(ItemId, Value)]) -> Result<Stamps, AllocError>
    ensures { IfOk result (λ bases. bases ≡ map (λ (row : Row). stamp_seen view.now.rows row.0) writes.now) }
{
    let lookup = ViewLookup::of(alloc, view);
    let mut bases = Vec::new(alloc);
    for write in writes {
        bases.push(lookup.stamp(write.0))?;
    }
    drop(lookup);
    Ok(Stamps::of(bases))
}
