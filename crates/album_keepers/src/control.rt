//! Control requests: what whoever runs the service asks of a partition through a session, and the partition's reply.
ghost use Rattle.std.specs.Prelude.{◌≡◌, ◌↔◌, IsTrue, None, Option};
ghost use Rattle.album_keepers.specs.Controls.{Answers};

use crate::names::DeskNames;
use album_calls::Stamps;
use album_items::ItemId;
use album_partition::Mark;
use album_passes::Pass;
use album_stamps::{ClientNo, Refusal, Stamp};
use std::marker::{Model, PhantomData};

/// What is asked of a partition apart from messages.
#[derive(Clone, Copy, Debug)]
pub enum Control {
    /// The stamps that are pending.
    Pending,
    /// All marks that were made, in order.
    History,
    /// The partition is to ask the other partitions of the stamp's items whether they have it prepared or committed.
    Sweep(Stamp),
    /// The partition is to drop the item's versions below its latest stamp: garbage collection.
    Trim(ItemId),
}

impl Control {
    /// Whether both are the same. By hand: a derived `==` isn't known to be equality over values with a Model.
    pub fn is(self, other: Control) -> bool
        ensures { IsTrue result ↔ (self ≡ other) }
    {
        match self {
            Control::Pending => matches!(other, Control::Pending),
            Control::History => matches!(other, Control::History),
            Control::Sweep(stamp) => {
                matches!(other, Control::Sweep(of) if of.value() == stamp.value())
            }
            Control::Trim(item) => matches!(other, Control::Trim(of) if of.is(item)),
        }
    }
}

/// What a partition answers to a control request that it carries out.
#[derive(Drop)]
pub enum ControlAnswer {
    /// These stamps are pending, rising.
    Pending(Stamps),
    /// These marks were made.
    History(Vec<Mark>),
    /// The stamp is pending, and the other partitions were asked.
    Swept,
    /// The item's versions below its latest stamp are dropped.
    Trimmed,
}

/// A control request of a session, with a pass of the desk that J names. The tag is the session's own.
pub struct ControlRequest<J: DeskNames> {
    client: ClientNo,
    tag: u64,
    control: Control,
    pass: Pass,
    of: PhantomData<J>,
}

impl<J: DeskNames> Model for ControlRequest<J> {
    ghost use Rattle.album_keepers.specs.Controls.{ControlRequestState, IsControlRequest};

    ghost Value = { ControlRequestState };

    ghost view = { λ q. record { client = q.client; tag = q.tag; control = q.control; pass = q.pass } };

    ghost invariant = { λ q. IsControlRequest J.table
        (record { client = q.client; tag = q.tag; control = q.control; pass = q.pass }) };
}

// By hand, so that what lets it go is proved here, and not again in each crate above.
impl<J: DeskNames> Drop for ControlRequest<J> {
    fn drop(self) {
        let ControlRequest {
            client: _,
            tag: _,
            control: _,
            pass,
            of: _,
        } = self;
        drop(pass);
    }
}

impl<J: DeskNames> ControlRequest<J> {
    /// The request with this pass.
    pub fn new(client: ClientNo, tag: u64, control: Control, pass: Pass) -> ControlRequest<J>
        requires of { pass.table ≡ J.table }
        requires unnumbered { pass.number ≡ None }
        ensures { result ≡ record { client = client; tag = tag; control = control; pass = pass } }
    {
        ControlRequest {
            client,
            tag,
            control,
            pass,
            of: PhantomData,
        }
    }

    /// The client that asks.
    pub fn client(&self) -> ClientNo
        ensures { result ≡ self.now.client }
    {
        self.client
    }

    /// What it asks.
    pub fn control(&self) -> Control
        ensures { result ≡ self.now.control }
    {
        self.control
    }

    /// Its tag, what it asks, and its pass.
    pub fn open(self) -> (u64, Control, Pass)
        ensures tag { result.0 ≡ self.tag }
        ensures control { result.1 ≡ self.control }
        ensures pass { result.2 ≡ self.pass }
        ensures of { result.2.table ≡ J.table }
        ensures unnumbered { result.2.number ≡ None }
    {
        let ControlRequest {
            client: _,
            tag,
            control,
            pass,
            of: _,
        } = self;
        (tag, control, pass)
    }
}

/// A partition's reply to a control request. Its pass is of the desk that J names, and shows the partition's history
/// at the point at which the reply is true.
pub struct ControlReply<J: DeskNames> {
    part: u16,
    tag: u64,
    control: Control,
    answer: Result<ControlAnswer, Refusal>,
    pass: Pass,
    of: PhantomData<J>,
}

impl<J: DeskNames> Model for ControlReply<J> {
    ghost use Rattle.album_keepers.specs.Controls.{ControlReplyState, IsControlReply};

    ghost Value = { ControlReplyState };

    ghost view = { λ n. record { part = n.part; tag = n.tag; control = n.control; answer = n.answer; pass = n.pass } };

    ghost invariant = { λ n. IsControlReply J.table J.terms.limit
        (record { part = n.part; tag = n.tag; control = n.control; answer = n.answer; pass = n.pass }) };
}

// By hand, so that what lets it go is proved here, and not again in each crate above.
impl<J: DeskNames> Drop for ControlReply<J> {
    fn drop(self) {
        let ControlReply {
            part: _,
            tag: _,
            control: _,
            answer,
            pass,
            of: _,
        } = self;
        drop(answer);
        drop(pass);
    }
}

impl<J: DeskNames> ControlReply<J> {
    /// The reply of this partition, with this pass.
    pub fn new(
        part: u16,
        tag: u64,
        control: Control,
        answer: Result<ControlAnswer, Refusal>,
        pass: Pass,
    ) -> ControlReply<J>
        requires of { pass.table ≡ J.table }
        requires unnumbered { pass.number ≡ None }
        requires answer { Answers J.terms.limit pass.cut part control answer }
        ensures { result ≡ record { part = part; tag = tag; control = control; answer = answer; pass = pass } }
    {
        ControlReply {
            part,
            tag,
            control,
            answer,
            pass,
            of: PhantomData,
        }
    }

    /// Whether it is this partition's reply to the request of this tag.
    pub fn is_of(&self, part: u16, tag: u64, control: Control) -> bool
        ensures { IsTrue result
            ↔ ((self.now.part ≡ part) × (self.now.tag ≡ tag) × (self.now.control ≡ control)) }
    {
        self.part == part && self.tag == tag && self.control.is(control)
    }

    /// The answer, and the pass.
    pub fn open(self) -> (Result<ControlAnswer, Refusal>, Pass)
        ensures answer { result.0 ≡ self.answer }
        ensures pass { result.1 ≡ self.pass }
        ensures of { result.1.table ≡ J.table }
        ensures unnumbered { result.1.number ≡ None }
        ensures so { Answers J.terms.limit result.1.cut self.part self.control result.0 }
    {
        let ControlReply {
            part: _,
            tag: _,
            control: _,
            answer,
            pass,
            of: _,
        } = self;
        (answer, pass)
    }
}
