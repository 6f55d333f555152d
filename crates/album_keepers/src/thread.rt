//! The body of a partition's thread.
ghost use Rattle.std.specs.Prelude.{◌≡◌};
ghost use Rattle.std.specs.Arc.{arc_value};

use crate::breakage::Breakage;
use crate::control::ControlRequest;
use crate::envelopes::RequestEnvelope;
use crate::gate::Gate;
use crate::held::Outgoing;
use crate::load::Load;
use crate::mailbox::{Inbox, PartitionMail};
use crate::names::DeskNames;
use crate::outbox::Outbox;
use crate::shared_keeper::SharedKeeper;
use album_passes::Desk;
use std::alloc::{AllocError, Global};
use std::sync::{Arc, Wait};
use std::time;

/// A partition's loop: the partition with the owner of its history, the mailboxes that it sends to, and how many
/// messages came by its own. It sets the flag `breakage` where it has no memory to continue.
#[derive(Drop)]
pub(crate) struct PartitionLoop<J: DeskNames> {
    part: u16,
    keeper: Arc<SharedKeeper<J>, Global>,
    outbox: Outbox<J>,
    messages: u64,
    breakage: Arc<Breakage, Global>,
}

impl<J: DeskNames> PartitionLoop<J> {
    /// The loop of the partition of this number.
    pub(crate) fn new(
        part: u16,
        keeper: Arc<SharedKeeper<J>, Global>,
        outbox: Outbox<J>,
        breakage: Arc<Breakage, Global>,
    ) -> PartitionLoop<J> {
        PartitionLoop {
            part,
            keeper,
            outbox,
            messages: 0,
            breakage,
        }
    }

    /// Takes one mail after another, until it is to leave or all senders are gone. From then on no session lets the
    /// keeper take anything either.
    pub(crate) fn run<R: Wait + time::Clock, G: Gate>(
        &mut self,
        rt: &R,
        alloc: Global,
        desk: &Desk,
        gate: &G,
        inbox: &mut Inbox<PartitionMail<J>>,
    )
        requires table { desk.now.table ≡ J.table }
        requires terms { desk.now.terms ≡ J.terms }
    {
        self.take_all(rt, alloc, desk, gate, inbox);
        self.keeper.lock(rt).runs = false;
    }

    /// Takes one mail after another. Where it has no memory for what others wait for, it breaks the service, and ends.
    fn take_all<R: Wait + time::Clock, G: Gate>(
        &mut self,
        rt: &R,
        alloc: Global,
        desk: &Desk,
        gate: &G,
        inbox: &mut Inbox<PartitionMail<J>>,
    )
        requires table { desk.now.table ≡ J.table }
        requires terms { desk.now.terms ≡ J.terms }
    {
        for _ in rt.forever() {
            let Some(mail) = inbox.next(rt) else {
                return;
            };
            match self.take(rt, alloc, desk, gate, mail) {
                Ok(true) => {}
                Ok(false) => return,
                Err(AllocError) => {
                    self.breakage.set();
                    gate.fail(self.part);
                    return;
                }
            }
        }
        // `forever` has no end.
        unreachable!()
    }

    /// Takes a mail. Returns whether the loop continues.
    ///
    /// # Errors
    ///
    /// `AllocError`, where there is no memory for what is sent.
    fn take<R: Wait, G: Gate>(
        &mut self,
        rt: &R,
        alloc: Global,
        desk: &Desk,
        gate: &G,
        mail: PartitionMail<J>,
    ) -> Result<bool, AllocError>
        requires table { desk.now.table ≡ J.table }
        requires terms { desk.now.terms ≡ J.terms }
    {
        match mail {
            PartitionMail::Leave => return Ok(false),
            PartitionMail::Register(client, end) => self.outbox.register(client, end)?,
            PartitionMail::Forget(client) => self.outbox.forget(client),
            // Whoever wants the figures does without them, where there is no memory to send them.
            PartitionMail::Figures(end) => {
                let figures = self.keeper.lock(rt).keeper.figures();
                drop(end.send(rt, figures));
            }
            PartitionMail::Load(end) => drop(end.send(rt, self.load(rt))),
            PartitionMail::ControlRequest(request) => {
                self.inquire(rt, alloc, desk, Box::into_inner(request))?;
            }
            PartitionMail::Envelopes(envelopes) => {
                self.receive_all(rt, alloc, desk, gate, envelopes)?;
            }
        }
        Ok(true)
    }

    /// How much of its epoch the partition has taken up.
    fn load<R: Wait>(&self, rt: &R) -> Load {
        let locked = self.keeper.lock(rt);
        let (marks, limit) = locked.keeper.load();
        Load {
            marks,
            limit,
            bytes: locked.bytes,
        }
    }

    /// Takes the envelopes of a mail, one after another, and sends the replies to them as one mail. There is room for
    /// all replies before the first envelope is taken, so no mark is made whose reply is lost.
    ///
    /// # Errors
    ///
    /// `AllocError`, where there is no memory for the replies, or for what a log is to keep.
    fn receive_all<R: Wait, G: Gate>(
        &mut self,
        rt: &R,
        alloc: Global,
        desk: &Desk,
        gate: &G,
        envelopes: Vec<RequestEnvelope<J>>,
    ) -> Result<(), AllocError>
        requires table { desk.now.table ≡ J.table }
        requires terms { desk.now.terms ≡ J.terms }
    {
        let (mut message, count) = (self.messages, envelopes.len());
        let mut outgoing = Outgoing::with_room(alloc, self.outbox.is_logged(), count)?;
        for envelope in envelopes {
            self.receive(rt, desk, gate, envelope, &mut outgoing)?;
        }
        self.outbox.send_out(rt, outgoing)?;
        for _ in 0..count {
            gate.leave(self.part, message);
            message = message.saturating_add(1);
        }
        Ok(())
    }

    /// Takes an envelope, and adds its reply, if there is one, with what the log is to keep of it. An envelope for
    /// which there is no memory is refused, and the partition stays as it is.
    ///
    /// # Errors
    ///
    /// `AllocError`, where that can't be sent, or can't be kept.
    fn receive<R: Wait, G: Gate>(
        &mut self,
        rt: &R,
        desk: &Desk,
        gate: &G,
        envelope: RequestEnvelope<J>,
        outgoing: &mut Outgoing<J>,
    ) -> Result<(), AllocError>
        requires table { desk.now.table ≡ J.table }
        requires terms { desk.now.terms ≡ J.terms }
        ensures logged { outgoing.new.logged ≡ outgoing.old.logged }
        ensures outbox { self.new.outbox ≡ self.old.outbox }
    {
        gate.enter(self.part, self.messages);
        self.messages = self.messages.saturating_add(1);
        let (from, tag) = (envelope.message().from(), envelope.message().tag());
        let mut locked = self.keeper.lock(rt);
        match locked.receive(desk, envelope) {
            Ok(None) => Ok(()),
            Ok(Some(reply)) => {
                let entry = if outgoing.logged() {
                    locked.keeper.entry_of(&reply)?
                } else {
                    None
                };
                outgoing.add(reply, entry)
            }
            Err(_) => {
                drop(locked);
                self.outbox.refuse(rt, from, tag)
            }
        }
    }

    /// Carries out a control request: sends the envelopes to other partitions, and then the reply.
    ///
    /// # Errors
    ///
    /// `AllocError`, where there is no memory for what is sent.
    fn inquire<R: Wait>(
        &mut self,
        rt: &R,
        alloc: Global,
        desk: &Desk,
        request: ControlRequest<J>,
    ) -> Result<(), AllocError>
        requires table { desk.now.table ≡ J.table }
        requires terms { desk.now.terms ≡ J.terms }
    {
        let client = request.client();
        let mut envelopes = Vec::new(alloc);
        let mut locked = self.keeper.lock(rt);
        let reply = locked.keeper.inquire(alloc, desk, request, &mut envelopes);
        drop(locked);
        for envelope in envelopes {
            let Ok(()) = self.post(rt, envelope) else {
                drop(reply);
                return Err(AllocError);
            };
        }
        self.outbox.notify(rt, client, reply)
    }

    /// Sends an envelope to its partition, by the log where it says that a stamp is prepared here.
    ///
    /// # Errors
    ///
    /// `AllocError`, where there is no memory for it.
    fn post<R: Wait>(&self, rt: &R, envelope: RequestEnvelope<J>) -> Result<(), AllocError> {
        let entry = if self.outbox.is_logged() {
            self.keeper.lock(rt).keeper.entry_for(envelope.message())?
        } else {
            None
        };
        self.outbox.post_out(rt, envelope, entry)
    }
}
