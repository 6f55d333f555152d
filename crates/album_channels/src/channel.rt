//! A session's channel to the partitions: its mailbox, theirs, and the pass that goes with each message.
ghost use Rattle.std.specs.Prelude.{◌≡◌, ◌≢◌, ◌+◌, ◌<◌, ◌≤◌, ◌^◌, All, IfOk, IfErr, OnOk, OnErr, IfSome, IfNone, IsSome, Some, None, IsOkUnless, vec_len};
ghost use Rattle.album_stamps.specs.Stamps.{client_number};
ghost use Rattle.album_passes.specs.Changes.{merged, announced_cut};
ghost use Rattle.album_passes.specs.Cuts.{IsSound, Extends, announced_for};
ghost use Rattle.std.specs.Arc.{arc_value};
ghost use Rattle.album_stamps.specs.declared.limits.TheConstants.{MAX_PARTS};
ghost use Rattle.album_keepers.specs.Controls.{Answers};
ghost use Rattle.album_keepers.specs.Envelopes.{Shows};
ghost use Rattle.album_keepers.specs.Rounds.{Counts};
ghost use Rattle.album_channels.specs.Channels.{IsChannel, IsLater, IsClosedOrOutOfMemory};
ghost use Rattle.album_channels.specs.Sightings.{IfSighted};

use crate::sightings::{Sighting, clear, put};
use album_board::{Board, Listened, Published, listen, publish};
use album_calls::Message;
use album_keepers::{
    Breakage, Control, ControlAnswer, ControlReply, ControlRequest, DeskNames, Inbox,
    PartitionMail, ReplyEnvelope, RoundReply, SessionMail, SharedKeeper,
};
use album_passes::{Desk, NamesWrites, Pass, meet};
use album_stamps::{ClientNo, Refusal};
use crossbeam_channel::{Receiver, SendError, Sender};
use std::alloc::Global;
use std::collections::VecDeque;
use std::marker::Model;
use std::sync::{Arc, Mutex, Wait};
use std::{mem, time};

/// A session's channel to the partitions. Contracts see the client, and the cut of its pass.
pub struct PartitionChannel<J: DeskNames> {
    pub(crate) alloc: Global,
    desk: Arc<Desk, Global>,
    pass: Pass,
    client: ClientNo,
    /// How many partitions there are.
    parts: u16,
    /// Whether they are checked.
    checked: bool,
    /// The last tag of a control request. (Rounds have the client's tags.)
    tag: u64,
    /// Whether no ask and no control request begins any more: a mailbox was found gone, the service was found broken
    /// while the session waited, or the tags of control requests are spent. It is never reset, and what was heard is
    /// kept. A session that ends is let go instead (`leave`).
    closed: bool,
    /// The mailboxes of the partitions, in order.
    to: Vec<Sender<PartitionMail<J>>>,
    from: Inbox<SessionMail<J>>,
    /// What came by mail and is not yet taken.
    heard: VecDeque<ReplyEnvelope<J>>,
    /// The index, among the messages of a round, of the one that was replied to last.
    pub(crate) found: usize,
    /// What the replies of a read's first round have shown, each at the index of the message that it replies to.
    pub(crate) sightings: Vec<Option<Sighting>>,
    /// Whether it may give itself the replies of a read's second round, where it knows them all.
    pub(crate) repeats: bool,
    breakage: Arc<Breakage, Global>,
    /// The keepers of the partitions, in order, where the session may let them take its messages in its own thread.
    keepers: Vec<Arc<SharedKeeper<J>, Global>>,
}

impl<J: DeskNames> Model for PartitionChannel<J> {
    ghost use Rattle.std.specs.Prelude.{◌≡◌, All, vec_len};
    ghost use Rattle.std.specs.Arc.{arc_value};
    ghost use Rattle.album_channels.specs.Channels.{ChannelState, IsChannel};
    ghost use Rattle.album_channels.specs.Sightings.{IfSighted};

    ghost Value = { ChannelState };

    ghost view = { λ c. record { client = c.client; cut = c.pass.cut } };

    ghost invariant = { λ c. ((arc_value c.desk).table ≡ J.table)
        × IsChannel J.table c.client c.parts c.checked c.pass
        × All (IfSighted J.terms.limit c.pass.cut) c.sightings.items
        × (vec_len c.to ≡ c.parts)
        × ((arc_value c.desk).terms ≡ J.terms) };
}

// By hand, so that what lets it go is proved here, and not again in each crate above.
impl<J: DeskNames> Drop for PartitionChannel<J> {
    fn drop(self) {
        let PartitionChannel {
            alloc: _,
            desk,
            pass,
            client: _,
            parts: _,
            checked: _,
            tag: _,
            closed: _,
            to,
            from,
            heard,
            found: _,
            sightings,
            repeats: _,
            breakage,
            keepers,
        } = self;
        drop(desk);
        drop(pass);
        drop(to);
        drop(from);
        drop(heard);
        drop(sightings);
        drop(breakage);
        drop(keepers);
    }
}

impl<J: DeskNames> PartitionChannel<J> {
    /// This client with this pass. It lets these keepers take its messages in its own thread, if there are any.
    pub fn new(
        alloc: Global,
        desk: Arc<Desk, Global>,
        pass: Pass,
        client: ClientNo,
        parts: u16,
        checked: bool,
        to: Vec<Sender<PartitionMail<J>>>,
        from: Receiver<SessionMail<J>>,
        repeats: bool,
        breakage: Arc<Breakage, Global>,
        keepers: Vec<Arc<SharedKeeper<J>, Global>>,
    ) -> PartitionChannel<J>
        requires table { (arc_value desk).table ≡ J.table }
        requires terms { (arc_value desk).terms ≡ J.terms }
        requires is { IsChannel J.table client parts checked pass }
        requires mailboxes { vec_len to ≡ parts }
        ensures { result ≡ record { client = client; cut = pass.cut } }
    {
        PartitionChannel {
            alloc,
            desk,
            pass,
            client,
            parts,
            checked,
            tag: 0,
            closed: false,
            to,
            from: Inbox::new(from),
            heard: VecDeque::new(alloc),
            found: 0,
            sightings: Vec::new(alloc),
            repeats,
            breakage,
            keepers,
        }
    }

    /// The client.
    pub fn client(&self) -> ClientNo
        ensures { result ≡ self.now.client }
    {
        self.client
    }

    /// How many partitions there are.
    pub fn parts(&self) -> u16
        ensures parts { result ≡ self.now.cut.parts }
        ensures some { 1 ≤ result }
        ensures few { result ≤ MAX_PARTS }
    {
        self.parts
    }

    /// Whether they are checked.
    pub fn checked(&self) -> bool
        ensures { result ≡ self.now.cut.checked }
    {
        self.checked
    }

    /// For contracts alone: a channel's cut is sound, by the invariant of its pass. Nothing is computed.
    pub fn is_sound(&self)
        ensures { IsSound self.now.cut }
    {
        let _ = self.pass.length(0);
    }

    /// That no mailbox was found gone, and the service isn't broken.
    ///
    /// # Errors
    ///
    /// `Closed`.
    pub fn is_open(&self) -> Result<(), Refusal>
        ensures { IsOkUnless result Refusal.Closed }
    {
        if self.closed || self.breakage.is_set() {
            return Err(Refusal::Closed);
        }
        Ok(())
    }

    /// Registers the session's mailbox with each partition.
    ///
    /// # Errors
    ///
    /// `OutOfMemory`.
    pub fn register<R: Wait>(&self, rt: &R, end: Sender<SessionMail<J>>) -> Result<(), Refusal>
        ensures memory { IsOkUnless result Refusal.OutOfMemory }
    {
        for mailbox in &self.to {
            let mail = PartitionMail::Register(self.client.number(), end.clone()?);
            if let Err(SendError::OutOfMemory(_)) = mailbox.send(rt, mail) {
                return Err(Refusal::OutOfMemory);
            }
        }
        Ok(())
    }

    /// Sends to the partition by this mailbox from now on, and gives the one that it had, if there is the partition.
    /// Then all that the session asks goes by mailboxes, so that whoever relays it sees it.
    pub fn relay(
        &mut self,
        part: u16,
        mailbox: Sender<PartitionMail<J>>,
    ) -> Option<Sender<PartitionMail<J>>>
        ensures there { part < self.old.cut.parts → IsSome result }
        ensures nowhere { self.old.cut.parts ≤ part → result ≡ None }
        ensures same { self.new ≡ self.old }
    {
        let place = self.to.get_mut(usize::from(part))?;
        self.keepers.clear();
        Some(mem::replace(place, mailbox))
    }

    /// Has each partition forget the session.
    pub fn leave<R: Wait>(self, rt: &R) {
        for mailbox in &self.to {
            let _ = mailbox.send(rt, PartitionMail::Forget(self.client.number()));
        }
    }

    /// A tag that did not go out yet, and the next one neither.
    ///
    /// # Errors
    ///
    /// `Closed`.
    pub(crate) fn next_tag(&mut self) -> Result<u64, Refusal>
        ensures low { IfOk result (λ tag. 1 ≤ tag) }
        ensures high { IfOk result (λ tag. tag + 1 < 2 ^ 64) }
        ensures closed { IsOkUnless result Refusal.Closed }
        ensures same { self.new ≡ self.old }
    {
        if self.closed || self.tag > u64::MAX - 2 {
            self.closed = true;
            return Err(Refusal::Closed);
        }
        self.tag += 2;
        Ok(self.tag - 1)
    }

    /// Sends to the partition.
    pub(crate) fn send<R: Wait>(
        &mut self,
        rt: &R,
        part: u16,
        mail: PartitionMail<J>,
    ) -> Result<(), Refusal>
        ensures refused { IfErr result IsClosedOrOutOfMemory }
        ensures same { self.new ≡ self.old }
    {
        let Some(mailbox) = self.to.get(usize::from(part)) else {
            return Err(Refusal::Closed);
        };
        match mailbox.send(rt, mail) {
            Ok(()) => Ok(()),
            Err(SendError::OutOfMemory(_)) => Err(Refusal::OutOfMemory),
            Err(SendError::Disconnected(_)) => {
                self.closed = true;
                Err(Refusal::Closed)
            }
        }
    }

    /// Has the partition's keeper take those of the messages that go to it in this thread, where the session may, and
    /// puts the replies behind these. Gives whether it did.
    ///
    /// # Errors
    ///
    /// `OutOfMemory`.
    pub(crate) fn answer_here<R: Wait>(
        &mut self,
        rt: &R,
        part: u16,
        messages: &[Message],
        replies: &mut VecDeque<RoundReply<J>>,
    ) -> Result<bool, Refusal>
        requires shown { All (Shows self.old.cut) messages.now }
        ensures count { All (Counts J.terms.limit self.old.cut messages.now) replies.old.items
            → All (Counts J.terms.limit self.old.cut messages.now) replies.new.items }
        ensures memory { IsOkUnless result Refusal.OutOfMemory }
        ensures same { self.new ≡ self.old }
    {
        let pass = self.split();
        match self.keepers.get(usize::from(part)) {
            None => {
                drop(pass);
                Ok(false)
            }
            Some(keeper) => keeper.answer_all(rt, &self.desk, messages, pass, replies),
        }
    }

    /// What comes next. `Closed` where all who could send are gone, or the service is broken.
    pub(crate) fn next<R: Wait + time::Clock>(&mut self, rt: &R) -> Result<SessionMail<J>, Refusal>
        ensures closed { IsOkUnless result Refusal.Closed }
        ensures same { self.new ≡ self.old }
    {
        match self.from.next_unless(rt, &self.breakage) {
            Some(mail) => Ok(mail),
            None => {
                self.closed = true;
                Err(Refusal::Closed)
            }
        }
    }

    /// The envelope that comes next, or `None` where a mail comes for which nobody waits any more.
    ///
    /// # Errors
    ///
    /// `OutOfMemory` where a partition had none for a message of the round of this tag; `Closed`.
    pub(crate) fn next_envelope<R: Wait + time::Clock>(
        &mut self,
        rt: &R,
        tag: u64,
    ) -> Result<Option<ReplyEnvelope<J>>, Refusal>
        ensures refused { IfErr result IsClosedOrOutOfMemory }
        ensures same { self.new ≡ self.old }
    {
        if let Some(envelope) = self.heard.pop_front() {
            return Ok(Some(envelope));
        }
        match self.next(rt)? {
            SessionMail::ControlReply(_) => Ok(None),
            SessionMail::OutOfMemory(of) if of == tag => Err(Refusal::OutOfMemory),
            SessionMail::OutOfMemory(_) => Ok(None),
            SessionMail::Replies(replies) => {
                self.heard = replies;
                Ok(self.heard.pop_front())
            }
        }
    }

    /// A pass with an equal cut, to go with what is sent.
    pub(crate) fn split(&mut self) -> Pass
        ensures cut { result.cut ≡ self.old.cut }
        ensures of { result.table ≡ J.table }
        ensures unnumbered { result.number ≡ None }
        ensures sound { IsSound self.old.cut }
        ensures same { self.new ≡ self.old }
    {
        self.pass.split(&self.desk)
    }

    /// Takes in all that the pass has seen.
    pub(crate) fn join(&mut self, pass: Pass)
        requires of { pass.table ≡ J.table }
        requires unnumbered { pass.number ≡ None }
        ensures cut { self.new.cut ≡ merged self.old.cut pass.cut }
        ensures heard { Extends pass.cut self.new.cut }
        ensures sound { IsSound self.new.cut }
        ensures later { IsLater self.old self.new }
    {
        self.pass.join(&self.desk, pass);
    }

    /// Begins to keep what the replies to so many messages show. What was kept before is let go.
    #[tactic(auto, using(crate::proofs::SightingLemmas::none_sighted))]
    pub(crate) fn sights(&mut self, count: usize)
        ensures same { self.new ≡ self.old }
    {
        clear(&mut self.sightings, count);
    }

    /// Keeps what the reply to the message of this index has shown.
    pub(crate) fn keep(&mut self, index: usize, sighting: Option<Sighting>)
        requires sighted { IfSighted J.terms.limit self.old.cut sighting }
        ensures same { self.new ≡ self.old }
    {
        put(&mut self.sightings, index, sighting);
    }

    /// Announces what N names for its stamp, which is one of the client's: a whole write, before the first message of
    /// it leaves.
    pub fn announce<N: NamesWrites>(&mut self)
        requires own { client_number N.stamp ≡ self.old.client }
        requires fresh { announced_for self.old.cut N.stamp ≡ None }
        ensures cut { self.new.cut ≡ announced_cut self.old.cut N.stamp N.announced }
        ensures grown { Extends self.old.cut self.new.cut }
        ensures client { self.new.client ≡ self.old.client }
    {
        self.pass.announce::<N>(&self.desk);
    }

    /// Both take in all that the other has seen, and then have one cut.
    pub fn meet(&mut self, other: &mut PartitionChannel<J>)
        ensures one { IsLater self.old self.new }
        ensures other { IsLater other.old other.new }
        ensures same { self.new.cut ≡ other.new.cut }
        ensures apart { self.old.client ≢ other.old.client }
    {
        meet(&self.desk, &mut self.pass, &mut other.pass);
    }

    /// Takes in all that was published on the board so far.
    pub fn listen<R: Wait>(&mut self, rt: &R, board: &Mutex<Board<J>>) -> Listened<J>
        ensures listened { Extends result.cut self.new.cut }
        ensures sound { IsSound self.new.cut }
        ensures later { IsLater self.old self.new }
    {
        listen(rt, board, &self.desk, &mut self.pass)
    }

    /// Publishes on the board what was seen.
    pub fn publish<R: Wait>(&mut self, rt: &R, board: &Mutex<Board<J>>) -> Published<J>
        ensures cut { result.cut ≡ self.old.cut }
        ensures same { self.new ≡ self.old }
    {
        publish(rt, board, &self.desk, &mut self.pass)
    }
}

impl<J: DeskNames> PartitionChannel<J> {
    /// Sends the control request to the partition, and waits for the reply.
    ///
    /// # Errors
    ///
    /// `Closed` or `OutOfMemory`.
    #[tactic(auto, using(crate::proofs::ChannelLemmas::later_same))]
    pub fn inquire<R: Wait + time::Clock>(
        &mut self,
        rt: &R,
        part: u16,
        control: &Control,
    ) -> Result<Result<ControlAnswer, Refusal>, Refusal>
        requires part { part < MAX_PARTS }
        ensures answered { IfOk result (Answers J.terms.limit self.new.cut part control.now) }
        ensures sound { OnOk result (IsSound self.new.cut) }
        ensures refused { IfErr result IsClosedOrOutOfMemory }
        ensures later { IsLater self.old self.new }
    {
        let tag = self.next_tag()?;
        self.send_control(rt, part, tag, control)?;
        for _ in rt.forever() {
            if let Some(answer) = self.hear_control_reply(rt, part, tag, control)? {
                return Ok(answer);
            }
        }
        // `forever` has no end.
        unreachable!()
    }

    /// Sends the control request to the partition under the tag.
    fn send_control<R: Wait>(
        &mut self,
        rt: &R,
        part: u16,
        tag: u64,
        control: &Control,
    ) -> Result<(), Refusal>
        ensures refused { IfErr result IsClosedOrOutOfMemory }
        ensures same { self.new ≡ self.old }
    {
        let pass = self.split();
        let request = ControlRequest::new(self.client, tag, *control, pass);
        let request = Box::new(self.alloc, request)?;
        self.send(rt, part, PartitionMail::ControlRequest(request))
    }

    /// Takes the session's next mail, and gives the answer, where it is one to this request.
    #[tactic(auto, using(crate::proofs::ChannelLemmas::later_same))]
    fn hear_control_reply<R: Wait + time::Clock>(
        &mut self,
        rt: &R,
        part: u16,
        tag: u64,
        control: &Control,
    ) -> Result<Option<Result<ControlAnswer, Refusal>>, Refusal>
        requires part { part < MAX_PARTS }
        ensures answered { IfOk result (λ answer. IfSome answer (Answers J.terms.limit self.new.cut part control.now)) }
        ensures sound { IfOk result (λ answer. IfSome answer (λ _. IsSound self.new.cut)) }
        ensures unchanged { OnErr result (self.new ≡ self.old) }
        ensures other { IfOk result (λ answer. IfNone answer (self.new ≡ self.old)) }
        ensures refused { IfErr result IsClosedOrOutOfMemory }
        ensures later { IsLater self.old self.new }
    {
        match self.next(rt)? {
            SessionMail::Replies(_) | SessionMail::OutOfMemory(_) => Ok(None),
            SessionMail::ControlReply(reply) => {
                Ok(self.take_control_reply(part, tag, control, Box::into_inner(reply)))
            }
        }
    }

    /// Joins the reply's pass and gives the answer, where it is one to this request. The reply counts only where its
    /// pass shows at least as many of the partition's marks as the session has seen.
    #[tactic(auto, using(crate::proofs::ChannelLemmas::later_same, crate::proofs::ChannelLemmas::answers_joined))]
    fn take_control_reply(
        &mut self,
        part: u16,
        tag: u64,
        control: &Control,
        reply: ControlReply<J>,
    ) -> Option<Result<ControlAnswer, Refusal>>
        requires part { part < MAX_PARTS }
        ensures answered { IfSome result (Answers J.terms.limit self.new.cut part control.now) }
        ensures sound { IfSome result (λ _. IsSound self.new.cut) }
        ensures other { IfNone result (self.new ≡ self.old) }
        ensures later { IsLater self.old self.new }
    {
        if !reply.is_of(part, tag, *control) {
            return None;
        }
        let (answer, pass) = reply.open();
        if pass.length(part) < self.pass.length(part) {
            return None;
        }
        self.join(pass);
        Some(answer)
    }
}
