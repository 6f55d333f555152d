//! A session: a client that asks the partitions.
ghost use Rattle.std.specs.Prelude.{◌≡◌, ◌≢◌, ◌<◌, ◌≤◌, Err, IfOk, IfErr, OnOk, IsSome, None};
ghost use Rattle.album_stamps.specs.declared.refusals.Refusal.TheVariants.{OutOfMemory, Closed, NoSuchPart, NotPrepared, Clash, Full};
ghost use Rattle.album_partition.specs.Marks.{ArePending, state_of, latest, floor};
ghost use Rattle.album_passes.specs.Changes.{IsUnheard};
ghost use Rattle.album_passes.specs.Cuts.{Extends, IsSound, prefix_at};
ghost use Rattle.album_terminate.specs.declared.deciding.StampState.TheVariants as StampState;
ghost use Rattle.album_keepers.specs.Controls.{Answers, IsUntrimmed};
ghost use Rattle.album_grounds.specs.Granted.{AreGranted};
ghost use Rattle.album_channels.specs.Channels.{IsClosedOrOutOfMemory};
ghost use Rattle.album_sessions.specs.Sessions.{AddsNothing};
ghost use Rattle.album_stamps.specs.declared.limits.TheConstants.{MAX_COUNTER};

use crate::hints::Hints;
use crate::service_names::ServiceNames;
use crate::stripes::Stripes;
use album_audit::{AuditBook, Share};
use album_board::Board;
use album_calls::Stamps;
use album_channels::PartitionChannel;
use album_eval::Policy;
use album_items::{ItemId, Items};
use album_keepers::{Control, ControlAnswer, PartitionMail};
use album_partition::Mark;
use album_stamps::{ClientNo, Clock, Refusal, Stamp};
use crossbeam_channel::Sender;
use std::alloc::Global;
use std::marker::Model;
use std::sync::{Arc, Mutex, Wait};
use std::time;

/// A session, which asks the partitions of the service that `J` names. It has a share of the audit book, and ends by
/// `end`. Contracts see its client, the counter of its clock, what it has seen of the partitions, and its share.
pub struct Session<J: ServiceNames> {
    pub(crate) alloc: Global,
    pub(crate) channel: PartitionChannel<J>,
    pub(crate) clock: Clock,
    /// The tag of the last round that its client asked.
    pub(crate) tag: u64,
    pub(crate) policy: Policy,
    /// Of the whole service.
    pub(crate) board: Arc<Mutex<Board<J>>, Global>,
    pub(crate) book: Arc<Mutex<AuditBook<J>>, Global>,
    pub(crate) share: Share<J>,
    /// Of the whole service.
    pub(crate) hints: Arc<Hints, Global>,
    /// Of the whole service.
    pub(crate) stripes: Arc<Stripes, Global>,
    /// What the last checked write wanted to write, if there was memory to keep that.
    pub(crate) contested: Items,
}

impl<J: ServiceNames> Model for Session<J> {
    ghost use Rattle.album_sessions.specs.Sessions.{SessionState, IsSession};

    ghost Value = { SessionState };

    ghost view = { λ s. record {
      client = s.channel.client;
      counter = s.clock.counter;
      cut = s.channel.cut;
      share = s.share;
    } };

    ghost invariant = { λ s. IsSession J.policy s.policy s.clock s.channel };
}

impl<J: ServiceNames> Session<J> {
    /// The session of this channel, whose client has announced no stamp yet. The counters of its stamps are above
    /// `first`. The board, the book, the hints and the stripes are the service's.
    #[tactic(auto, using(crate::proofs::SessionLemmas::ahead_new, crate::proofs::GrantedLemmas::granted_new))]
    pub fn new(
        alloc: Global,
        channel: PartitionChannel<J>,
        policy: Policy,
        board: Arc<Mutex<Board<J>>, Global>,
        book: Arc<Mutex<AuditBook<J>>, Global>,
        share: Share<J>,
        hints: Arc<Hints, Global>,
        stripes: Arc<Stripes, Global>,
        first: u64,
    ) -> Session<J>
        requires policy { policy ≡ J.policy }
        requires first { first ≤ MAX_COUNTER }
        requires unheard { IsUnheard channel.client channel.cut }
        ensures { result ≡ record { client = channel.client; counter = first; cut = channel.cut; share = share } }
    {
        let mut clock = Clock::new(channel.client());
        clock.reach(first);
        Session {
            alloc,
            channel,
            clock,
            tag: 0,
            policy,
            board,
            book,
            share,
            hints,
            stripes,
            contested: Items::of(Vec::new(alloc)),
        }
    }

    /// The session's number, which no other session of the service has.
    pub fn client(&self) -> ClientNo
        ensures { result ≡ self.now.client }
    {
        self.channel.client()
    }

    /// For contracts alone: each announced stamp of the client is of a write that the service's policy granted. Nothing
    /// is computed.
    pub fn has_granted_writes(&self)
        ensures granted { AreGranted J.policy self.now.client self.now.cut }
        ensures sound { IsSound self.now.cut }
    {
        self.channel.is_sound();
    }

    /// The stamps that are pending at the partition, rising.
    ///
    /// # Errors
    ///
    /// `NoSuchPart` where there is none of this number; else `Closed` or `OutOfMemory`.
    pub fn pending<R: Wait + time::Clock>(&mut self, rt: &R, part: u16) -> Result<Stamps, Refusal>
        ensures pending { IfOk result (ArePending (prefix_at self.new.cut part)) }
        ensures nowhere { self.old.cut.parts ≤ part → result ≡ Err NoSuchPart }
        ensures untouched { self.old.cut.parts ≤ part → self.new ≡ self.old }
        ensures refused { IfErr result (λ e. part < self.old.cut.parts → IsClosedOrOutOfMemory e) }
        ensures grown { Extends self.old.cut self.new.cut }
        ensures sound { IsSound self.new.cut }
        ensures client { self.new.client ≡ self.old.client }
        ensures adds { AddsNothing self.old self.new }
    {
        match self.inquire(rt, part, &Control::Pending)?? {
            ControlAnswer::Pending(stamps) => Ok(stamps),
            // A partition answers each control request by its own variant: `Answers`.
            ControlAnswer::History(_) | ControlAnswer::Swept | ControlAnswer::Trimmed => {
                unreachable!()
            }
        }
    }

    /// All marks that the partition has made, in order.
    ///
    /// # Errors
    ///
    /// `NoSuchPart` where there is none of this number; else `Closed` or `OutOfMemory`.
    pub fn history<R: Wait + time::Clock>(
        &mut self,
        rt: &R,
        part: u16,
    ) -> Result<Vec<Mark>, Refusal>
        ensures history { IfOk result (λ marks. marks.items ≡ prefix_at self.new.cut part) }
        ensures nowhere { self.old.cut.parts ≤ part → result ≡ Err NoSuchPart }
        ensures untouched { self.old.cut.parts ≤ part → self.new ≡ self.old }
        ensures refused { IfErr result (λ e. part < self.old.cut.parts → IsClosedOrOutOfMemory e) }
        ensures grown { Extends self.old.cut self.new.cut }
        ensures sound { IsSound self.new.cut }
        ensures client { self.new.client ≡ self.old.client }
        ensures adds { AddsNothing self.old self.new }
    {
        match self.inquire(rt, part, &Control::History)?? {
            ControlAnswer::History(marks) => Ok(marks),
            // As above.
            ControlAnswer::Pending(_) | ControlAnswer::Swept | ControlAnswer::Trimmed => {
                unreachable!()
            }
        }
    }

    /// Has the partition ask the other participants of the stamp's write for their votes.
    ///
    /// # Errors
    ///
    /// `NoSuchPart` where there is none of this number; `NotPrepared` only where the stamp isn't pending there; else
    /// `Closed` or `OutOfMemory`.
    pub fn sweep<R: Wait + time::Clock>(
        &mut self,
        rt: &R,
        part: u16,
        stamp: Stamp,
    ) -> Result<(), Refusal>
        ensures swept { OnOk result (state_of (prefix_at self.new.cut part) stamp ≡ StampState.Pending) }
        ensures unprepared { IfErr result (λ e. e ≡ NotPrepared
            → state_of (prefix_at self.new.cut part) stamp ≢ StampState.Pending) }
        ensures nowhere { self.old.cut.parts ≤ part → result ≡ Err NoSuchPart }
        ensures untouched { self.old.cut.parts ≤ part → self.new ≡ self.old }
        ensures refused { IfErr result (λ e. part < self.old.cut.parts → e ≢ NotPrepared → IsClosedOrOutOfMemory e) }
        ensures grown { Extends self.old.cut self.new.cut }
        ensures sound { IsSound self.new.cut }
        ensures client { self.new.client ≡ self.old.client }
        ensures adds { AddsNothing self.old self.new }
    {
        self.inquire(rt, part, &Control::Sweep(stamp))??;
        Ok(())
    }

    /// Lets the versions of the item go that are below its latest stamp.
    ///
    /// # Errors
    ///
    /// `NoSuchPart` where there is none of this number; `Clash` only where the item is placed elsewhere, and `Full`
    /// only where there is no room for the mark; else `Closed` or `OutOfMemory`.
    #[tactic(auto, using(crate::proofs::SessionLemmas::floor_above))]
    pub fn trim<R: Wait + time::Clock>(
        &mut self,
        rt: &R,
        part: u16,
        item: ItemId,
    ) -> Result<(), Refusal>
        ensures trimmed { OnOk result
            (floor (prefix_at self.new.cut part) item ≡ latest (prefix_at self.new.cut part) item) }
        ensures floor { OnOk result
            (latest (prefix_at self.old.cut part) item ≤ floor (prefix_at self.new.cut part) item) }
        ensures untrimmed { IfErr result (λ e. part < self.old.cut.parts → (IsClosedOrOutOfMemory e → ⊥)
            → IsUntrimmed J.terms.limit self.new.cut part item e) }
        ensures nowhere { self.old.cut.parts ≤ part → result ≡ Err NoSuchPart }
        ensures untouched { self.old.cut.parts ≤ part → self.new ≡ self.old }
        ensures grown { Extends self.old.cut self.new.cut }
        ensures sound { IsSound self.new.cut }
        ensures client { self.new.client ≡ self.old.client }
        ensures adds { AddsNothing self.old self.new }
    {
        self.inquire(rt, part, &Control::Trim(item))??;
        Ok(())
    }

    /// The partition's answer to the control request.
    #[tactic(auto, using(crate::proofs::SessionLemmas::silent_later))]
    fn inquire<R: Wait + time::Clock>(
        &mut self,
        rt: &R,
        part: u16,
        control: &Control,
    ) -> Result<Result<ControlAnswer, Refusal>, Refusal>
        ensures answered { IfOk result (Answers J.terms.limit self.new.cut part control.now) }
        ensures nowhere { self.old.cut.parts ≤ part → result ≡ Err NoSuchPart }
        ensures untouched { self.old.cut.parts ≤ part → self.new ≡ self.old }
        ensures refused { IfErr result (λ e. part < self.old.cut.parts → IsClosedOrOutOfMemory e) }
        ensures grown { Extends self.old.cut self.new.cut }
        ensures sound { IsSound self.new.cut }
        ensures client { self.new.client ≡ self.old.client }
        ensures adds { AddsNothing self.old self.new }
    {
        self.channel.is_sound();
        if part >= self.channel.parts() {
            return Err(Refusal::NoSuchPart);
        }
        let answer = self.channel.inquire(rt, part, control);
        self.channel.is_sound();
        answer
    }

    /// Both sessions take in all that the other has seen, and then have one cut.
    #[tactic(auto, using(crate::proofs::SessionLemmas::silent_later))]
    pub fn meet(&mut self, other: &mut Session<J>)
        ensures same { self.new.cut ≡ other.new.cut }
        ensures one_grown { Extends self.old.cut self.new.cut }
        ensures other_grown { Extends other.old.cut other.new.cut }
        ensures apart { self.old.client ≢ other.old.client }
        ensures one_client { self.new.client ≡ self.old.client }
        ensures other_client { other.new.client ≡ other.old.client }
        ensures one_adds { AddsNothing self.old self.new }
        ensures other_adds { AddsNothing other.old other.new }
        ensures sound { IsSound self.new.cut }
    {
        self.channel.meet(&mut other.channel);
        self.channel.is_sound();
    }

    /// Has the session send to the partition by this mailbox from now on, and gives the one that it had, or `None`
    /// where there is no partition of this number. Whoever takes the mails passes them on by that one, in their order:
    /// so a mail can be held on its way, as in a network. No promise rests on what becomes of them. One that is lost
    /// leaves the session waiting.
    pub fn relay(
        &mut self,
        part: u16,
        mailbox: Sender<PartitionMail<J>>,
    ) -> Option<Sender<PartitionMail<J>>>
        ensures there { part < self.old.cut.parts → IsSome result }
        ensures nowhere { self.old.cut.parts ≤ part → result ≡ None }
        ensures same { self.new ≡ self.old }
    {
        self.channel.relay(part, mailbox)
    }

    /// Ends the session: its share goes back to the audit book, and the partitions forget it.
    pub fn end<R: Wait>(self, rt: &R) {
        let Session {
            alloc: _,
            channel,
            clock: _,
            tag: _,
            policy: _,
            board: _,
            book,
            share,
            hints: _,
            stripes: _,
            contested: _,
        } = self;
        channel.leave(rt);
        book.lock(rt).gather(share);
    }
}
