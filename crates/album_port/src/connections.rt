//! The connections of a port that are open. In each epoch each has a session and a thread of its own.
use crate::accepting::Limits;
use crate::first_words::{FirstWords, Hearing, Said};
use crate::incoming::Incoming;
use crate::notices::{Notice, Notices};
use crate::one_epoch::Shared;
use crate::peers::Peers;
use crate::port::Host;
use crate::resumed::{Answered, Peer};
use crate::turn::EpochReader;
use crate::waker::Waker;
use album_eval::Principal;
use album_judge::Fault;
use album_stamps::{ClientNo, Refusal};
use album_talk::{Admins, talk_on};
use album_threads::{OwnedSession, ServiceNames};
use std::alloc::{AllocError, Global};
use std::net::Shutdown;
use std::sync::atomic::{AtomicBool, AtomicU64, Ordering};
use std::sync::{Arc, Mutex, Wait};
use std::time::Instant;
use std::{mem, time};

/// What the threads of the connections share with the one that accepts them.
#[derive(Drop)]
pub(crate) struct Connections {
    alloc: Global,
    peers: Mutex<Peers>,
    /// Wakes the thread that accepts.
    waker: Waker,
    /// Whether that thread waits for the last of them to end.
    awaits_end: AtomicBool,
    /// How many have begun, how many of them have ended, and how many may begin.
    begun: AtomicU64,
    ended: AtomicU64,
    most: u16,
    /// How many have said who they are, and whether these alone count.
    named: AtomicU64,
    counts_named: bool,
    /// Takes what is to be printed on standard error.
    pub notices: Notices,
    /// Who may do more than ask.
    admins: Admins,
}

impl Connections {
    /// None is open yet. An address may have so many at once.
    pub(crate) fn new(
        alloc: Global,
        notices: Notices,
        waker: Waker,
        most: u16,
        counts_named: bool,
        per_address: u32,
        admins: Admins,
    ) -> Connections {
        Connections {
            alloc,
            peers: Mutex::new(Peers::new(alloc, per_address)),
            waker,
            awaits_end: AtomicBool::new(false),
            begun: AtomicU64::new(0),
            ended: AtomicU64::new(0),
            most,
            named: AtomicU64::new(0),
            counts_named,
            notices,
            admins,
        }
    }

    /// A connection begins. Gives how many have begun by then, which is its number.
    ///
    /// # Errors
    ///
    /// `Closed`, where none begins any more, or its address has as many as it may have; else `OutOfMemory`.
    pub(crate) fn begin<T: Wait + time::Clock>(
        &self,
        rt: &T,
        peer: &Arc<Peer, Global>,
    ) -> Result<u64, Refusal> {
        let peer = Arc::try_clone(peer)?;
        let now = Instant::now(rt).ok();
        let mut peers = self.peers.lock(rt);
        let number = self.begun().saturating_add(1);
        peers.begin(number, peer, now)?;
        self.begun.fetch_add(1, Ordering::SeqCst);
        Ok(number)
    }

    /// Whether one more of this peer's address may begin.
    pub(crate) fn has_room_for<T: Wait>(&self, rt: &T, peer: &Peer) -> bool {
        self.peers.lock(rt).addresses.has_room(peer.address)
    }

    /// The oldest connection that hasn't said who it is is closed, if it has had time for that, and standard error says
    /// so. Returns whether one is.
    pub(crate) fn give_way<T: Wait + time::Clock>(&self, rt: &T) -> bool {
        let Ok(now) = Instant::now(rt) else {
            return false;
        };
        let Some(number) = self.peers.lock(rt).give_way(now) else {
            return false;
        };
        let of = format!(in self.alloc; "connection {number}").ok();
        self.notices.send_of(rt, of, Notice::GaveWay);
        true
    }

    /// The connection of this number has ended. Where the last is waited for, and this is it, that is told.
    pub(crate) fn end<T: Wait>(&self, rt: &T, number: u64) {
        let peer = self.peers.lock(rt).end(number);
        drop(peer);
        self.ended.fetch_add(1, Ordering::SeqCst);
        if self.awaits_end.load(Ordering::SeqCst) && self.have_ended() {
            self.waker.wake();
        }
    }

    /// The epoch turns, and the conversation is for the next one. Without memory for that it ends.
    fn leave<T: Wait>(&self, rt: &T, conversation: Conversation) {
        let number = conversation.number;
        let is_left = self.peers.lock(rt).left.push(conversation).is_ok();
        if !is_left {
            self.end(rt, number);
        }
        self.waker.wake();
    }

    /// The conversations that go on in this epoch.
    pub(crate) fn take_left<T: Wait>(&self, rt: &T) -> Vec<Conversation> {
        mem::replace(&mut self.peers.lock(rt).left, Vec::new(self.alloc))
    }

    /// The end of the last one is told from now on. Returns whether each has ended.
    pub(crate) fn await_end(&self) -> bool {
        self.awaits_end.store(true, Ordering::SeqCst);
        self.have_ended()
    }

    /// The connection of this number has said who it is.
    pub(crate) fn name<T: Wait>(&self, rt: &T, number: u64) {
        self.peers.lock(rt).silent.remove(number);
        self.named.fetch_add(1, Ordering::SeqCst);
    }

    /// How many count: those that have begun, or those that have said who they are.
    pub(crate) fn counted(&self) -> u64 {
        if self.counts_named {
            return self.named.load(Ordering::SeqCst);
        }
        self.begun()
    }

    /// Whether any number of them may count: where those alone count that have said who they are, the greatest number
    /// is no limit.
    pub(crate) fn is_unlimited(&self) -> bool {
        self.counts_named && self.most == u16::MAX
    }

    /// How many have begun.
    pub(crate) fn begun(&self) -> u64 {
        self.begun.load(Ordering::SeqCst)
    }

    /// How many may begin.
    pub(crate) fn most(&self) -> u64 {
        u64::from(self.most)
    }

    /// How many have ended.
    pub(crate) fn ended(&self) -> u64 {
        self.ended.load(Ordering::SeqCst)
    }

    /// Whether each that has begun has ended.
    fn have_ended(&self) -> bool {
        self.ended() == self.begun()
    }

    /// No connection begins any more, and those that are open are read to the end of what has come: each line that is
    /// there is answered still. The thread that accepts is woken.
    pub(crate) fn close<T: Wait>(&self, rt: &T) {
        let mut peers = self.peers.lock(rt);
        for (_, peer) in &peers.open {
            let _ = peer.stream.shutdown(Shutdown::Read);
        }
        let is_first = !peers.is_closed;
        peers.is_closed = true;
        if is_first {
            self.waker.wake();
        }
    }

    /// Ends the connections that are open still, also those whose client takes no answer.
    pub(crate) fn cut<T: Wait>(&self, rt: &T) {
        let peers = self.peers.lock(rt);
        for (_, peer) in &peers.open {
            let _ = peer.stream.shutdown(Shutdown::Both);
        }
    }

    /// Ends those whose client has taken nothing since the last look: an epoch that turns doesn't wait for them.
    pub(crate) fn cut_stalled<T: Wait>(&self, rt: &T) {
        let peers = self.peers.lock(rt);
        for (_, peer) in &peers.open {
            if peer.is_stalled() {
                let _ = peer.stream.shutdown(Shutdown::Both);
            }
        }
    }

    /// Says that a connection is refused, since no thread could be had for it. The faults that are printed without a
    /// date are those that are defined.
    pub(crate) fn say_refused<T: Wait + time::Clock>(&self, rt: &T) {
        if self.notices.are_dated() {
            self.notices.send_if_read(rt, Notice::NoThread);
        }
    }

    /// Whether none begins any more.
    pub(crate) fn is_closed<T: Wait>(&self, rt: &T) -> bool {
        self.peers.lock(rt).is_closed
    }
}

/// A connection's talk, whatever epoch it is in.
#[derive(Drop)]
pub(crate) struct Conversation {
    /// How many connections had begun by when it did.
    pub number: u64,
    pub peer: Arc<Peer, Global>,
    incoming: Incoming,
    said: Said,
    /// Who talks, once that is answered.
    who: Option<Principal>,
}

impl Conversation {
    /// Nothing has been said. Who it is has to be said within the limit, if there is one.
    pub(crate) fn new<T: time::Clock>(
        rt: &T,
        alloc: Global,
        number: u64,
        peer: Arc<Peer, Global>,
        limits: &Limits,
    ) -> Conversation {
        let until = match limits.hello {
            Some(hello) => Instant::now(rt).ok().and_then(|now| now.checked_add(hello)),
            None => None,
        };
        Conversation {
            number,
            peer,
            incoming: Incoming::new(alloc, until),
            said: Said::new(),
            who: None,
        }
    }
}

/// How a conversation ends in an epoch.
#[derive(Drop)]
enum Ended {
    /// The next epoch goes on with it.
    Left,
    /// With the connection; and what is to be printed of that, unless it ended well.
    Over(Option<Notice>),
}

/// Answers the lines of a connection, to its end, or to that of the epoch. Where a note can't be written, no connection
/// is answered any more.
pub(crate) fn attend<J, T>(
    alloc: Global,
    shared: &Arc<Shared<J, T>, Global>,
    owned: OwnedSession<J, T>,
    mut conversation: Conversation,
)
where
    J: ServiceNames + Send + Sync,
    T: Host,
{
    let mut owned = owned;
    let rt = owned.rt;
    match talk(alloc, shared, &mut owned, &mut conversation) {
        Ended::Left => {
            drop(owned);
            shared.connections.leave(&rt, conversation);
        }
        Ended::Over(notice) => {
            let number = conversation.number;
            finish(alloc, shared, owned, &conversation, notice);
            // Until here it is busy: what it has noted is written by the epoch's journal.
            if let Some(turn) = &shared.turn {
                turn.leave(&conversation.peer);
            }
            // Where it counts as ended, its file is free.
            drop(conversation);
            shared.connections.end(&rt, number);
        }
    }
}

/// What is said over the connection has ended so.
fn finish<J, T>(
    alloc: Global,
    shared: &Arc<Shared<J, T>, Global>,
    owned: OwnedSession<J, T>,
    conversation: &Conversation,
    notice: Option<Notice>,
)
where
    J: ServiceNames + Send + Sync,
    T: Host,
{
    let (rt, client) = (owned.rt, owned.session.client());
    if let Some(notice) = notice {
        let of = name_of(&rt, alloc, client, conversation);
        shared.connections.notices.send_of(&rt, of.ok(), notice);
    }
    shared.journal.forget(&rt, &owned.session);
    if shared.journal.has_failed() {
        shared.connections.close(&rt);
    }
    shared.rest(owned);
}

/// How a connection is named on standard error.
///
/// # Errors
///
/// `AllocError`.
fn name_of<T: Wait>(
    rt: &T,
    alloc: Global,
    client: ClientNo,
    conversation: &Conversation,
) -> Result<String, AllocError> {
    let (number, client) = (conversation.number, client.number());
    let who = conversation.said.text(rt, alloc)?;
    format!(in alloc; "connection {number}, client {client}, {who}")
}

/// Answers the lines of a connection, and gives how that ended.
fn talk<J, T>(
    alloc: Global,
    shared: &Arc<Shared<J, T>, Global>,
    owned: &mut OwnedSession<J, T>,
    conversation: &mut Conversation,
) -> Ended
where
    J: ServiceNames + Send + Sync,
    T: Host,
{
    let rt = owned.rt;
    let Conversation {
        number,
        peer,
        incoming,
        said,
        who,
    } = conversation;
    let said: &Said = said;
    let peer: &Peer = peer;
    let hearing = Hearing {
        journal: &shared.journal,
        connections: &shared.connections,
        number: *number,
        said,
    };
    let mut from = EpochReader {
        from: FirstWords::new(rt, peer, incoming, said, shared.limits.idle),
        turn: shared.turn.as_ref(),
        has_left: false,
    };
    let mut to = Answered { peer };
    let done = talk_on(
        &rt,
        alloc,
        &mut from,
        &mut to,
        &mut owned.session,
        &shared.connections.admins,
        &shared.epoch,
        &hearing,
        who,
        shared.limits.turns,
    );
    ended_by(&from, done)
}

/// How a conversation has ended that was read so.
fn ended_by<T>(from: &EpochReader<'_, T>, done: Result<(), Fault>) -> Ended {
    if from.has_left {
        return Ended::Left;
    }
    if from.from.incoming.first.is_request() {
        return Ended::Over(Some(Notice::Http));
    }
    Ended::Over(done.err().map(Notice::Fault))
}
