//! The connections that come: each is given a session and a thread, or the reason why not. Those that an epoch left
//! come first in the next one.
use crate::connections::{Conversation, attend};
use crate::count::{Count, is_want_of_files, wait};
use crate::notices::Notice;
use crate::one_epoch::Shared;
use crate::port::Host;
use crate::resumed::Peer;
use crate::waker::Door;
use album_judge::write_refused;
use album_stamps::Refusal;
use album_threads::{OwnedSession, Service, ServiceNames};
use std::alloc::Global;
use std::io::ErrorKind;
use std::net::TcpStream;
use std::sync::Arc;
use std::thread;
use std::time::Duration;

/// How the connections of a service are served.
#[derive(Clone, Copy, Debug)]
pub(crate) struct Limits {
    /// How many are served.
    pub conns: u16,
    /// How many reads each may make.
    pub turns: u64,
    /// How long one may say nothing, or take no answer.
    pub idle: Option<Duration>,
    /// How long one may take to say who it is.
    pub hello: Option<Duration>,
    /// How long those that are open may go on once the service is closed.
    pub grace: Option<Duration>,
    /// Whether the service ends once its connections are closed, and not before.
    pub until_closed: bool,
}

/// How the connections of an epoch end.
#[derive(Clone, Copy, Debug)]
pub(crate) enum Accepted {
    /// All that count have ended, or the service is closed.
    All,
    /// The epoch turns, and those that are open go on in the next one.
    Turned,
    /// All have ended, since no session could be opened for a minute.
    Spent,
}

/// Accepts connections until all that are counted have ended, or they are closed, or the epoch turns.
pub(crate) fn accept_all<J, T>(
    rt: T,
    alloc: Global,
    service: &Service<J>,
    door: &mut Door,
    shared: &Arc<Shared<J, T>, Global>,
) -> Accepted
where
    J: ServiceNames + Send + Sync + 'static,
    T: Host,
{
    let mut count = Count::new();
    for _ in rt.forever() {
        let is_closed = is_closed(&rt, service, shared);
        if is_closed {
            shared.go_on_here();
            count.cut_late(&rt, shared);
        } else if let Some(turn) = shared.begun_turn() {
            if turn.is_quiet() {
                return Accepted::Turned;
            }
            if !count.has_waited() || !shared.journal.is_behind(&rt) {
                count.await_quiet(&rt, door, &shared.connections);
                continue;
            }
            // The audit file takes nothing, and who noted nothing is not to wait for that.
            turn.put_off();
            count.put_off();
        }
        go_on_all(rt, alloc, service, shared, &mut count);
        let is_full = is_closed || count.is_full(shared);
        // Those beyond the last are refused while the others are served.
        let have_ended = is_full && shared.connections.await_end();
        if have_ended && (is_closed || !shared.limits.until_closed) {
            return if count.is_spent() {
                Accepted::Spent
            } else {
                Accepted::All
            };
        }
        accept_one(rt, alloc, service, door, shared, is_full, &mut count);
    }
    // `forever` has no end.
    unreachable!()
}

/// Accepts one, if one has come, and else waits for one, or to be woken.
fn accept_one<J, T>(
    rt: T,
    alloc: Global,
    service: &Service<J>,
    door: &mut Door,
    shared: &Arc<Shared<J, T>, Global>,
    is_full: bool,
    count: &mut Count,
)
where
    J: ServiceNames + Send + Sync + 'static,
    T: Host,
{
    match door.accept() {
        Ok(peer) if is_full => {
            count.say_full(&rt, alloc, &shared.connections);
            turn_away(alloc, &peer.stream, Refusal::Closed);
        }
        Ok(peer) => take(rt, alloc, service, shared, peer, count),
        Err(error) if error.kind() == ErrorKind::WouldBlock => {
            wait(&rt, door, count.left(&rt));
        }
        Err(error) if shared.limits.until_closed && is_want_of_files(&error) => {
            count.make_room(&rt, door, &shared.connections);
        }
        Err(_) => count.fail(&rt, &shared.connections),
    }
}

/// Takes whoever has come, unless the address has as many connections as it may have: then it is told so, and doesn't
/// count.
fn take<J, T>(
    rt: T,
    alloc: Global,
    service: &Service<J>,
    shared: &Arc<Shared<J, T>, Global>,
    peer: Peer,
    count: &mut Count,
)
where
    J: ServiceNames + Send + Sync + 'static,
    T: Host,
{
    if !shared.connections.has_room_for(&rt, &peer) {
        count.say_crowded(&rt, alloc, &shared.connections, peer.address);
        turn_away(alloc, &peer.stream, Refusal::Closed);
        return;
    }
    count.come();
    let welcomed = welcome(rt, alloc, service, shared, peer);
    count.note(&rt, shared, welcomed);
}

/// Whether no connection begins any more. So it is once the input has ended, with which the service ends, or a
/// partition's thread has, for want of memory. Where nobody has come by then, standard error says why the service ends:
/// its input may be one that has nothing, as that of a service manager.
fn is_closed<J, T>(rt: &T, service: &Service<J>, shared: &Shared<J, T>) -> bool
where
    J: ServiceNames,
    T: Host,
{
    let connections = &shared.connections;
    if connections.is_closed(rt) {
        return true;
    }
    let has_ended = match &shared.input {
        Some(input) => input.has_ended(),
        None => false,
    };
    if has_ended && connections.begun() == 0 {
        connections.notices.send(rt, Notice::Ended);
    }
    let is_over = has_ended || service.is_broken();
    if is_over {
        connections.close(rt);
    }
    is_over
}

/// Answers a connection why it is not served, and closes it.
fn turn_away(alloc: Global, stream: &TcpStream, why: Refusal) {
    let mut to = stream;
    let _ = write_refused(alloc, why, &mut to);
}

/// Gives a connection a session and a thread, or answers why it has none.
///
/// # Errors
///
/// That reason.
fn welcome<J, T>(
    rt: T,
    alloc: Global,
    service: &Service<J>,
    shared: &Arc<Shared<J, T>, Global>,
    peer: Peer,
) -> Result<(), Refusal>
where
    J: ServiceNames + Send + Sync + 'static,
    T: Host,
{
    let stream = &peer.stream;
    let _ = stream.set_read_timeout(shared.limits.idle);
    let _ = stream.set_write_timeout(shared.limits.idle);
    let _ = stream.set_nodelay(true);
    let Ok(peer) = Arc::new(alloc, peer) else {
        return Err(Refusal::OutOfMemory);
    };
    let begun = begin(rt, alloc, service, shared, &peer);
    if let Err(why) = begun {
        turn_away(alloc, &peer.stream, why);
    }
    begun
}

/// Gives a connection a session and a thread.
///
/// # Errors
///
/// As `OwnedSession::begin`; else `Closed`, where no connection begins any more; else `OutOfMemory`.
fn begin<J, T>(
    rt: T,
    alloc: Global,
    service: &Service<J>,
    shared: &Arc<Shared<J, T>, Global>,
    peer: &Arc<Peer, Global>,
) -> Result<(), Refusal>
where
    J: ServiceNames + Send + Sync + 'static,
    T: Host,
{
    let owned = session_of(&rt, service, shared)?;
    let peer = Arc::try_clone(peer)?;
    let number = shared.connections.begin(&rt, &peer)?;
    let conversation = Conversation::new(&rt, alloc, number, peer, &shared.limits);
    let begun = start(rt, alloc, shared, owned, conversation);
    if begun.is_err() {
        shared.connections.end(&rt, number);
        shared.connections.say_refused(&rt);
    }
    begun
}

/// A session that rests, or else a new one.
///
/// # Errors
///
/// As `OwnedSession::begin`.
fn session_of<J: ServiceNames, T: Host>(
    rt: &T,
    service: &Service<J>,
    shared: &Shared<J, T>,
) -> Result<OwnedSession<J, T>, Refusal> {
    match shared.rested(rt) {
        Some(owned) => Ok(owned),
        None => OwnedSession::begin(rt, service),
    }
}

/// The conversation has a thread.
///
/// # Errors
///
/// `OutOfMemory`, also where no thread is to be had.
fn start<J, T>(
    rt: T,
    alloc: Global,
    shared: &Arc<Shared<J, T>, Global>,
    owned: OwnedSession<J, T>,
    conversation: Conversation,
) -> Result<(), Refusal>
where
    J: ServiceNames + Send + Sync + 'static,
    T: Host,
{
    let shared = Arc::try_clone(shared)?;
    let thread = thread::spawn(&rt, move || attend(alloc, &shared, owned, conversation));
    match thread {
        Ok(_) => Ok(()),
        Err(_) => Err(Refusal::OutOfMemory),
    }
}

/// Those that the epoch before has left go on in this one.
fn go_on_all<J, T>(
    rt: T,
    alloc: Global,
    service: &Service<J>,
    shared: &Arc<Shared<J, T>, Global>,
    count: &mut Count,
)
where
    J: ServiceNames + Send + Sync + 'static,
    T: Host,
{
    if shared.turn.is_none() {
        return;
    }
    for conversation in shared.connections.take_left(&rt) {
        let opened = go_on(rt, alloc, service, shared, conversation);
        count.note(&rt, shared, opened);
    }
}

/// A conversation goes on in this epoch, or is told why not.
///
/// # Errors
///
/// That reason.
fn go_on<J, T>(
    rt: T,
    alloc: Global,
    service: &Service<J>,
    shared: &Arc<Shared<J, T>, Global>,
    conversation: Conversation,
) -> Result<(), Refusal>
where
    J: ServiceNames + Send + Sync + 'static,
    T: Host,
{
    let number = conversation.number;
    let Ok(peer) = Arc::try_clone(&conversation.peer) else {
        shared.connections.end(&rt, number);
        return Err(Refusal::OutOfMemory);
    };
    let begun = match session_of(&rt, service, shared) {
        Ok(owned) => start(rt, alloc, shared, owned, conversation),
        Err(why) => Err(why),
    };
    if let Err(why) = begun {
        turn_away(alloc, &peer.stream, why);
        shared.connections.end(&rt, number);
        shared.connections.say_refused(&rt);
    }
    begun
}
