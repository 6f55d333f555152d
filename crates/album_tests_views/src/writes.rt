//! Writes over three partitions (docs/PROTOCOL.md, "A write"): the outcome of replies, strays among them. amy sets
//! other lists of her two pictures, so list/0 and list/1 are written: at the partitions 2 and 0.
ghost use Rattle.std.specs.Prelude.{◌≡◌, Some, IfErr, IfOk, IsTrue};
ghost use Rattle.album_stamps.specs.Stamps.{client_of};
ghost use Rattle.album_views.specs.Asks.{is_write};

use crate::asks::{Verb, ask_of, many_lists, set_lists};
use crate::refused::{given_back, is_as_before, whole_text};
use crate::ruling::permit_on;
use crate::store::{ALLOW, AMY, Is, Store, item_of};
use crate::viewing::view_of;
use album_calls::{Body, Message, Node, Reply, Vote};
use album_eval::{Policy, Principal};
use album_permits::Permit;
use album_stamps::{ClientNo, Refusal, Refused, Stamp};
use album_views::Ask;
use album_writer::{CommitStep, Committing, Outcome, PrepareStep, Preparing};
use std::alloc::Global;

/// Counter 1 of client 1, and its next one.
const T: u64 = 65_537;

const LATER: u64 = 131_073;

/// Two pictures, and an album with all the children that it may have, to which everyone may add.
const STORE: Store = &[
    ("picture/0", Is::Picture(0)),
    ("picture/1", Is::Picture(1)),
    ("album/0", Is::Album(2)),
    ("list/0", Is::List(&[])),
    ("list/1", Is::List(&[])),
    ("list/2", Is::List(&[(ALLOW, "EVERYONE@", 2, 0)])),
];

/// What a partition replies about a stamp.
#[derive(Clone, Copy)]
enum ReplyKind {
    Prepared,
    Committed,
    Discarded,
    Full,
    NotPrepared,
    Status,
    Clash,
    Gone,
}

/// A reply: from this partition, to this client, under this tag.
#[derive(Clone, Copy)]
struct ReplyRow {
    from: u16,
    to: u16,
    tag: u64,
    kind: ReplyKind,
    stamp: u64,
}

/// Other lists of the two pictures.
fn lists(alloc: Global) -> Result<Ask, Refusal> {
    Ok(set_lists(many_lists(alloc, 2)?))
}

/// The principal's permit for the ask.
fn permit_by(alloc: Global, ask: Ask, principal: &Principal) -> Result<Permit, Refusal> {
    let view = view_of(alloc, STORE, ask, principal)?;
    permit_on(alloc, view, principal, Policy::Two)
}

/// amy's permit for the ask.
fn permit_of(alloc: Global, ask: Ask) -> Result<Permit, Refusal> {
    match Principal::read(AMY) {
        Ok(amy) => {
            let permit = permit_by(alloc, ask, &amy);
            drop(amy);
            permit
        }
        Err(refusal) => {
            drop(ask);
            Err(refusal)
        }
    }
}

/// A stamp, and whose it is.
fn stamp_of(value: u64) -> Result<(Stamp, ClientNo), Refusal>
    ensures { IfOk result (λ r. client_of r.0 ≡ Some r.1) }
{
    let stamp = Stamp::read(value).ok_or(Refusal::BadRequest)?;
    let client = stamp.client().ok_or(Refusal::BadRequest)?;
    Ok((stamp, client))
}

/// The permit's write at the stamp `T`, its Prepares under the tag 5.
fn begin(alloc: Global, permit: Permit) -> Result<(Preparing, Vec<Message>), Refused<Permit>>
    requires { IsTrue (is_write permit.view.ask) }
    ensures { IfErr result (λ e. e.given ≡ permit) }
{
    match stamp_of(T) {
        Ok((stamp, client)) => Preparing::begin(alloc, permit, stamp, client, 5, 3),
        Err(refusal) => Err(Refused {
            refusal,
            given: permit,
        }),
    }
}

/// Why a write was refused; its permit is given back.
fn refused(refused: Refused<Permit>) -> Refusal {
    let Refused { refusal, given } = refused;
    given_back(given, refusal)
}

/// amy's write of the ask; begun once more, where that was refused.
fn begun(alloc: Global, ask: Ask) -> Result<(Preparing, Vec<Message>), Refusal> {
    let permit = permit_of(alloc, ask)?;
    if !permit.writes() {
        return Err(given_back(permit, Refusal::BadRequest));
    }
    let before = whole_text(alloc, &permit);
    match begin(alloc, permit) {
        Ok(begun) => Ok(begun),
        Err(refused) => begun_again(alloc, refused.given, &before),
    }
}

fn begun_again(
    alloc: Global,
    permit: Permit,
    before: &Result<String, Refusal>,
) -> Result<(Preparing, Vec<Message>), Refusal>
    requires { IsTrue (is_write permit.view.ask) }
{
    if !is_as_before(alloc, &permit, before) {
        return Err(given_back(permit, Refusal::Clash));
    }
    begin(alloc, permit).map_err(refused)
}

/// Whether a write to the full album is refused for that, and its permit handed back.
fn full_album(alloc: Global) -> Result<bool, Refusal> {
    let permit = permit_of(alloc, ask_of(alloc, Verb::AddPicture, "album/0")?)?;
    if !permit.writes() {
        drop(permit.give_back());
        return Err(Refusal::BadRequest);
    }
    match begin(alloc, permit) {
        Ok(begun) => {
            drop(begun);
            Ok(false)
        }
        Err(refused) => Ok(is_handed_back(refused)),
    }
}

fn is_handed_back(refused: Refused<Permit>) -> bool {
    let Refused { refusal, given } = refused;
    let view = given.give_back();
    let is_back = refusal == Refusal::AlbumFull && matches!(view.ask(), Ask::AddPicture { .. });
    drop(view);
    is_back
}

/// The album has 128 children already, without the new one.
#[test]
fn full_album_gives_the_permit_back(rt: HostRuntime) {
    assert_eq!(rt; full_album(rt.alloc()), Ok(true));
}

fn reply_of(kind: ReplyKind, stamp: Stamp) -> Result<Reply, Refusal> {
    match kind {
        ReplyKind::Prepared => Ok(Reply::Prepared(stamp)),
        ReplyKind::Committed => Ok(Reply::Committed(stamp)),
        ReplyKind::Discarded => Ok(Reply::Discarded(stamp)),
        ReplyKind::Full => Ok(Reply::Full(stamp)),
        ReplyKind::NotPrepared => Ok(Reply::NotPrepared(stamp)),
        ReplyKind::Status => Ok(Reply::Status(stamp, Vote::Prepared)),
        ReplyKind::Clash => Ok(Reply::Clash),
        ReplyKind::Gone => Ok(Reply::Gone(item_of("list/0")?)),
    }
}

fn message_of(reply: ReplyRow) -> Result<Message, Refusal> {
    let stamp = Stamp::read(reply.stamp).ok_or(Refusal::BadRequest)?;
    let client = ClientNo::of(reply.to).ok_or(Refusal::BadRequest)?;
    let body = Body::Reply(reply_of(reply.kind, stamp)?);
    Ok(Message::new(
        Node::Part(reply.from),
        Node::Client(client),
        reply.tag,
        body,
    ))
}

/// How far a write is.
#[derive(Drop)]
enum Phase {
    Prepares(Preparing),
    Commits(Committing),
    Over(Outcome),
}

fn prepare_given(preparing: Preparing, message: &Message) -> Phase {
    match preparing.on_reply(message) {
        PrepareStep::Same(preparing) => Phase::Prepares(preparing),
        PrepareStep::Commit(committing, commits) => {
            drop(commits);
            Phase::Commits(committing)
        }
        PrepareStep::Ended(outcome) => Phase::Over(outcome),
    }
}

fn commit_given(committing: Committing, message: &Message) -> Phase {
    match committing.on_reply(message) {
        CommitStep::Same(committing) => Phase::Commits(committing),
        CommitStep::Ended(outcome) => Phase::Over(outcome),
    }
}

fn given(phase: Phase, message: &Message) -> Phase {
    match phase {
        Phase::Prepares(preparing) => prepare_given(preparing, message),
        Phase::Commits(committing) => commit_given(committing, message),
        Phase::Over(outcome) => Phase::Over(outcome),
    }
}

fn word(phase: &Phase) -> (&'static str, u64) {
    match phase {
        Phase::Prepares(preparing) => ("prepares", preparing.stamp().value()),
        Phase::Commits(committing) => ("commits", committing.stamp().value()),
        Phase::Over(Outcome::Committed(stamp)) => ("committed", stamp.value()),
        Phase::Over(Outcome::Aborted(stamp)) => ("aborted", stamp.value()),
        Phase::Over(Outcome::Full(stamp)) => ("full", stamp.value()),
    }
}

/// How far the write is after one more reply.
fn next(phase: Phase, reply: ReplyRow) -> Result<Phase, Refusal> {
    match message_of(reply) {
        Ok(message) => {
            let next = given(phase, &message);
            drop(message);
            Ok(next)
        }
        Err(refusal) => {
            drop(phase);
            Err(refusal)
        }
    }
}

/// How far the write is after these replies.
fn phase_after(alloc: Global, replies: &[ReplyRow]) -> Result<Phase, Refusal> {
    let (preparing, prepares) = begun(alloc, lists(alloc)?)?;
    drop(prepares);
    let mut phase = Phase::Prepares(preparing);
    for reply in replies {
        phase = next(phase, *reply)?;
    }
    Ok(phase)
}

/// The word for it, and the stamp of the write.
fn after(alloc: Global, replies: &[ReplyRow]) -> Result<(&'static str, u64), Refusal> {
    let phase = phase_after(alloc, replies)?;
    let word = word(&phase);
    drop(phase);
    Ok(word)
}

/// Replies, and how far the write is then.
type Row = (&'static [ReplyRow], &'static str);

/// What partitions 0 and 2 reply to client 1 about their Prepares of `T`, and about their Commits.
const P0: ReplyRow = ReplyRow {
    from: 0,
    to: 1,
    tag: 5,
    kind: ReplyKind::Prepared,
    stamp: T,
};

const P2: ReplyRow = ReplyRow { from: 2, ..P0 };

const C0: ReplyRow = ReplyRow {
    tag: 6,
    kind: ReplyKind::Committed,
    ..P0
};

const C2: ReplyRow = ReplyRow { from: 2, ..C0 };

/// The same from partition 1, which is no participant.
const P1: ReplyRow = ReplyRow { from: 1, ..P0 };

const C1: ReplyRow = ReplyRow { from: 1, ..C0 };

const ROWS: &[Row] = &[
    (&[], "prepares"),
    (&[P0], "prepares"),
    // Both have prepared, in either order.
    (&[P0, P2], "commits"),
    (&[P2, P0], "commits"),
    // A Commit is lost, and the other is answered.
    (&[P0, P2, C0], "commits"),
    // Partition 2 has committed by a sweep meanwhile, and replies so to its Commit.
    (&[P0, P2, C2, C0], "committed"),
    // Partition 2 was asked by a sweep of partition 0 before its Prepare came.
    (
        &[
            P0,
            ReplyRow {
                kind: ReplyKind::Discarded,
                ..P2
            },
        ],
        "aborted",
    ),
    // The sweep came to partition 0 after it had prepared, and its Prepare twice.
    (
        &[
            P0,
            ReplyRow {
                kind: ReplyKind::Discarded,
                ..P0
            },
        ],
        "aborted",
    ),
    // No room at partition 2; and the same reply from one that has prepared.
    (
        &[ReplyRow {
            kind: ReplyKind::Full,
            ..P2
        }],
        "full",
    ),
    (
        &[
            P0,
            ReplyRow {
                kind: ReplyKind::Full,
                ..P0
            },
        ],
        "full",
    ),
    // One partition replies Prepared twice, and Committed twice.
    (&[P0, P0], "prepares"),
    (&[P0, P2, C0, C0], "commits"),
    // Strays to the Prepares: of another tag, another stamp, a partition that is no participant, to another client.
    (&[P0, ReplyRow { tag: 6, ..P2 }], "prepares"),
    (&[P0, ReplyRow { stamp: LATER, ..P2 }], "prepares"),
    (&[P0, P1], "prepares"),
    (&[P0, ReplyRow { to: 2, ..P2 }], "prepares"),
    (
        &[ReplyRow {
            kind: ReplyKind::Discarded,
            stamp: LATER,
            ..P2
        }],
        "prepares",
    ),
    (
        &[ReplyRow {
            kind: ReplyKind::Discarded,
            ..P1
        }],
        "prepares",
    ),
    (
        &[ReplyRow {
            kind: ReplyKind::Full,
            ..P1
        }],
        "prepares",
    ),
    (
        &[ReplyRow {
            kind: ReplyKind::Full,
            ..C2
        }],
        "prepares",
    ),
    // Replies of other kinds; Committed, of a Prepare.
    (
        &[
            P0,
            ReplyRow {
                kind: ReplyKind::Committed,
                ..P2
            },
        ],
        "prepares",
    ),
    (
        &[
            P0,
            ReplyRow {
                kind: ReplyKind::NotPrepared,
                ..P2
            },
        ],
        "prepares",
    ),
    (
        &[
            P0,
            ReplyRow {
                kind: ReplyKind::Status,
                ..P2
            },
        ],
        "prepares",
    ),
    (
        &[
            P0,
            ReplyRow {
                kind: ReplyKind::Clash,
                ..P2
            },
        ],
        "prepares",
    ),
    (
        &[
            P0,
            ReplyRow {
                kind: ReplyKind::Gone,
                ..P2
            },
        ],
        "prepares",
    ),
    // Strays to the Commits.
    (&[P0, P2, C0, ReplyRow { tag: 5, ..C2 }], "commits"),
    (&[P0, P2, C0, ReplyRow { stamp: LATER, ..C2 }], "commits"),
    (&[P0, P2, C0, C1], "commits"),
    (&[P0, P2, C0, ReplyRow { to: 2, ..C2 }], "commits"),
    (
        &[
            P0,
            P2,
            C0,
            ReplyRow {
                kind: ReplyKind::Prepared,
                ..C2
            },
        ],
        "commits",
    ),
    (
        &[
            P0,
            P2,
            C0,
            ReplyRow {
                kind: ReplyKind::Discarded,
                ..C2
            },
        ],
        "commits",
    ),
    (
        &[
            P0,
            P2,
            C0,
            ReplyRow {
                kind: ReplyKind::Full,
                ..C2
            },
        ],
        "commits",
    ),
    (
        &[
            P0,
            P2,
            C0,
            ReplyRow {
                kind: ReplyKind::NotPrepared,
                ..C2
            },
        ],
        "commits",
    ),
];

/// Each row begins anew.
#[test]
fn replies_carry_a_write_on(rt: HostRuntime) {
    for (replies, end) in ROWS {
        assert_eq!(rt; after(rt.alloc(), replies), Ok((*end, T)));
    }
}

/// A write is begun with the permit that came back, where it was refused, and continues.
#[test]
fn a_refused_write_begins_again(rt: HostRuntime) {
    assert_eq!(rt; after(rt.alloc(), &[P0, P2]), Ok(("commits", T)));
}
