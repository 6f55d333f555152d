//! What a service leaves: the histories of its partitions, folded.
ghost use Rattle.std.specs.Prelude.{◌≡◌, ◌≤◌, ◌<◌, ◌⊎◌, length, map, IfOk, IfErr};
ghost use Rattle.album_stamps.specs.declared.limits.TheConstants.{MAX_PARTS};
ghost use Rattle.album_stamps.specs.declared.refusals.Refusal.TheVariants.{BadOpening, NoSuchPart};
ghost use Rattle.album_channels.specs.Channels.{IsClosedOrOutOfMemory};
ghost use Rattle.album_sessions.specs.Steps.{IsStill};
ghost use Rattle.album_turns.specs.Left.{AreBetween, IsFoundBy, IsLeftTo, IsUnleft};

use album_board::Listened;
use album_epochs::{greatest_stamp, lend, opening_after};
use album_items::Opening;
use album_partition::Mark;
use album_sessions::{ServiceNames, Session};
use album_stamps::{MAX_PARTS, Refusal};
use std::alloc::Global;
use std::sync::Wait;
use std::time;

/// The opening with which the next epoch begins, and what was listened to before the partitions were asked.
pub struct Left<J: ServiceNames> {
    pub listened: Listened<J>,
    pub opening: Opening,
}

// By hand, so that what lets it go is proved here, and not again in each crate above.
impl<J: ServiceNames> Drop for Left<J> {
    fn drop(self) {
        let Left { listened, opening } = self;
        drop(listened);
        drop(opening);
    }
}

impl<J: ServiceNames> Left<J> {
    /// The opening. What was listened to is let go.
    pub fn into_opening(self) -> Opening
        ensures { result ≡ self.opening }
    {
        let Left {
            listened: _,
            opening,
        } = self;
        opening
    }
}

/// What the session's service, which opened on this, leaves to its next epoch, as it is now: the session listens to all
/// that was published, and asks each partition for its history. The service goes on.
///
/// # Errors
///
/// `BadOpening`, where the opening has too few partitions or too many; `StampsSpent`, where no counter is left; else as
/// `Session::history`.
pub fn leave<J: ServiceNames, R: Wait + time::Clock>(
    rt: &R,
    alloc: Global,
    session: &mut Session<J>,
    opening: &Opening,
) -> Result<Left<J>, Refusal>
    ensures left { IfOk result (λ left.
        IsFoundBy session.old.cut opening.now left.listened.cut left.opening) }
    ensures unleft { IfErr result (IsUnleft session.new.cut opening.now) }
    ensures still { IsStill session.old session.new }
{
    let listened = session.listen(rt);
    let opening = next_of(rt, alloc, session, opening)?;
    Ok(Left { listened, opening })
}

/// What the partitions leave, as the session finds them.
///
/// # Errors
///
/// As `leave`.
fn next_of<J: ServiceNames, R: Wait + time::Clock>(
    rt: &R,
    alloc: Global,
    session: &mut Session<J>,
    opening: &Opening,
) -> Result<Opening, Refusal>
    ensures left { IfOk result (λ next. session.old.cut.opening ≡ opening.now.items
        → session.old.cut.parts ≡ opening.now.parts → IsLeftTo session.old.cut opening.now next) }
    ensures unleft { IfErr result (IsUnleft session.new.cut opening.now) }
    ensures still { IsStill session.old session.new }
{
    session.has_granted_writes();
    let parts = parts_of(opening)?;
    let histories = histories_of(rt, alloc, session, parts)?;
    let lent = lend(alloc, &histories)?;
    let lent = lent.as_slice();
    let counter = greatest_stamp(lent).counter();
    let next = opening_after(alloc, opening, counter, lent)?;
    Ok(next)
}

/// How many partitions there are, if not too few or too many.
fn parts_of(opening: &Opening) -> Result<u16, Refusal>
    ensures parts { IfOk result (λ parts. parts ≡ opening.now.parts) }
    ensures some { IfOk result (λ parts. 1 ≤ parts) }
    ensures few { IfOk result (λ parts. parts ≤ MAX_PARTS) }
    ensures refused { IfErr result (λ e. (e ≡ BadOpening)
        × ((opening.now.parts ≡ 0) ⊎ (MAX_PARTS < opening.now.parts))) }
{
    if opening.parts < 1 || opening.parts > u64::from(MAX_PARTS) {
        return Err(Refusal::BadOpening);
    }
    Ok(opening.parts as u16)
}

/// The history of each partition, in order.
///
/// # Errors
///
/// As `Session::history`.
fn histories_of<J: ServiceNames, R: Wait + time::Clock>(
    rt: &R,
    alloc: Global,
    session: &mut Session<J>,
    parts: u16,
) -> Result<Vec<Vec<Mark>>, Refusal>
    ensures count { IfOk result (λ histories. length histories.items ≡ parts) }
    ensures between { IfOk result (λ histories.
        AreBetween session.old.cut session.new.cut (map (λ marks. marks.items) histories.items)) }
    ensures refused { IfErr result (λ e. ((e ≡ NoSuchPart) × (session.new.cut.parts < parts))
        ⊎ IsClosedOrOutOfMemory e) }
    ensures still { IsStill session.old session.new }
{
    session.has_granted_writes();
    let mut histories = Vec::new(alloc);
    for part in 0..parts {
        histories.push(session.history(rt, part)?)?;
    }
    Ok(histories)
}
