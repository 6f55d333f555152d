//! A board under its lock: what a session does before a request begins, and before it gives the answer.
ghost use Rattle.std.specs.Prelude.{◌≡◌};
ghost use Rattle.album_passes.specs.Changes.{KeepsOwn};
ghost use Rattle.album_passes.specs.Cuts.{Extends, IsSound};

use crate::board::{Board, Listened, Published};
use crate::names::BoardNames;
use album_passes::{Desk, Pass};
use std::sync::{Mutex, Wait};

/// The pass takes in all that was published so far.
pub fn listen<J: BoardNames, R: Wait>(
    rt: &R,
    board: &Mutex<Board<J>>,
    desk: &Desk,
    pass: &mut Pass,
) -> Listened<J>
    requires table { desk.now.table ≡ J.table }
    requires of { pass.old.table ≡ J.table }
    ensures listened { Extends result.cut pass.new.cut }
    ensures grown { Extends pass.old.cut pass.new.cut }
    ensures own { KeepsOwn pass.old.number pass.old.cut pass.new.cut }
    ensures sound { IsSound pass.new.cut }
    ensures same_table { pass.new.table ≡ pass.old.table }
    ensures number { pass.new.number ≡ pass.old.number }
{
    let mut listened = board.lock(rt).listen(desk);
    let all = listened.split(desk);
    pass.join(desk, all);
    listened
}

/// Publishes what the pass has seen.
pub fn publish<J: BoardNames, R: Wait>(
    rt: &R,
    board: &Mutex<Board<J>>,
    desk: &Desk,
    pass: &mut Pass,
) -> Published<J>
    requires table { desk.now.table ≡ J.table }
    requires of { pass.old.table ≡ J.table }
    ensures cut { result.cut ≡ pass.old.cut }
    ensures same { pass.new ≡ pass.old }
{
    board.lock(rt).publish(desk, pass)
}
