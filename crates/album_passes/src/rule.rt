//! The rule of the desk's table, and the kinds of step. Nothing of it is there when the program
//! runs.
//!
//! The desk's words and the seats at it are a `Table` of `atomic_table`, which keeps a rule between
//! any two steps. The rule is `OneRun`: there is one history of each partition. A word counts its
//! marks, and each seat knows a prefix of it. What was drawn and announced is one for all, too.
//! Each kind of step is a type. It says how a seat is split, how two become one, or what a seat knows
//! after a step on a word. `holding` makes the steps.
use album_items::Opening;
use atomic_table::{Join, Play, Split, TableRule};
use std::marker::{Brand, Model, PhantomData};
use std::snapshot::Snapshot;

/// What a seat knows. No value of it is made.
pub struct SeatView {}

impl Model for SeatView {
    ghost use Rattle.album_passes.specs.Knowledge.{Knowledge, spent_seat};

    ghost Value = { Knowledge };

    ghost view = { λ _. spent_seat };
}

/// What a desk is opened with.
#[derive(Drop)]
pub struct Plan {
    pub opening: Snapshot<Opening>,
    /// How many numbers are given out.
    pub sessions: u16,
}

impl Model for Plan {
    ghost use Rattle.album_passes.specs.Desk.{terms_of};
    ghost use Rattle.album_passes.specs.Knowledge.{Terms};

    ghost Value = { Terms };

    ghost view = { λ p. terms_of p.opening.value p.sessions };
}

/// The words and all seats are of one run.
pub struct OneRun;

impl TableRule<u8, SeatView, Plan> for OneRun {
    ghost use Rattle.album_passes.specs.Knowledge.{first_seat};
    ghost use Rattle.album_passes.specs.Rule.{Keeps};

    ghost holds = { Keeps };

    ghost first = { first_seat };
}

// ---- two seats

/// The new seat knows the cut, and holds and owns nothing.
pub struct CutAlone;

impl Split<SeatView> for CutAlone {
    ghost use Rattle.album_passes.specs.Steps.{cut_alone};

    ghost left = { λ seat. seat };

    ghost right = { cut_alone };
}

/// The new seat owns the first partition of the old one.
pub struct FirstAlone;

impl Split<SeatView> for FirstAlone {
    ghost use Rattle.album_passes.specs.Steps.{less_first, first_alone};

    ghost left = { less_first };

    ghost right = { first_alone };
}

/// The new seat is the guest's.
pub struct GuestAlone;

impl Split<SeatView> for GuestAlone {
    ghost use Rattle.album_passes.specs.Steps.{less_guest, guest_alone};

    ghost left = { less_guest };

    ghost right = { guest_alone };
}

/// The kept seat has the cuts of both, and the other's number as its guest's.
pub struct Beside;

impl Join<SeatView> for Beside {
    ghost use Rattle.album_passes.specs.Knowledge.{spent_seat};
    ghost use Rattle.album_passes.specs.Steps.{beside};

    ghost both = { beside };

    ghost spent = { spent_seat };
}

// ---- one seat's step on a word

/// Two cuts become one.
pub struct Merge;

impl Play<u8, SeatView> for Merge {
    ghost use Rattle.album_passes.specs.Steps.{Merges};

    ghost then = { Merges };
}

/// A number is drawn.
pub struct Draw;

impl Play<u8, SeatView> for Draw {
    ghost use Rattle.album_passes.specs.Steps.{Draws};

    ghost then = { Draws };
}

/// Names the mark that is appended, for a proof: a `Play` is given no argument.
pub trait NamesMark {
    ghost use Rattle.album_partition.specs.declared.marks.Mark.{Mark};

    ghost mark: { Mark };
}

impl NamesMark for Brand {
    ghost use Rattle.album_partition.specs.declared.marks.Mark.TheVariants.{Committed};

    ghost mark = { Committed 0 };
}

/// The mark that N names is appended.
pub struct Append<N> {
    names: PhantomData<N>,
}

impl<N: NamesMark> Play<u8, SeatView> for Append<N> {
    ghost use Rattle.album_passes.specs.Steps.{Appends};

    ghost then = { Appends N.mark };
}

/// Names a stamp and what is announced for it, for a proof. Nothing of it is there when the program runs.
pub trait NamesWrites {
    ghost use Rattle.std.specs.Prelude.{ℕ};
    ghost use Rattle.album_passes.specs.Cuts.{Announced};

    ghost stamp: { ℕ };

    ghost announced: { Announced };
}

impl NamesWrites for Brand {
    ghost use Rattle.std.specs.Prelude.{[]};

    ghost stamp = { 0 };

    ghost announced = { record { writes = []; bases = [] } };
}

/// What N names is announced for its stamp.
pub struct Announce<N> {
    names: PhantomData<N>,
}

impl<N: NamesWrites> Play<u8, SeatView> for Announce<N> {
    ghost use Rattle.album_passes.specs.Steps.{Announces};

    ghost then = { Announces N.stamp N.announced };
}
