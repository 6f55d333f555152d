//! A seat of the desk's table that knows one cut, with the lengths of its prefixes as numbers.
//!
//! Each pass and each owner has one. All steps on the desk's table are made here, so that `pass` and `owner` speak of
//! cuts alone. A holding is split and joined, appends a mark, announces writes, or draws a number. Contracts see the
//! seat, which allows it to do so. When the program runs, the lengths are all that a holding has.
ghost use Rattle.std.specs.Prelude.{◌≡◌, ◌<◌, ◌≤◌, true, [], ◌∷◌, length, replicate, Some, None, IfSome, IfNone};
ghost use Rattle.album_partition.specs.Bases.{MayAppend};
ghost use Rattle.album_stamps.specs.Stamps.{client_number};
ghost use Rattle.album_passes.specs.Cuts.{IsBacked, IsSound, prefix_at, announced_for};
ghost use Rattle.album_passes.specs.Changes.{marked_cut, announced_cut, IsUnheard};
ghost use Rattle.album_passes.specs.Knowledge.{known};
ghost use Rattle.album_passes.specs.Holding.{IsHeld};
ghost use Rattle.album_passes.specs.Steps.{IsMerged, beside, merged_seat, cut_alone, less_first, first_alone, less_guest, guest_alone, with_cut, with_number, with_drawn};

use crate::desk::Desk;
use crate::lengths::{PARTS, greater_each};
use crate::rule::{
    Announce, Append, Beside, CutAlone, Draw, FirstAlone, GuestAlone, Merge, NamesMark,
    NamesWrites, SeatView,
};
use album_partition::Mark;
use album_stamps::{CLIENTS, ClientNo, MAX_PARTS};
use atomic_table::Seat;
use std::marker::{Brand, Model};
use std::sync::Wait;

/// A seat with one cut, and the cut's lengths, which are a version vector. Contracts see its table and what it knows.
#[derive(Drop)]
pub struct Holding {
    seat: Seat<u8, SeatView>,
    /// Of each partition that there may be.
    lengths: [u64; PARTS],
}

impl Model for Holding {
    ghost use Rattle.std.specs.Prelude.{◌≡◌, []};
    ghost use Rattle.album_passes.specs.Holding.{Held, IsHeld};

    ghost Value = { Held };

    ghost view = { λ h. record { table = h.seat.table_id; seat = h.seat.me.0 } };

    ghost invariant = { λ h. (h.seat.me.1 ≡ []) × IsHeld h.seat.me.0 h.lengths };
}

impl Holding {
    /// The first seat of a desk, which knows the empty cut.
    pub fn first(seat: Seat<u8, SeatView>) -> Holding
        requires bare { seat.me.1 ≡ [] }
        requires held { IsHeld seat.me.0 (replicate MAX_PARTS 0) }
        ensures table { result.table ≡ seat.table_id }
        ensures seat { result.seat ≡ seat.me.0 }
    {
        Holding {
            seat,
            lengths: [0; PARTS],
        }
    }

    /// How long the prefix of a partition is.
    pub fn length(&self, part: usize) -> u64
        requires { part < MAX_PARTS }
        ensures length { result ≡ length (prefix_at (known self.now.seat) part) }
        ensures sound { IsSound (known self.now.seat) }
    {
        self.lengths[part]
    }

    /// A seat that knows the cut, and holds and owns nothing.
    pub fn split(&mut self, desk: &Desk) -> Holding
        requires { self.old.table ≡ desk.now.table }
        ensures same { self.new ≡ self.old }
        ensures table { result.table ≡ self.old.table }
        ensures seat { result.seat ≡ cut_alone self.old.seat }
        ensures sound { IsSound (known self.old.seat) }
    {
        let lengths = self.lengths;
        let seat = desk.table.shared.split_seat::<CutAlone>(&mut self.seat);
        Holding { seat, lengths }
    }

    /// Gives the first of its partitions away.
    pub fn split_first(&mut self, desk: &Desk) -> Holding
        requires table { self.old.table ≡ desk.now.table }
        requires owns { self.old.seat.low < self.old.seat.high }
        ensures left_table { self.new.table ≡ self.old.table }
        ensures left { self.new.seat ≡ less_first self.old.seat }
        ensures table { result.table ≡ self.old.table }
        ensures seat { result.seat ≡ first_alone self.old.seat }
    {
        let lengths = self.lengths;
        let seat = desk.table.shared.split_seat::<FirstAlone>(&mut self.seat);
        Holding { seat, lengths }
    }

    /// Takes in the other's cut. The other has no number.
    pub fn join(&mut self, desk: &Desk, other: Holding)
        requires table { self.old.table ≡ desk.now.table }
        requires other_table { other.table ≡ desk.now.table }
        requires unnumbered { other.seat.number ≡ None }
        ensures table { self.new.table ≡ self.old.table }
        ensures seat { self.new.seat ≡ merged_seat self.old.seat other.seat }
        ensures merged { IsMerged (beside self.old.seat other.seat)
            (known self.old.seat) (known other.seat) (known self.new.seat) }
        ensures sound { IsSound (known self.new.seat) }
    {
        let Holding { seat, lengths } = other;
        let all = greater_each(&self.lengths, &lengths);
        take_in(desk, &mut self.seat, seat);
        self.lengths = all;
    }

    /// Takes in the other's cut, and gives the other back with the cut of both.
    pub fn meet(&mut self, desk: &Desk, other: Holding) -> Holding
        requires table { self.old.table ≡ desk.now.table }
        requires other_table { other.table ≡ desk.now.table }
        ensures own_table { self.new.table ≡ self.old.table }
        ensures own_seat { self.new.seat ≡ less_guest (merged_seat self.old.seat other.seat) }
        ensures table { result.table ≡ self.old.table }
        ensures seat { result.seat ≡ guest_alone (merged_seat self.old.seat other.seat) }
        ensures merged { IsMerged (beside self.old.seat other.seat)
            (known self.old.seat) (known other.seat) (known self.new.seat) }
        ensures sound { IsSound (known self.new.seat) }
    {
        let Holding { seat, lengths } = other;
        let all = greater_each(&self.lengths, &lengths);
        take_in(desk, &mut self.seat, seat);
        let guest = desk.table.shared.split_seat::<GuestAlone>(&mut self.seat);
        self.lengths = all;
        Holding {
            seat: guest,
            lengths: all,
        }
    }

    /// Appends the mark to the history of a partition that it owns, and for which there is room.
    pub fn append(&mut self, desk: &Desk, part: usize, mark: &Mark)
        requires table { self.old.table ≡ desk.now.table }
        requires low { self.old.seat.low ≤ part }
        requires high { part < self.old.seat.high }
        requires inside { part < (known self.old.seat).parts }
        requires word { part < desk.now.terms.parts }
        requires room { length (prefix_at (known self.old.seat) part) < desk.now.terms.limit }
        requires follows { MayAppend (known self.old.seat).checked (prefix_at (known self.old.seat) part) mark.now }
        requires backed { IsBacked (marked_cut (known self.old.seat) part mark.now) mark.now }
        ensures table { self.new.table ≡ self.old.table }
        ensures seat { self.new.seat ≡ with_cut self.old.seat (marked_cut (known self.old.seat) part mark.now) }
    {
        self.append_as::<Brand>(desk, part, mark)
    }

    /// The same, of the mark that N names: a proof finds it among the arguments.
    fn append_as<N: NamesMark>(&mut self, desk: &Desk, part: usize, _mark: &Mark)
        requires mark { N.mark ≡ _mark.now }
        requires table { self.old.table ≡ desk.now.table }
        requires low { self.old.seat.low ≤ part }
        requires high { part < self.old.seat.high }
        requires inside { part < (known self.old.seat).parts }
        requires word { part < desk.now.terms.parts }
        requires room { length (prefix_at (known self.old.seat) part) < desk.now.terms.limit }
        requires follows { MayAppend (known self.old.seat).checked (prefix_at (known self.old.seat) part) N.mark }
        requires backed { IsBacked (marked_cut (known self.old.seat) part N.mark) N.mark }
        ensures table { self.new.table ≡ self.old.table }
        ensures seat { self.new.seat ≡ with_cut self.old.seat (marked_cut (known self.old.seat) part N.mark) }
    {
        desk.table
            .shared
            .fetch_add::<Append<N>>(&mut self.seat, part + 1, 1);
        self.lengths[part] += 1;
    }

    /// Announces what N names for its stamp, which is one of the seat's own client, and for which nothing was.
    pub fn announce<N: NamesWrites>(&mut self, desk: &Desk)
        requires table { self.old.table ≡ desk.now.table }
        requires number { self.old.seat.number ≡ Some (client_number N.stamp) }
        requires fresh { announced_for (known self.old.seat) N.stamp ≡ None }
        ensures table { self.new.table ≡ self.old.table }
        ensures seat { self.new.seat
            ≡ with_cut self.old.seat (announced_cut (known self.old.seat) N.stamp N.announced) }
        ensures sound { IsSound (known self.old.seat) }
    {
        // For contracts alone: the number that is read is dropped.
        desk.table.shared.load::<Announce<N>>(&mut self.seat, 0);
    }

    /// The number drawn, or `None` where all are drawn.
    pub fn draw<R: Wait>(&mut self, rt: &R, desk: &Desk) -> Option<ClientNo>
        requires table { self.old.table ≡ desk.now.table }
        ensures table { self.new.table ≡ self.old.table }
        ensures drawn { IfSome result (λ n. self.new.seat ≡ with_number self.old.seat n) }
        ensures unheard { IfSome result (λ n. IsUnheard n (known self.old.seat)) }
        ensures rises { IfSome result (λ n. self.old.seat.drawn < n) }
        ensures counted { IfSome result (λ n. n ≤ desk.now.terms.sessions) }
        ensures undrawn { IfNone result (self.new.seat ≡ with_drawn self.old.seat self.new.seat.drawn) }
        ensures seen { IfNone result (self.old.seat.drawn ≤ self.new.seat.drawn) }
        ensures spent { IfNone result (desk.now.terms.sessions ≤ self.new.seat.drawn) }
    {
        draw_on(rt, desk, &mut self.seat)
    }
}

/// The seat takes in the other's cut, and the other's number as its guest's.
fn take_in(desk: &Desk, seat: &mut Seat<u8, SeatView>, other: Seat<u8, SeatView>)
    requires table { seat.old.table_id ≡ desk.now.table }
    requires other_table { other.table_id ≡ desk.now.table }
    requires bare { other.me.1 ≡ [] }
    requires own_cut { seat.old.me.0.cuts ≡ known seat.old.me.0 ∷ [] }
    requires other_cut { other.me.0.cuts ≡ known other.me.0 ∷ [] }
    ensures table { seat.new.table_id ≡ seat.old.table_id }
    ensures seat { seat.new.me ≡ (merged_seat seat.old.me.0 other.me.0, seat.old.me.1) }
    ensures merged { IsMerged (beside seat.old.me.0 other.me.0)
        (known seat.old.me.0) (known other.me.0) (known seat.new.me.0) }
{
    // The join gives no fact of the rule, so the cuts lie side by side until the load, which does.
    desk.table.shared.join_seat::<Beside>(seat, other);
    desk.table.shared.load::<Merge>(seat, 0);
}

/// Guesses how many numbers are drawn, until a guess is right. A wrong guess shows the number, which is the next guess:
/// the first, 0, is how the word is read, and no contention. `None` says that all are drawn, so the tries have no
/// bound.
fn draw_on<R: Wait>(rt: &R, desk: &Desk, seat: &mut Seat<u8, SeatView>) -> Option<ClientNo>
    requires table { seat.old.table_id ≡ desk.now.table }
    requires one_cut { seat.old.me.0.cuts ≡ known seat.old.me.0 ∷ [] }
    requires alone { seat.old.me.0.guest ≡ None }
    ensures table { seat.new.table_id ≡ seat.old.table_id }
    ensures drawn { IfSome result (λ n. seat.new.me ≡ (with_number seat.old.me.0 n, seat.old.me.1)) }
    ensures unheard { IfSome result (λ n. IsUnheard n (known seat.old.me.0)) }
    ensures rises { IfSome result (λ n. seat.old.me.0.drawn < n) }
    ensures counted { IfSome result (λ n. n ≤ desk.now.terms.sessions) }
    ensures undrawn { IfNone result (seat.new.me ≡ (with_drawn seat.old.me.0 seat.new.me.0.drawn, seat.old.me.1)) }
    ensures seen { IfNone result (seat.old.me.0.drawn ≤ seat.new.me.0.drawn) }
    ensures spent { IfNone result (desk.now.terms.sessions ≤ seat.new.me.0.drawn) }
{
    let mut guess = 0;
    for _ in rt.forever() {
        if guess >= desk.sessions {
            return None;
        }
        let found = desk
            .table
            .shared
            .compare_exchange::<Draw>(seat, 0, guess, guess + 1);
        if found == guess {
            return Some(client_of(guess + 1));
        }
        guess = found;
    }
    // The loop is one without end, which is left only by a return.
    unreachable!()
}

/// The client of a number that was drawn.
fn client_of(number: u64) -> ClientNo
    requires positive { 0 < number }
    requires few { number < CLIENTS }
    ensures { result ≡ number }
{
    match ClientNo::of(number as u16) {
        Some(client) => client,
        // The number is above 0 and below `CLIENTS`, and so a client's.
        None => unreachable!(),
    }
}
