//! A pass: a cut that travels with messages.
ghost use Rattle.std.specs.Prelude.{◌≡◌, ◌<◌, ◌≤◌, max, length, Some, None, IfSome, IfNone};
ghost use Rattle.album_stamps.specs.Stamps.{client_number};
ghost use Rattle.album_stamps.specs.declared.limits.TheConstants.{MAX_PARTS};
ghost use Rattle.album_passes.specs.Cuts.{IsSound, Extends, prefix_at, announced_for, dependencies_of};
ghost use Rattle.album_passes.specs.Changes.{lengths_in, merged, announced_cut, IsUnheard, KeepsOwn};
ghost use Rattle.album_passes.specs.Knowledge.{AreApart};
ghost use Rattle.album_passes.specs.Pass.{pass_of, unnumbered, drawn_by};

use crate::desk::Desk;
use crate::holding::Holding;
use crate::rule::NamesWrites;
use album_stamps::ClientNo;
use std::marker::Model;
use std::mem;
use std::sync::Wait;

/// What was seen of the partitions' histories and of the announced writes: a cut. When the program
/// runs it is a version vector. It may hold a client's number, which no other pass of its desk holds
/// then. Contracts see its desk's table, the cut, the number, and what was drawn.
pub struct Pass {
    holding: Holding,
}

impl Model for Pass {
    ghost use Rattle.album_passes.specs.Pass.{PassState, pass_of};

    ghost Value = { PassState };

    ghost view = { λ p. pass_of p.holding };
}

// By hand, so that what lets it go is proved here, and not again in each crate above.
impl Drop for Pass {
    fn drop(self) {
        let Pass { holding } = self;
        drop(holding);
    }
}

impl Pass {
    /// The pass with this holding.
    pub(crate) fn of(holding: Holding) -> Pass
        ensures { result ≡ pass_of holding }
    {
        Pass { holding }
    }

    /// Its holding.
    pub(crate) fn into_holding(self) -> Holding
        ensures { self ≡ pass_of result }
    {
        let Pass { holding } = self;
        holding
    }

    /// How many marks the pass has seen of the partition's history. Its cut is sound: it is
    /// closed and causal, and its marks may follow each other.
    pub fn length(&self, part: u16) -> u64
        requires { part < MAX_PARTS }
        ensures length { result ≡ length (prefix_at self.now.cut part) }
        ensures sound { IsSound self.now.cut }
    {
        self.holding.length(usize::from(part))
    }

    /// The number that was drawn for the pass, or `None` where all are drawn.
    pub(crate) fn draw<R: Wait>(&mut self, rt: &R, desk: &Desk) -> Option<ClientNo>
        requires table { self.old.table ≡ desk.now.table }
        ensures number { IfSome result (λ client. self.new ≡ drawn_by self.old client) }
        ensures unheard { IfSome result (λ client. IsUnheard client self.old.cut) }
        ensures rises { IfSome result (λ client. self.old.drawn < client) }
        ensures counted { IfSome result (λ client. client ≤ desk.now.terms.sessions) }
        ensures undrawn { IfNone result (self.new ≡ record self.old { drawn = self.new.drawn }) }
        ensures seen { IfNone result (self.old.drawn ≤ self.new.drawn) }
        ensures spent { IfNone result (desk.now.terms.sessions ≤ self.new.drawn) }
    {
        self.holding.draw(rt, desk)
    }

    /// Announces a write, before the first message of it leaves: N names the stamp, all that is written, and the bases.
    /// The stamp is one of the pass's own client, for which nothing is announced yet. What the pass has seen goes with
    /// it: the stamp depends on that. When the program runs nothing is kept of it, so nothing is given.
    #[tactic(auto, using(crate::proofs::CutLemmas::extends_announced))]
    pub fn announce<N: NamesWrites>(&mut self, desk: &Desk)
        requires table { self.old.table ≡ desk.now.table }
        requires number { self.old.number ≡ Some (client_number N.stamp) }
        requires fresh { announced_for self.old.cut N.stamp ≡ None }
        ensures cut { self.new.cut ≡ announced_cut self.old.cut N.stamp N.announced }
        ensures announced { announced_for self.new.cut N.stamp ≡ Some N.announced }
        ensures depended { dependencies_of self.new.cut N.stamp ≡ Some (lengths_in self.old.cut) }
        ensures grown { Extends self.old.cut self.new.cut }
        ensures table { self.new.table ≡ self.old.table }
        ensures number { self.new.number ≡ self.old.number }
        ensures drawn { self.new.drawn ≡ self.old.drawn }
    {
        self.holding.announce::<N>(desk)
    }

    /// Takes in all that the other pass has seen, which has no number: the pass's version vector
    /// becomes the least upper bound of both. Nothing new is announced by it of the pass's own client.
    pub fn join(&mut self, desk: &Desk, other: Pass)
        requires table { self.old.table ≡ desk.now.table }
        requires other_table { other.table ≡ desk.now.table }
        requires unnumbered { other.number ≡ None }
        ensures cut { self.new.cut ≡ merged self.old.cut other.cut }
        ensures grown { Extends self.old.cut self.new.cut }
        ensures heard { Extends other.cut self.new.cut }
        ensures own { KeepsOwn self.old.number self.old.cut self.new.cut }
        ensures sound { IsSound self.new.cut }
        ensures table { self.new.table ≡ self.old.table }
        ensures number { self.new.number ≡ self.old.number }
        ensures drawn { self.new.drawn ≡ max self.old.drawn other.drawn }
    {
        self.holding.join(desk, other.into_holding());
    }

    /// A pass with an equal cut and no number, to go with a message.
    pub fn split(&mut self, desk: &Desk) -> Pass
        requires table { self.old.table ≡ desk.now.table }
        ensures same { self.new ≡ self.old }
        ensures split { result ≡ unnumbered self.old }
        ensures sound { IsSound self.old.cut }
    {
        Pass::of(self.holding.split(desk))
    }
}

/// Both passes take in all that the other has seen, and then have one cut: their version vectors are
/// the least upper bound of the two. Each keeps its number, and the numbers of two passes differ. It
/// is named for sessions that meet, and isn't the meet of a lattice.
pub fn meet(desk: &Desk, one: &mut Pass, other: &mut Pass)
    requires table { one.old.table ≡ desk.now.table }
    requires other_table { other.old.table ≡ desk.now.table }
    ensures cut { one.new.cut ≡ merged one.old.cut other.old.cut }
    ensures same { other.new.cut ≡ one.new.cut }
    ensures one_grown { Extends one.old.cut one.new.cut }
    ensures other_grown { Extends other.old.cut other.new.cut }
    ensures one_own { KeepsOwn one.old.number one.old.cut one.new.cut }
    ensures other_own { KeepsOwn other.old.number other.old.cut other.new.cut }
    ensures apart { AreApart one.old.number other.old.number }
    ensures sound { IsSound one.new.cut }
    ensures one_table { one.new.table ≡ one.old.table }
    ensures other_table { other.new.table ≡ other.old.table }
    ensures one_number { one.new.number ≡ one.old.number }
    ensures other_number { other.new.number ≡ other.old.number }
    ensures drawn { one.new.drawn ≡ max one.old.drawn other.old.drawn }
    ensures other_drawn { other.new.drawn ≡ one.new.drawn }
{
    // The other's holding has to be given away for a while, and a pass is never without one.
    let stand_in = other.holding.split(desk);
    let theirs = mem::replace(&mut other.holding, stand_in);
    other.holding = one.holding.meet(desk, theirs);
}
