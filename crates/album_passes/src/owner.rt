//! The owner of a partition's history: whoever has it makes the partition's marks.
ghost use Rattle.std.specs.Prelude.{◌≡◌, ◌<◌, ◌≤◌, true, [], ◌∷◌, ◌++◌, max, length, OnOk, OnErr, IsOkUnless, None};
ghost use Rattle.album_partition.specs.Bases.{MayAppend};
ghost use Rattle.album_passes.specs.Cuts.{IsBacked, IsSound, Extends, prefix_at};
ghost use Rattle.album_passes.specs.Changes.{merged, marked_cut};
ghost use Rattle.album_passes.specs.Owner.{owner_of, pass_of_owner, IsOwner};

use crate::desk::Desk;
use crate::holding::Holding;
use crate::pass::Pass;
use album_partition::Mark;
use album_stamps::Refusal;
use std::marker::Model;

/// The one owner of a partition's history. Its cut has all of that history. Contracts see its
/// desk's table, which partition it is, the cut, and up to which number it knows numbers to be drawn.
pub struct Owner {
    holding: Holding,
    part: usize,
}

impl Model for Owner {
    ghost use Rattle.album_passes.specs.Owner.{OwnerState, owner_of, IsOwner};

    ghost Value = { OwnerState };

    ghost view = { λ o. owner_of o.holding o.part };

    ghost invariant = { λ o. IsOwner o.holding o.part };
}

// By hand, so that what lets it go is proved here, and not again in each crate above.
impl Drop for Owner {
    fn drop(self) {
        let Owner { holding, part: _ } = self;
        drop(holding);
    }
}

impl Owner {
    /// The owner of the partition, with this holding.
    pub(crate) fn of(holding: Holding, part: usize) -> Owner
        requires { IsOwner holding part }
        ensures { result ≡ owner_of holding part }
    {
        Owner { holding, part }
    }

    /// Appends a mark to the history. The mark must be allowed to follow the history, and the cut with
    /// this mark must have what backs it.
    ///
    /// # Errors
    ///
    /// `Full` where the history has as many marks as it may. Nothing changes then.
    pub fn append(&mut self, desk: &Desk, mark: &Mark) -> Result<(), Refusal>
        requires table { self.old.table ≡ desk.now.table }
        requires follows { MayAppend self.old.cut.checked (prefix_at self.old.cut self.old.part) mark.now }
        requires backed { IsBacked (marked_cut self.old.cut self.old.part mark.now) mark.now }
        ensures cut { OnOk result (self.new.cut ≡ marked_cut self.old.cut self.old.part mark.now) }
        ensures history { OnOk result (prefix_at self.new.cut self.old.part
            ≡ prefix_at self.old.cut self.old.part ++ mark.now ∷ []) }
        ensures grown { Extends self.old.cut self.new.cut }
        ensures room { OnOk result (length (prefix_at self.old.cut self.old.part) < desk.now.terms.limit) }
        ensures full { IsOkUnless result Refusal.Full }
        ensures limit { OnErr result (desk.now.terms.limit ≤ length (prefix_at self.old.cut self.old.part)) }
        ensures unchanged { OnErr result (self.new ≡ self.old) }
        ensures table { self.new.table ≡ self.old.table }
        ensures part { self.new.part ≡ self.old.part }
        ensures drawn { self.new.drawn ≡ self.old.drawn }
    {
        let part = self.part;
        let limit = desk.limit;
        if self.holding.length(part) >= limit {
            return Err(Refusal::Full);
        }
        self.holding.append(desk, part, mark);
        Ok(())
    }

    /// Takes in all that the pass has seen, which has no number. It adds nothing to the owner's own
    /// history.
    pub fn join(&mut self, desk: &Desk, other: Pass)
        requires table { self.old.table ≡ desk.now.table }
        requires other_table { other.table ≡ desk.now.table }
        requires unnumbered { other.number ≡ None }
        ensures cut { self.new.cut ≡ merged self.old.cut other.cut }
        ensures grown { Extends self.old.cut self.new.cut }
        ensures heard { Extends other.cut self.new.cut }
        ensures history { prefix_at self.new.cut self.old.part ≡ prefix_at self.old.cut self.old.part }
        ensures sound { IsSound self.new.cut }
        ensures inside { self.old.part < self.new.cut.parts }
        ensures table { self.new.table ≡ self.old.table }
        ensures part { self.new.part ≡ self.old.part }
        ensures drawn { self.new.drawn ≡ max self.old.drawn other.drawn }
    {
        self.holding.join(desk, other.into_holding());
    }

    /// For contracts alone: the cut is sound, and of the owner's partition, by the invariant of its holding: the
    /// call only has that in view.
    pub fn is_sound(&self)
        ensures sound { IsSound self.now.cut }
        ensures inside { self.now.part < self.now.cut.parts }
    {
        let _ = self.holding.length(0);
    }

    /// A pass with the owner's cut and no number, to go with a message.
    pub fn split(&mut self, desk: &Desk) -> Pass
        requires table { self.old.table ≡ desk.now.table }
        ensures same { self.new ≡ self.old }
        ensures split { result ≡ pass_of_owner self.old }
        ensures sound { IsSound self.old.cut }
        ensures inside { self.old.part < self.old.cut.parts }
    {
        Pass::of(self.holding.split(desk))
    }
}
