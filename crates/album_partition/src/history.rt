//! The marks of a partition, in the order in which they were made.
ghost use Rattle.std.specs.Prelude.{◌≡◌, ◌<◌, ◌++◌, ◌∷◌, [], true, length, Some, IfOk, IfErr, OnOk, OnErr};
ghost use Rattle.std.specs.List.{slice_get};
ghost use Rattle.std.specs.Option.{option_copied};
ghost use Rattle.album_stamps.specs.declared.limits.TheConstants.{MAX_MARKS};
ghost use Rattle.album_partition.specs.Marks.{ArePending, mark_writes, mark_items, state_of, may_follow, is_legal, pending_stamps};
ghost use Rattle.album_partition.specs.History.{IsAt, IsPreparedAt, Stands, WillStand, kept_mark};

use crate::marks::Mark;
use crate::standings::{Standing, Standings};
use album_items::{ItemId, Value};
use album_stamps::Stamp;
use album_terminate::StampState;
use std::alloc::{AllocError, AllocFailed, Global};
use std::marker::Model;

/// What a mark changes in addition to the list: the state of its stamp once the mark is made, and how
/// many stamps are pending then.
#[derive(Clone, Copy)]
pub struct Change {
    pub stamp: Stamp,
    pub standing: Standing,
    pub pending: usize,
}

/// The marks, with the state of each stamp and the number of pending stamps. Contracts see the
/// marks.
#[derive(Debug, Drop)]
pub struct History {
    marks: Vec<Mark>,
    /// The current state of every stamp that occurs in a mark.
    standings: Standings,
    /// How many stamps are pending.
    pending: usize,
}

impl Model for History {
    ghost use Rattle.std.specs.Prelude.{List};
    ghost use Rattle.album_partition.specs.declared.marks.Mark.{Mark};
    ghost use Rattle.album_partition.specs.History.{IsHistory};

    ghost Value = { List Mark };

    ghost view = { λ h. h.marks.items };

    ghost invariant = { λ h. IsHistory h.marks.items h.standings h.pending };
}

impl History {
    /// No mark.
    pub fn new(alloc: Global) -> History
        ensures { result ≡ [] }
    {
        History {
            marks: Vec::new(alloc),
            standings: Standings::new(alloc),
            pending: 0,
        }
    }

    /// The marks, in order. Each may follow those before it.
    pub fn marks(&self) -> &[Mark]
        ensures marks { result.now ≡ self.now }
        ensures legal { is_legal self.now ≡ true }
    {
        self.marks.as_slice()
    }

    /// The state of the stamp.
    pub fn state(&self, stamp: Stamp) -> StampState
        ensures { result ≡ state_of self.now stamp }
    {
        match self.standing(stamp) {
            None => StampState::Unknown,
            Some(Standing::Pending(_)) => StampState::Pending,
            Some(Standing::Committed(_)) => StampState::Committed,
            Some(Standing::Discarded) => StampState::Discarded,
        }
    }

    /// What is kept of the stamp.
    fn standing(&self, stamp: Stamp) -> Option<Standing>
        ensures { Stands self.now stamp result }
    {
        self.standings.get(stamp)
    }

    /// What is prepared at a stamp that is pending or committed.
    pub fn writes(&self, stamp: Stamp) -> &[(ItemId, Value)]
        ensures { result.now ≡ mark_writes (kept_mark self.now stamp) }
    {
        match self.prepared(stamp) {
            None => &[],
            Some(mark) => mark.writes(),
        }
    }

    /// The items of the transaction of a stamp that is pending or committed.
    pub fn items(&self, stamp: Stamp) -> &[ItemId]
        ensures { result.now ≡ mark_items (kept_mark self.now stamp) }
    {
        match self.prepared(stamp) {
            None => &[],
            Some(mark) => mark.items(),
        }
    }

    /// At which index the stamp was prepared, where it is pending or committed.
    pub fn prepared_at(&self, stamp: Stamp) -> Option<usize>
        ensures { IsPreparedAt self.now stamp result }
    {
        match self.standing(stamp) {
            None => None,
            Some(Standing::Pending(index)) => Some(index),
            Some(Standing::Committed(index)) => Some(index),
            Some(Standing::Discarded) => None,
        }
    }

    /// What the mark at the index prepares.
    pub fn writes_at(&self, index: usize) -> &[(ItemId, Value)]
        ensures { result.now ≡ mark_writes (slice_get self.now index) }
    {
        match mark_at(&self.marks, index) {
            None => &[],
            Some(mark) => mark.writes(),
        }
    }

    /// The mark that prepared the stamp, where it is pending or committed.
    pub fn prepared(&self, stamp: Stamp) -> Option<&Mark>
        ensures { option_copied result ≡ kept_mark self.now stamp }
    {
        match self.standing(stamp) {
            None => None,
            Some(Standing::Pending(index)) => mark_at(&self.marks, index),
            Some(Standing::Committed(index)) => mark_at(&self.marks, index),
            Some(Standing::Discarded) => None,
        }
    }

    /// Makes a mark, which may follow those before it. Where memory is refused it is handed back.
    pub fn add(&mut self, mark: Mark) -> Result<(), AllocFailed<Mark>>
        requires follows { may_follow self.old mark ≡ true }
        requires room { length self.old < MAX_MARKS }
        ensures ok { OnOk result (self.new ≡ self.old ++ mark ∷ []) }
        ensures err { OnErr result (self.new ≡ self.old) }
        ensures given { IfErr result (λ failed. failed.value ≡ mark) }
    {
        match self.change(&mark) {
            None => self.push(mark),
            Some(change) => self.push_with(mark, change),
        }
    }

    /// Makes a mark that changes no stamp's state.
    fn push(&mut self, mark: Mark) -> Result<(), AllocFailed<Mark>>
        requires follows { may_follow self.old mark ≡ true }
        requires change { WillStand self.old mark None }
        ensures ok { OnOk result (self.new ≡ self.old ++ mark ∷ []) }
        ensures err { OnErr result (self.new ≡ self.old) }
        ensures given { IfErr result (λ failed. failed.value ≡ mark) }
    {
        if self.marks.reserve(1).is_err() {
            return Err(AllocFailed { value: mark });
        }
        self.marks.push_reserved(mark);
        Ok(())
    }

    /// Makes a mark that changes the state of its stamp.
    fn push_with(&mut self, mark: Mark, change: Change) -> Result<(), AllocFailed<Mark>>
        requires follows { may_follow self.old mark ≡ true }
        requires change { WillStand self.old mark (Some change) }
        ensures ok { OnOk result (self.new ≡ self.old ++ mark ∷ []) }
        ensures err { OnErr result (self.new ≡ self.old) }
        ensures given { IfErr result (λ failed. failed.value ≡ mark) }
    {
        // Room first: once the stamp's new state is set, nothing may fail.
        if self.marks.reserve(1).is_err() {
            return Err(AllocFailed { value: mark });
        }
        if let Err(_) = self.standings.set(change.stamp, change.standing) {
            return Err(AllocFailed { value: mark });
        }
        self.pending = change.pending;
        self.marks.push_reserved(mark);
        Ok(())
    }

    /// What the mark will change. A trim changes no stamp's state.
    fn change(&self, mark: &Mark) -> Option<Change>
        requires follows { may_follow self.now mark.now ≡ true }
        requires room { length self.now < MAX_MARKS }
        ensures { WillStand self.now mark.now result }
    {
        match mark {
            Mark::Prepared(stamp, _, _) => Some(Change {
                stamp: *stamp,
                standing: Standing::Pending(self.marks().len()),
                pending: self.pending + 1,
            }),
            Mark::Committed(stamp) => Some(Change {
                stamp: *stamp,
                standing: Standing::Committed(self.index(*stamp)),
                pending: self.pending - 1,
            }),
            Mark::Discarded(stamp) => Some(Change {
                stamp: *stamp,
                standing: Standing::Discarded,
                pending: self.pending_without(*stamp),
            }),
            Mark::Trimmed(_) => None,
        }
    }

    /// How many stamps are pending once a stamp is discarded that is pending or unknown.
    fn pending_without(&self, stamp: Stamp) -> usize
        requires { may_follow self.now (Mark.Discarded stamp) ≡ true }
        ensures { result ≡ length (pending_stamps (self.now ++ Mark.Discarded stamp ∷ [])) }
    {
        match self.state(stamp) {
            StampState::Pending => self.pending - 1,
            StampState::Unknown | StampState::Committed | StampState::Discarded => self.pending,
        }
    }

    /// At which index a pending stamp was prepared.
    fn index(&self, stamp: Stamp) -> usize
        requires { state_of self.now stamp ≡ StampState.Pending }
        ensures { IsAt self.now stamp result }
    {
        match self.standing(stamp) {
            Some(Standing::Pending(index)) | Some(Standing::Committed(index)) => index,
            None | Some(Standing::Discarded) => 0,
        }
    }

    /// The stamps that are pending, rising.
    pub fn pending(&self, alloc: Global) -> Result<Vec<Stamp>, AllocError>
        ensures { IfOk result (λ stamps. ArePending self.now stamps.items) }
    {
        self.standings.pending(alloc)
    }

    /// How many stamps are pending.
    pub fn pending_count(&self) -> usize
        ensures { result ≡ length (pending_stamps self.now) }
    {
        self.pending
    }
}

fn mark_at(marks: &[Mark], index: usize) -> Option<&Mark>
    ensures { option_copied result ≡ slice_get marks.now index }
{
    marks.get(index)
}
