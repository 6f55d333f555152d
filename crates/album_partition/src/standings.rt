//! The state of each stamp that occurs in a mark.
ghost use Rattle.std.specs.Prelude.{◌≡◌, false, Some, None, IfOk, OnOk, OnErr};
ghost use Rattle.album_partition.specs.Standings.{ArePendingIn, IsSetTo, standing_in, stands_pending};

use album_stamps::Stamp;
use std::alloc::{AllocError, Global};
use std::collections::{BTreeMap, BTreeSet};
use std::marker::Model;

/// The state of a stamp that occurs in a mark. A pending or committed stamp also has the index of the mark that
/// prepared it.
#[derive(Clone, Copy, Debug)]
pub enum Standing {
    Pending(usize),
    Committed(usize),
    Discarded,
}

/// The state of each stamp that occurs in a mark. The pending stamps are also kept in a set of their own, so that
/// listing them takes time for these alone, however many were decided. Contracts see the states.
#[derive(Debug, Drop)]
pub struct Standings {
    all: BTreeMap<Stamp, Standing>,
    pending: BTreeSet<Stamp>,
}

impl Model for Standings {
    ghost use Rattle.std.specs.Prelude.{ℕ, List};
    ghost use Rattle.album_partition.specs.Standings.{AreInSet};
    ghost use Rattle.album_partition.specs.declared.standings.Standing.{Standing};

    ghost Value = { List (ℕ × Standing) };

    ghost view = { λ s. s.all.entries };

    ghost invariant = { λ s. AreInSet s.all.entries s.pending };
}

impl Standings {
    /// The state of no stamp.
    pub fn new(alloc: Global) -> Standings
        ensures { (stamp : _) → standing_in result stamp ≡ None }
    {
        Standings {
            all: BTreeMap::new(alloc),
            pending: BTreeSet::new(alloc),
        }
    }

    /// The state of the stamp, if it occurs in a mark.
    pub fn get(&self, stamp: Stamp) -> Option<Standing>
        ensures { result ≡ standing_in self.now stamp }
    {
        self.all.get(&stamp).copied()
    }

    /// Sets the state of the stamp. Only a stamp that is new, or that becomes pending, takes memory.
    pub fn set(&mut self, stamp: Stamp, standing: Standing) -> Result<(), AllocError>
        ensures ok { OnOk result (IsSetTo stamp standing self.old self.new) }
        ensures err { OnErr result (self.new ≡ self.old) }
    {
        match standing {
            Standing::Pending(index) => self.begin(stamp, index),
            Standing::Committed(_) | Standing::Discarded => self.decide(stamp, standing),
        }
    }

    /// The stamp is pending from now on.
    fn begin(&mut self, stamp: Stamp, index: usize) -> Result<(), AllocError>
        ensures ok { OnOk result (IsSetTo stamp (Standing.Pending index) self.old self.new) }
        ensures err { OnErr result (self.new ≡ self.old) }
    {
        let is_new = self.pending.insert(stamp)?;
        match self.all.insert(stamp, Standing::Pending(index)) {
            Ok(_) => Ok(()),
            Err(_) => {
                if is_new {
                    let _ = self.pending.remove(&stamp);
                }
                Err(AllocError)
            }
        }
    }

    /// The stamp is committed or discarded from now on.
    fn decide(&mut self, stamp: Stamp, standing: Standing) -> Result<(), AllocError>
        requires { stands_pending (Some standing) ≡ false }
        ensures ok { OnOk result (IsSetTo stamp standing self.old self.new) }
        ensures err { OnErr result (self.new ≡ self.old) }
    {
        self.all.insert(stamp, standing)?;
        let _ = self.pending.remove(&stamp);
        Ok(())
    }

    /// The stamps that are pending, rising.
    pub fn pending(&self, alloc: Global) -> Result<Vec<Stamp>, AllocError>
        ensures { IfOk result (λ stamps. ArePendingIn self.now stamps.items) }
    {
        let stamps: Vec<Stamp> = self.pending.iter().copied().collect(alloc)?;
        Ok(stamps)
    }
}
