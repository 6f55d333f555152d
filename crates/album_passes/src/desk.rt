//! The desk: the words that all threads share, and where passes begin.
ghost use Rattle.std.specs.Prelude.{◌≡◌, ◌+◌, ◌<◌, ◌≤◌, true, [], IfOk, IfErr, OnErr, IsOkUnless, Some, None};
ghost use Rattle.album_items.specs.Openings.{is_base_opening};
ghost use Rattle.album_passes.specs.Changes.{IsUnheard};
ghost use Rattle.album_passes.specs.Knowledge.{first_seat, dealt};
ghost use Rattle.album_passes.specs.Desk.{terms_of, AreOwners, AreWords, first_pass};

use crate::holding::Holding;
use crate::lengths::PARTS;
use crate::owner::Owner;
use crate::pass::Pass;
use crate::rule::{OneRun, Plan, SeatView};
use album_items::Opening;
use album_stamps::{ClientNo, Refusal, Refused};
use atomic_table::Table;
use std::alloc::{AllocError, Global};
use std::marker::Model;
use std::snapshot::Snapshot;
use std::sync::Wait;

/// How many words a desk may have: one for the numbers drawn, and one for each partition.
const WORDS: usize = PARTS + 1;

/// The shared registry of a service: a word for each partition, which counts the marks of its
/// history, and one that counts the numbers drawn. Contracts see its table, and what it was opened
/// with.
pub struct Desk {
    pub(crate) table: Table<u8, SeatView, Plan, OneRun, Global>,
    pub(crate) parts: usize,
    /// How many marks each history may have.
    pub(crate) limit: u64,
    /// How many numbers are given out.
    pub(crate) sessions: u64,
}

impl Model for Desk {
    ghost use Rattle.album_passes.specs.Desk.{DeskState, IsDesk};

    ghost Value = { DeskState };

    ghost view = { λ d. record { table = d.table.shared.table_id; terms = d.table.shared.key } };

    ghost invariant = { λ d. IsDesk d.table.shared.table_id d.table.shared.key d.parts d.limit d.sessions };
}

// By hand, so that what lets it go is proved here, and not again in each crate above.
impl Drop for Desk {
    fn drop(self) {
        let Desk {
            table,
            parts: _,
            limit: _,
            sessions: _,
        } = self;
        drop(table);
    }
}

impl Desk {
    /// A desk for so many sessions, with empty histories, the owner of each, and a first pass.
    ///
    /// # Errors
    ///
    /// `OutOfMemory`.
    pub fn open(
        alloc: Global,
        opening: &Opening,
        sessions: u16,
    ) -> Result<(Desk, Vec<Owner>, Pass), Refusal>
        requires opening { is_base_opening opening.now ≡ true }
        requires sessions { 0 < sessions }
        ensures terms { IfOk result (λ opened. opened.0.terms ≡ terms_of opening.now sessions) }
        ensures owners { IfOk result (λ opened. AreOwners opened.0 opened.1.items) }
        ensures pass { IfOk result (λ opened. opened.2 ≡ first_pass opened.0) }
        ensures memory { IsOkUnless result Refusal.OutOfMemory }
    {
        let parts = opening.parts as usize;
        let owners = Vec::with_capacity(alloc, parts)?;
        let plan = Plan {
            opening: Snapshot::of(opening),
            sessions,
        };
        let words = [0; WORDS];
        let (table, seat) = Table::of_words(alloc, &words[..parts + 1], &plan)?;
        let desk = Desk {
            table,
            parts,
            limit: opening.limit,
            sessions: u64::from(sessions),
        };
        let (owners, rest) = deal(&desk, owners, Holding::first(seat))?;
        Ok((desk, owners, Pass::of(rest)))
    }

    /// Draws a number for the pass, which has none: from 1 on, above all that the pass has heard
    /// of. Nothing is announced of it yet.
    ///
    /// # Errors
    ///
    /// `SessionsSpent` where all are drawn.
    pub fn draw<R: Wait>(&self, rt: &R, pass: &mut Pass) -> Result<ClientNo, Refusal>
        requires table { pass.old.table ≡ self.now.table }
        requires unnumbered { pass.old.number ≡ None }
        ensures number { IfOk result (λ client. pass.new.number ≡ Some client) }
        ensures rises { IfOk result (λ client. pass.old.drawn < client) }
        ensures counted { IfOk result (λ client. client ≤ self.now.terms.sessions) }
        ensures unheard { IfOk result (λ client. IsUnheard client pass.new.cut) }
        ensures drawn { IfOk result (λ client. pass.new.drawn ≡ client) }
        ensures refused { IsOkUnless result Refusal.SessionsSpent }
        ensures spent { OnErr result (self.now.terms.sessions ≤ pass.new.drawn) }
        ensures unnumbered { OnErr result (pass.new.number ≡ None) }
        ensures seen { pass.old.drawn ≤ pass.new.drawn }
        ensures table { pass.new.table ≡ pass.old.table }
        ensures cut { pass.new.cut ≡ pass.old.cut }
    {
        match pass.draw(rt, self) {
            Some(client) => Ok(client),
            None => Err(Refusal::SessionsSpent),
        }
    }

    /// How many marks each history has in the end, in the order of the partitions.
    ///
    /// # Errors
    ///
    /// `OutOfMemory`. The desk comes back.
    pub fn close(self, alloc: Global) -> Result<Vec<u64>, Refused<Desk>>
        ensures words { IfOk result (λ words. AreWords self.terms words.items) }
        ensures memory { IfErr result (λ e. e.refusal ≡ Refusal.OutOfMemory) }
        ensures given { IfErr result (λ e. e.given ≡ self) }
    {
        let parts = self.parts;
        let Ok(mut words) = Vec::with_capacity(alloc, parts) else {
            return Err(Refused {
                refusal: Refusal::OutOfMemory,
                given: self,
            });
        };
        let Desk {
            table,
            parts: _,
            limit: _,
            sessions: _,
        } = self;
        let closed = table.close();
        for part in 0..parts {
            words.push_reserved(closed.word(part + 1));
        }
        closed.free();
        Ok(words)
    }
}

/// Gives each partition its owner.
fn deal(
    desk: &Desk,
    mut owners: Vec<Owner>,
    mut holding: Holding,
) -> Result<(Vec<Owner>, Holding), AllocError>
    requires owners { owners.items ≡ [] }
    requires table { holding.table ≡ desk.now.table }
    requires seat { holding.seat ≡ first_seat desk.now.terms }
    ensures owners { IfOk result (λ dealt. AreOwners desk.now dealt.0.items) }
    ensures table { IfOk result (λ dealt. dealt.1.table ≡ desk.now.table) }
    ensures seat { IfOk result (λ left. left.1.seat ≡ dealt desk.now.terms desk.now.terms.parts) }
{
    for part in 0..desk.parts {
        let own = holding.split_first(desk);
        owners.push(Owner::of(own, part))?;
    }
    Ok((owners, holding))
}
