//! What a client does with a closed view.
ghost use Rattle.std.specs.Prelude.{◌≡◌, ◌+◌, ◌<◌, ◌^◌, None, Some, IfOk, IsOkUnless};
ghost use Rattle.album_permits.specs.Permits.{PermitState};
ghost use Rattle.album_permits.specs.Rulings.{finding_in, Keeps};
ghost use Rattle.album_stamps.specs.Clocks.{clock_after_reach};
ghost use Rattle.album_views.specs.Checks.{refusal_of};
ghost use Rattle.album_views.specs.ReadSets.{looker_of};
ghost use Rattle.album_client.specs.Grants.{served_for};
ghost use Rattle.album_client.specs.Transitions.{client_of, IsMoved};
ghost use Rattle.album_client.specs.Steps.{clock_after_rows, grants, rules, rules_by};

use crate::transitions::{ClientStep, Transition};
use album_eval::Principal;
use album_permits::{Answer, Permit, Ruled, Ruling, rule_on};
use album_reader::ReadVersion;
use album_stamps::{Clock, Refusal, Refused};
use album_views::View;

impl ClientStep {
    /// Rules on the ask of the view, once the clock has seen the view's stamps.
    pub(crate) fn rule(
        self,
        tag: u64,
        principal: &Principal,
        view: View,
    ) -> Result<Transition, Refusal>
        requires fits { tag + 2 < 2 ^ 64 }
        requires taken { refusal_of view.ask principal.now ≡ None }
        requires looks { view.looker ≡ looker_of self.terms.policy principal.now }
        ensures transition { IfOk result (IsMoved (rules self.terms (client_of self) tag principal.now view)) }
        ensures memory { IsOkUnless result Refusal.OutOfMemory }
    {
        let alloc = self.alloc;
        let policy = self.terms.policy();
        let client_step = self.after(&view);
        let ruled = rule_on(alloc, view, principal, policy)?;
        client_step.note_ruling(tag, ruled)
    }

    /// The same step once its clock is above the epochs before, and has seen the view's stamps.
    fn after(self, view: &View) -> ClientStep
        ensures client { client_of result ≡ record (client_of self) {
          clock = clock_after_rows (clock_after_reach self.clock self.terms.first) view.now.rows;
        } }
        ensures terms { result.terms ≡ self.terms }
    {
        let mut clock = self.clock;
        clock.reach(self.terms.first());
        ClientStep {
            alloc: self.alloc,
            terms: self.terms,
            number: self.number,
            clock: clock_after(clock, view.answers()),
        }
    }

    /// Outputs the notes of the ruling, and follows it.
    fn note_ruling(self, tag: u64, ruled: Ruled) -> Result<Transition, Refusal>
        requires fits { tag + 2 < 2 ^ 64 }
        ensures transition { (permit : PermitState) → Keeps permit.policy permit.principal permit.view ruled.ruling
            → IfOk result (IsMoved (record (rules_by self.terms (client_of self) tag permit (finding_in ruled.ruling)) {
              noted = Some ruled.notes.items;
            })) }
        ensures memory { IsOkUnless result Refusal.OutOfMemory }
    {
        let Ruled { ruling, notes } = ruled;
        let transition = self.follow_ruling(tag, ruling)?;
        Ok(transition.with_notes(notes))
    }

    /// The transition by the ruling.
    fn follow_ruling(self, tag: u64, ruling: Ruling) -> Result<Transition, Refusal>
        requires fits { tag + 2 < 2 ^ 64 }
        ensures transition { (permit : PermitState) → Keeps permit.policy permit.principal permit.view ruling
            → IfOk result (IsMoved (rules_by self.terms (client_of self) tag permit (finding_in ruling))) }
        ensures memory { IsOkUnless result Refusal.OutOfMemory }
    {
        match ruling {
            Ruling::Granted(permit) => self.grant(tag, permit),
            Ruling::Denied(denial, view) => {
                drop(view);
                Ok(self.end_ask(tag, Answer::Denied(denial)))
            }
            Ruling::Missing(object, view) => {
                drop(view);
                Ok(self.end_ask(tag, Answer::Missing(object)))
            }
        }
    }

    /// Serves what is granted, or begins its write.
    fn grant(self, tag: u64, permit: Permit) -> Result<Transition, Refusal>
        requires fits { tag + 2 < 2 ^ 64 }
        ensures transition { IfOk result
            (IsMoved (grants self.terms (client_of self) tag permit (served_for permit permit.view.ask))) }
        ensures memory { IsOkUnless result Refusal.OutOfMemory }
    {
        // What is true of each permit is known once it is looked at.
        let _view = permit.view();
        if permit.writes() {
            return self.draw(tag, permit);
        }
        match permit.serve(self.alloc) {
            Ok(served) => Ok(self.end_ask(tag, Answer::Served(served))),
            Err(Refused { refusal, given }) => {
                drop(given.give_back());
                Err(refusal)
            }
        }
    }
}

/// The clock once it has seen all the stamps.
fn clock_after(mut clock: Clock, rows: &[ReadVersion]) -> Clock
    ensures seen { result ≡ clock_after_rows clock rows.now }
    ensures own { result.client ≡ clock.client }
{
    for row in rows {
        clock.see(row.stamp);
    }
    clock
}
