//! Rulings.
ghost use Rattle.std.specs.Prelude.{◌≡◌, None, IfOk, IfErr, IsOkUnless};
ghost use Rattle.album_views.specs.Checks.{refusal_of};
ghost use Rattle.album_views.specs.ReadSets.{looker_of};
ghost use Rattle.album_listing.specs.RulingContexts.{IsSetOfGroups};
ghost use Rattle.album_permits.specs.Rulings.{IsFound, IsRuled};

use crate::findings::{Denial, Finding, Found, find_of};
use crate::notes::Note;
use crate::permits::Permit;
use album_eval::{Policy, Principal};
use album_items::ItemId;
use album_listing::{RulingContext, groups_in};
use album_stamps::{Refusal, Refused};
use album_views::View;
use std::alloc::Global;
use std::collections::BTreeSet;

/// What is ruled on the ask of a view.
#[derive(Debug)]
pub enum Ruling {
    Granted(Permit),
    /// With why, and the view.
    Denied(Denial, View),
    /// With which object is missing, and the view.
    Missing(ItemId, View),
}

/// A ruling, and what is noted of it, in order.
#[derive(Debug)]
pub struct Ruled {
    pub ruling: Ruling,
    /// In the order in which the lists were looked at.
    pub notes: Vec<Note>,
}

/// Rules on the ask of the view for the principal, for whom it was read, by the policy. The first need of the ask that
/// fails decides: where one of its objects is missing, that is the ruling; else each of its alternatives with what the
/// list of its object says.
///
/// # Errors
///
/// `OutOfMemory`, with the view handed back.
pub fn rule_on(
    alloc: Global,
    view: View,
    principal: &Principal,
    policy: Policy,
) -> Result<Ruled, Refused<View>>
    requires taken { refusal_of view.ask principal.now ≡ None }
    requires looks { view.looker ≡ looker_of policy principal.now }
    ensures ruled { IfOk result (IsRuled policy principal.now view) }
    ensures memory { IfErr result (λ e. e.refusal ≡ Refusal.OutOfMemory) }
    ensures given { IfErr result (λ e. e.given ≡ view) }
{
    match groups_in(alloc, &view, principal) {
        Ok(groups) => rule_with(alloc, view, principal, policy, groups),
        Err(refusal) => Err(Refused {
            refusal,
            given: view,
        }),
    }
}

/// The ruling with the groups that the principal is in.
fn rule_with(
    alloc: Global,
    view: View,
    principal: &Principal,
    policy: Policy,
    groups: BTreeSet<u64>,
) -> Result<Ruled, Refused<View>>
    requires taken { refusal_of view.ask principal.now ≡ None }
    requires looks { view.looker ≡ looker_of policy principal.now }
    requires groups { IsSetOfGroups view.rows principal.now groups }
    ensures ruled { IfOk result (IsRuled policy principal.now view) }
    ensures memory { IfErr result (λ e. e.refusal ≡ Refusal.OutOfMemory) }
    ensures given { IfErr result (λ e. e.given ≡ view) }
{
    match find_on(alloc, &view, principal, policy, &groups) {
        Ok(found) => rule_by(view, principal, policy, groups, found),
        Err(refusal) => Err(Refused {
            refusal,
            given: view,
        }),
    }
}

/// What is found of the ask of the view.
fn find_on(
    alloc: Global,
    view: &View,
    principal: &Principal,
    policy: Policy,
    groups: &BTreeSet<u64>,
) -> Result<Found, Refusal>
    requires { IsSetOfGroups view.now.rows principal.now groups.now }
    ensures found { IfOk result (IsFound policy principal.now view.now) }
    ensures memory { IsOkUnless result Refusal.OutOfMemory }
{
    let context = RulingContext::of(alloc, view, principal, policy, groups);
    let found = find_of(alloc, &context, view.ask());
    drop(context);
    found
}

/// The ruling by what is found.
fn rule_by(
    view: View,
    principal: &Principal,
    policy: Policy,
    groups: BTreeSet<u64>,
    found: Found,
) -> Result<Ruled, Refused<View>>
    requires taken { refusal_of view.ask principal.now ≡ None }
    requires looks { view.looker ≡ looker_of policy principal.now }
    requires groups { IsSetOfGroups view.rows principal.now groups }
    requires found { IsFound policy principal.now view found }
    ensures ruled { IfOk result (IsRuled policy principal.now view) }
    ensures memory { IfErr result (λ e. e.refusal ≡ Refusal.OutOfMemory) }
    ensures given { IfErr result (λ e. e.given ≡ view) }
{
    let Found { finding, notes } = found;
    match finding {
        Finding::Granted => match principal.copy() {
            Ok(principal) => Ok(Ruled {
                ruling: Ruling::Granted(Permit::of(view, principal, policy, groups)),
                notes,
            }),
            Err(refusal) => Err(Refused {
                refusal,
                given: view,
            }),
        },
        Finding::Denied(denial) => Ok(Ruled {
            ruling: Ruling::Denied(denial, view),
            notes,
        }),
        Finding::Missing(object) => Ok(Ruled {
            ruling: Ruling::Missing(object, view),
            notes,
        }),
    }
}
