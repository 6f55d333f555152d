//! The ruling on an ask over a store, and the permit that it gives. Where a call is refused for want of memory it is
//! made once more, with what it handed back: so doubt/memory shows whether that is what went in.
ghost use Rattle.std.specs.Prelude.{◌≡◌, None, IfOk};
ghost use Rattle.album_views.specs.Checks.{refusal_of};
ghost use Rattle.album_views.specs.ReadSets.{looker_of};

use crate::asks::{Verb, ask_of};
use crate::refused::{is_as_before, whole_text};
use crate::store::Store;
use crate::viewing::view_of;
use album_eval::{Policy, Principal};
use album_permits::{Permit, Ruled, Ruling, rule_on};
use album_stamps::Refusal;
use album_views::View;
use std::alloc::Global;

/// A store, the principal, what is asked, and the item that it is asked of.
pub type Asked = (Store, &'static str, Verb, &'static str);

/// What is ruled on the view.
fn rule(alloc: Global, view: View, principal: &Principal, policy: Policy) -> Result<Ruled, Refusal>
    requires { view.looker ≡ looker_of policy principal.now }
{
    if let Err(refusal) = view.ask().check(principal) {
        drop(view);
        return Err(refusal);
    }
    let before = whole_text(alloc, &view);
    match rule_on(alloc, view, principal, policy) {
        Ok(ruled) => Ok(ruled),
        Err(refused) => rule_again(alloc, refused.given, principal, policy, &before),
    }
}

fn rule_again(
    alloc: Global,
    view: View,
    principal: &Principal,
    policy: Policy,
    before: &Result<String, Refusal>,
) -> Result<Ruled, Refusal>
    requires taken { refusal_of view.ask principal.now ≡ None }
    requires looks { view.looker ≡ looker_of policy principal.now }
{
    if !is_as_before(alloc, &view, before) {
        drop(view);
        return Err(Refusal::Clash);
    }
    Ok(rule_on(alloc, view, principal, policy)?)
}

/// The view of what is asked, and the principal.
pub fn seen_by(alloc: Global, asked: Asked) -> Result<(View, Principal), Refusal>
    ensures { IfOk result (λ seen. seen.0.looker ≡ None) }
{
    let (store, who, verb, text) = asked;
    let principal = Principal::read(who)?;
    let ask = ask_of(alloc, verb, text)?;
    let view = view_of(alloc, store, ask, &principal)?;
    Ok((view, principal))
}

/// The refusal where no permit is given; the view is let go.
fn clash(view: View) -> Refusal {
    drop(view);
    Refusal::Clash
}

/// The permit for the ask of the view, where it is granted.
pub fn permit_on(
    alloc: Global,
    view: View,
    principal: &Principal,
    policy: Policy,
) -> Result<Permit, Refusal>
    requires { view.looker ≡ looker_of policy principal.now }
{
    let Ruled { ruling, notes: _ } = rule(alloc, view, principal, policy)?;
    match ruling {
        Ruling::Granted(permit) => Ok(permit),
        Ruling::Denied(_, view) => Err(clash(view)),
        Ruling::Missing(_, view) => Err(clash(view)),
    }
}

/// The permit for what is asked, where policy 1 grants it.
pub fn permit_of(alloc: Global, asked: Asked) -> Result<Permit, Refusal> {
    let (view, principal) = seen_by(alloc, asked)?;
    permit_on(alloc, view, &principal, Policy::One)
}
