//! What a ruling looks at: what the view shows, the principal, and the principal's groups.
ghost use Rattle.std.specs.Prelude.{◌≡◌};
ghost use Rattle.album_eval.specs.Matching.{case_of};
ghost use Rattle.album_listing.specs.Basis.{IsBasis};
ghost use Rattle.album_listing.specs.RulingContexts.{basis_of, IsSetOfGroups};
ghost use Rattle.album_listing.specs.Reasons.{case_on, reason_of};

use crate::reasons::{Alternative, Reason};
use crate::view_lookups::ViewLookup;
use album_eval::{Facts, Policy, Principal, evaluate};
use album_items::{Head, Value};
use album_views::View;
use std::alloc::Global;
use std::collections::BTreeSet;

/// The policy and the principal of a ruling, the groups that the principal is in by a view, and what the view shows.
#[derive(Debug, Drop)]
pub struct RulingContext<'a> {
    policy: Policy,
    principal: &'a Principal,
    groups: &'a BTreeSet<u64>,
    lookup: ViewLookup<'a>,
}

impl<'a> RulingContext<'a> {
    /// Hears a view, with the groups that the principal is in by it.
    pub fn of(
        alloc: Global,
        view: &'a View,
        principal: &'a Principal,
        policy: Policy,
        groups: &'a BTreeSet<u64>,
    ) -> RulingContext<'a>
        requires { IsSetOfGroups view.now.rows principal.now groups.now }
        ensures { IsBasis policy principal.now view.now.rows (basis_of result) }
    {
        RulingContext {
            policy,
            principal,
            groups,
            lookup: ViewLookup::of(alloc, view),
        }
    }

    /// What the view shows.
    pub fn lookup(&self) -> &ViewLookup<'a>
        ensures { result.now.view.now ≡ self.now.lookup.view.now }
    {
        &self.lookup
    }

    /// What the list of the alternative's object says of its mask, if the object is there.
    pub fn reason(&self, alternative: Alternative) -> Option<Reason>
        ensures { result ≡ reason_of (basis_of self.now) alternative }
    {
        self.reason_by(alternative, self.lookup.value(alternative.object))
    }

    /// The same, where the value that is seen of the object was looked up before.
    pub(crate) fn reason_by(&self, alternative: Alternative, value: &Value) -> Option<Reason>
        requires { value.now ≡ (basis_of self.now).seen alternative.object }
        ensures { result ≡ reason_of (basis_of self.now) alternative }
    {
        match value.head() {
            Some(head) => Some(Reason {
                object: alternative.object,
                mask: alternative.mask,
                verdict: evaluate(
                    self.lookup.list(head.list),
                    &self.facts(head),
                    alternative.mask,
                ),
            }),
            None => None,
        }
    }

    /// What the list of an object with this head is judged on.
    pub fn facts<'b>(&'b self, head: &'b Head) -> Facts<'b>
        ensures { case_of result ≡ case_on (basis_of self.now) head.now }
    {
        Facts {
            policy: self.policy,
            principal: self.principal,
            owner: &head.owner,
            head_group: head.group,
            groups: self.groups,
        }
    }
}
