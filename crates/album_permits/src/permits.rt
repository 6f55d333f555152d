//! Permits: what a ruling gives that grants an ask.
ghost use Rattle.std.specs.Prelude.{◌≡◌};
ghost use Rattle.album_listing.specs.RulingContexts.{IsSetOfGroups};
ghost use Rattle.album_permits.specs.Permits.{IsPermit};

use album_eval::{Policy, Principal};
use album_views::View;
use std::collections::BTreeSet;
use std::marker::Model;

/// A capability: a view whose ask is granted to the principal by the policy. It must be spent.
#[derive(Debug)]
pub struct Permit {
    view: View,
    principal: Principal,
    policy: Policy,
    // Those that the principal is in by the view, found once for the ruling and for what is served.
    groups: BTreeSet<u64>,
}

impl Model for Permit {
    ghost use Rattle.album_listing.specs.RulingContexts.{IsSetOfGroups};
    ghost use Rattle.album_permits.specs.Permits.{PermitState, IsPermit};

    ghost Value = { PermitState };

    ghost view = { λ p. record { view = p.view; principal = p.principal; policy = p.policy } };

    ghost invariant = { λ p. IsPermit (record { view = p.view; principal = p.principal; policy = p.policy })
        × IsSetOfGroups p.view.rows p.principal p.groups };
}

impl Permit {
    /// The permit of this view.
    pub(crate) fn of(
        view: View,
        principal: Principal,
        policy: Policy,
        groups: BTreeSet<u64>,
    ) -> Permit
        requires permit { IsPermit (record { view = view; principal = principal; policy = policy }) }
        requires groups { IsSetOfGroups view.rows principal groups }
        ensures { result ≡ record { view = view; principal = principal; policy = policy } }
    {
        Permit {
            view,
            principal,
            policy,
            groups,
        }
    }

    /// The view.
    pub fn view(&self) -> &View
        ensures view { result.now ≡ self.now.view }
        ensures granted { IsPermit self.now }
    {
        &self.view
    }

    /// For whom it is granted.
    pub fn principal(&self) -> &Principal
        ensures { result.now ≡ self.now.principal }
    {
        &self.principal
    }

    /// The numbers of the groups that the principal is in by the view.
    pub(crate) fn groups(&self) -> &BTreeSet<u64>
        ensures { IsSetOfGroups self.now.view.rows self.now.principal result.now }
    {
        &self.groups
    }

    /// Gives the view back, and is spent.
    pub fn give_back(self) -> View
        ensures { result ≡ self.view }
    {
        let Permit {
            view,
            principal,
            policy: _,
            groups,
        } = self;
        drop(principal);
        drop(groups);
        view
    }
}
