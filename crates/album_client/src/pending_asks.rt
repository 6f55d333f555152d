//! An ask that has no view yet.
ghost use Rattle.std.specs.Prelude.{◌≡◌, None, IfOk, IsOkUnless};
ghost use Rattle.album_views.specs.Checks.{refusal_of};

use album_eval::Principal;
use album_stamps::Refusal;
use album_views::Viewing;
use std::marker::Model;

/// An ask that has no view yet, and its principal, for whom it has passed `Ask::check`.
pub struct PendingAsk {
    viewing: Viewing,
    principal: Principal,
}

impl Model for PendingAsk {
    ghost use Rattle.album_client.specs.PendingAsks.{PendingAsk as State, IsTaken};

    ghost Value = { State };

    ghost view = { λ a. record { viewing = a.viewing; principal = a.principal } };

    ghost invariant = { λ a. IsTaken (record { viewing = a.viewing; principal = a.principal }) };
}

// By hand, so that what lets it go is proved here, and not again in each crate above.
impl Drop for PendingAsk {
    fn drop(self) {
        let PendingAsk { viewing, principal } = self;
        drop(viewing);
        drop(principal);
    }
}

impl PendingAsk {
    ghost use Rattle.album_client.specs.PendingAsks.{IsTaken};

    /// This viewing for the principal.
    pub(crate) fn of(viewing: Viewing, principal: Principal) -> PendingAsk
        requires { refusal_of viewing.ask principal ≡ None }
        ensures { result ≡ record { viewing = viewing; principal = principal } }
    {
        PendingAsk { viewing, principal }
    }

    /// The viewing, and the principal of the ask.
    pub(crate) fn into_parts(self) -> (Viewing, Principal)
        ensures viewing { result.0 ≡ self.viewing }
        ensures principal { result.1 ≡ self.principal }
        ensures taken { IsTaken self }
    {
        let PendingAsk { viewing, principal } = self;
        (viewing, principal)
    }

    /// The same once more. By hand, since the prover's search doesn't find a derived clone equal.
    ///
    /// # Errors
    ///
    /// `OutOfMemory`.
    pub fn copy(&self) -> Result<PendingAsk, Refusal>
        ensures copy { IfOk result (λ pending_ask. pending_ask ≡ self.now) }
        ensures memory { IsOkUnless result Refusal.OutOfMemory }
    {
        let viewing = self.viewing.copy()?;
        let principal = self.principal.copy()?;
        Ok(PendingAsk { viewing, principal })
    }
}
