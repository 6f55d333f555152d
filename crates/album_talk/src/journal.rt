//! Where a service writes what was noted.
ghost use Rattle.std.specs.Prelude.{◌≡◌, OnOk, IfErr, IsOkUnless};

use crate::endings::{AskWord, Ending};
use album_eval::Principal;
use album_judge::Fault;
use album_sessions::{ServiceNames, Session};
use album_stamps::{ClientNo, Refusal};
use std::sync::Wait;

/// Writes what was noted, and how its requests have ended, before they are answered.
pub trait Journal {
    ghost use Rattle.std.specs.Prelude.{Option};
    ghost use Rattle.album_sessions.specs.Sessions.{SessionState};
    ghost use Rattle.album_talk.specs.declared.endings.Ending.{Ending};

    /// What the session had noted in this state is written, and that its request has ended so. Only `settle` promises
    /// it: no contract can speak of a file.
    ghost recorded: { Self → SessionState → Option Ending → Type 0 };

    /// This principal is about to ask this over the connection of this client. From now on, until the next such call,
    /// what is noted of the client is of this request.
    ///
    /// # Errors
    ///
    /// `OutOfMemory`. Nothing is asked then.
    fn begin<T: Wait>(
        &self,
        rt: &T,
        client: ClientNo,
        who: &Principal,
        ask: AskWord,
    ) -> Result<(), Refusal>
        ensures memory { IsOkUnless result Refusal.OutOfMemory };

    /// Writes what was noted and isn't written yet, and then how the request has ended, where something was noted of
    /// it. An answer of this session is written next: what was noted of its request is noted by now. Who talks is known
    /// from its first line on.
    ///
    /// # Errors
    ///
    /// `Writing`. The answer isn't written then.
    fn settle<J: ServiceNames, T: Wait>(
        &self,
        rt: &T,
        session: &Session<J>,
        who: Option<&Principal>,
        ending: Option<Ending>,
    ) -> Result<(), Fault>
        ensures recorded { OnOk result (recorded self.now session.now ending) }
        ensures fault { IfErr result (λ fault. fault ≡ Fault.Writing) };
}

/// Nothing that was noted is written.
#[derive(Debug, Drop)]
pub struct NoJournal;

impl Journal for NoJournal {
    ghost use Rattle.std.specs.Prelude.{⊤};

    ghost recorded = { λ _ _ _. ⊤ };

    fn begin<T: Wait>(
        &self,
        _rt: &T,
        _client: ClientNo,
        _who: &Principal,
        _ask: AskWord,
    ) -> Result<(), Refusal> {
        Ok(())
    }

    fn settle<J: ServiceNames, T: Wait>(
        &self,
        _rt: &T,
        _session: &Session<J>,
        _who: Option<&Principal>,
        _ending: Option<Ending>,
    ) -> Result<(), Fault> {
        Ok(())
    }
}
