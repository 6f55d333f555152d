//! The explanation of an ask. One that is read may be refused yet, before anything is read for it: its check says why.
ghost use Rattle.std.specs.Prelude.{IfOk};
ghost use Rattle.album_views.specs.Checks.{refusal_of};
ghost use Rattle.album_explain_store.specs.Explanations.{IsReply};
ghost use Rattle.album_explain_store.specs.Readings.{unless_refused};

use crate::explanations::{Kind, Lines, Taken, explain_refused, explain_taken};
use crate::places::checked::place_in;
use album_eval::Principal;
use album_explain::Found;
use album_stamps::Refusal;
use album_views::Ask;
use std::alloc::Global;

/// The explanation of an ask of this principal, and whether the ask is refused.
pub(crate) fn explain_ask(
    alloc: Global,
    number: u64,
    lines: Lines,
    ask: &Ask,
    who: &Principal,
) -> Result<(Vec<u8>, bool), Refusal>
    ensures { IfOk result (λ explanation.
        IsReply number (unless_refused (refusal_of ask.now who.now) (record { lines = lines; kind = Kind.Ask }))
        explanation.1 explanation.0.items) }
{
    let Err(refusal) = ask.check(who) else {
        return explain_taken(
            alloc,
            number,
            Taken {
                lines,
                kind: Kind::Ask,
            },
        );
    };
    let found = Found {
        at: place_in(alloc, ask, refusal)?,
        value: None,
    };
    explain_refused(alloc, number, refusal, Some(&found))
}
