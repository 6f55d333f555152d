//! What follows of what was published.
ghost use Rattle.std.specs.Prelude.{◌<◌};
ghost use Rattle.album_eval.specs.declared.facts.Principal.{Principal};
ghost use Rattle.album_passes.specs.Cuts.{Extends};
ghost use Rattle.album_sessions.specs.InOrder.{IsInOrder};
ghost use Rattle.album_sessions.specs.Sessions.{SessionState};
ghost use Rattle.album_views.specs.declared.asks.Ask as declared;

use crate::in_order::Acknowledged;
use crate::service_names::ServiceNames;
use album_board::what_was_published_is_seen;

/// A law: what was acknowledged is visible. Take two requests of one service, by whichever sessions. Let the second
/// have listened to a number above the one under which the first was published. Then the cut with which the second
/// began extends the one with which the first ended. Nothing is computed.
pub fn acknowledged_is_visible<J: ServiceNames>(first: &Acknowledged<J>, second: &Acknowledged<J>)
    ensures visible { (who other : Principal) (ask later : declared.Ask) (old ended start new : SessionState)
        → IsInOrder J.terms.limit J.policy who ask
        old first.now.listened first.now.answer first.now.published ended
        → (then : IsInOrder J.terms.limit J.policy other later
        start second.now.listened second.now.answer second.now.published new)
        → first.now.published.number < second.now.listened.number → Extends ended.cut then.begun.cut }
{
    what_was_published_is_seen(&first.published, &second.listened);
}
