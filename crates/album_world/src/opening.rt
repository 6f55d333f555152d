//! What of an opening a world's clients go by: its partitions, its policy, whether it is checked, and the counter that
//! clocks are above. First values and limits go to the partitions, in `World::open_on`. Each client begins with a fresh
//! clock, which reaches that counter before it draws a stamp.
ghost use Rattle.std.specs.Prelude.{◌≡◌, true};
ghost use Rattle.album_items.specs.Openings.{is_base_opening};
ghost use Rattle.album_client.specs.Terms.{terms_of};

use album_client::Terms;
use album_eval::Policy;
use album_items::Opening;

/// The terms of the opening.
pub(crate) fn terms_of(opening: &Opening) -> Terms
    requires { is_base_opening opening.now ≡ true }
    ensures { result ≡ terms_of opening.now }
{
    // The opening passes its check: its policy is known, and its partitions are at most `MAX_PARTS`.
    let policy = Policy::of(opening.policy).unwrap_or(Policy::One);
    Terms::new(opening.parts as u16, policy, opening.checked, opening.first)
}
