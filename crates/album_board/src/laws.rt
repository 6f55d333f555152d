//! What holds of publications, and of who has listened.
ghost use Rattle.std.specs.Prelude.{◌<◌};
ghost use Rattle.album_passes.specs.Cuts.{Extends};

use crate::board::{Listened, Published};
use crate::names::BoardNames;

/// A law: who has listened after a publication has seen it. A publication came before if its number is below the one
/// that was listened to. Nothing is computed.
pub fn what_was_published_is_seen<J: BoardNames>(published: &Published<J>, listened: &Listened<J>)
    ensures seen { published.now.number < listened.now.number → Extends published.now.cut listened.now.cut }
{
    listened.has_seen(published);
}
