//! The terms of a service's desk, as a type: what partitions and sessions send is tied to their service by it.
use album_board::BoardNames;
use std::marker::Brand;

/// Names the terms of one service's desk, in addition to its table and the list of its board. Mails, and what a
/// partition's thread keeps, have a type parameter `J: DeskNames`, since no clause names what a channel holds.
pub trait DeskNames: BoardNames {
    ghost use Rattle.album_passes.specs.Knowledge.{Terms};

    ghost terms: { Terms };
}

impl DeskNames for Brand {
    ghost use Rattle.album_keepers.specs.DeskNames.{no_terms};

    ghost terms = { no_terms };
}
