//! The name of a board's list, and the table of its passes, as types.
use std::marker::Brand;

/// Names a list of publications, and the table of the desk whose passes are in it. Whoever opens a board picks the
/// names by passing `Brand`.
pub trait BoardNames {
    ghost use Rattle.atomic_table.specs.Seated.{TableId};
    ghost use Rattle.album_board.specs.Entries.{ListName};

    ghost list: { ListName };

    ghost table: { TableId };
}

impl BoardNames for Brand {
    ghost use Rattle.album_board.specs.Rule.{no_table};

    ghost list = { record { book = record { number = 0; log_name = 0; cells_name = 0 }; first = 0 } };

    ghost table = { no_table };
}
