//! The names of a service, as types: a session's values are tied to their service by them.
use album_audit::Books;
use album_keepers::DeskNames;
use std::marker::Brand;

/// Names the policy of one service, in addition to the ledgers of its audit book, the list of its board, and the table
/// and the terms of its desk. Whoever opens a service picks the names by passing `Brand`.
pub trait ServiceNames: Books + DeskNames {
    ghost use Rattle.album_eval.specs.declared.policies.Policy.{Policy};

    ghost policy: { Policy };
}

impl ServiceNames for Brand {
    ghost use Rattle.album_eval.specs.declared.policies.Policy.TheVariants.{One};

    ghost policy = { One };
}
