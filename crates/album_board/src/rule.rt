//! The rule of the book that has a board's list, and the kinds of step. Nothing of it is there when the program runs.
//!
//! A book is `logbook`'s: a log of entries that only grows, under a rule. An entry has a pass here. Its writer gives up
//! a key for it, and has another one from then on. By these keys the entries of one writer are a list to which nobody
//! else adds: the list of a board. `writer` makes the steps.
use album_passes::Pass;
use logbook::{Gain, Pen, Plain, Play, Rule};
use std::marker::Model;

/// A pass, the right that is given up for it, and the one that its writer has from then on.
#[derive(Drop)]
pub struct Entry {
    pub own: Pen,
    pub pass: Pass,
    pub next: Pen,
}

impl Model for Entry {
    ghost use Rattle.album_board.specs.Entries as entries;

    ghost Value = { entries.Entry };

    ghost view = { λ e. record { key = e.own.nib.key; pass = e.pass; next = e.next.nib.key } };
}

/// The key of each entry was given up. A key can be given up once, and only by who holds it: so nobody else adds to a
/// writer's list.
pub struct KeysAreGivenUp;

impl Rule<Entry, u64> for KeysAreGivenUp {
    ghost use Rattle.std.specs.Prelude.{[]};
    ghost use base.Fml.{ftrue};
    ghost use Rattle.album_board.specs.Rule.{IsKept};

    ghost holds = { λ cells log. IsKept cells log };

    ghost first = { [] };

    ghost hinted = { λ n log. Unit {0} };

    ghost shows = { λ log. [] };

    ghost keeps = { λ names log. ftrue };

    ghost moves = { λ ask before after answer. Unit {0} };
}

/// Callers trade nothing.
pub struct Nothing;

impl Gain<Entry, u64> for Nothing {
    ghost use base.Fml.{ftrue};

    ghost after = { λ names about answer. ftrue };
}

/// A key is drawn.
pub struct Draw;

impl Play<Entry, u64> for Draw {
    ghost use Rattle.album_board.specs.Rule.{Draws};

    ghost then = { Draws };
}

impl Plain<(), Entry, u64> for Draw {
    ghost use Rattle.std.specs.Prelude.{None};
    ghost use Rattle.album_board.specs.Rule.{no_entry};

    ghost ask = { λ _. no_entry };

    ghost state = { λ _. None };
}

/// An entry is added.
pub struct Add;

impl Play<Entry, u64> for Add {
    ghost use Rattle.album_board.specs.Rule.{Adds};

    ghost then = { Adds };
}

impl Plain<Entry, Entry, u64> for Add {
    ghost use Rattle.std.specs.Prelude.{None};

    ghost ask = { λ entry. entry };

    ghost state = { λ _. None };
}
