//! A board, what is published on it, and what a request listens to.
ghost use Rattle.std.specs.Prelude.{◌≡◌, ◌<◌, ◌++◌, ◌∷◌, [], length, None};
ghost use Rattle.album_passes.specs.Cuts.{Extends};
ghost use Rattle.album_passes.specs.Pass.{unnumbered};
ghost use Rattle.album_board.specs.Writer.{number_of};

use crate::names::BoardNames;
use crate::writer::{Front, NewList, Writer};
use album_passes::{Desk, Pass};
use std::marker::Model;

/// A pass that has seen all that was published, and who alone publishes. Contracts see the pass's cut, and what was
/// published, in order.
pub struct Board<J: BoardNames> {
    pass: Pass,
    writer: Writer<J>,
}

impl<J: BoardNames> Model for Board<J> {
    ghost use Rattle.album_board.specs.Board.{BoardState, IsSeeing};

    ghost Value = { BoardState };

    ghost view = { λ b. record { cut = b.pass.cut; published = b.writer } };

    ghost invariant = { λ b. IsSeeing J.table b.pass b.writer };
}

// By hand, so that what lets it go is proved here, and not again in each crate above.
impl<J: BoardNames> Drop for Board<J> {
    fn drop(self) {
        let Board { pass, writer } = self;
        drop(pass);
        drop(writer);
    }
}

/// What a request has listened to: a pass that has seen all that was published, and how much that was. Contracts see
/// the number and the pass's cut.
#[derive(Drop)]
pub struct Listened<J: BoardNames> {
    pass: Pass,
    front: Front<J>,
}

impl<J: BoardNames> Model for Listened<J> {
    ghost use Rattle.std.specs.Prelude.{length};
    ghost use Rattle.album_board.specs.Board.{Numbered, IsSeeing};
    ghost use Rattle.album_board.specs.Writer.{number_of};

    ghost Value = { Numbered };

    ghost view = { λ l. record { number = number_of (length l.front); cut = l.pass.cut } };

    ghost invariant = { λ l. IsSeeing J.table l.pass l.front };
}

/// That a pass was published, and under which number. Contracts see the number and the pass's cut.
#[derive(Drop)]
pub struct Published<J: BoardNames> {
    number: u64,
    pass: Pass,
    front: Front<J>,
}

impl<J: BoardNames> Model for Published<J> {
    ghost use Rattle.album_board.specs.Board.{Numbered, Stands};

    ghost Value = { Numbered };

    ghost view = { λ p. record { number = p.number; cut = p.pass.cut } };

    ghost invariant = { λ p. Stands p.number p.pass.cut p.front };
}

impl<J: BoardNames> Board<J> {
    /// A board on which nothing is published yet.
    pub fn open(list: NewList, pass: Pass) -> Board<J>
        requires named { list ≡ J.list }
        requires of { pass.table ≡ J.table }
        requires unnumbered { pass.number ≡ None }
        ensures { result ≡ record { cut = pass.cut; published = [] } }
    {
        Board {
            pass,
            writer: Writer::new(list),
        }
    }

    /// All that was published so far.
    pub fn listen(&mut self, desk: &Desk) -> Listened<J>
        requires table { desk.now.table ≡ J.table }
        ensures number { result.number ≡ number_of (length self.old.published) }
        ensures cut { result.cut ≡ self.old.cut }
        ensures same { self.new ≡ self.old }
    {
        Listened {
            pass: self.pass.split(desk),
            front: self.writer.front(),
        }
    }

    /// Publishes what the pass has seen.
    pub fn publish(&mut self, desk: &Desk, pass: &mut Pass) -> Published<J>
        requires table { desk.now.table ≡ J.table }
        requires of { pass.old.table ≡ J.table }
        ensures published { self.new.published ≡ self.old.published ++ unnumbered pass.old ∷ [] }
        ensures number { result.number ≡ number_of (length self.old.published) }
        ensures cut { result.cut ≡ pass.old.cut }
        ensures grown { Extends self.old.cut self.new.cut }
        ensures same { pass.new ≡ pass.old }
    {
        let number = self.writer.front().number();
        let mine = self.writer.add(pass.split(desk));
        self.pass.join(desk, mine);
        Published {
            number,
            pass: pass.split(desk),
            front: self.writer.front(),
        }
    }
}

impl<J: BoardNames> Listened<J> {
    /// How much was published before: what is published later has this number or a greater one.
    pub fn number(&self) -> u64
        ensures { result ≡ self.now.number }
    {
        self.front.number()
    }

    /// A pass with the cut, for the request to join.
    pub fn split(&mut self, desk: &Desk) -> Pass
        requires table { desk.now.table ≡ J.table }
        ensures of { result.table ≡ J.table }
        ensures unnumbered { result.number ≡ None }
        ensures cut { result.cut ≡ self.old.cut }
        ensures same { self.new ≡ self.old }
    {
        self.pass.split(desk)
    }

    /// For contracts alone: what was published under a lower number has been seen.
    pub(crate) fn has_seen(&self, published: &Published<J>)
        ensures { published.now.number < self.now.number → Extends published.now.cut self.now.cut }
    {
        let _both = published.front.meet(&self.front);
    }
}

impl<J: BoardNames> Published<J> {
    /// How much was published before.
    pub fn number(&self) -> u64
        ensures { result ≡ self.now.number }
    {
        self.number
    }
}
