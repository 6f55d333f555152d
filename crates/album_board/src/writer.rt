//! The list of a board: its one writer, and beginnings of it.
ghost use Rattle.std.specs.Prelude.{◌≡◌, ◌++◌, ◌∷◌, [], length};
ghost use mathlib.Core.List.{IsPrefix};
ghost use Rattle.logbook.specs.Pages.{may_write};
ghost use Rattle.album_board.specs.Entries.{passes_from};
ghost use Rattle.album_board.specs.Writer.{head_of, number_of};

use crate::names::BoardNames;
use crate::rule::{Add, Draw, Entry, KeysAreGivenUp, Nothing};
use album_passes::Pass;
use logbook::{Offer, Pen, Seen, Start, Word};
use std::marker::{Model, PhantomData};
use std::mem;

/// A list to which nothing was added yet. Contracts see its name.
#[derive(Drop)]
pub struct NewList {
    head: Word<Entry, u64, KeysAreGivenUp>,
    pen: Pen,
    seen: Seen<Entry, u64, KeysAreGivenUp>,
}

impl Model for NewList {
    ghost use Rattle.std.specs.Prelude.{◌≡◌, []};
    ghost use Rattle.logbook.specs.Pages.{may_write};
    ghost use Rattle.album_board.specs.Entries.{ListName};
    ghost use Rattle.album_board.specs.Writer.{head_of};

    ghost Value = { ListName };

    ghost view = { λ o. record { book = o.seen.book; first = o.pen.nib.key } };

    ghost invariant = { λ o. (o.seen.log ≡ []) × (o.head ≡ head_of o.seen.book) × (o.pen.book ≡ o.seen.book)
        × (o.pen.nib.right ≡ may_write) };
}

impl NewList {
    /// A list of a new name.
    pub fn new() -> NewList {
        let (seen, mut first, _second) = Seen::open(Start::alone(), 0, 0);
        let head = Word::tracked(0, &mut first);
        let pen = new_key(&head, &seen);
        NewList { head, pen, seen }
    }
}

/// The right to a key of the book, which nobody else has.
fn new_key(head: &Word<Entry, u64, KeysAreGivenUp>, seen: &Seen<Entry, u64, KeysAreGivenUp>) -> Pen
    requires head { head.now ≡ head_of seen.now.book }
    ensures book { result.book ≡ seen.now.book }
    ensures right { result.nib.right ≡ may_write }
{
    // The step sees what others have added to the book. A writer keeps what it has seen itself.
    let mut aside = seen.again();
    let mut offer: Offer<Entry, u64, KeysAreGivenUp, Nothing> = aside.plain::<Nothing, (), Draw>(
        &(),
    );
    let mut pen = aside.no_pen();
    head.compare_exchange::<Draw, Nothing>(0, 0, &mut aside, &mut offer, &mut pen);

    // The word itself is not needed, only the right to write it.
    let _word: Word<Entry, u64, KeysAreGivenUp> = Word::tracked(0, &mut pen);
    pen
}

/// Who alone adds to the list that `J` names. Contracts see what was added, in order.
#[derive(Drop)]
pub(crate) struct Writer<J: BoardNames> {
    /// Each step is on this word, which stays 0.
    head: Word<Entry, u64, KeysAreGivenUp>,
    /// The right that is given up for what is added next.
    pen: Pen,
    /// The number of what is added next.
    number: u64,
    seen: Seen<Entry, u64, KeysAreGivenUp>,
    of: PhantomData<J>,
}

impl<J: BoardNames> Model for Writer<J> {
    ghost use Rattle.std.specs.Prelude.{List};
    ghost use Rattle.album_passes.specs.Pass.{PassState};
    ghost use Rattle.album_board.specs.Entries.{passes_from};
    ghost use Rattle.album_board.specs.Writer.{IsWriter};

    ghost Value = { List PassState };

    ghost view = { λ w. passes_from J.list.first w.seen.log };

    ghost invariant = { λ w. IsWriter J.list w.head (record { book = w.pen.book; nib = w.pen.nib }) w.number
        w.seen.book w.seen.log };
}

/// A beginning of the list that `J` names. Contracts see it.
#[derive(Drop)]
pub(crate) struct Front<J: BoardNames> {
    /// The number of what is added after it.
    number: u64,
    seen: Seen<Entry, u64, KeysAreGivenUp>,
    of: PhantomData<J>,
}

impl<J: BoardNames> Model for Front<J> {
    ghost use Rattle.std.specs.Prelude.{◌≡◌, List, length};
    ghost use Rattle.album_passes.specs.Pass.{PassState};
    ghost use Rattle.album_board.specs.Entries.{passes_from};
    ghost use Rattle.album_board.specs.Writer.{number_of};

    ghost Value = { List PassState };

    ghost view = { λ f. passes_from J.list.first f.seen.log };

    ghost invariant = { λ f. (f.number ≡ number_of (length (passes_from J.list.first f.seen.log)))
        × (f.seen.book ≡ J.list.book) };
}

impl<J: BoardNames> Writer<J> {
    /// The writer of a new list, which has the name.
    pub(crate) fn new(list: NewList) -> Writer<J>
        requires { list ≡ J.list }
        ensures { result ≡ [] }
    {
        let NewList { head, pen, seen } = list;
        Writer {
            head,
            pen,
            number: 0,
            seen,
            of: PhantomData,
        }
    }

    /// All that was added so far.
    pub(crate) fn front(&self) -> Front<J>
        ensures { result ≡ self.now }
    {
        Front {
            number: self.number,
            seen: self.seen.again(),
            of: PhantomData,
        }
    }

    /// Adds the pass, and gives it back.
    pub(crate) fn add(&mut self, pass: Pass) -> Pass
        ensures added { self.new ≡ self.old ++ pass ∷ [] }
        ensures same { result ≡ pass }
    {
        let next = new_key(&self.head, &self.seen);
        let mut entry = Entry {
            own: mem::replace(&mut self.pen, self.seen.no_pen()),
            pass,
            next,
        };
        let mut offer: Offer<Entry, u64, KeysAreGivenUp, Nothing> = self
            .seen
            .plain::<Nothing, Entry, Add>(&entry);
        self.head
            .compare_exchange::<Add, Nothing>(0, 0, &mut self.seen, &mut offer, &mut entry.own);
        let Entry { own: _, pass, next } = entry;
        self.pen = next;
        self.number = self.number.saturating_add(1);
        pass
    }
}

impl<J: BoardNames> Front<J> {
    /// The number of what is added after it.
    pub(crate) fn number(&self) -> u64
        ensures { result ≡ number_of (length self.now) }
    {
        self.number
    }

    /// For contracts alone: both are beginnings of one list.
    pub(crate) fn meet(&self, other: &Front<J>) -> Seen<Entry, u64, KeysAreGivenUp>
        ensures this { IsPrefix self.now (passes_from J.list.first result.log) }
        ensures that { IsPrefix other.now (passes_from J.list.first result.log) }
    {
        let mut both = self.seen.again();
        both.learn(&other.seen);
        both
    }
}
