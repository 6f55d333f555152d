//! One total, and the part of each share that counts in it.
ghost use Rattle.std.specs.Prelude.{◌≡◌, ◌<◌, ◌≤◌, ◌+◌, ◌^◌};

use std::sync::ledger::{Blank, Book, Ledger, Share};

/// A total, the book of the ledger that keeps it, and what of the ledger isn't lent: a part for each share that may
/// yet be given, one more, and those that were gathered with what they had.
#[derive(Drop)]
pub(crate) struct Tally<L: Ledger> {
    pub(crate) total: u64,
    book: Book<L>,
    pub(crate) rest: Share<L>,
    ghost counted: { book.total ≡ total },
}

impl<L: Ledger> Tally<L> {
    /// Opens with nothing counted.
    pub(crate) fn open(blank: Blank) -> Tally<L>
        requires name { blank.name ≡ L.name }
        requires parts { blank.parts ≡ L.parts }
        ensures total { result.total ≡ 0 }
        ensures rest { (result.rest.parts ≡ L.parts) × (result.rest.amount ≡ 0) }
    {
        let (book, rest) = blank.open::<L>();
        Tally {
            total: 0,
            book,
            rest,
        }
    }

    /// A part for a share, in which nothing counts yet.
    pub(crate) fn lend(&mut self) -> Share<L>
        requires { 1 < self.old.rest.parts }
        ensures total { self.new.total ≡ self.old.total }
        ensures rest { (self.new.rest.parts + 1 ≡ self.old.rest.parts) × (self.new.rest.amount ≡ self.old.rest.amount) }
        ensures part { (result.parts ≡ 1) × (result.amount ≡ 0) }
    {
        self.rest.split_off(1, 0)
    }

    /// Counts so many in the total and in the part of a share.
    pub(crate) fn add(&mut self, part: &mut Share<L>, more: u64)
        requires part { part.old.parts ≡ 1 }
        requires rest { 0 < self.old.rest.parts }
        requires fits { self.old.total + more < 2 ^ 64 }
        ensures total { self.new.total ≡ self.old.total + more }
        ensures rest { (self.new.rest.parts ≡ self.old.rest.parts) × (self.new.rest.amount ≡ self.old.rest.amount) }
        ensures part { (part.new.parts ≡ 1) × (part.new.amount ≡ part.old.amount + more) }
        ensures lent { self.old.rest.parts + 1 ≤ L.parts }
    {
        self.book.add(part, more);
        self.rest.give(part, 0, 0);
        self.total += more;
    }

    /// Takes the part of a share back, with what counts in it.
    pub(crate) fn gather(&mut self, part: Share<L>)
        requires { part.parts ≡ 1 }
        ensures total { self.new.total ≡ self.old.total }
        ensures parts { self.new.rest.parts ≡ self.old.rest.parts + 1 }
        ensures amount { self.new.rest.amount ≡ self.old.rest.amount + part.amount }
        ensures lent { self.old.rest.parts + 1 ≤ L.parts }
        ensures whole { self.new.rest.parts ≡ L.parts → self.new.rest.amount ≡ self.new.total }
    {
        self.rest.merge(part);
        self.book.audit(&mut self.rest);
    }
}
