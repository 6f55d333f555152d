//! Items: a kind, and a number among the items of that kind.
ghost use Rattle.std.specs.Prelude.{◌≡◌, ◌↔◌, ◌==◌, ◌++◌, ◌≤◌, ◌<◌, ◌^◌, ℕ, List, Some, IfOk, IsOkUnless, string_bytes, option_map};
ghost use Rattle.std.specs.Cmp.Rules.{comparing, hashing};
ghost use Rattle.std.specs.Cmp.{partial_order_from_own_ties};
ghost use Rattle.std.specs.Hash as fed;
ghost use Rattle.std.specs.Ordering.{nat_cmp, as_partial_cmp};
ghost use Rattle.std.proofs.Common.{rules};
ghost use Rattle.album_items.specs.ItemIds.{code_of, item, kind_of, number_of, place_of, IsItemText, word_of, text_of, code_named, item_of};

use album_lists::whole_number;
use album_stamps::{MAX_OPENING_NUMBER, MAX_PARTS, Refusal};
use std::alloc::Global;
use std::cmp::Ordering;
use std::hash::{Hash, Hasher};
use std::marker::Model;

/// What an item is.
#[derive(Clone, Copy, Debug, PartialEq, Eq)]
pub enum Kind {
    Picture,
    Album,
    List,
    Group,
}

/// An item: its kind, and its number among the items of that kind. Contracts see four times the
/// number and the code of the kind. Items are ordered by that.
#[derive(Clone, Copy, Debug)]
pub struct ItemId {
    kind: Kind,
    number: u64,
}

impl Model for ItemId {
    ghost use Rattle.std.specs.Prelude.{ℕ};
    ghost use Rattle.album_items.specs.ItemIds.{code_of, kind_with, item, kind_of, number_of};
    ghost use Rattle.album_items.specs.ItemBack.{item_back};

    ghost Value = { ℕ };

    ghost view = { λ a. item (code_of a.kind) a.number };

    ghost inverse = { λ n. record { kind = kind_with (kind_of n); number = number_of n } };

    ghost inverse_ok = { λ a h. item_back a };
}

impl Kind {
    /// The code of the kind: 0 to 3.
    pub fn code(self) -> u8
        ensures { result ≡ code_of self }
    {
        match self {
            Kind::Picture => 0,
            Kind::Album => 1,
            Kind::List => 2,
            Kind::Group => 3,
        }
    }

    /// The word of the kind.
    fn word(self) -> &'static str
        ensures { result.now ≡ word_of (code_of self) }
    {
        match self {
            Kind::Picture => "picture",
            Kind::Album => "album",
            Kind::List => "list",
            Kind::Group => "group",
        }
    }

    /// The kind of this word.
    #[tactic(auto, unfolding(crate::specs::ItemIds::code_named))]
    fn named(word: &str) -> Option<Kind>
        ensures { option_map code_of result ≡ code_named word.now }
    {
        match word {
            "picture" => Some(Kind::Picture),
            "album" => Some(Kind::Album),
            "list" => Some(Kind::List),
            "group" => Some(Kind::Group),
            _ => None,
        }
    }
}

impl ItemId {
    /// The item of this kind and number.
    pub fn new(kind: Kind, number: u64) -> ItemId
        ensures { result ≡ item (code_of kind) number }
    {
        ItemId { kind, number }
    }

    /// What the item is.
    pub fn kind(self) -> Kind
        ensures { code_of result ≡ kind_of self }
    {
        self.kind
    }

    /// The item's number among those of its kind.
    pub fn number(self) -> u64
        ensures { result ≡ number_of self }
    {
        self.number
    }

    /// The item's code: four times its number, and the code of its kind.
    pub(crate) fn code(self) -> usize
        requires low { number_of self ≤ MAX_OPENING_NUMBER }
        ensures { result ≡ self }
    {
        4 * self.number as usize + self.kind.code() as usize
    }

    /// Whether this is the other item. It decides equality as contracts have it: of the one number
    /// that they see. `==` calls it; a derived one would speak of the fields, which contracts don't see.
    pub fn is(self, other: ItemId) -> bool
        ensures { result ≡ (self == other) }
    {
        self.kind.code() == other.kind.code() && self.number == other.number
    }

    /// The item's one text, as `picture/5`.
    ///
    /// # Errors
    ///
    /// `OutOfMemory`.
    pub fn text(self, alloc: Global) -> Result<String, Refusal>
        ensures spelled { IfOk result (λ text. IsItemText self (string_bytes text)) }
        ensures memory { IsOkUnless result Refusal.OutOfMemory }
    {
        Ok(format!(in alloc; "{}/{}", self.kind.word(), self.number)?)
    }
}

/// The partition that keeps the item, of so many partitions: (number + code of the kind) mod parts.
pub fn place(item: ItemId, parts: u16) -> u16
    requires low { 1 ≤ parts }
    requires high { parts ≤ MAX_PARTS }
    ensures place { result ≡ place_of parts item }
    ensures below { result < parts }
{
    let parts = parts as u64;
    let place = (item.number % parts + item.kind.code() as u64) % parts;
    place as u16
}

// The comparisons are by hand, since a derive compares the fields in their order, and so by kind first.
// Items are ordered by the one number that contracts see: by their own numbers first, then by kind.
impl PartialEq for ItemId {
    ghost eq = { ◌==◌ };

    ghost laws = { Prim.search (comparing, rules) };

    fn eq(&self, other: &ItemId) -> bool {
        self.is(*other)
    }
}

impl Eq for ItemId {
    ghost laws = { Prim.search (comparing, rules) };
}

// By hand too, of exactly what `is` compares: items that are equal have to be hashed alike.
impl Hash for ItemId {
    ghost hash_input = { λ item. fed.u8 (kind_of item) ++ fed.u64 (number_of item) };

    ghost respects_eq = { Prim.search (hashing, rules) };

    fn hash<H: Hasher>(&self, state: &mut H) {
        self.kind.code().hash(state);
        self.number.hash(state);
    }
}

impl PartialOrd for ItemId {
    ghost partial_cmp = { as_partial_cmp nat_cmp };

    ghost laws = { partial_order_from_own_ties (Prim.search (comparing, rules)) (Prim.search (comparing, rules)) };

    fn partial_cmp(&self, other: &ItemId) -> Option<Ordering> {
        Some(self.cmp(other))
    }
}

impl Ord for ItemId {
    ghost cmp = { nat_cmp };

    ghost total = { Prim.search (comparing, rules) };

    ghost matches_partial_cmp = { Prim.search (comparing, rules) };

    ghost matches_eq = { Prim.search (comparing, rules) };

    fn cmp(&self, other: &ItemId) -> Ordering {
        self.number
            .cmp(&other.number)
            .then(self.kind.code().cmp(&other.kind.code()))
    }
}

/// The item whose text this is.
#[tactic(auto, unfolding(crate::specs::ItemIds::item_of))]
pub fn read_item(text: &str) -> Option<ItemId>
    ensures { result ≡ item_of text.now }
{
    let (word, number) = text.split_once('/')?;
    let kind = Kind::named(word)?;
    Some(ItemId::new(kind, whole_number(number)?))
}

/// A law: what is read of a text is what is spelled by it, and nothing else is. So the text of an item
/// is read back.
pub fn items_by_text()
    ensures read { (item : ℕ) (text : List ℕ) → (item_of text ≡ Some item) ↔ IsItemText item text }
    ensures back { (item : ℕ) → number_of item < 2 ^ 64 → item_of (text_of item) ≡ Some item }
{}
