//! Laws of asks and of views.
ghost use Rattle.std.specs.Prelude.{◌≡◌, ◌≢◌, ◌↔◌, ◌+◌, ◌≤◌, ◌<◌, ℕ, List, Option, None, true, false, IsTrue, length, Contains};
ghost use Rattle.album_stamps.specs.Distinct.{are_distinct};
ghost use Rattle.album_eval.specs.declared.facts.Principal.{Principal};
ghost use Rattle.album_reader.specs.Answers.{ReadVersion};
ghost use Rattle.album_views.specs.declared.asks.Ask.{Ask};
ghost use Rattle.album_views.specs.declared.asks.Ask.TheVariants as ask;
ghost use Rattle.album_views.specs.declared.viewing.ViewStep.TheVariants.{Again, Closed, Busy};
ghost use Rattle.album_views.specs.declared.viewing.Why.TheVariants.{Rounds, Wide};
ghost use Rattle.album_views.specs.Asks.{Wanted, wanted, objects_of};
ghost use Rattle.album_views.specs.Checks.{is_one_of, flaw_of, refusal_of};
ghost use Rattle.album_views.specs.ReadSets.{IsNamed, grown, names_of};
ghost use Rattle.album_views.specs.Seen.{seen};
ghost use Rattle.album_views.specs.Steps.{stepped};
ghost use Rattle.album_views.specs.Views.{ViewingState, ViewState, IsClosed, is_closed};

use album_stamps::{MAX_READ_ITEMS, MAX_READS, MAX_TRANSACTION_ITEMS};

/// A law: an ask without a flaw of its own has 1 to `MAX_TRANSACTION_ITEMS` objects, none of them twice, each of a kind
/// that the ask allows for it. An ask that passes its check for any one principal has no flaw of its own.
pub fn asks_without_flaw()
    ensures some { (ask : Ask) → flaw_of ask ≡ None → 1 ≤ length (objects_of ask) }
    ensures few { (ask : Ask) → flaw_of ask ≡ None → length (objects_of ask) ≤ MAX_TRANSACTION_ITEMS }
    ensures single { (ask : Ask) → flaw_of ask ≡ None → IsTrue (are_distinct (objects_of ask)) }
    ensures kinds { (ask : Ask) (object : Wanted) → flaw_of ask ≡ None
        → Contains (wanted ask) object → IsTrue (is_one_of object.kinds object.object) }
    ensures taken { (ask : Ask) (principal : Principal) → refusal_of ask principal ≡ None → flaw_of ask ≡ None }
{}

/// A law: an ask for the children of an album looks at no child, so no child makes it wide. It looks at what a new
/// picture in the album looks at; and an ask for a head at what another title of the object looks at.
pub fn heads_and_children_are_narrow()
    ensures children { (rows : List ReadVersion) (looker : Option Principal) (album : ℕ) (title content : List ℕ)
        → names_of rows looker (ask.Children album) ≡ names_of rows looker (ask.AddPicture album title content) }
    ensures head { (rows : List ReadVersion) (looker : Option Principal) (object : ℕ) (title : List ℕ)
        → names_of rows looker (ask.Head object) ≡ names_of rows looker (ask.Retitle object title) }
{}

/// A law: the read set has exactly the items that are named, each once. They are in the order of the rules: the first
/// names, then the groups among the members of each name in turn, also of each name that this adds. No other list of
/// named items is in this order.
pub fn names_are_what_is_named()
    ensures named { (rows : List ReadVersion) (looker : Option Principal) (ask : Ask) (item : ℕ)
        → Contains (names_of rows looker ask) item ↔ IsNamed (seen rows) looker ask item }
    ensures single { (rows : List ReadVersion) (looker : Option Principal) (ask : Ask)
        → IsTrue (are_distinct (names_of rows looker ask)) }
    ensures order { (rows : List ReadVersion) (looker : Option Principal) (ask : Ask)
        → names_of rows looker ask ≡ grown (seen rows) looker ask (names_of rows looker ask) }
    ensures one { (rows : List ReadVersion) (looker : Option Principal) (ask : Ask) (names : List ℕ)
        → names ≡ grown (seen rows) looker ask names
        → ((item : ℕ) → Contains names item → IsNamed (seen rows) looker ask item)
        → names ≡ names_of rows looker ask }
    ensures closed { (rows : List ReadVersion) (looker : Option Principal) (ask : Ask)
        → (is_closed looker ask rows ≡ true) ↔ IsClosed looker ask rows }
{}

/// A law: a snapshot makes a view exactly where it is closed, and the view has the ask and that snapshot. The ask is
/// given up exactly where a snapshot is not closed, and its read set is too large, or it is that of the last read.
/// Else exactly the read set is read next.
pub fn a_view_is_the_first_closed_read()
    ensures closed { (viewing : ViewingState) (looker : Option Principal) (rows : List ReadVersion) (view : ViewState)
        → (stepped looker viewing rows ≡ Closed view)
        ↔ (IsClosed looker viewing.ask rows × (view ≡ record { looker = looker; ask = viewing.ask; rows = rows })) }
    ensures wide { (viewing : ViewingState) (looker : Option Principal) (rows : List ReadVersion)
        → (stepped looker viewing rows ≡ Busy Wide)
        ↔ ((IsClosed looker viewing.ask rows → ⊥) × (MAX_READ_ITEMS < length (names_of rows looker viewing.ask))) }
    ensures rounds { (viewing : ViewingState) (looker : Option Principal) (rows : List ReadVersion)
        → (stepped looker viewing rows ≡ Busy Rounds)
        ↔ ((IsClosed looker viewing.ask rows → ⊥) × (length (names_of rows looker viewing.ask) ≤ MAX_READ_ITEMS)
        × (MAX_READS ≤ viewing.reads + 1)) }
    ensures again { (viewing next : ViewingState) (looker : Option Principal) (rows : List ReadVersion) (items : List ℕ)
        → (stepped looker viewing rows ≡ Again next items)
        ↔ ((IsClosed looker viewing.ask rows → ⊥) × (length (names_of rows looker viewing.ask) ≤ MAX_READ_ITEMS)
        × (viewing.reads + 1 < MAX_READS) × (items ≡ names_of rows looker viewing.ask)
        × (next ≡ record { ask = viewing.ask; reads = viewing.reads + 1 })) }
{}
