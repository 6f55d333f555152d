//! Laws of what a grant means, and of what it lets be written.
ghost use Rattle.std.specs.Prelude.{◌≡◌, ◌↔◌, ℕ, List, IsTrue, Contains};
ghost use Rattle.album_items.specs.Transactions.{items_written};
ghost use Rattle.album_listing.specs.Basis.{Basis};
ghost use Rattle.album_views.specs.Seen.{seen};
ghost use Rattle.album_views.specs.declared.asks.Ask.{Ask};
ghost use Rattle.album_views.specs.declared.asks.Ask.TheVariants.{Share};
ghost use Rattle.album_views.specs.declared.asks.NewList.{NewList};
ghost use Rattle.album_views.specs.declared.asks.NewMembership.{NewMembership};
ghost use Rattle.album_permits.specs.Effects.{Write, effect_of};
ghost use Rattle.album_permits.specs.Findings.{ruling_of};
ghost use Rattle.album_permits.specs.Meaning.{has_needs_met, MayWrite, items_shared};
ghost use Rattle.album_permits.specs.Permits.{PermitState};
ghost use Rattle.album_permits.specs.declared.findings.Finding.TheVariants.{Granted};

/// A law: an ask is granted exactly where each of its needs is met: its objects are there, and the list of one of them
/// grants what is needed of it.
pub fn granted_where_each_need_is_met()
    ensures { (basis : Basis) (ask : Ask) → (ruling_of basis ask ≡ Granted) ↔ IsTrue (has_needs_met basis ask) }
{}

/// A law: an ask writes nothing but what it makes, the objects on which it needs more than a right to read, and their
/// lists.
pub fn what_is_written_is_needed()
    ensures { (permit : PermitState) (stamp : ℕ) (write : Write) → Contains (effect_of permit stamp) write
        → MayWrite (seen permit.view.rows) stamp permit.view.ask write.0 }
{}

/// A law: a share writes the list of each of its objects, and each of its groups.
pub fn a_share_writes_each_of_its_items()
    ensures { (permit : PermitState) (stamp : ℕ) (lists : List NewList) (members : List NewMembership) (item : ℕ)
        → permit.view.ask ≡ Share lists members
        → Contains (items_shared (seen permit.view.rows) lists members) item
        → Contains (items_written (effect_of permit stamp)) item }
{}
