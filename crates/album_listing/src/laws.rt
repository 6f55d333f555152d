//! Laws of listings.
ghost use Rattle.std.specs.Prelude.{◌≡◌, ℕ, List, Option};
ghost use Rattle.album_eval.specs.declared.facts.Principal.{Principal};
ghost use Rattle.album_eval.specs.declared.policies.Policy.{Policy};
ghost use Rattle.album_eval.specs.declared.policies.Policy.TheVariants.{One};
ghost use Rattle.album_reader.specs.Answers.{ReadVersion};
ghost use Rattle.album_views.specs.declared.asks.Ask.{Ask};
ghost use Rattle.album_listing.specs.Agreement.{AgreeOn};
ghost use Rattle.album_listing.specs.Basis.{Basis};
ghost use Rattle.album_listing.specs.Listing.{listed, IsListing};
ghost use Rattle.album_listing.specs.declared.rows.Row.{Row};

/// A law: a listing looks at nothing that is not named. Where two snapshots agree on all that is named for the
/// ask by the one, a principal has the same rows on both; so on one snapshot there is one listing.
pub fn listings_look_at_what_is_named()
    ensures { (looker : Option Principal) (ask : Ask) (one other : List ReadVersion) (principal : Principal)
        (rows more : List Row)
        → AgreeOn looker ask one other
        → IsListing (record { looker = looker; ask = ask; rows = one }) principal rows
        → IsListing (record { looker = looker; ask = ask; rows = other }) principal more
        → rows ≡ more }
{}

/// A law: the rows that are listed are the same by each policy.
pub fn listings_are_alike()
    ensures { (basis : Basis) (policy : Policy) (album : ℕ)
        → listed (record basis { policy = policy }) album ≡ listed (record basis { policy = One }) album }
{}
