//! A law of what listings do not disclose.
ghost use Rattle.std.specs.Prelude.{◌≡◌, ℕ, List, IsTrue};
ghost use Rattle.album_eval.specs.declared.facts.Principal.{Principal};
ghost use Rattle.album_eval.specs.declared.policies.Policy.{Policy};
ghost use Rattle.album_reader.specs.Answers.{ReadVersion};
ghost use Rattle.album_views.specs.ReadSets.{looker_of};
ghost use Rattle.album_views.specs.declared.asks.Ask.TheVariants as ask;
ghost use Rattle.album_listing.specs.Disclosure.{AreAlikeFor};
ghost use Rattle.album_listing.specs.GroupsFound.{basis_on};
ghost use Rattle.album_listing.specs.Listing.{IsListing};
ghost use Rattle.album_listing.specs.Masks.{LIST_DIRECTORY};
ghost use Rattle.album_listing.specs.Reasons.{is_granted_on};
ghost use Rattle.album_listing.specs.declared.rows.Row.{Row};

/// A law: a listing discloses nothing that the principal may not read. Of an album that it may list, a principal is
/// listed the same rows on two snapshots that are alike for it.
pub fn listings_disclose_nothing()
    ensures { (policy : Policy) (principal : Principal) (album : ℕ)
        (one other : List ReadVersion) (rows more : List Row)
        → AreAlikeFor policy principal (ask.List album) one other
        → IsTrue (is_granted_on (basis_on policy principal one) album LIST_DIRECTORY)
        → IsListing (record { looker = looker_of policy principal; ask = ask.List album; rows = one }) principal rows
        → IsListing (record { looker = looker_of policy principal; ask = ask.List album; rows = other }) principal more
        → rows ≡ more }
{}
