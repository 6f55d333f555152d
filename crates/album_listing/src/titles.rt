//! A law of the titles in a listing.
ghost use Rattle.std.specs.Prelude.{ℕ, Contains};
ghost use Rattle.album_listing.specs.Basis.{Basis};
ghost use Rattle.album_listing.specs.Listing.{listed};
ghost use Rattle.album_listing.specs.Showing.{MayBeShown};
ghost use Rattle.album_listing.specs.declared.rows.Row.{Row};

/// A law: a title is shown only where READ_ATTRIBUTES is granted on its child, and each child on which it is granted
/// is listed with its title, where its home is the album.
pub fn titles_are_shown_where_granted()
    ensures shown { (basis : Basis) (album : ℕ) (row : Row)
        → Contains (listed basis album) row → MayBeShown basis album row }
    ensures all { (basis : Basis) (album : ℕ) (row : Row)
        → MayBeShown basis album row → Contains (listed basis album) row }
{}
