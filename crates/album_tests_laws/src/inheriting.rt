//! What is inherited over several generations (RFC 7530, section 6.2.1.4.1).
ghost use Rattle.std.specs.Prelude.{◌≡◌, List, filter, not};
ghost use Rattle.album_access.specs.Bits.{has_flag};
ghost use Rattle.album_lists.specs.Inheritance.{inherited};
ghost use Rattle.album_lists.specs.declared.lists.Ace.{Ace};
ghost use Rattle.album_lists.specs.declared.lists.Holder.{Holder};
ghost use Rattle.album_lists.specs.declared.lists.Holder.TheVariants.{Folder};

/// A law: what is made in an album inherits of it what it would inherit of that album's own home. Only entries with
/// NO_PROPAGATE_INHERIT (4) end one level below the list that has them.
pub fn inheritance_goes_down()
    ensures { (heir : Holder) (entries : List Ace)
        → inherited heir (inherited Folder entries)
        ≡ inherited heir (filter (λ (entry : Ace). not (has_flag 4 entry.flags)) entries) }
{}
