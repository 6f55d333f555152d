//! What passes the check of an ask, before anything is read.
ghost use Rattle.std.specs.Prelude.{◌≡◌, ◌≢◌, ◌≤◌, ℕ, List, None, length, Contains};
ghost use Rattle.std.specs.Int.RustNames.{bit_and};
ghost use Rattle.album_stamps.specs.declared.limits.TheConstants.{MAX_MEMBERS};
ghost use Rattle.album_access.specs.Bits.{flag_bits};
ghost use Rattle.album_lists.specs.declared.lists.Ace.{Ace};
ghost use Rattle.album_lists.specs.declared.whos.Member.{Member};
ghost use Rattle.album_items.specs.ItemIds.{kind_of};
ghost use Rattle.album_views.specs.Checks.{flaw_of};
ghost use Rattle.album_views.specs.declared.asks.Ask.TheVariants as ask;
ghost use Rattle.album_views.specs.declared.asks.NewList.{NewList};
ghost use Rattle.album_views.specs.declared.asks.NewMembership.{NewMembership};

/// A law: a list that passes has none of the four flags of inheritance (15 together), unless an album (kind 1) is to
/// carry it; and a group that passes has at most `MAX_MEMBERS` members.
pub fn what_passes_fits()
    ensures lists { (lists : List NewList) (new : NewList) (entry : Ace)
        → flaw_of (ask.SetLists lists) ≡ None
        → Contains lists new → kind_of new.object ≢ 1 → Contains new.list entry
        → bit_and (flag_bits entry.flags) 15 ≡ 0 }
    ensures shared { (lists : List NewList) (members : List NewMembership) (new : NewList) (entry : Ace)
        → flaw_of (ask.Share lists members) ≡ None
        → Contains lists new → kind_of new.object ≢ 1 → Contains new.list entry
        → bit_and (flag_bits entry.flags) 15 ≡ 0 }
    ensures members { (object : ℕ) (members : List Member)
        → flaw_of (ask.SetMembers object members) ≡ None → length members ≤ MAX_MEMBERS }
    ensures groups { (lists : List NewList) (members : List NewMembership) (new : NewMembership)
        → flaw_of (ask.Share lists members) ≡ None
        → Contains members new → length new.members ≤ MAX_MEMBERS }
    ensures made { (into : ℕ) (members : List Member)
        → flaw_of (ask.AddGroup into members) ≡ None → length members ≤ MAX_MEMBERS }
{}
