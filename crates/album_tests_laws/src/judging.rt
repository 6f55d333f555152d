//! What the store judges, and by what.
ghost use Rattle.std.specs.Prelude.{◌≡◌, ◌≢◌, ◌↔◌, ℕ, List, Some, IsTrue, Contains};
ghost use Rattle.album_access.specs.declared.masks.Mask.{Mask};
ghost use Rattle.album_lists.specs.declared.lists.Ace.{Ace};
ghost use Rattle.album_eval.specs.Verdict.{IsVerdict};
ghost use Rattle.album_eval.specs.declared.verdicts.Verdict.TheVariants.{Granted};
ghost use Rattle.album_items.specs.ItemIds.{list};
ghost use Rattle.album_items.specs.Values.{head_of};
ghost use Rattle.album_items.specs.declared.values.Head.{Head};
ghost use Rattle.album_items.specs.declared.values.Value.TheVariants as value;
ghost use Rattle.album_listing.specs.Basis.{Basis};
ghost use Rattle.album_views.specs.declared.asks.Ask.{Ask};
ghost use Rattle.album_listing.specs.Reasons.{reason_of, is_granted_on};
ghost use Rattle.album_listing.specs.declared.reasons.Alternative.{Alternative};
ghost use Rattle.album_listing.specs.declared.reasons.Reason.{Reason};
ghost use Rattle.album_permits.specs.Findings.{ruling_of};
ghost use Rattle.album_permits.specs.Needs.{needs_of};
ghost use Rattle.album_permits.specs.declared.findings.Finding.TheVariants.{Denied};
ghost use Rattle.album_tests_laws.specs.Asked.{IsNeeded};

/// A law: the store judges an object as `album judge` judges these facts. They are the principal and the policy, the
/// owner and the head group of the object itself, the entries of the list that it names, and the groups that the
/// principal is in.
pub fn the_store_judges_as_the_judge_does()
    ensures granted { (basis : Basis) (object : ℕ) (mask : Mask) (head : Head) (entries : List Ace)
        → head_of (basis.seen object) ≡ Some head
        → basis.seen (list head.list) ≡ value.List entries
        → IsTrue (is_granted_on basis object mask) ↔ IsVerdict (record {
          policy = basis.policy;
          principal = basis.principal;
          owner = head.owner;
          head_group = head.group;
          is_in = basis.is_in;
        }) entries mask Granted }
    ensures reason { (basis : Basis) (alternative : Alternative) (reason : Reason) (head : Head) (entries : List Ace)
        → head_of (basis.seen alternative.object) ≡ Some head
        → basis.seen (list head.list) ≡ value.List entries
        → reason_of basis alternative ≡ Some reason
        → (reason.object ≡ alternative.object) × (reason.mask ≡ alternative.mask) × IsVerdict (record {
          policy = basis.policy;
          principal = basis.principal;
          owner = head.owner;
          head_group = head.group;
          is_in = basis.is_in;
        }) entries alternative.mask reason.verdict }
{}

/// A law: each reason of a denial is of a right that the ask needs, and says what the list of its object says of that
/// right: it isn't granted, and the first entry that denies it is named, or the list's end.
pub fn denials_name_what_denies()
    ensures { (basis : Basis) (ask : Ask) (reasons : List Reason) (reason : Reason) (head : Head) (entries : List Ace)
        → ruling_of basis ask ≡ Denied reasons
        → Contains reasons reason
        → head_of (basis.seen reason.object) ≡ Some head
        → basis.seen (list head.list) ≡ value.List entries
        → IsNeeded (needs_of basis.seen ask) reason.object reason.mask
        × (reason.verdict ≢ Granted)
        × IsVerdict (record {
          policy = basis.policy;
          principal = basis.principal;
          owner = head.owner;
          head_group = head.group;
          is_in = basis.is_in;
        }) entries reason.mask reason.verdict }
{}
