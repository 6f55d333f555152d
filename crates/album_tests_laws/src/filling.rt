//! How many children an album may get.
ghost use Rattle.std.specs.Prelude.{◌≡◌, ◌≤◌, false, ℕ, length, Contains};
ghost use Rattle.album_stamps.specs.declared.limits.TheConstants.{MAX_CHILDREN};
ghost use Rattle.album_items.specs.Values.{children_of};
ghost use Rattle.album_items.specs.declared.values.Value.{Value};
ghost use Rattle.album_views.specs.Seen.{seen};
ghost use Rattle.album_permits.specs.Effects.{effect_of, is_full_for};
ghost use Rattle.album_permits.specs.Permits.{PermitState};

/// A law: an album that has at most `MAX_CHILDREN` children has no more afterwards, whatever is written where there is
/// room for it.
pub fn albums_keep_to_their_limit()
    ensures { (permit : PermitState) (stamp item : ℕ) (is : Value)
        → is_full_for permit stamp ≡ false
        → length (children_of (seen permit.view.rows item)) ≤ MAX_CHILDREN
        → Contains (effect_of permit stamp) (item, is)
        → length (children_of is) ≤ MAX_CHILDREN }
{}
