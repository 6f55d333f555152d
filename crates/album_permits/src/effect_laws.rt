//! A law of what permits write.
ghost use Rattle.std.specs.Prelude.{◌≡◌, ℕ, IsTrue};
ghost use Rattle.std.specs.List.{list_all};
ghost use Rattle.album_items.specs.Transactions.{items_written, are_items, has_right_kind};
ghost use Rattle.album_permits.specs.Effects.{effect_of};
ghost use Rattle.album_views.specs.Asks.{is_write};
ghost use Rattle.album_permits.specs.Kinds.{shows_right_kinds};
ghost use Rattle.album_permits.specs.Permits.{PermitState, IsPermit};

/// A law: what the ask of a permit writes is what one transaction may write, at whatever stamp. There are items, at
/// most 16, and none occurs twice; and where each value in the view is of its item's kind, so is each that is written.
pub fn an_effect_is_one_transaction()
    ensures items { (permit : PermitState) (stamp : ℕ) → IsPermit permit → IsTrue (is_write permit.view.ask)
        → IsTrue (are_items (items_written (effect_of permit stamp))) }
    ensures kinds { (permit : PermitState) (stamp : ℕ) → IsTrue (shows_right_kinds permit.view.rows)
        → IsTrue (list_all has_right_kind (effect_of permit stamp)) }
{}
