//! What an opening may name.
ghost use Rattle.std.specs.Prelude.{◌≡◌, ◌<◌, ◌≤◌, ℕ, Some, Ok, IsTrue, Contains};
ghost use Rattle.album_stamps.specs.Clocks.{ClockState, next_of};
ghost use Rattle.album_items.specs.ItemIds.{number_of};
ghost use Rattle.album_items.specs.Openings.{Row, is_base_opening};
ghost use Rattle.album_items.specs.Values.{head_of, home_of, children_of};
ghost use Rattle.album_items.specs.declared.openings.Opening.{Opening};
ghost use Rattle.album_items.specs.declared.values.Head.{Head};

/// A law: no opening, and nothing that an epoch leaves, has or names an item with the number of a stamp that is drawn
/// by a clock that has reached its first counter. So what a request makes is new, and no object of the opening has its
/// list or takes it into itself. (The number of a head's group may be any.)
pub fn what_is_drawn_is_named_by_no_opening()
    ensures item { (opening : Opening) (row : Row) (clock : ClockState) (stamp : ℕ)
        → IsTrue (is_base_opening opening) → Contains opening.items row → opening.first ≤ clock.counter
        → next_of clock ≡ Ok stamp
        → number_of row.0 < stamp }
    ensures list { (opening : Opening) (row : Row) (head : Head) (clock : ClockState) (stamp : ℕ)
        → IsTrue (is_base_opening opening) → Contains opening.items row → opening.first ≤ clock.counter
        → next_of clock ≡ Ok stamp
        → head_of row.1 ≡ Some head → head.list < stamp }
    ensures home { (opening : Opening) (row : Row) (home : ℕ) (clock : ClockState) (stamp : ℕ)
        → IsTrue (is_base_opening opening) → Contains opening.items row → opening.first ≤ clock.counter
        → next_of clock ≡ Ok stamp
        → Contains (home_of row.1) home → number_of home < stamp }
    ensures child { (opening : Opening) (row : Row) (child : ℕ) (clock : ClockState) (stamp : ℕ)
        → IsTrue (is_base_opening opening) → Contains opening.items row → opening.first ≤ clock.counter
        → next_of clock ≡ Ok stamp
        → Contains (children_of row.1) child → number_of child < stamp }
{}
