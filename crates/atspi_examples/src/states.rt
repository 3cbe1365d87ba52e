//! States: sets of them as numbers.

ghost use Rattle.std.specs.Prelude.{◌≡◌, ◌+◌, ◌^◌, true, false};
ghost use Rattle.atspi_tree_model.specs.States.{has_state, with_state, first_states};

/// State 3 has the bit of 8. A state of 64 or more is none.
pub fn sets()
    ensures there { has_state 3 12 ≡ true }
    ensures absent { has_state 3 7 ≡ false }
    ensures on { with_state 3 true 4 ≡ 12 }
    ensures on_again { with_state 3 true 12 ≡ 12 }
    ensures off { with_state 3 false 12 ≡ 4 }
    ensures off_again { with_state 3 false 4 ≡ 4 }
    ensures first { with_state 0 false 3 ≡ 2 }
    ensures last { with_state 63 true 1 ≡ 2 ^ 63 + 1 }
    ensures last_off { with_state 63 false (2 ^ 63 + 1) ≡ 1 }
    ensures no_state { with_state 64 true 1 ≡ 1 }
    ensures no_state_off { with_state 64 false (2 ^ 64 + 1) ≡ 2 ^ 64 + 1 }
{}

/// A new node is enabled (8), sensitive (24), showing (25) and visible (30).
pub fn first()
    ensures { first_states ≡ 2 ^ 8 + 2 ^ 24 + 2 ^ 25 + 2 ^ 30 }
{}
