//! The levels of a walk, in room of their own: so a walk takes no memory.

ghost use Rattle.std.specs.Prelude.{◌≡◌, ◌<◌, ◌∷◌, [], length, MatchOption};

use std::marker::Model;

/// On the way down to where a walk is, each node with the index of its next child, the lowest node first. They are no
/// more than a tree has nodes.
#[derive(Drop)]
pub(crate) struct Levels {
    places: [(u32, u32); 8192],
    len: usize,
}

impl Model for Levels {
    ghost use Rattle.std.specs.Prelude.{ℕ, List, take, reverse, ◌≤◌};
    ghost use Rattle.std.specs.Coded.{coded_list, coded×, coded_ℕ};

    ghost Value = { List (ℕ × ℕ) };

    ghost coded = { coded_list (coded× coded_ℕ coded_ℕ) };

    ghost view = { λ s. reverse (take s.len s.places) };

    ghost invariant = { λ s. s.len ≤ 8192 };
}

impl Levels {
    /// None.
    pub(crate) fn new() -> Levels
        ensures { result ≡ [] }
    {
        Levels {
            places: [(0, 0); 8192],
            len: 0,
        }
    }

    /// One more, below the others.
    pub(crate) fn push(&mut self, node: u32, next: u32)
        requires { length self.old < 8192 }
        ensures { self.new ≡ (node, next) ∷ self.old }
    {
        self.places[self.len] = (node, next);
        self.len += 1;
    }

    /// The lowest.
    pub(crate) fn pop(&mut self) -> Option<(u32, u32)>
        ensures { MatchOption result ((self.old ≡ []) × (self.new ≡ [])) (λ place. self.old ≡ place ∷ self.new) }
    {
        if self.len == 0 {
            return None;
        }
        self.len -= 1;
        Some(self.places[self.len])
    }
}
