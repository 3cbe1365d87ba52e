//! Worked examples: how often a connection stands in a list.

ghost use Rattle.std.specs.Prelude.{◌≡◌, [], ◌∷◌};
ghost use Rattle.atspi_bus_laws.specs.owners.Orderly.{times};

/// A connection that is absent, one that is the owner, one that waits, and one that stands twice.
pub fn standing()
    ensures absent { times 3 ((1, 0) ∷ (2, 4) ∷ []) ≡ 0 }
    ensures owner { times 1 ((1, 0) ∷ (2, 4) ∷ []) ≡ 1 }
    ensures waits { times 2 ((1, 0) ∷ (2, 4) ∷ []) ≡ 1 }
    ensures twice { times 2 ((2, 0) ∷ (1, 2) ∷ (2, 4) ∷ []) ≡ 2 }
    ensures nobody { times 0 [] ≡ 0 }
{}
