//! Cells of tables of two and of three columns.

ghost use Rattle.std.specs.Prelude.{◌≡◌, ℕ};
ghost use Rattle.atspi_hit.specs.Cells.{IsNeighbour, cells, seat};
ghost use Rattle.atspi_hit.specs.declared.cells.Way.TheVariants as ways;

/// The children that fill whole rows are cells.
pub fn counts()
    ensures whole { cells 4 2 ≡ 4 }
    ensures one_more { cells 5 2 ≡ 4 }
    ensures too_few { cells 2 3 ≡ 0 }
    ensures no_columns { cells 5 0 ≡ 0 }
    ensures seats { seat 3 7 ≡ (2, 1) }
{}

/// Of four cells in two columns.
pub fn of_four()
    ensures down { IsNeighbour 4 2 ways.Down 1 3 }
    ensures up { IsNeighbour 4 2 ways.Up 2 0 }
    ensures left { IsNeighbour 4 2 ways.Left 3 2 }
    ensures right { IsNeighbour 4 2 ways.Right 0 1 }
    ensures not_along { (to : ℕ) → IsNeighbour 4 2 ways.Right 1 to → ⊥ }
    ensures not_back { (to : ℕ) → IsNeighbour 4 2 ways.Left 2 to → ⊥ }
    ensures not_above { (to : ℕ) → IsNeighbour 4 2 ways.Up 1 to → ⊥ }
{}

/// A child behind the last whole row is no cell.
pub fn of_five()
    ensures not_below { IsNeighbour 5 2 ways.Down 2 4 → ⊥ }
    ensures seven { IsNeighbour 7 3 ways.Down 2 5 }
    ensures not_seven { IsNeighbour 7 3 ways.Down 3 6 → ⊥ }
{}
