//! Which nodes are there, as `make` follows them from edit to edit.

ghost use Rattle.std.specs.Prelude.{◌≡◌, ◌∷◌, [], codes};
ghost use Rattle.atspi_app_known.specs.application.Seen.{shape_seen};
ghost use Rattle.atspi_run_make.specs.Live.{CanFollow, below, live_from, there_of};
ghost use Rattle.atspi_protocol.specs.exporting.Exporter.{begins};
ghost use Rattle.atspi_tree.specs.TreeShape.{root_alone};
ghost use Rattle.atspi_run_examples.specs.make.Small.{small};

/// Numbers below another, and those of nodes that are there, rising from a first one on: in the small tree 0, 2, 3 and
/// 5 are there, and 1 and 4 are gone.
pub fn numbers()
    ensures none { below 0 ≡ [] }
    ensures three { below 3 ≡ 0 ∷ 1 ∷ 2 ∷ [] }
    ensures there { there_of small (5 ∷ 1 ∷ 2 ∷ 9 ∷ []) ≡ 5 ∷ 2 ∷ [] }
    ensures all { live_from 0 small ≡ 0 ∷ 2 ∷ 3 ∷ 5 ∷ [] }
    ensures from_2 { live_from 2 small ≡ 2 ∷ 3 ∷ 5 ∷ [] }
    ensures from_3 { live_from 3 small ≡ 3 ∷ 5 ∷ [] }
    ensures last { live_from 5 small ≡ 5 ∷ [] }
    ensures behind { live_from 6 small ≡ [] }
{}

/// What was seen can be followed where it has each node below a number that is there; what is gone does not count.
pub fn followed()
    ensures some { CanFollow (0 ∷ 2 ∷ []) 3 small }
    ensures gone { CanFollow (0 ∷ 1 ∷ 2 ∷ []) 3 small }
    ensures lost { CanFollow (0 ∷ []) 3 small → ⊥ }
    ensures fewer { CanFollow (0 ∷ []) 2 small }
    ensures nothing { CanFollow [] 0 small }
{}

/// Of an application that was started `make` sees the root alone.
pub fn seen()
    ensures { shape_seen (begins (codes "Made")) ≡ root_alone (codes "Made") }
{}
