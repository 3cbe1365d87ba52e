//! Worked cases of the numbers of nodes.

ghost use Rattle.std.specs.Prelude.{[], ◌∷◌, codes};
ghost use Rattle.atspi_tree_model.specs.Tree.{root_seed};
ghost use Rattle.atspi_tree_model.specs.declared.step.Step.TheVariants.{Add, Remove};
ghost use Rattle.atspi_trace.specs.Entry.{changed, quiet};
ghost use Rattle.atspi_trace_laws.specs.steps.Laws.{NumberIsNew};

/// The first node that an application adds may have the number 1, but not the root's, 0. Behind that the next may have
/// 2, and not 1 again, not even where node 1 was taken out between; another application may have a node 1 of its own.
/// Of any other entry nothing is said.
pub fn new_numbers()
    ensures first { NumberIsNew [] (changed 0 (Add 1 0 0 (root_seed (codes "a")))) [] }
    ensures of_the_root { NumberIsNew [] (changed 0 (Add 0 0 0 (root_seed (codes "a")))) [] → ⊥ }
    ensures second { NumberIsNew (changed 0 (Add 1 0 0 (root_seed (codes "a"))) ∷ [])
        (changed 0 (Add 2 0 0 (root_seed (codes "b")))) [] }
    ensures again { NumberIsNew (changed 0 (Add 1 0 0 (root_seed (codes "a"))) ∷ [])
        (changed 0 (Add 1 0 0 (root_seed (codes "b")))) [] → ⊥ }
    ensures behind_its_removal { NumberIsNew (changed 0 (Add 1 0 0 (root_seed (codes "a"))) ∷ changed 0 (Remove 1) ∷ [])
        (changed 0 (Add 1 0 0 (root_seed (codes "b")))) [] → ⊥ }
    ensures of_another { NumberIsNew (changed 0 (Add 1 0 0 (root_seed (codes "a"))) ∷ [])
        (changed 1 (Add 1 0 0 (root_seed (codes "b")))) [] }
    ensures anything { NumberIsNew (changed 0 (Add 1 0 0 (root_seed (codes "a"))) ∷ []) quiet [] }
{}
