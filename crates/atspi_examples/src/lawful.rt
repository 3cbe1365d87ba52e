//! When a forest is a tree, and when a step applies to one. Each condition has a case that fails by it alone.

ghost use Rattle.std.specs.Prelude.{◌≡◌, ◌≤◌, ◌<◌, ◌∷◌, [], ℕ, List, length, encode_utf8_all, true};
ghost use Rattle.atspi_tree_model.specs.Forest.{Forest, nil, tree, count, EachLabel};
ghost use Rattle.atspi_tree_model.specs.Row.{TreeRow};
ghost use Rattle.atspi_tree_model.specs.RowRules.{rows, shapes};
ghost use Rattle.atspi_tree_model.specs.Tree.{is_node, IsRooted, HasTargets, IsTree, Adds, Removes, Moves, Applies};
ghost use Rattle.atspi_tree_model.specs.Tree.{AllApply};
ghost use Rattle.atspi_examples.specs.Room.{bare, root, button, entry, hello, room, plain, full_seed, with_columns};
ghost use Rattle.atspi_examples.specs.Room.{small};

use atspi_tree_model::Step;

/// A forest that has all parts of a tree is one, at its limits too: 8,192 nodes, 4,294,967,295 of them ever added.
pub fn trees()
    ensures { (f : Forest TreeRow) → IsRooted rows f → ((n : ℕ) → count (is_node n) f ≤ 1)
        → ((n : ℕ) → 4294967295 < n → count (is_node n) f ≡ 0) → count (λ row. true) f ≡ 8192
        → EachLabel rows.IsLawful f → EachLabel (λ row. HasTargets rows f (rows.targets row)) f
        → IsTree rows f 4294967295 }
{}

/// No tree: without a root; with a number twice, or above the count; with too many nodes, now or ever; with a row
/// outside its limits; or with a target that is no node.
pub fn no_trees()
    ensures rootless { IsTree rows nil 0 → ⊥ }
    ensures twice { IsTree rows (small (bare 1 0) (bare 1 0)) 2 → ⊥ }
    ensures numbered { IsTree rows (small (bare 1 0) (bare 3 0)) 2 → ⊥ }
    ensures many { (f : Forest TreeRow) → count (λ row. true) f ≡ 8193 → IsTree rows f 4294967295 → ⊥ }
    ensures many_ever { IsTree rows (small (bare 1 0) (bare 2 0)) 4294967296 → ⊥ }
    ensures limits { (x : List ℕ) → length (encode_utf8_all x) ≡ 512
        → IsTree rows (small (bare 1 0) (record (bare 2 0) { shape = record (bare 2 0).shape { name = x } })) 2 → ⊥ }
    ensures targets { IsTree rows
        (small (bare 1 0) (record (bare 2 0) { shape = record (bare 2 0).shape { relations = (1, 5) ∷ [] } })) 2
        → ⊥ }
{}

/// An addition takes the next number, below a node, at an index that there is, while there is room, with a seed in its
/// limits.
pub fn additions()
    ensures applies { Applies rows room 4294967294 (Step.Add 4294967295 1 3 full_seed) }
    ensures number { Adds rows room 12 12 1 3 full_seed → ⊥ }
    ensures parent { Adds rows room 12 13 99 0 full_seed → ⊥ }
    ensures index { Adds rows room 12 13 1 4 full_seed → ⊥ }
    ensures room { (f : Forest TreeRow) → count (λ row. true) f ≡ 8192 → Adds rows f 12 13 0 0 full_seed → ⊥ }
    ensures room_ever { Adds rows room 4294967295 4294967296 1 3 full_seed → ⊥ }
    ensures lawful { Adds rows room 12 13 1 3 (with_columns 0) → ⊥ }
{}

/// Any node but the root is removed; a node moves to another place that there is, and not below itself.
pub fn removals_and_moves()
    ensures remove { Applies rows room 12 (Step.Remove 1) }
    ensures remove_root { Removes rows room 0 → ⊥ }
    ensures remove_none { Removes rows room 99 → ⊥ }
    ensures moved { Applies rows room 12 (Step.Move 4 1 2) }
    ensures moved_elsewhere { Applies rows room 12 (Step.Move 4 7 1) }
    ensures moved_below_root { Applies rows room 12 (Step.Move 4 0 0) }
    ensures move_root { Moves rows (tree root nil (tree button nil nil)) 0 3 0 → ⊥ }
    ensures move_none { Moves rows room 99 1 0 → ⊥ }
    ensures move_below { Moves rows room 1 4 0 → ⊥ }
    ensures move_index { Moves rows room 4 1 3 → ⊥ }
    ensures move_nowhere { Moves rows room 4 1 1 → ⊥ }
{}

/// A row is changed that is there, has what the step names, and keeps its limits; targets are nodes.
pub fn changes()
    ensures name { (x : List ℕ) → length (encode_utf8_all x) ≡ 511 → Applies rows room 12 (Step.SetName 3 x) }
    ensures no_node { Applies rows room 12 (Step.SetRole 99 1) → ⊥ }
    ensures long_name { (x : List ℕ) → length (encode_utf8_all x) ≡ 512 → Applies rows room 12 (Step.SetName 3 x) → ⊥ }
    ensures state { Applies rows room 12 (Step.SetState 3 43 true) }
    ensures no_state { Applies rows room 12 (Step.SetState 3 44 true) → ⊥ }
    ensures first_kind { Applies rows room 12 (Step.Relate 3 1 (2 ∷ [])) }
    ensures last_kind { Applies rows room 12 (Step.Relate 3 18 (2 ∷ [])) }
    ensures no_kind { Applies rows room 12 (Step.Relate 3 0 (2 ∷ [])) → ⊥ }
    ensures kind_behind { Applies rows room 12 (Step.Relate 3 19 (2 ∷ [])) → ⊥ }
    ensures no_target { Applies rows room 12 (Step.Relate 3 1 (99 ∷ [])) → ⊥ }
{}

/// A text is changed that is there, at a place in it; what is deleted stands there; a caret and a selection stay in it.
pub fn text_changes()
    ensures insert { Applies rows room 12 (Step.Insert 2 5 hello) }
    ensures insert_behind { Applies rows room 12 (Step.Insert 2 6 hello) → ⊥ }
    ensures insert_none { Applies rows room 12 (Step.Insert 3 0 hello) → ⊥ }
    ensures delete { Applies rows room 12 (Step.Delete 2 3 (108 ∷ 111 ∷ [])) }
    ensures delete_other { Applies rows room 12 (Step.Delete 2 3 (108 ∷ 108 ∷ [])) → ⊥ }
    ensures delete_none { Applies rows room 12 (Step.Delete 3 0 []) → ⊥ }
    ensures caret { Applies rows room 12 (Step.Caret 2 5) }
    ensures caret_behind { Applies rows room 12 (Step.Caret 2 6) → ⊥ }
    ensures caret_none { Applies rows room 12 (Step.Caret 3 0) → ⊥ }
    ensures select { Applies rows room 12 (Step.TextSelect 2 ((0, 5) ∷ [])) }
    ensures select_behind { Applies rows room 12 (Step.TextSelect 2 ((0, 6) ∷ [])) → ⊥ }
    ensures select_none { Applies rows room 12 (Step.TextSelect 3 []) → ⊥ }
{}

/// What a shape asks of a step about a text is that there is one.
pub fn shape_changes()
    ensures insert { shapes.Allows (Step.Insert 3 0 hello) button.shape → ⊥ }
    ensures delete { shapes.Allows (Step.Delete 3 0 []) button.shape → ⊥ }
    ensures caret { shapes.Allows (Step.Caret 3 0) button.shape → ⊥ }
    ensures select { shapes.Allows (Step.TextSelect 3 []) button.shape → ⊥ }
    ensures insert_text { shapes.Allows (Step.Insert 2 0 hello) entry.shape }
    ensures any { shapes.Allows (Step.SetRole 3 1) button.shape }
{}

/// Of several steps each applies to the tree after the steps before it, and after so many additions.
pub fn many_steps()
    ensures all { AllApply rows room 12
        (Step.Add 13 1 0 full_seed ∷ Step.Add 14 13 0 (plain 0 []) ∷ Step.Remove 13 ∷ []) }
    ensures gone { AllApply rows room 12 (Step.Remove 1 ∷ Step.SetRole 4 1 ∷ []) → ⊥ }
    ensures number { AllApply rows room 12 (Step.Add 13 1 0 full_seed ∷ Step.Add 13 1 0 full_seed ∷ []) → ⊥ }
{}
