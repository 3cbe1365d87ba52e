//! Several edits in a row.

ghost use Rattle.std.specs.Prelude.{◌≡◌, ◌∷◌, [], codes};
ghost use Rattle.atspi_tree_model.specs.Forest.{find};
ghost use Rattle.atspi_tree_model.specs.RowRules.{rows};
ghost use Rattle.atspi_tree_model.specs.Tree.{is_node, first_tree};
ghost use Rattle.atspi_examples.specs.Room.{room, nodes, plain, entry_with};
ghost use Rattle.atspi_examples.specs.Edited.{edited};

use atspi_tree_model::Edit;

/// Two panels below the root, a label below the first, and then the first panel below the second; a refusal between.
pub fn a_panel_moves()
    ensures places { nodes
        (edited (first_tree rows (codes "T"), 0)
        (Edit.Insert 0 0 (plain 39 []) ∷ Edit.Insert 0 1 (plain 39 []) ∷ Edit.Remove 0
        ∷ Edit.Insert 1 0 (plain 29 []) ∷ Edit.Move 1 2 0 ∷ [])).0
        ≡ (None, 0, 0) ∷ (Some 0, 0, 2) ∷ (Some 2, 0, 1) ∷ (Some 1, 0, 3) ∷ [] }
    ensures count { (edited (first_tree rows (codes "T"), 0)
        (Edit.Insert 0 0 (plain 39 []) ∷ Edit.Remove 1 ∷ Edit.Insert 0 0 (plain 39 []) ∷ [])).1 ≡ 2 }
{}

/// The entry's text, with the caret at 3: two characters before it are cut, one is put behind it, and one is typed.
pub fn a_text_changes()
    ensures { find (is_node 2)
        (edited (room, 12) (Edit.Cut 2 1 3 ∷ Edit.Put 2 3 (codes "!") ∷ Edit.Keys 2 (233 ∷ []) ∷ [])).0
        ≡ entry_with (record { characters = 104 ∷ 233 ∷ 108 ∷ 111 ∷ 33 ∷ []; caret = 2; selections = [] }) }
{}
