//! What each step makes of the room, and when it applies.

ghost use Rattle.std.specs.Prelude.{◌≡◌, ◌∷◌, [], true, false};
ghost use Rattle.atspi_tree_model.specs.Forest.{nil, tree};
ghost use Rattle.atspi_tree_model.specs.RowRules.{rows};
ghost use Rattle.atspi_tree_model.specs.Tree.{is_node, is_shape, shape_of, node_of, in_subtree, after, added_after};
ghost use Rattle.atspi_tree_model.specs.Tree.{seat_of, IsRooted, HasTargets, first_tree};
ghost use Rattle.atspi_examples.specs.Room.{bare, root, button, entry, entry_with, hello, hello_there, room, nodes};
ghost use Rattle.atspi_examples.specs.Room.{row_after, full_seed};

use atspi_tree_model::Step;

/// A new node stands where the step says; its row is that of its seed.
pub fn add()
    ensures places { nodes (after rows room (Step.Add 13 7 1 full_seed))
        ≡ (None, 0, 0) ∷ (Some 0, 0, 1) ∷ (Some 1, 0, 6) ∷ (Some 1, 1, 4) ∷ (Some 1, 2, 5) ∷ (Some 0, 1, 2)
        ∷ (Some 0, 2, 3) ∷ (Some 0, 3, 7) ∷ (Some 7, 0, 8) ∷ (Some 7, 1, 13) ∷ (Some 7, 2, 9) ∷ (Some 0, 4, 10)
        ∷ [] }
    ensures row { row_after (Step.Add 13 7 1 full_seed) 13 ≡ Some (rows.first 13 full_seed) }
    ensures others { row_after (Step.Add 13 7 1 full_seed) 2 ≡ Some entry }
{}

/// A node goes with all that is below it, and relations lose their targets there.
pub fn remove()
    ensures places { nodes (after rows room (Step.Remove 1))
        ≡ (None, 0, 0) ∷ (Some 0, 0, 2) ∷ (Some 0, 1, 3) ∷ (Some 0, 2, 7) ∷ (Some 7, 0, 8) ∷ (Some 7, 1, 9)
        ∷ (Some 0, 3, 10) ∷ [] }
    ensures relations { row_after (Step.Remove 1) 2
        ≡ Some (record entry { shape = record entry.shape { relations = (1, 3) ∷ [] } }) }
    ensures one_relation { row_after (Step.Remove 3) 2
        ≡ Some (record entry { shape = record entry.shape { relations = (2, 4) ∷ (1, 5) ∷ [] } }) }
    ensures gone { row_after (Step.Remove 1) 4 ≡ None }
{}

/// A node goes elsewhere with all that is below it; rows stay as they are.
pub fn moves()
    ensures places { nodes (after rows room (Step.Move 1 7 1))
        ≡ (None, 0, 0) ∷ (Some 0, 0, 2) ∷ (Some 0, 1, 3) ∷ (Some 0, 2, 7) ∷ (Some 7, 0, 8) ∷ (Some 7, 1, 1)
        ∷ (Some 1, 0, 6) ∷ (Some 1, 1, 4) ∷ (Some 1, 2, 5) ∷ (Some 7, 2, 9) ∷ (Some 0, 3, 10) ∷ [] }
    ensures among_siblings { nodes (after rows room (Step.Move 6 1 2))
        ≡ (None, 0, 0) ∷ (Some 0, 0, 1) ∷ (Some 1, 0, 4) ∷ (Some 1, 1, 5) ∷ (Some 1, 2, 6) ∷ (Some 0, 1, 2)
        ∷ (Some 0, 2, 3) ∷ (Some 0, 3, 7) ∷ (Some 7, 0, 8) ∷ (Some 7, 1, 9) ∷ (Some 0, 4, 10) ∷ [] }
    ensures first { nodes (after rows room (Step.Move 4 7 0))
        ≡ (None, 0, 0) ∷ (Some 0, 0, 1) ∷ (Some 1, 0, 6) ∷ (Some 1, 1, 5) ∷ (Some 0, 1, 2) ∷ (Some 0, 2, 3)
        ∷ (Some 0, 3, 7) ∷ (Some 7, 0, 4) ∷ (Some 7, 1, 8) ∷ (Some 7, 2, 9) ∷ (Some 0, 4, 10) ∷ [] }
    ensures row { row_after (Step.Move 1 7 1) 4 ≡ Some (bare 4 4096) }
    ensures targets { row_after (Step.Move 1 7 1) 2 ≡ Some entry }
{}

/// A step about one row changes what it names, and no other row.
pub fn shapes_changed()
    ensures name { row_after (Step.SetName 3 hello) 3
        ≡ Some (record button { shape = record button.shape { name = hello } }) }
    ensures description { row_after (Step.SetDescription 3 hello) 3
        ≡ Some (record button { shape = record button.shape { description = hello } }) }
    ensures role { row_after (Step.SetRole 3 1) 3 ≡ Some (record button { shape = record button.shape { role = 1 } }) }
    ensures off { row_after (Step.SetState 3 4 false) 3
        ≡ Some (record button { shape = record button.shape { states = 4096 } }) }
    ensures on { row_after (Step.SetState 4 4 true) 4 ≡ Some (bare 4 4112) }
    ensures relation { row_after (Step.Relate 2 1 (10 ∷ 3 ∷ [])) 2
        ≡ Some (record entry { shape = record entry.shape { relations = (2, 4) ∷ (1, 10) ∷ (1, 3) ∷ [] } }) }
    ensures other { row_after (Step.SetRole 3 1) 4 ≡ Some (bare 4 4096) }
    ensures places { nodes (after rows room (Step.SetRole 3 1)) ≡ nodes room }
{}

/// What is put into a text or taken out leaves the caret, and nothing is selected any more.
pub fn texts_changed()
    ensures insert { row_after (Step.Insert 2 1 (120 ∷ 121 ∷ [])) 2
        ≡ entry_with
        (record { characters = 104 ∷ 120 ∷ 121 ∷ 233 ∷ 108 ∷ 108 ∷ 111 ∷ []; caret = 3; selections = [] }) }
    ensures delete { row_after (Step.Delete 2 1 (233 ∷ 108 ∷ [])) 2
        ≡ entry_with (record { characters = 104 ∷ 108 ∷ 111 ∷ []; caret = 3; selections = [] }) }
    ensures caret { row_after (Step.Caret 2 5) 2 ≡ entry_with (record hello_there { caret = 5 }) }
    ensures select { row_after (Step.TextSelect 2 ((0, 1) ∷ (3, 4) ∷ [])) 2
        ≡ entry_with (record hello_there { selections = (0, 1) ∷ (3, 4) ∷ [] }) }
    ensures no_text { row_after (Step.Caret 3 5) 3 ≡ Some button }
{}

/// Where a node stands, which nodes are below it, and which node a step is about.
pub fn nodes_named()
    ensures seat { seat_of rows 4 room ≡ Some (Some 1, 1) }
    ensures root_seat { seat_of rows 0 room ≡ Some (None, 0) }
    ensures no_seat { seat_of rows 99 room ≡ None }
    ensures below { in_subtree rows 1 room 4 ≡ true }
    ensures itself { in_subtree rows 1 room 1 ≡ true }
    ensures beside { in_subtree rows 1 room 2 ≡ false }
    ensures above { in_subtree rows 4 room 1 ≡ false }
    ensures node { is_node 3 button ≡ true }
    ensures other_node { is_node 4 button ≡ false }
    ensures shape { is_shape 3 button.shape ≡ true }
    ensures shapes { shape_of (tree root (tree button nil nil) nil) ≡ tree root.shape (tree button.shape nil nil) nil }
    ensures add { node_of (Step.Add 13 7 1 full_seed) ≡ 13 }
    ensures remove { node_of (Step.Remove 1) ≡ 1 }
    ensures moved { node_of (Step.Move 1 7 0) ≡ 1 }
{}

/// An addition counts; nothing else does. The root is an application, role 75, with its name.
pub fn counts_and_roots()
    ensures add { added_after 12 (Step.Add 13 7 1 full_seed) ≡ 13 }
    ensures remove { added_after 12 (Step.Remove 1) ≡ 12 }
    ensures root { first_tree rows hello
        ≡ tree (record (bare 0 1124073728) { shape = record (bare 0 1124073728).shape { name = hello; role = 75 } }) nil
        nil }
{}

/// A tree has one top, node 0.
pub fn rooted()
    ensures root { IsRooted rows (tree root (tree button nil nil) nil) }
    ensures empty { IsRooted rows nil → ⊥ }
    ensures two { IsRooted rows (tree root nil (tree button nil nil)) → ⊥ }
    ensures other { IsRooted rows (tree button nil nil) → ⊥ }
    ensures targets { HasTargets rows room (3 ∷ 9 ∷ []) }
    ensures no_target { HasTargets rows room (3 ∷ 99 ∷ []) → ⊥ }
{}
