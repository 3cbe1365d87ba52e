//! The cases.

ghost use Rattle.std.specs.Prelude.{◌≡◌, ◌∷◌, ◌++◌, [], ℕ, codes, decimal, length, true, false};
ghost use Rattle.atspi_tree_model.specs.declared.step.Step.TheVariants.{Add};
ghost use Rattle.atspi_tree.specs.TreeShape.{TreeShape, after_step, root_alone};
ghost use Rattle.atspi_run_make.specs.Draws.{drawn, next_state};
ghost use Rattle.atspi_run_make.specs.Drawing.{button, drawn_edit, edit_of, live_nodes, names};
ghost use Rattle.atspi_run_examples.specs.make.Small.{small};

use atspi_tree_model::Edit;

/// The generator from the seed 1.
pub fn first_draws()
    ensures first { drawn 1 ≡ 16838 }
    ensures state { next_state 1 ≡ 1103527590 }
    ensures second { drawn 1103527590 ≡ 5758 }
    ensures third { drawn (next_state 1103527590) ≡ 10113 }
    ensures last_seed { next_state 2147483647 ≡ 1043980748 }
{}

/// The nodes that are there, rising, wherever they stand.
pub fn live()
    ensures root { live_nodes (root_alone (codes "Made")) ≡ 0 ∷ [] }
    ensures some { live_nodes small ≡ 0 ∷ 2 ∷ 3 ∷ 5 ∷ [] }
{}

/// The first draw mod 8 is 0 to 3: a push button is inserted. Seed 0 draws 0, 21468 and 9988: the root, and of three
/// places the second.
pub fn inserted()
    ensures seed_0 { drawn_edit small 9 0 ≡ record { edit = Edit.Insert 0 1 (button 9); state = 654583775 } }
    ensures seed { button 9
        ≡ record {
          role = 43;
          name = codes "n9";
          text = None;
          editable = false;
          columns = None;
          select = false;
          actions = [];
        } }
{}

/// Where a tree has 8,192 nodes, the node is named instead, and nothing more is drawn.
pub fn full()
    ensures { (t : TreeShape) (p k x : ℕ) → length (live_nodes t) ≡ 8192
        → edit_of t 3 p k x ≡ record { edit = Edit.Name p (codes "m" ++ decimal k); state = x } }
{}

/// It is 4: a node is named. Seed 2 draws 908 and 22817.
pub fn named()
    ensures { drawn_edit small 9 2 ≡ record { edit = Edit.Name 2 (codes "m9"); state = 1495354192 } }
{}

/// It is 5: a node becomes the first child of another that is drawn. The root is named, and no other is drawn; so is a
/// node where the other is that node or below it. Seed 16 draws 7269, 32261 and 11999; seed 11 draws 21381 and 12504;
/// seed 101 draws 29501, 7683 and 22687; seed 68 draws 30893, 1805 and 18538.
pub fn moved()
    ensures seed_16 { drawn_edit small 9 16 ≡ record { edit = Edit.Move 2 5 0; state = 786428719 } }
    ensures root { drawn_edit small 9 11 ≡ record { edit = Edit.Name 0 (codes "m9"); state = 819509505 } }
    ensures itself { drawn_edit small 9 101 ≡ record { edit = Edit.Name 5 (codes "m9"); state = 1486854984 } }
    ensures below { drawn_edit small 9 68 ≡ record { edit = Edit.Name 2 (codes "m9"); state = 1214924787 } }
{}

/// It is 6: a node gets the focus. It is 7: one of four is removed, and of the others and the root `checked` turns.
/// Seed 1 draws 16838 and 5758; seed 5 draws 18655, 8457 and 10616; seed 81 draws 20415, 26958 and 20172; seed 10 draws
/// 4543, 28214 and 11245; seed 29 draws 29559, 24647 and 13634; seed 43 draws 3151 and 1324.
pub fn turned()
    ensures focus { drawn_edit small 9 1 ≡ record { edit = Edit.Focus 3; state = 377401575 } }
    ensures removed { drawn_edit small 9 5 ≡ record { edit = Edit.Remove 2; state = 695785320 } }
    ensures removed_third { drawn_edit small 9 81 ≡ record { edit = Edit.Remove 3; state = 1322048804 } }
    ensures checked { drawn_edit small 9 10 ≡ record { edit = Edit.State 3 4 true; state = 736986865 } }
    ensures cleared { drawn_edit small 9 29 ≡ record { edit = Edit.State 5 4 false; state = 893552736 } }
    ensures root { drawn_edit small 9 43 ≡ record { edit = Edit.State 0 4 true; state = 86771233 } }
{}

/// The three edits of `make 3 1`: the root gets the focus, and two buttons.
pub fn script_of_seed_1()
    ensures first { drawn_edit (root_alone (codes "Made")) 1 1 ≡ record { edit = Edit.Focus 0; state = 377401575 } }
    ensures second { drawn_edit (root_alone (codes "Made")) 2 377401575
        ≡ record { edit = Edit.Insert 0 0 (button 2); state = 2035015474 } }
    ensures third { drawn_edit (after_step (root_alone (codes "Made")) (Add 1 0 0 (button 2))) 3 2035015474
        ≡ record { edit = Edit.Insert 0 1 (button 3); state = 486256185 } }
{}
