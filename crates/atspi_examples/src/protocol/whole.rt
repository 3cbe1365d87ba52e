//! Whole trees, of which the shape and the contents stand apart.

ghost use Rattle.std.specs.Prelude.{◌≡◌, ◌∷◌, [], None, Some, codes};
ghost use Rattle.std.specs.FinMap.{empty, get, insert};
ghost use Rattle.atspi_tree_model.specs.declared.contents.FaceData.TheVariants.{Chars, Deeds, Grid};
ghost use Rattle.atspi_tree_model.specs.Forest.{nil, tree};
ghost use Rattle.atspi_protocol.specs.whole.Cases.{kept, plain, shape, small};
ghost use Rattle.atspi_protocol.specs.whole.Laws.{IsFollowed};
ghost use Rattle.atspi_protocol.specs.whole.Whole.{KnowOnly, KnowsNo, as_actions, as_columns, as_text, faces_after};
ghost use Rattle.atspi_protocol.specs.whole.Whole.{filled, whole, with_actions, with_columns, with_text};
ghost use Rattle.atspi_examples.specs.protocol.Lists.{full};

use atspi_tree_model::Step;

/// Each node has the contents that the faces keep of it.
pub fn trees()
    ensures filled { filled kept (shape 1 plain)
        ≡ record {
          shape = shape 1 plain;
          contents =
              record {
                text = Some (record { characters = codes "abc"; caret = 1; selections = (0, 2) ∷ [] });
                columns = None;
                actions = [];
              };
        } }
    ensures whole { whole (tree (shape 0 plain) (tree (shape 2 plain) nil nil) nil) kept
        ≡ tree
        (record {
          shape = shape 0 plain;
          contents = record { text = None; columns = None; actions = codes "press" ∷ [] };
        })
        (tree (record { shape = shape 2 plain; contents = record { text = None; columns = Some 2; actions = [] } }) nil
        nil) nil }
    ensures nobody { whole nil kept ≡ nil }
{}

/// Contents of another kind are none.
pub fn absent()
    ensures text { as_text (Some (Grid 2)) ≡ None }
    ensures no_text { as_text None ≡ None }
    ensures columns { as_columns (Some (Deeds [])) ≡ None }
    ensures actions { as_actions (Some (Grid 2)) ≡ [] }
    ensures new_text { with_text 3 None empty ≡ empty }
    ensures new_columns { with_columns 3 None empty ≡ empty }
    ensures new_actions { with_actions 3 [] empty ≡ empty }
{}

/// A removed node is gone from the faces, and the others stay.
pub fn known()
    ensures no_text { get (faces_after small (Step.Remove 1) kept).chars 1 ≡ None }
    ensures other_columns { get (faces_after small (Step.Remove 1) kept).grid 2 ≡ Some (Grid 2) }
    ensures no_actions { get (faces_after small (Step.Remove 0) kept).deeds 0 ≡ None }
    ensures other_actions { get (faces_after small (Step.Remove 1) kept).deeds 0 ≡ Some (Deeds (codes "press" ∷ [])) }
    ensures text_below { get (faces_after small (Step.Remove 0) kept).chars 1 ≡ None }
    ensures table_below { get (faces_after small (Step.Remove 0) kept).grid 2 ≡ None }
{}

/// A new node opens in each face, and what the faces have of the others stays.
pub fn added()
    ensures text { get (faces_after small (Step.Add 3 0 1 full) kept).chars 3 ≡ Some (Chars (codes "t") 0 []) }
    ensures columns { get (faces_after small (Step.Add 3 0 1 full) kept).grid 3 ≡ Some (Grid 4) }
    ensures actions { get (faces_after small (Step.Add 3 0 1 full) kept).deeds 3
        ≡ Some (Deeds (codes "a" ∷ codes "b" ∷ [])) }
    ensures other_text { get (faces_after small (Step.Add 3 0 1 full) kept).chars 1
        ≡ Some (Chars (codes "abc") 1 ((0, 2) ∷ [])) }
    ensures other_columns { get (faces_after small (Step.Add 3 0 1 full) kept).grid 2 ≡ Some (Grid 2) }
    ensures other_actions { get (faces_after small (Step.Add 3 0 1 full) kept).deeds 0
        ≡ Some (Deeds (codes "press" ∷ [])) }
    ensures no_table_of_text { get (faces_after small (Step.Add 3 0 1 full) kept).grid 1 ≡ None }
{}

/// A step is followed where the faces know no node afterwards that is not in the tree.
pub fn followed()
    ensures nothing { IsFollowed nil (record { chars = empty; grid = empty; deeds = empty })
        (Step.SetName 0 (codes "U")) }
    ensures stranger { IsFollowed nil kept (Step.SetName 0 (codes "U")) → ⊥ }
{}

/// Of a node nothing is known where no face has anything of it, and each of the three counts.
pub fn unknown()
    ensures of_none { KnowsNo kept 3 }
    ensures text { KnowsNo kept 1 → ⊥ }
    ensures columns { KnowsNo kept 2 → ⊥ }
    ensures actions { KnowsNo kept 0 → ⊥ }
    ensures text_alone { KnowsNo (record { chars = insert empty 1 (Grid 2); grid = empty; deeds = empty }) 2 }
{}

/// The faces know only nodes of the tree: a node of the tree need not be known, and one that is known is in the tree.
pub fn only_of_trees()
    ensures all { KnowOnly kept small }
    ensures nothing { KnowOnly (record { chars = empty; grid = empty; deeds = empty }) nil }
    ensures unknown { KnowOnly (record { chars = empty; grid = empty; deeds = empty }) small }
    ensures no_tree { KnowOnly kept nil → ⊥ }
    ensures no_table { KnowOnly kept (tree (shape 0 plain) (tree (shape 1 plain) nil nil) nil) → ⊥ }
{}
