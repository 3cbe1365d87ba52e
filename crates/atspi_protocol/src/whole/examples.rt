//! Worked cases: a whole tree, and faces after steps, worked out by hand.

ghost use Rattle.std.specs.Prelude.{◌≡◌, ◌∷◌, [], None, Some, false, codes};
ghost use Rattle.std.specs.FinMap.{get};
ghost use Rattle.atspi_tree_model.specs.declared.contents.FaceData.TheVariants.{Chars, Grid, Deeds};
ghost use Rattle.atspi_protocol.specs.whole.Whole.{contents_of, faces_after};
ghost use Rattle.atspi_protocol.specs.whole.Cases.{small, kept};

use atspi_tree_model::Step;

/// The contents of each node.
pub fn contents()
    ensures text { contents_of kept 1
        ≡ record {
          text = Some (record { characters = codes "abc"; caret = 1; selections = (0, 2) ∷ [] });
          columns = None;
          actions = [];
        } }
    ensures table { contents_of kept 2 ≡ record { text = None; columns = Some 2; actions = [] } }
    ensures root { contents_of kept 0 ≡ record { text = None; columns = None; actions = codes "press" ∷ [] } }
    ensures none { contents_of kept 3 ≡ record { text = None; columns = None; actions = [] } }
{}

/// What a step makes of the faces.
pub fn steps()
    ensures insert { get (faces_after small (Step.Insert 1 1 (codes "xy")) kept).chars 1
        ≡ Some (Chars (codes "axybc") 1 []) }
    ensures delete { get (faces_after small (Step.Delete 1 1 (codes "bc")) kept).chars 1
        ≡ Some (Chars (codes "a") 1 []) }
    ensures caret { get (faces_after small (Step.Caret 1 3) kept).chars 1 ≡ Some (Chars (codes "abc") 3 ((0, 2) ∷ [])) }
    ensures selections { get (faces_after small (Step.TextSelect 1 []) kept).chars 1 ≡ Some (Chars (codes "abc") 1 []) }
    ensures removed { get (faces_after small (Step.Remove 2) kept).grid 2 ≡ None }
    ensures left { get (faces_after small (Step.Remove 2) kept).chars 1 ≡ Some (Chars (codes "abc") 1 ((0, 2) ∷ [])) }
    ensures named { faces_after small (Step.SetName 1 (codes "n")) kept ≡ kept }
    ensures moved { faces_after small (Step.Move 2 0 0) kept ≡ kept }
    ensures added_text { get
        (faces_after small
        (Step.Add 3 0 0
        (record {
          role = 0;
          name = [];
          text = Some (codes "t");
          editable = false;
          columns = None;
          select = false;
          actions = [];
        })) kept).chars 3 ≡ Some (Chars (codes "t") 0 []) }
    ensures added_table { get
        (faces_after small
        (Step.Add 3 0 0
        (record {
          role = 0;
          name = [];
          text = None;
          editable = false;
          columns = Some 4;
          select = false;
          actions = codes "a" ∷ [];
        })) kept).grid 3 ≡ Some (Grid 4) }
    ensures added_actions { get
        (faces_after small
        (Step.Add 3 0 0
        (record {
          role = 0;
          name = [];
          text = None;
          editable = false;
          columns = Some 4;
          select = false;
          actions = codes "a" ∷ [];
        })) kept).deeds 3 ≡ Some (Deeds (codes "a" ∷ [])) }
    ensures added_no_text { get
        (faces_after small
        (Step.Add 3 0 0
        (record {
          role = 0;
          name = [];
          text = None;
          editable = false;
          columns = Some 4;
          select = false;
          actions = [];
        })) kept).chars 3 ≡ None }
{}
