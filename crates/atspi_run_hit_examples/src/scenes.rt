//! Which line is refused where it stands, and what one makes that is not.

ghost use Rattle.std.specs.Prelude.{◌≡◌, ◌∷◌, [], ℕ, List, None, Some, codes, length, encode_utf8_all};
ghost use Rattle.std.specs.Option.{option_map};
ghost use Rattle.atspi_tree_model.specs.declared.edit.Edit.TheVariants as edits;
ghost use Rattle.atspi_tree_model.specs.declared.edit.EditFault.TheVariants as faults;
ghost use Rattle.atspi_tree.specs.TreeShape.{children_of};
ghost use Rattle.atspi_hit.specs.Places.{Places, no_rect, rect_at};
ghost use Rattle.atspi_hit.specs.declared.rect.Rect.{Rect};
ghost use Rattle.atspi_hit.specs.declared.cells.Way.TheVariants as ways;
ghost use Rattle.atspi_hit_answers.specs.declared.ask.Ask.TheVariants as asks;
ghost use Rattle.atspi_run_hit.specs.Scene.{Scene, after, begins, places_after, refusal};
ghost use Rattle.atspi_run_hit.specs.Wholes.{columns_of, shape};
ghost use Rattle.atspi_run_hit.specs.declared.line.HitLine.TheVariants as lines;
ghost use Rattle.atspi_run_hit.specs.declared.naming.Refused.TheVariants.{Asked, Form};
ghost use Rattle.atspi_run_hit_examples.specs.Room.{room, tree_in};

/// Before the start nothing may stand but empty lines and comments; the start may not come twice.
pub fn starts()
    ensures nothing { refusal None lines.Nothing ≡ None }
    ensures start { refusal None (lines.App (codes "T")) ≡ None }
    ensures long { (x : List ℕ) → length (encode_utf8_all x) ≡ 512
        → refusal None (lines.App x) ≡ Some (Asked faults.TextFull) }
    ensures edit { refusal None (lines.Edit (edits.Remove 0)) ≡ Some Form }
    ensures place { refusal None (lines.Place 0 no_rect) ≡ Some Form }
    ensures call { refusal None (lines.Call 0 asks.Extents) ≡ Some Form }
    ensures cell { refusal None (lines.Cell 0 0 ways.Up) ≡ Some Form }
    ensures follow { refusal None (lines.Follow 0 1) ≡ Some Form }
    ensures twice { refusal room (lines.App (codes "T")) ≡ Some Form }
    ensures makes { after None (lines.App (codes "T")) ≡ Some (begins (codes "T")) }
    ensures makes_nothing { after None lines.Nothing ≡ None }
    ensures of_nothing { (s : Scene) → after (Some s) lines.Nothing ≡ Some s }
{}

/// What is asked of nodes that are not there, and of those that are.
pub fn of_a_room()
    ensures nothing { refusal room lines.Nothing ≡ None }
    ensures edit { refusal room (lines.Edit (edits.Remove 6)) ≡ None }
    ensures root { refusal room (lines.Edit (edits.Remove 0)) ≡ Some (Asked faults.IsRoot) }
    ensures no_edit { refusal room (lines.Edit (edits.Remove 7)) ≡ Some (Asked faults.NoNode) }
    ensures place { refusal room (lines.Place 6 no_rect) ≡ None }
    ensures no_place { refusal room (lines.Place 7 no_rect) ≡ Some (Asked faults.NoNode) }
    ensures call { refusal room (lines.Call 6 asks.Extents) ≡ None }
    ensures any_call { refusal room (lines.Call 7 asks.Extents) ≡ None }
    ensures follow { refusal room (lines.Follow 6 1) ≡ None }
    ensures last_kind { refusal room (lines.Follow 6 18) ≡ None }
    ensures no_follow { refusal room (lines.Follow 7 0) ≡ Some (Asked faults.NoNode) }
    ensures kind_0 { refusal room (lines.Follow 6 0) ≡ Some (Asked faults.BadIndex) }
    ensures kind_19 { refusal room (lines.Follow 6 19) ≡ Some (Asked faults.BadIndex) }
{}

/// A table of two columns with five children has four cells.
pub fn of_tables()
    ensures columns { option_map (λ s. columns_of s.tree 1) room ≡ Some 2 }
    ensures no_columns { option_map (λ s. columns_of s.tree 2) room ≡ Some 0 }
    ensures nobodys_columns { option_map (λ s. columns_of s.tree 7) room ≡ Some 0 }
    ensures children { option_map (λ s. children_of 1 (shape s.tree)) room ≡ Some (2 ∷ 3 ∷ 4 ∷ 5 ∷ 6 ∷ []) }
    ensures last { refusal room (lines.Cell 1 3 ways.Up) ≡ None }
    ensures behind { refusal room (lines.Cell 1 4 ways.Up) ≡ Some (Asked faults.BadIndex) }
    ensures no_table { refusal room (lines.Cell 2 0 ways.Up) ≡ Some (Asked faults.NoFace) }
    ensures no_node { refusal room (lines.Cell 7 0 ways.Up) ≡ Some (Asked faults.NoNode) }
{}

/// A place is that of its node alone; a removal takes the places of all that goes; a call counts.
pub fn made()
    ensures placed { (s : Scene) (r : Rect)
        → option_map (λ t. rect_at t.places 2) (after (Some s) (lines.Place 2 r)) ≡ Some r }
    ensures another { (s : Scene) (r : Rect)
        → option_map (λ t. rect_at t.places 3) (after (Some s) (lines.Place 2 r)) ≡ Some (rect_at s.places 3) }
    ensures none_placed { (name : List ℕ) → rect_at (begins name).places 0 ≡ no_rect }
    ensures gone { (places : Places) → rect_at (places_after (tree_in room) (edits.Remove 1) places) 1 ≡ no_rect }
    ensures gone_below { (places : Places) → rect_at (places_after (tree_in room) (edits.Remove 1) places) 2 ≡ no_rect }
    ensures stays { (places : Places)
        → rect_at (places_after (tree_in room) (edits.Remove 1) places) 0 ≡ rect_at places 0 }
    ensures moves { (places : Places) → places_after (tree_in room) (edits.Move 2 0 0) places ≡ places }
    ensures children { option_map (λ s. children_of 0 (shape s.tree)) (after room (lines.Edit (edits.Remove 1)))
        ≡ Some [] }
    ensures counted { option_map (λ s. s.calls) (after room (lines.Call 0 asks.Extents)) ≡ Some 1 }
    ensures not_counted { option_map (λ s. s.calls) (after room (lines.Follow 0 1)) ≡ Some 0 }
    ensures added { option_map (λ s. s.tree.added) room ≡ Some 6 }
{}
