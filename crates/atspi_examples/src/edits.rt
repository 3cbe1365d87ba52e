//! The steps of each edit of the room, where it is not refused.

ghost use Rattle.std.specs.Prelude.{◌≡◌, ◌∷◌, [], codes, true, false};
ghost use Rattle.atspi_tree_model.specs.Edits.{is_seat, numbers_to};
ghost use Rattle.atspi_examples.specs.Room.{answer, plain};

use atspi_tree_model::{Edit, Step};

/// A new node takes the next number, also where nodes are gone.
pub fn insert()
    ensures first { answer (Edit.Insert 0 0 (plain 39 (codes "A"))) ≡ Ok (Step.Add 13 0 0 (plain 39 (codes "A")) ∷ []) }
    ensures last { answer (Edit.Insert 1 3 (plain 39 [])) ≡ Ok (Step.Add 13 1 3 (plain 39 []) ∷ []) }
{}

/// A node goes with all that is below it. An index counts the children without the node; its own place makes no step.
pub fn remove_and_move()
    ensures remove { answer (Edit.Remove 1) ≡ Ok (Step.Remove 1 ∷ []) }
    ensures elsewhere { answer (Edit.Move 4 7 2) ≡ Ok (Step.Move 4 7 2 ∷ []) }
    ensures first { answer (Edit.Move 4 1 0) ≡ Ok (Step.Move 4 1 0 ∷ []) }
    ensures last { answer (Edit.Move 4 1 2) ≡ Ok (Step.Move 4 1 2 ∷ []) }
    ensures own { answer (Edit.Move 4 1 1) ≡ Ok [] }
    ensures own_first { answer (Edit.Move 6 1 0) ≡ Ok [] }
    ensures same_index { answer (Edit.Move 4 7 1) ≡ Ok (Step.Move 4 7 1 ∷ []) }
    ensures with_children { answer (Edit.Move 1 7 0) ≡ Ok (Step.Move 1 7 0 ∷ []) }
{}

/// What is there already makes no step; that another node has it is nothing to this one.
pub fn words_and_roles()
    ensures name { answer (Edit.Name 3 (codes "c")) ≡ Ok (Step.SetName 3 (codes "c") ∷ []) }
    ensures same_name { answer (Edit.Name 3 (codes "b")) ≡ Ok [] }
    ensures others_name { answer (Edit.Name 4 (codes "b")) ≡ Ok (Step.SetName 4 (codes "b") ∷ []) }
    ensures describe { answer (Edit.Describe 3 (codes "b")) ≡ Ok (Step.SetDescription 3 (codes "b") ∷ []) }
    ensures same_description { answer (Edit.Describe 3 (codes "d")) ≡ Ok [] }
    ensures others_description { answer (Edit.Describe 4 (codes "d")) ≡ Ok (Step.SetDescription 4 (codes "d") ∷ []) }
    ensures role { answer (Edit.Role 3 44) ≡ Ok (Step.SetRole 3 44 ∷ []) }
    ensures same_role { answer (Edit.Role 3 43) ≡ Ok [] }
    ensures others_role { answer (Edit.Role 4 43) ≡ Ok (Step.SetRole 4 43 ∷ []) }
{}

/// Nodes 3, 4 and 6 have the state 12, focused; others lose it by rising number, and the node that has it keeps it.
pub fn states_and_focus()
    ensures on { answer (Edit.State 4 4 true) ≡ Ok (Step.SetState 4 4 true ∷ []) }
    ensures off { answer (Edit.State 4 12 false) ≡ Ok (Step.SetState 4 12 false ∷ []) }
    ensures is_on { answer (Edit.State 4 12 true) ≡ Ok [] }
    ensures is_off { answer (Edit.State 4 4 false) ≡ Ok [] }
    ensures focus { answer (Edit.Focus 5)
        ≡ Ok
        (Step.SetState 3 12 false ∷ Step.SetState 4 12 false ∷ Step.SetState 6 12 false ∷ Step.SetState 5 12 true
        ∷ []) }
    ensures focused { answer (Edit.Focus 4) ≡ Ok (Step.SetState 3 12 false ∷ Step.SetState 6 12 false ∷ []) }
{}

/// The caret stands at 3. It goes on by the length of what is put before it, and not of what is put where it stands.
pub fn put_and_type()
    ensures before { answer (Edit.Put 2 1 (codes "xy")) ≡ Ok (Step.Insert 2 1 (codes "xy") ∷ Step.Caret 2 5 ∷ []) }
    ensures there { answer (Edit.Put 2 3 (codes "x")) ≡ Ok (Step.Insert 2 3 (codes "x") ∷ []) }
    ensures just_before { answer (Edit.Put 2 2 (codes "x")) ≡ Ok (Step.Insert 2 2 (codes "x") ∷ Step.Caret 2 4 ∷ []) }
    ensures at_end { answer (Edit.Put 2 5 (codes "x")) ≡ Ok (Step.Insert 2 5 (codes "x") ∷ []) }
    ensures put_nothing { answer (Edit.Put 2 1 []) ≡ Ok [] }
    ensures typed { answer (Edit.Keys 2 (codes "xy")) ≡ Ok (Step.Insert 2 3 (codes "xy") ∷ Step.Caret 2 5 ∷ []) }
    ensures typed_nothing { answer (Edit.Keys 2 []) ≡ Ok [] }
{}

/// The caret leaves what is cut first: to its start from within or at its end, and back by its length from behind.
pub fn cut()
    ensures behind { answer (Edit.Cut 2 1 2) ≡ Ok (Step.Caret 2 2 ∷ Step.Delete 2 1 (233 ∷ []) ∷ []) }
    ensures within { answer (Edit.Cut 2 1 5) ≡ Ok (Step.Caret 2 1 ∷ Step.Delete 2 1 (233 ∷ 108 ∷ 108 ∷ 111 ∷ []) ∷ []) }
    ensures at_end { answer (Edit.Cut 2 1 3) ≡ Ok (Step.Caret 2 1 ∷ Step.Delete 2 1 (233 ∷ 108 ∷ []) ∷ []) }
    ensures at_start { answer (Edit.Cut 2 3 5) ≡ Ok (Step.Delete 2 3 (108 ∷ 111 ∷ []) ∷ []) }
    ensures before { answer (Edit.Cut 2 4 5) ≡ Ok (Step.Delete 2 4 (111 ∷ []) ∷ []) }
    ensures nothing { answer (Edit.Cut 2 2 2) ≡ Ok [] }
{}

/// A range is selected beside those that are.
pub fn caret_and_marks()
    ensures caret { answer (Edit.Caret 2 5) ≡ Ok (Step.Caret 2 5 ∷ []) }
    ensures same_caret { answer (Edit.Caret 2 3) ≡ Ok [] }
    ensures mark { answer (Edit.Mark 2 0 5) ≡ Ok (Step.TextSelect 2 ((1, 2) ∷ (0, 5) ∷ []) ∷ []) }
    ensures unmark { answer (Edit.Unmark 2) ≡ Ok (Step.TextSelect 2 [] ∷ []) }
    ensures no_mark { answer (Edit.Unmark 10) ≡ Ok [] }
{}

/// Of node 1's children 6, 4 and 5 the first and the last have the state 23, selected; node 7 is multiselectable, and
/// 8, the first of its children, is selected.
pub fn selections()
    ensures other { answer (Edit.Select 1 1)
        ≡ Ok (Step.SetState 6 23 false ∷ Step.SetState 5 23 false ∷ Step.SetState 4 23 true ∷ []) }
    ensures selected { answer (Edit.Select 1 0) ≡ Ok (Step.SetState 5 23 false ∷ []) }
    ensures selected_last { answer (Edit.Select 1 2) ≡ Ok (Step.SetState 6 23 false ∷ []) }
    ensures beside { answer (Edit.Select 7 1) ≡ Ok (Step.SetState 9 23 true ∷ []) }
    ensures selected_beside { answer (Edit.Select 7 0) ≡ Ok [] }
    ensures deselect { answer (Edit.Deselect 1 2) ≡ Ok (Step.SetState 5 23 false ∷ []) }
    ensures deselected { answer (Edit.Deselect 1 1) ≡ Ok [] }
    ensures deselect_wide { answer (Edit.Deselect 7 0) ≡ Ok (Step.SetState 8 23 false ∷ []) }
{}

/// Button 3 is checked (4) and focused, button 9 expanded (10) and pressed (20).
pub fn press()
    ensures toggle { answer (Edit.Press 3 0) ≡ Ok (Step.SetState 3 4 false ∷ []) }
    ensures toggle_back { answer (Edit.Press 9 0) ≡ Ok (Step.SetState 9 4 true ∷ []) }
    ensures expand { answer (Edit.Press 3 1) ≡ Ok (Step.SetState 3 10 true ∷ []) }
    ensures expand_back { answer (Edit.Press 9 1) ≡ Ok (Step.SetState 9 10 false ∷ []) }
    ensures press { answer (Edit.Press 3 2) ≡ Ok (Step.SetState 3 20 true ∷ Step.SetState 3 20 false ∷ []) }
    ensures pressed { answer (Edit.Press 9 2) ≡ Ok (Step.SetState 9 20 false ∷ []) }
    ensures focus { answer (Edit.Press 3 3) ≡ Ok (Step.SetState 4 12 false ∷ Step.SetState 6 12 false ∷ []) }
    ensures unknown { answer (Edit.Press 3 4) ≡ Ok [] }
{}

/// The entry's relations of kind 1 are to 3 and 5, that of kind 2 is to 4.
pub fn relations()
    ensures more { answer (Edit.Relate 2 1 10) ≡ Ok (Step.Relate 2 1 (3 ∷ 5 ∷ 10 ∷ []) ∷ []) }
    ensures twice { answer (Edit.Relate 2 1 5) ≡ Ok [] }
    ensures other_kind { answer (Edit.Relate 2 2 5) ≡ Ok (Step.Relate 2 2 (4 ∷ 5 ∷ []) ∷ []) }
    ensures first { answer (Edit.Relate 3 18 0) ≡ Ok (Step.Relate 3 18 (0 ∷ []) ∷ []) }
    ensures fewer { answer (Edit.Unrelate 2 1 3) ≡ Ok (Step.Relate 2 1 (5 ∷ []) ∷ []) }
    ensures none { answer (Edit.Unrelate 2 2 4) ≡ Ok (Step.Relate 2 2 [] ∷ []) }
    ensures not_there { answer (Edit.Unrelate 2 1 4) ≡ Ok [] }
    ensures last_kind { answer (Edit.Unrelate 3 18 0) ≡ Ok [] }
{}

/// The focus is taken from any node that was ever added, the root too; a node stands at one index of one parent, and
/// the root at none.
pub fn numbers_and_seats()
    ensures root { numbers_to 0 ≡ 0 ∷ [] }
    ensures all { numbers_to 3 ≡ 0 ∷ 1 ∷ 2 ∷ 3 ∷ [] }
    ensures seat { is_seat 7 2 (Some (Some 7, 2)) ≡ true }
    ensures no_seat { is_seat 0 0 None ≡ false }
    ensures root_seat { is_seat 0 0 (Some (None, 0)) ≡ false }
{}
