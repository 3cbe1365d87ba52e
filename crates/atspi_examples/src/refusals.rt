//! Why an edit of the room is refused. Where an edit breaks several rules, the first of its list is told.

ghost use Rattle.std.specs.Prelude.{◌≡◌, ◌∷◌, [], ℕ, List, length, true, false, encode_utf8_all};
ghost use Rattle.atspi_tree_model.specs.Forest.{Forest, count};
ghost use Rattle.atspi_tree_model.specs.Row.{ShapeRow};
ghost use Rattle.atspi_tree_model.specs.Edits.{known_text, known_actions, text_length, is_full, text_contents};
ghost use Rattle.atspi_tree_model.specs.Edits.{action_contents, contents_read, IsEdit};
ghost use Rattle.atspi_examples.specs.Room.{answer, answer_at, nowhere, plain, with_columns, with_text, sign_with};
ghost use Rattle.atspi_examples.specs.Room.{room, button, pressed_button, hello};

use atspi_tree_model::{Edit, EditFault, FaceData, Step};

/// A node that is not there is told before all else.
pub fn no_node()
    ensures insert { nowhere (Edit.Insert 0 9 (with_columns 0)) ≡ Err EditFault.NoNode }
    ensures insert_parent { answer (Edit.Insert 99 0 (plain 0 [])) ≡ Err EditFault.NoNode }
    ensures remove { nowhere (Edit.Remove 0) ≡ Err EditFault.NoNode }
    ensures moved { answer (Edit.Move 99 1 9) ≡ Err EditFault.NoNode }
    ensures moved_root { answer (Edit.Move 0 99 9) ≡ Err EditFault.NoNode }
    ensures role { answer (Edit.Role 99 1) ≡ Err EditFault.NoNode }
    ensures state { answer (Edit.State 99 1 true) ≡ Err EditFault.NoNode }
    ensures focus { answer (Edit.Focus 99) ≡ Err EditFault.NoNode }
    ensures put { answer (Edit.Put 99 9 []) ≡ Err EditFault.NoNode }
    ensures typed { answer (Edit.Keys 99 []) ≡ Err EditFault.NoNode }
    ensures cut { answer (Edit.Cut 99 9 1) ≡ Err EditFault.NoNode }
    ensures caret { answer (Edit.Caret 99 9) ≡ Err EditFault.NoNode }
    ensures mark { answer (Edit.Mark 99 9 1) ≡ Err EditFault.NoNode }
    ensures unmark { answer (Edit.Unmark 99) ≡ Err EditFault.NoNode }
    ensures select { answer (Edit.Select 99 9) ≡ Err EditFault.NoNode }
    ensures deselect { answer (Edit.Deselect 99 9) ≡ Err EditFault.NoNode }
    ensures press { answer (Edit.Press 99 9) ≡ Err EditFault.NoNode }
    ensures relate { answer (Edit.Relate 99 0 1) ≡ Err EditFault.NoNode }
    ensures relate_target { answer (Edit.Relate 1 19 99) ≡ Err EditFault.NoNode }
    ensures unrelate { answer (Edit.Unrelate 99 0 1) ≡ Err EditFault.NoNode }
    ensures unrelate_target { answer (Edit.Unrelate 1 19 99) ≡ Err EditFault.NoNode }
{}

/// The root stays; then an index has to be right, which counts the children without the node; then no node goes below
/// itself.
pub fn moves()
    ensures remove { answer (Edit.Remove 0) ≡ Err EditFault.IsRoot }
    ensures root { answer (Edit.Move 0 1 9) ≡ Err EditFault.IsRoot }
    ensures index { answer (Edit.Move 1 4 1) ≡ Err EditFault.BadIndex }
    ensures own_index { answer (Edit.Move 4 1 3) ≡ Err EditFault.BadIndex }
    ensures below { answer (Edit.Move 1 4 0) ≡ Err EditFault.Cycle }
    ensures itself { answer (Edit.Move 1 1 3) ≡ Err EditFault.Cycle }
{}

/// A new node's index and columns, then room, then its name.
pub fn insertions()
    ensures index { answer_at 4294967295 (Edit.Insert 1 4 (plain 0 [])) ≡ Err EditFault.BadIndex }
    ensures no_column { answer_at 4294967295 (Edit.Insert 1 0 (with_columns 0)) ≡ Err EditFault.BadIndex }
    ensures many_columns { answer_at 4294967295 (Edit.Insert 1 0 (with_columns 1025)) ≡ Err EditFault.BadIndex }
    ensures one_column { answer (Edit.Insert 1 0 (with_columns 1)) ≡ Ok (Step.Add 13 1 0 (with_columns 1) ∷ []) }
    ensures most_columns { answer (Edit.Insert 1 0 (with_columns 1024))
        ≡ Ok (Step.Add 13 1 0 (with_columns 1024) ∷ []) }
    ensures no_number { answer_at 4294967295 (Edit.Insert 1 3 (plain 0 [])) ≡ Err EditFault.Full }
    ensures last_number { answer_at 4294967294 (Edit.Insert 1 3 (plain 0 []))
        ≡ Ok (Step.Add 4294967295 1 3 (plain 0 []) ∷ []) }
{}

/// The sign has a text that cannot be edited, the buttons have none. The entry's text has five characters.
pub fn texts()
    ensures put { answer (Edit.Put 10 9 []) ≡ Err EditFault.NoFace }
    ensures put_behind { answer (Edit.Put 2 6 []) ≡ Err EditFault.BadOffset }
    ensures typed { answer (Edit.Keys 10 []) ≡ Err EditFault.NoFace }
    ensures cut { answer (Edit.Cut 10 9 1) ≡ Err EditFault.NoFace }
    ensures cut_back { answer (Edit.Cut 2 2 1) ≡ Err EditFault.BadOffset }
    ensures cut_behind { answer (Edit.Cut 2 4 6) ≡ Err EditFault.BadOffset }
    ensures cut_at_end { answer (Edit.Cut 2 5 5) ≡ Ok [] }
    ensures caret { answer (Edit.Caret 3 9) ≡ Err EditFault.NoFace }
    ensures caret_of_sign { answer (Edit.Caret 10 1) ≡ Ok (Step.Caret 10 1 ∷ []) }
    ensures caret_behind { answer (Edit.Caret 2 6) ≡ Err EditFault.BadOffset }
{}

/// A selection of text is not empty, lies in the text, and is one of sixteen at most.
pub fn marks()
    ensures mark { answer (Edit.Mark 3 9 1) ≡ Err EditFault.NoFace }
    ensures mark_of_sign { answer (Edit.Mark 10 0 3) ≡ Ok (Step.TextSelect 10 ((0, 3) ∷ []) ∷ []) }
    ensures empty_mark { answer (Edit.Mark 2 2 2) ≡ Err EditFault.BadOffset }
    ensures mark_behind { answer (Edit.Mark 2 4 6) ≡ Err EditFault.BadOffset }
    ensures seventeenth { sign_with 16 (Edit.Mark 10 0 1) ≡ Err EditFault.BadOffset }
    ensures unmark { answer (Edit.Unmark 3) ≡ Err EditFault.NoFace }
{}

/// Children are selected of a list alone, and actions done where there are some.
pub fn children_and_actions()
    ensures select { answer (Edit.Select 2 9) ≡ Err EditFault.NoFace }
    ensures select_behind { answer (Edit.Select 1 3) ≡ Err EditFault.BadIndex }
    ensures deselect { answer (Edit.Deselect 2 9) ≡ Err EditFault.NoFace }
    ensures deselect_behind { answer (Edit.Deselect 1 3) ≡ Err EditFault.BadIndex }
    ensures press { answer (Edit.Press 1 9) ≡ Err EditFault.NoFace }
    ensures press_behind { answer (Edit.Press 3 5) ≡ Err EditFault.BadIndex }
    ensures relate { answer (Edit.Relate 1 0 2) ≡ Err EditFault.BadIndex }
    ensures relate_behind { answer (Edit.Relate 1 19 2) ≡ Err EditFault.BadIndex }
    ensures unrelate { answer (Edit.Unrelate 1 0 2) ≡ Err EditFault.BadIndex }
    ensures unrelate_behind { answer (Edit.Unrelate 1 19 2) ≡ Err EditFault.BadIndex }
{}

/// A tree of 8,192 nodes is full.
pub fn full()
    ensures nodes { (f : Forest ShapeRow) → count (λ row. true) f ≡ 8192 → is_full f 0 ≡ true }
    ensures room { (f : Forest ShapeRow) → count (λ row. true) f ≡ 8191 → is_full f 0 ≡ false }
{}

/// Names and descriptions have 511 bytes at most, texts 1,048,576 characters.
pub fn lengths()
    ensures name { (x : List ℕ) → length (encode_utf8_all x) ≡ 512 → answer (Edit.Name 3 x) ≡ Err EditFault.TextFull }
    ensures absent_name { (x : List ℕ) → length (encode_utf8_all x) ≡ 512
        → nowhere (Edit.Name 3 x) ≡ Err EditFault.NoNode }
    ensures description { (x : List ℕ) → length (encode_utf8_all x) ≡ 512
        → answer (Edit.Describe 3 x) ≡ Err EditFault.TextFull }
    ensures absent_description { (x : List ℕ) → length (encode_utf8_all x) ≡ 512
        → nowhere (Edit.Describe 3 x) ≡ Err EditFault.NoNode }
    ensures new_name { (x : List ℕ) → length (encode_utf8_all x) ≡ 512
        → answer (Edit.Insert 0 0 (plain 0 x)) ≡ Err EditFault.TextFull }
    ensures last_name { (x : List ℕ) → length (encode_utf8_all x) ≡ 511
        → answer (Edit.Insert 0 0 (plain 0 x)) ≡ Ok (Step.Add 13 0 0 (plain 0 x) ∷ []) }
    ensures full_before { (x : List ℕ) → length (encode_utf8_all x) ≡ 512
        → answer_at 4294967295 (Edit.Insert 0 0 (plain 0 x)) ≡ Err EditFault.Full }
    ensures text { (x : List ℕ) → length x ≡ 1048577 → answer (Edit.Insert 0 0 (with_text x)) ≡ Err EditFault.TextFull }
    ensures last_text { (x : List ℕ) → length x ≡ 1048576
        → answer (Edit.Insert 0 0 (with_text x)) ≡ Ok (Step.Add 13 0 0 (with_text x) ∷ []) }
    ensures put { (x : List ℕ) → length x ≡ 1048572 → answer (Edit.Put 2 5 x) ≡ Err EditFault.TextFull }
    ensures put_behind { (x : List ℕ) → length x ≡ 1048572 → answer (Edit.Put 2 6 x) ≡ Err EditFault.BadOffset }
    ensures last_put { (x : List ℕ) → length x ≡ 1048571 → answer (Edit.Put 2 5 x) ≡ Ok (Step.Insert 2 5 x ∷ []) }
    ensures typed { (x : List ℕ) → length x ≡ 1048572 → answer (Edit.Keys 2 x) ≡ Err EditFault.TextFull }
    ensures typed_at_sign { (x : List ℕ) → length x ≡ 1048574 → answer (Edit.Keys 10 x) ≡ Err EditFault.NoFace }
{}

/// What can be asked for: a state that there is; a new node with eight actions at most, and a text if one is to be
/// edited.
pub fn askable()
    ensures state { IsEdit (Edit.State 3 43 true) }
    ensures no_state { IsEdit (Edit.State 3 44 true) → ⊥ }
    ensures actions { IsEdit
        (Edit.Insert 0 0
        (record (with_text hello)
        { editable = true; actions = hello ∷ hello ∷ hello ∷ hello ∷ hello ∷ hello ∷ hello ∷ hello ∷ [] })) }
    ensures many_actions { IsEdit
        (Edit.Insert 0 0
        (record (plain 0 [])
        { actions = hello ∷ hello ∷ hello ∷ hello ∷ hello ∷ hello ∷ hello ∷ hello ∷ hello ∷ [] })) → ⊥ }
    ensures no_text { IsEdit (Edit.Insert 0 0 (record (plain 0 []) { editable = true })) → ⊥ }
    ensures any { IsEdit (Edit.Caret 99 99) }
{}

/// What an edit reads of contents of another kind, or of none.
pub fn other_contents()
    ensures text { known_text (FaceData.Grid 2) ≡ record { characters = []; caret = 0; selections = [] } }
    ensures no_text { text_length None ≡ 0 }
    ensures actions { known_actions (FaceData.Grid 2) ≡ [] }
    ensures text_of_none { text_contents None ≡ FaceData.Deeds [] }
    ensures text_of_button { text_contents (Some button) ≡ FaceData.Deeds [] }
    ensures actions_of_none { action_contents None ≡ FaceData.Deeds [] }
    ensures read_none { contents_read room (Edit.Select 1 0) ≡ FaceData.Deeds [] }
    ensures read_actions { contents_read room (Edit.Press 9 0) ≡ FaceData.Deeds pressed_button.contents.actions }
    ensures read_text { contents_read room (Edit.Unmark 2) ≡ FaceData.Chars hello 3 ((1, 2) ∷ []) }
{}
