//! What an application refuses, and changes that cannot be made.

ghost use Rattle.std.specs.Prelude.{◌≡◌, ◌∷◌, [], None, Some, Ok, Err, true, false, pos, negsuc, codes};
ghost use Rattle.atspi_types.specs.Data.{text_data};
ghost use Rattle.atspi_tree_model.specs.declared.edit.Edit.TheVariants.{Cut, Put};
ghost use Rattle.atspi_tree_model.specs.declared.step.Step.TheVariants.{Caret, Delete, Insert, TextSelect};
ghost use Rattle.atspi_protocol.specs.declared.members.member.ObjectMember.TheVariants.{Embed};
ghost use Rattle.atspi_protocol.specs.declared.members.property.ObjectProperty.TheVariants.{Id, Name};
ghost use Rattle.atspi_protocol.specs.members.Asked.{calls, gets, set_to, sets};
ghost use Rattle.atspi_protocol.specs.objects.Answers.{called, place_answers, refuses, tree_answers};
ghost use Rattle.atspi_protocol.specs.objects.Changes.{edited_between, edited_twice, selection_removed, selection_set};
ghost use Rattle.atspi_protocol.specs.objects.Tables.{columns_of};
ghost use Rattle.atspi_protocol.specs.objects.Texts.{text_of};
ghost use Rattle.atspi_protocol.specs.objects.Cases.{app, button, entry, grid};

/// A member of another kind of object is unknown; so is a property of the object for the whole tree; where nothing is,
/// nothing is known.
pub fn no_members()
    ensures member { called app button Embed [] ≡ refuses app (codes "UnknownMethod") }
    ensures property { tree_answers app (gets Name) ≡ refuses app (codes "UnknownProperty") }
    ensures set { tree_answers app (sets Id (text_data [])) ≡ refuses app (codes "UnknownProperty") }
    ensures nowhere { place_answers app None (Ok (calls Embed [])) ≡ refuses app (codes "UnknownObject") }
{}

/// What has no columns has none, and what has no text an empty one.
pub fn properties()
    ensures columns { columns_of grid ≡ 2 }
    ensures no_columns { columns_of button ≡ 0 }
    ensures no_text { text_of button ≡ record { characters = []; caret = 0; selections = [] } }
{}

/// A range of the text is exchanged where both its ends are in the text and it is not empty, and where there is one at
/// the index.
pub fn selections()
    ensures exchanged { selection_set entry (pos 1) (pos 2) (pos 4) ≡ Some (TextSelect 5 ((1, 3) ∷ (2, 4) ∷ []) ∷ []) }
    ensures first { selection_set entry (pos 0) (pos 2) (pos 4) ≡ Some (TextSelect 5 ((2, 4) ∷ (0, 5) ∷ []) ∷ []) }
    ensures same { selection_set entry (pos 0) (pos 1) (pos 3) ≡ Some [] }
    ensures other_start { selection_set entry (pos 0) (pos 0) (pos 3)
        ≡ Some (TextSelect 5 ((0, 3) ∷ (0, 5) ∷ []) ∷ []) }
    ensures other_end { selection_set entry (pos 0) (pos 1) (pos 4) ≡ Some (TextSelect 5 ((1, 4) ∷ (0, 5) ∷ []) ∷ []) }
    ensures empty { selection_set entry (pos 0) (pos 2) (pos 2) ≡ None }
    ensures last { selection_set entry (pos 0) (pos 4) (pos 5) ≡ Some (TextSelect 5 ((4, 5) ∷ (0, 5) ∷ []) ∷ []) }
    ensures behind { selection_set entry (pos 0) (pos 4) (pos 6) ≡ None }
    ensures no_index { selection_set entry (pos 2) (pos 1) (pos 3) ≡ None }
    ensures negative_index { selection_set entry (negsuc 0) (pos 1) (pos 3) ≡ None }
    ensures negative_start { selection_set entry (pos 0) (negsuc 0) (pos 3) ≡ None }
    ensures negative_end { selection_set entry (pos 0) (pos 1) (negsuc 0) ≡ None }
    ensures removed { selection_removed entry (pos 0) ≡ Some (TextSelect 5 ((0, 5) ∷ []) ∷ []) }
    ensures not_removed { selection_removed entry (pos 2) ≡ None }
{}

/// Two edits are made where both can be: the caret, which stands in what is cut, goes to its front first. A place below
/// 0 is none.
pub fn changes()
    ensures both { edited_twice app (Cut 5 0 5) (Put 5 0 (codes "x"))
        ≡ Some (Caret 5 0 ∷ Delete 5 0 (104 ∷ 233 ∷ 108 ∷ 108 ∷ 111 ∷ []) ∷ Insert 5 0 (codes "x") ∷ []) }
    ensures no_first { edited_twice app (Cut 5 0 6) (Put 5 0 (codes "x")) ≡ None }
    ensures no_second { edited_twice app (Cut 5 0 5) (Put 5 1 (codes "x")) ≡ None }
    ensures negative_end { edited_between app (Cut 5) (pos 0) (negsuc 0) ≡ None }
    ensures negative_start { edited_between app (Cut 5) (negsuc 0) (pos 1) ≡ None }
{}

/// A property is set to a value of its type, where it can be set.
pub fn refused()
    ensures no_value { set_to None
        (record { interface = []; name = []; type = codes "s"; is_settable = true; property = Id })
        ≡ Err (codes "InvalidArgs") }
    ensures value { set_to (Some (text_data (codes "x")))
        (record { interface = []; name = []; type = codes "s"; is_settable = true; property = Id })
        ≡ Ok (sets Id (text_data (codes "x"))) }
    ensures other_type { set_to (Some (text_data (codes "x")))
        (record { interface = []; name = []; type = codes "i"; is_settable = true; property = Id })
        ≡ Err (codes "InvalidArgs") }
    ensures read_only { set_to (Some (text_data (codes "x")))
        (record { interface = []; name = []; type = codes "s"; is_settable = false; property = Id })
        ≡ Err (codes "PropertyReadOnly") }
{}
