//! Text and EditableText.

ghost use Rattle.std.specs.Prelude.{◌≡◌, ◌∷◌, [], None, Some, pos, negsuc, true, false, codes};
ghost use Rattle.atspi_types.specs.Data.{boolean_data, number_data, text_data};
ghost use Rattle.atspi_types.specs.Kinds.{u32};
ghost use Rattle.atspi_units.specs.declared.grain.Grain.TheVariants.{Char, Word, Line};
ghost use Rattle.atspi_protocol.specs.ends.Messages.{returns};
ghost use Rattle.atspi_protocol.specs.members.Arguments.{int};
ghost use Rattle.atspi_protocol.specs.members.Granularity.{grain_of};
ghost use Rattle.atspi_protocol.specs.objects.Texts.{piece_there};
ghost use Rattle.atspi_protocol.specs.objects.Cases.{entry, hello, told, steps, one, two, three, written};

use crate::members::ObjectMember;
use atspi_tree_model::Step;

/// Parts of a text.
pub fn parts()
    ensures middle { told entry ObjectMember.GetText (two (pos 1) (pos 3)) ≡ returns (text_data (233 ∷ 108 ∷ []) ∷ []) }
    ensures to_end { told entry ObjectMember.GetText (two (pos 1) (negsuc 0))
        ≡ returns (text_data (233 ∷ 108 ∷ 108 ∷ 111 ∷ []) ∷ []) }
    ensures all { told entry ObjectMember.GetText (two (negsuc 6) (pos 99)) ≡ returns (text_data hello ∷ []) }
    ensures passed { told entry ObjectMember.GetText (two (pos 4) (pos 2)) ≡ returns (text_data [] ∷ []) }
    ensures behind { told entry ObjectMember.GetText (two (pos 9) (negsuc 0)) ≡ returns (text_data [] ∷ []) }
    ensures whole { told entry ObjectMember.GetText (two (pos 0) (pos 5)) ≡ returns (text_data hello ∷ []) }
    ensures character { told entry ObjectMember.GetCharacterAtOffset (one (pos 1)) ≡ returns (int (pos 233) ∷ []) }
    ensures no_character { told entry ObjectMember.GetCharacterAtOffset (one (pos 5)) ≡ returns (int (pos 0) ∷ []) }
    ensures before { told entry ObjectMember.GetCharacterAtOffset (one (negsuc 0)) ≡ returns (int (pos 0) ∷ []) }
{}

/// The piece that holds a character, by the numbers of AtspiTextGranularity.
pub fn pieces()
    ensures characters { grain_of 0 ≡ Some Char }
    ensures words { grain_of 1 ≡ Some Word }
    ensures no_sentences { grain_of 2 ≡ None }
    ensures lines { grain_of 3 ≡ Some Line }
    ensures paragraphs { grain_of 4 ≡ Some Line }
    ensures no_others { grain_of 5 ≡ None }
    ensures character { told entry ObjectMember.GetStringAtOffset (int (pos 1) ∷ number_data u32 0 ∷ [])
        ≡ returns (text_data (233 ∷ []) ∷ int (pos 1) ∷ int (pos 2) ∷ []) }
    ensures line { told entry ObjectMember.GetStringAtOffset (int (pos 4) ∷ number_data u32 3 ∷ [])
        ≡ returns (text_data hello ∷ int (pos 0) ∷ int (pos 5) ∷ []) }
    ensures paragraph { told entry ObjectMember.GetStringAtOffset (int (pos 0) ∷ number_data u32 4 ∷ [])
        ≡ returns (text_data hello ∷ int (pos 0) ∷ int (pos 5) ∷ []) }
    ensures behind { told entry ObjectMember.GetStringAtOffset (int (pos 5) ∷ number_data u32 0 ∷ [])
        ≡ returns (text_data [] ∷ int (negsuc 0) ∷ int (negsuc 0) ∷ []) }
    ensures before { told entry ObjectMember.GetStringAtOffset (int (negsuc 0) ∷ number_data u32 3 ∷ [])
        ≡ returns (text_data [] ∷ int (negsuc 0) ∷ int (negsuc 0) ∷ []) }
    ensures word { piece_there (Some Word) (codes "can't stop") (pos 7)
        ≡ Some (record { characters = codes "stop"; start = 6; end = 10 }) }
    ensures long_word { piece_there (Some Word) (codes "can't stop") (pos 4)
        ≡ Some (record { characters = codes "can't"; start = 0; end = 5 }) }
{}

/// The caret goes to any place in the text.
pub fn carets()
    ensures goes { steps entry ObjectMember.SetCaretOffset (one (pos 5)) ≡ Step.Caret 5 5 ∷ [] }
    ensures told { told entry ObjectMember.SetCaretOffset (one (pos 5)) ≡ returns (boolean_data true ∷ []) }
    ensures stays { steps entry ObjectMember.SetCaretOffset (one (pos 3)) ≡ [] }
    ensures there { told entry ObjectMember.SetCaretOffset (one (pos 3)) ≡ returns (boolean_data true ∷ []) }
    ensures behind { told entry ObjectMember.SetCaretOffset (one (pos 6)) ≡ returns (boolean_data false ∷ []) }
    ensures no_step { steps entry ObjectMember.SetCaretOffset (one (pos 6)) ≡ [] }
    ensures before { told entry ObjectMember.SetCaretOffset (one (negsuc 0)) ≡ returns (boolean_data false ∷ []) }
{}

/// Text selections are read by index, added, taken away and exchanged.
pub fn selections()
    ensures count { told entry ObjectMember.GetNSelections [] ≡ returns (int (pos 2) ∷ []) }
    ensures second { told entry ObjectMember.GetSelection (one (pos 1)) ≡ returns (int (pos 0) ∷ int (pos 5) ∷ []) }
    ensures none { told entry ObjectMember.GetSelection (one (pos 2)) ≡ returns (int (negsuc 0) ∷ int (negsuc 0) ∷ []) }
    ensures before { told entry ObjectMember.GetSelection (one (negsuc 0))
        ≡ returns (int (negsuc 0) ∷ int (negsuc 0) ∷ []) }
    ensures added { steps entry ObjectMember.AddSelection (two (pos 4) (pos 5))
        ≡ Step.TextSelect 5 ((1, 3) ∷ (0, 5) ∷ (4, 5) ∷ []) ∷ [] }
    ensures empty { told entry ObjectMember.AddSelection (two (pos 3) (pos 3)) ≡ returns (boolean_data false ∷ []) }
    ensures too_far { told entry ObjectMember.AddSelection (two (pos 3) (pos 6)) ≡ returns (boolean_data false ∷ []) }
    ensures too_early { told entry ObjectMember.AddSelection (two (negsuc 0) (pos 2))
        ≡ returns (boolean_data false ∷ []) }
    ensures removed { steps entry ObjectMember.RemoveSelection (one (pos 0)) ≡ Step.TextSelect 5 ((0, 5) ∷ []) ∷ [] }
    ensures none_removed { told entry ObjectMember.RemoveSelection (one (pos 2)) ≡ returns (boolean_data false ∷ []) }
    ensures none_before { told entry ObjectMember.RemoveSelection (one (negsuc 0)) ≡ returns (boolean_data false ∷ []) }
    ensures set { steps entry ObjectMember.SetSelection (three (pos 0) (pos 2) (pos 4))
        ≡ Step.TextSelect 5 ((2, 4) ∷ (0, 5) ∷ []) ∷ [] }
    ensures same { steps entry ObjectMember.SetSelection (three (pos 1) (pos 0) (pos 5)) ≡ [] }
    ensures same_told { told entry ObjectMember.SetSelection (three (pos 1) (pos 0) (pos 5))
        ≡ returns (boolean_data true ∷ []) }
    ensures none_set { told entry ObjectMember.SetSelection (three (pos 2) (pos 0) (pos 5))
        ≡ returns (boolean_data false ∷ []) }
    ensures no_range { told entry ObjectMember.SetSelection (three (pos 0) (pos 4) (pos 4))
        ≡ returns (boolean_data false ∷ []) }
    ensures set_too_far { told entry ObjectMember.SetSelection (three (pos 0) (pos 4) (pos 6))
        ≡ returns (boolean_data false ∷ []) }
{}

/// A text is put in, cut and exchanged; the caret goes with what is behind it.
pub fn edits()
    ensures put { steps entry ObjectMember.InsertText (int (pos 0) ∷ text_data (codes "ab") ∷ int (negsuc 0) ∷ [])
        ≡ Step.Insert 5 0 (codes "ab") ∷ Step.Caret 5 5 ∷ [] }
    ensures put_behind { steps entry ObjectMember.InsertText (int (pos 5) ∷ text_data (codes "ab") ∷ int (pos 1) ∷ [])
        ≡ Step.Insert 5 5 (codes "ab") ∷ [] }
    ensures put_nothing { told entry ObjectMember.InsertText (int (pos 0) ∷ text_data [] ∷ int (pos 0) ∷ [])
        ≡ returns (boolean_data true ∷ []) }
    ensures put_too_far { told entry ObjectMember.InsertText (int (pos 6) ∷ text_data (codes "ab") ∷ int (pos 2) ∷ [])
        ≡ returns (boolean_data false ∷ []) }
    ensures put_before { steps entry ObjectMember.InsertText
        (int (negsuc 0) ∷ text_data (codes "ab") ∷ int (pos 2) ∷ []) ≡ [] }
    ensures cut { steps entry ObjectMember.DeleteText (two (pos 1) (pos 4))
        ≡ Step.Caret 5 1 ∷ Step.Delete 5 1 (233 ∷ 108 ∷ 108 ∷ []) ∷ [] }
    ensures cut_nothing { told entry ObjectMember.DeleteText (two (pos 5) (pos 5)) ≡ returns (boolean_data true ∷ []) }
    ensures cut_too_far { told entry ObjectMember.DeleteText (two (pos 1) (pos 6)) ≡ returns (boolean_data false ∷ []) }
    ensures cut_backwards { told entry ObjectMember.DeleteText (two (pos 2) (pos 1))
        ≡ returns (boolean_data false ∷ []) }
    ensures exchanged { steps entry ObjectMember.SetTextContents (written (codes "x"))
        ≡ Step.Caret 5 0 ∷ Step.Delete 5 0 hello ∷ Step.Insert 5 0 (codes "x") ∷ [] }
    ensures exchanged_told { told entry ObjectMember.SetTextContents (written (codes "x"))
        ≡ returns (boolean_data true ∷ []) }
    ensures emptied { steps entry ObjectMember.SetTextContents (written [])
        ≡ Step.Caret 5 0 ∷ Step.Delete 5 0 hello ∷ [] }
{}
