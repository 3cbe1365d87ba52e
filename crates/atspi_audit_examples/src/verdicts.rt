//! Which verdict a text has, and the numbers of reasons.

ghost use Rattle.std.specs.Prelude.{◌≡◌, ◌≤◌, ◌∷◌, ℕ, [], List, None, Some, IsUtf8, codes, false, length, map, true};
ghost use Rattle.atspi_tree_model.specs.declared.edit.EditFault.TheVariants.{BadIndex, BadOffset, Cycle, Full, IsRoot};
ghost use Rattle.atspi_tree_model.specs.declared.edit.EditFault.TheVariants.{NoFace, NoNode, TextFull};
ghost use Rattle.atspi_script_lines.specs.declared.limits.TheConstants.{LINE_LIMIT};
ghost use Rattle.atspi_script_lines.specs.declared.line.LineFault.TheVariants.{Form, Long, NotUtf8};
ghost use Rattle.atspi_trace.specs.Work.{dead, late, no_kit, no_party, no_reader, no_spare, not_held, of_edit};
ghost use Rattle.atspi_audit_due.specs.Verdicts.{IsVerdict, lawful, number_of_reason, number_of_text, refused};
ghost use Rattle.atspi_audit_due.specs.Verdicts.{refused_text, unlawful};

/// Reasons are numbered in the order in which they are looked for: those of a text, those of a line, those of an edit.
pub fn reasons_are_numbered()
    ensures texts { map number_of_text (Long ∷ NotUtf8 ∷ Form ∷ []) ≡ (1 ∷ 2 ∷ 3 ∷ []) }
    ensures lines { map number_of_reason (no_party ∷ dead ∷ no_kit ∷ no_reader ∷ no_spare ∷ late ∷ not_held ∷ [])
        ≡ (4 ∷ 5 ∷ 6 ∷ 7 ∷ 8 ∷ 9 ∷ 10 ∷ []) }
    ensures edits { map (λ fault. number_of_reason (of_edit fault))
        (NoNode ∷ IsRoot ∷ NoFace ∷ BadIndex ∷ BadOffset ∷ Cycle ∷ Full ∷ TextFull ∷ [])
        ≡ (11 ∷ 12 ∷ 13 ∷ 14 ∷ 15 ∷ 16 ∷ 17 ∷ 18 ∷ []) }
{}

/// A text that spells no line is refused once all lines before it are done, by its own number.
pub fn texts_are_refused()
    ensures done { refused_text [] (Some Form) true ≡ Some (1, 3) }
    ensures not_done { refused_text [] (Some Form) false ≡ None }
    ensures none { refused_text [] None true ≡ None }
{}

/// Of no lines no event is lawful; of a line that is too long none is looked at.
pub fn small_texts()
    ensures nothing { IsVerdict [] [] (lawful 0) }
    ensures more { IsVerdict [] (codes "x") (unlawful 1 None) }
    ensures long { (line text : List ℕ) → (length line ≤ LINE_LIMIT → ⊥) → IsVerdict (line ∷ []) text (refused 1 1) }
    ensures no_utf8 { (line text : List ℕ) → length line ≤ LINE_LIMIT → (IsUtf8 line → ⊥)
        → IsVerdict (line ∷ []) text (refused 1 2) }
{}
