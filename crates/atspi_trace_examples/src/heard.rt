//! Worked cases of what stands behind a step.

ghost use Rattle.std.specs.Prelude.{[], ◌∷◌};
ghost use Rattle.atspi_tree_model.specs.declared.step.Step.TheVariants.{Caret, TextSelect};
ghost use Rattle.atspi_protocol.specs.announcing.Signals.{caret_moved};
ghost use Rattle.atspi_script_lines.specs.declared.line.Party.TheVariants.{App};
ghost use Rattle.atspi_trace.specs.Entry.{heard, changed, sent, quiet};
ghost use Rattle.atspi_trace_laws.specs.heard.Laws.{IsToldUnder, IsOneOfThem};

/// An empty pattern covers every event: behind a caret's move stands its signal with the next number. Where nobody
/// listens nothing stands, and of a selection in a text nothing stands even so.
pub fn behind_a_step()
    ensures told { IsToldUnder (heard 0 [] [] ∷ []) (changed 0 (Caret 1 2))
        (sent (App 0) (record (caret_moved 1 2).message { serial = 1 }) ∷ (quiet ∷ [])) }
    ensures untold { IsToldUnder [] (changed 0 (Caret 1 2)) [] }
    ensures no_signal { IsToldUnder (heard 0 [] [] ∷ []) (changed 0 (TextSelect 1 [])) [] }
    ensures missing { IsToldUnder (heard 0 [] [] ∷ []) (changed 0 (Caret 1 2)) [] → ⊥ }
    ensures other_entry { IsToldUnder [] quiet [] }
{}

/// A signal stands behind its step, where somebody listens; by itself it stands nowhere.
pub fn no_signal_alone()
    ensures behind { IsOneOfThem (heard 0 [] [] ∷ (changed 0 (Caret 1 2) ∷ []))
        (sent (App 0) (record (caret_moved 1 2).message { serial = 1 })) [] }
    ensures alone { IsOneOfThem [] (sent (App 0) (caret_moved 1 2).message) [] → ⊥ }
    ensures other_entry { IsOneOfThem [] quiet [] }
{}
