//! Worked cases of what a reader shows, and of which message announces a step.

ghost use Rattle.std.specs.Prelude.{[], ◌∷◌, None, Some};
ghost use Rattle.atspi_tree_model.specs.declared.step.Step.TheVariants.{Caret};
ghost use Rattle.atspi_protocol.specs.announcing.Signals.{caret_moved};
ghost use Rattle.atspi_protocol.specs.declared.following.question.Question.TheVariants.{Hello};
ghost use Rattle.atspi_protocol.specs.following.Calls.{asking};
ghost use Rattle.atspi_script_lines.specs.declared.line.Party.TheVariants.{App};
ghost use Rattle.atspi_trace.specs.Entry.{heard, changed, sent, showed, quiet};
ghost use Rattle.atspi_trace_laws.specs.laws.NineLaws.{ShowsTree, Announces};

/// Of an application that a reader does not hold it shows nothing.
pub fn shown_rows()
    ensures nothing { ShowsTree [] (showed 0 0 None) [] }
    ensures no_rows { ShowsTree [] (showed 0 0 (Some [])) [] → ⊥ }
    ensures other_entry { ShowsTree [] quiet [] }
{}

/// A message announces the step directly before it, where its announcement was asked for; behind a step whose
/// announcement nobody asked for it announces nothing, and neither does one with something between.
pub fn announced_steps()
    ensures announced { Announces
        (heard 0 [] []
        ∷ (changed 0 (Caret 1 2) ∷ (sent (App 0) (record (caret_moved 1 2).message { serial = 5 }) ∷ []))) 0 5
        (Caret 1 2) }
    ensures unasked { Announces (changed 0 (Caret 1 2) ∷ (sent (App 0) (asking 5 Hello) ∷ [])) 0 5 (Caret 1 2) → ⊥ }
    ensures unsent { Announces (heard 0 [] [] ∷ (changed 0 (Caret 1 2) ∷ [])) 0 5 (Caret 1 2) → ⊥ }
{}
