//! Worked cases of who is live.

ghost use Rattle.std.specs.Prelude.{[], ◌∷◌, None};
ghost use Rattle.atspi_protocol.specs.declared.following.question.Question.TheVariants.{Hello};
ghost use Rattle.atspi_protocol.specs.following.Calls.{asking};
ghost use Rattle.atspi_script_lines.specs.declared.line.Party.TheVariants.{Bus, Registry, App, Reader};
ghost use Rattle.atspi_trace.specs.Entry.{started, sent, got, exited, dropped};
ghost use Rattle.atspi_trace_laws.specs.living.Laws.{ActsAlive};

/// A reader may send and take once it was started, and not behind its exit or its drop; the registry was there from the
/// beginning, and of the bus nothing is said.
pub fn who_is_live()
    ensures sends { ActsAlive (started (Reader 0) None ∷ []) (sent (Reader 0) (asking 1 Hello)) [] }
    ensures takes { ActsAlive (started (Reader 0) None ∷ []) (got (Reader 0) Bus 8) [] }
    ensures before { ActsAlive [] (sent (Reader 0) (asking 1 Hello)) [] → ⊥ }
    ensures stopped { ActsAlive (started (Reader 0) None ∷ (exited (Reader 0) ∷ [])) (got (Reader 0) Bus 8) [] → ⊥ }
    ensures was_dropped { ActsAlive (started (Reader 0) None ∷ (dropped (Reader 0) 9 9 ∷ []))
        (sent (Reader 0) (asking 2 Hello)) [] → ⊥ }
    ensures registry { ActsAlive [] (got Registry (App 0) 1) [] }
    ensures bus { ActsAlive [] (got Bus (App 0) 1) [] }
{}
