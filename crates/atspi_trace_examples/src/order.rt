//! Worked cases: which lines can stand, and what may stand behind the end of an end.

ghost use Rattle.std.specs.Prelude.{[], ◌∷◌, true};
ghost use Rattle.atspi_tree_model.specs.declared.edit.Edit.TheVariants.{State, Caret};
ghost use Rattle.atspi_script_lines.specs.declared.line.Line.TheVariants.{Drain, Edit};
ghost use Rattle.atspi_script_lines.specs.declared.line.Party.TheVariants.{Bus, App};
ghost use Rattle.atspi_trace.specs.Entry.{got, exited, dropped, quiet};
ghost use Rattle.atspi_trace_laws.specs.order.Laws.{IsOut};
ghost use Rattle.atspi_trace_laws.specs.order.Scripts.{CanStand};

/// A line without an edit can stand, and one with an edit that can be asked for; a state beyond those that there are
/// cannot.
pub fn lines_that_stand()
    ensures drains { CanStand Drain }
    ensures caret { CanStand (Edit 0 (Caret 1 2)) }
    ensures state { CanStand (Edit 0 (State 1 12 true)) }
    ensures no_state { CanStand (Edit 0 (State 1 44 true)) → ⊥ }
{}

/// Behind an exit another application may go on, the same may not; so it is behind a drop.
pub fn behind_an_end()
    ensures another { IsOut [] (exited (App 0)) (got (App 1) Bus 3 ∷ (quiet ∷ [])) }
    ensures the_same { IsOut [] (exited (App 0)) (got (App 0) Bus 3 ∷ []) → ⊥ }
    ensures another_dropped { IsOut [] (dropped (App 0) 10 20) (got (App 1) Bus 3 ∷ []) }
    ensures the_dropped { IsOut [] (dropped (App 0) 10 20) (got (App 0) Bus 3 ∷ []) → ⊥ }
    ensures anything { IsOut [] quiet (got (App 0) Bus 3 ∷ []) }
{}
