//! Worked cases of the registry's drop.

ghost use Rattle.std.specs.Prelude.{[], ◌∷◌};
ghost use Rattle.atspi_script_lines.specs.declared.line.Party.TheVariants.{Registry, App};
ghost use Rattle.atspi_trace.specs.Entry.{dropped, quiet};
ghost use Rattle.atspi_trace_laws.specs.lost.Laws.{IsAllOver};

/// Nothing may stand behind the registry's drop; behind that of another end more may.
pub fn registry_dropped()
    ensures last { IsAllOver [] (dropped Registry 9 9) [] }
    ensures followed { IsAllOver [] (dropped Registry 9 9) (quiet ∷ []) → ⊥ }
    ensures of_another { IsAllOver [] (dropped (App 0) 9 9) (quiet ∷ []) }
    ensures other_entry { IsAllOver [] quiet (quiet ∷ []) }
{}
