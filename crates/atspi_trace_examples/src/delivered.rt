//! Worked cases of the bus's messages.

ghost use Rattle.std.specs.Prelude.{[], ◌∷◌};
ghost use Rattle.atspi_protocol.specs.declared.following.question.Question.TheVariants.{Hello};
ghost use Rattle.atspi_protocol.specs.following.Calls.{asking};
ghost use Rattle.atspi_script_lines.specs.declared.line.Party.TheVariants.{Bus, Registry, App, Reader};
ghost use Rattle.atspi_trace.specs.Entry.{sent, got, dropped, quiet};
ghost use Rattle.atspi_trace_laws.specs.delivered.Laws.{IsOfTheBus};

/// What a reader takes of the bus was sent by it with that serial; behind the registry's drop nothing is said.
pub fn of_the_bus()
    ensures was_sent { IsOfTheBus (sent Bus (asking 8 Hello) ∷ []) (got (Reader 0) Bus 8) [] }
    ensures unsent { IsOfTheBus [] (got (Reader 0) Bus 8) [] → ⊥ }
    ensures another_serial { IsOfTheBus (sent Bus (asking 8 Hello) ∷ []) (got (Reader 0) Bus 9) [] → ⊥ }
    ensures lost { IsOfTheBus (dropped Registry 9 9 ∷ []) (got (Reader 0) Bus 30) [] }
    ensures of_an_end { IsOfTheBus [] (got (Reader 0) (App 0) 1) [] }
    ensures other_entry { IsOfTheBus [] quiet [] }
{}
