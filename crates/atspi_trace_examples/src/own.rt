//! Worked cases of the bus's serials.

ghost use Rattle.std.specs.Prelude.{[], ◌∷◌};
ghost use Rattle.atspi_protocol.specs.declared.following.question.Question.TheVariants.{Hello};
ghost use Rattle.atspi_protocol.specs.following.Calls.{asking};
ghost use Rattle.atspi_script_lines.specs.declared.line.Party.TheVariants.{Bus, Registry};
ghost use Rattle.atspi_trace.specs.Entry.{sent, dropped, quiet};
ghost use Rattle.atspi_trace_laws.specs.own.Laws.{HasNextOwn};

/// The bus's first message behind the registry's start has serial 8, the next 9; behind the registry's drop nothing is
/// said.
pub fn own_serials()
    ensures first { HasNextOwn [] (sent Bus (asking 8 Hello)) [] }
    ensures second { HasNextOwn (sent Bus (asking 8 Hello) ∷ []) (sent Bus (asking 9 Hello)) [] }
    ensures again { HasNextOwn (sent Bus (asking 8 Hello) ∷ []) (sent Bus (asking 8 Hello)) [] → ⊥ }
    ensures lost { HasNextOwn (dropped Registry 9 9 ∷ []) (sent Bus (asking 30 Hello)) [] }
    ensures of_an_end { HasNextOwn [] (sent Registry (asking 30 Hello)) [] }
    ensures other_entry { HasNextOwn [] quiet [] }
{}
