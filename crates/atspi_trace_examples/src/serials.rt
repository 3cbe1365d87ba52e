//! Worked cases of the numbers of messages.

ghost use Rattle.std.specs.Prelude.{[], ◌∷◌};
ghost use Rattle.atspi_protocol.specs.declared.following.question.Question.TheVariants.{Hello};
ghost use Rattle.atspi_protocol.specs.following.Calls.{asking};
ghost use Rattle.atspi_script_lines.specs.declared.line.Party.TheVariants.{Bus, Registry, App};
ghost use Rattle.atspi_trace.specs.Entry.{sent, quiet};
ghost use Rattle.atspi_trace_laws.specs.serials.Laws.{HasNextNumber};

/// An application's first message has the number 1 and its second 2; the registry sent three before; of the bus nothing
/// is said.
pub fn next_numbers()
    ensures first { HasNextNumber [] (sent (App 0) (asking 1 Hello)) [] }
    ensures second { HasNextNumber (sent (App 0) (asking 1 Hello) ∷ []) (sent (App 0) (asking 2 Hello)) [] }
    ensures of_another { HasNextNumber (sent (App 0) (asking 1 Hello) ∷ []) (sent (App 1) (asking 1 Hello)) [] }
    ensures too_late { HasNextNumber (sent (App 0) (asking 1 Hello) ∷ []) (sent (App 0) (asking 3 Hello)) [] → ⊥ }
    ensures registry { HasNextNumber [] (sent Registry (asking 4 Hello)) [] }
    ensures bus { HasNextNumber [] (sent Bus (asking 9 Hello)) [] }
    ensures anything { HasNextNumber [] quiet [] }
{}
