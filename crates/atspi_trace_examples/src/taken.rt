//! Worked cases of what is taken.

ghost use Rattle.std.specs.Prelude.{[], ◌∷◌};
ghost use Rattle.atspi_protocol.specs.declared.following.question.Question.TheVariants.{Hello};
ghost use Rattle.atspi_protocol.specs.following.Calls.{asking};
ghost use Rattle.atspi_script_lines.specs.declared.line.Party.TheVariants.{Bus, App, Reader};
ghost use Rattle.atspi_trace.specs.Entry.{sent, got, quiet};
ghost use Rattle.atspi_trace_laws.specs.taken.Laws.{IsTakenAsSent};

/// What a reader takes of an application was sent by it with that serial; of the bus's own messages nothing is said.
pub fn taken_as_sent()
    ensures was_sent { IsTakenAsSent (sent (App 0) (asking 1 Hello) ∷ []) (got (Reader 0) (App 0) 1) [] }
    ensures unsent { IsTakenAsSent [] (got (Reader 0) (App 0) 1) [] → ⊥ }
    ensures another_serial { IsTakenAsSent (sent (App 0) (asking 1 Hello) ∷ []) (got (Reader 0) (App 0) 2) [] → ⊥ }
    ensures another_sender { IsTakenAsSent (sent (App 0) (asking 1 Hello) ∷ []) (got (Reader 0) (App 1) 1) [] → ⊥ }
    ensures of_the_bus { IsTakenAsSent [] (got (Reader 0) Bus 8) [] }
    ensures other_entry { IsTakenAsSent [] quiet [] }
{}
