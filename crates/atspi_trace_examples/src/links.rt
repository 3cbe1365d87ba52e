//! Worked cases of what the bus takes.

ghost use Rattle.std.specs.Prelude.{[], ◌∷◌};
ghost use Rattle.atspi_protocol.specs.declared.following.question.Question.TheVariants.{Hello};
ghost use Rattle.atspi_protocol.specs.following.Calls.{asking};
ghost use Rattle.atspi_script_lines.specs.declared.line.Party.TheVariants.{Bus, App};
ghost use Rattle.atspi_trace.specs.Entry.{sent, got};
ghost use Rattle.atspi_trace_laws.specs.links.Laws.{IsTakenInOrder};

/// The bus takes an application's first message first, once it was sent, and no message twice.
pub fn taken_in_order()
    ensures first { IsTakenInOrder (sent (App 0) (asking 1 Hello) ∷ []) (got Bus (App 0) 1) [] }
    ensures second { IsTakenInOrder
        (sent (App 0) (asking 1 Hello) ∷ (got Bus (App 0) 1 ∷ (sent (App 0) (asking 2 Hello) ∷ []))) (got Bus (App 0) 2)
        [] }
    ensures unsent { IsTakenInOrder [] (got Bus (App 0) 1) [] → ⊥ }
    ensures out_of_order { IsTakenInOrder (sent (App 0) (asking 1 Hello) ∷ (sent (App 0) (asking 2 Hello) ∷ []))
        (got Bus (App 0) 2) [] → ⊥ }
    ensures twice { IsTakenInOrder (sent (App 0) (asking 1 Hello) ∷ (got Bus (App 0) 1 ∷ [])) (got Bus (App 0) 1) []
        → ⊥ }
    ensures another_taker { IsTakenInOrder [] (got (App 0) Bus 7) [] }
{}
