//! Worked cases of the order in which ends take.

ghost use Rattle.std.specs.Prelude.{[], ◌∷◌};
ghost use Rattle.atspi_script_lines.specs.declared.line.Party.TheVariants.{Bus, App, Reader};
ghost use Rattle.atspi_trace.specs.Entry.{got, quiet};
ghost use Rattle.atspi_trace_laws.specs.turns.Laws.{IsTakenInTurn};

/// Of one sender a later message comes later, and none comes twice; another sender's serials are its own, and so are
/// another taker's.
pub fn taken_in_turn()
    ensures later { IsTakenInTurn (got (Reader 0) (App 0) 4 ∷ []) (got (Reader 0) (App 0) 6) [] }
    ensures twice { IsTakenInTurn (got (Reader 0) (App 0) 4 ∷ []) (got (Reader 0) (App 0) 4) [] → ⊥ }
    ensures earlier { IsTakenInTurn (got (Reader 0) (App 0) 6 ∷ []) (got (Reader 0) (App 0) 4) [] → ⊥ }
    ensures another_sender { IsTakenInTurn (got (Reader 0) (App 1) 6 ∷ []) (got (Reader 0) (App 0) 4) [] }
    ensures another_taker { IsTakenInTurn (got (Reader 1) (App 0) 6 ∷ []) (got (Reader 0) (App 0) 4) [] }
    ensures of_the_bus { IsTakenInTurn (got (Reader 0) Bus 9 ∷ []) (got (Reader 0) Bus 8) [] }
    ensures by_the_bus { IsTakenInTurn (got Bus (App 0) 9 ∷ []) (got Bus (App 0) 8) [] }
    ensures other_entry { IsTakenInTurn [] quiet [] }
{}
