//! Worked cases of what may come, and what may be held, behind the news that an application ended.

ghost use Rattle.std.specs.Prelude.{[], ◌∷◌};
ghost use Rattle.atspi_script_lines.specs.declared.line.Party.TheVariants.{Bus, Registry, App, Reader};
ghost use Rattle.atspi_trace.specs.Entry.{got, gone, quiet};
ghost use Rattle.atspi_trace_laws.specs.exits.Laws.{ComesBeforeEnd, HoldsNoMore};
ghost use Rattle.atspi_trace_examples.specs.caches.Cases.{told, loaded};

/// Behind the news that an application ended its reader takes no message of it; another reader may, which has not told
/// that yet, and another application's messages may come, and those of the bus and of the registry.
pub fn what_may_come()
    ensures before { ComesBeforeEnd [] (got (Reader 0) (App 0) 5) (gone 0 0 ∷ []) }
    ensures behind { ComesBeforeEnd (gone 0 0 ∷ []) (got (Reader 0) (App 0) 5) [] → ⊥ }
    ensures far_behind { ComesBeforeEnd (quiet ∷ (gone 0 0 ∷ (quiet ∷ []))) (got (Reader 0) (App 0) 5) [] → ⊥ }
    ensures another_reader { ComesBeforeEnd (gone 0 0 ∷ []) (got (Reader 1) (App 0) 5) [] }
    ensures another_application { ComesBeforeEnd (gone 0 0 ∷ []) (got (Reader 0) (App 1) 5) [] }
    ensures of_the_bus { ComesBeforeEnd (gone 0 0 ∷ []) (got (Reader 0) Bus 5) [] }
    ensures of_the_registry { ComesBeforeEnd (gone 0 0 ∷ []) (got (Reader 0) Registry 5) [] }
{}

/// It holds nothing of it there, however far behind; if the items came still, it would hold it again.
pub fn what_may_be_held()
    ensures at_once { HoldsNoMore loaded (gone 0 0) [] }
    ensures another_entry { HoldsNoMore told (got (Reader 0) (App 0) 5) [] }
    ensures held_again { HoldsNoMore told (gone 0 0) (got (Reader 0) (App 0) 5 ∷ []) → ⊥ }
{}
