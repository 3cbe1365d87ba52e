//! Where carrying stops: the registry is lost, or the serials of the bus are spent.

ghost use Rattle.std.specs.Prelude.{◌≡◌, ◌∷◌, []};
ghost use Rattle.atspi_trace_events.specs.declared.event.Event.TheVariants as event;
ghost use Rattle.atspi_script_lines.specs.declared.line.Party.TheVariants as party;
ghost use Rattle.atspi_match.specs.routing.Queues.{Bus};
ghost use Rattle.atspi_trace.specs.World.{first_registry};
ghost use Rattle.atspi_trace.specs.Causes.{exits};
ghost use Rattle.atspi_trace.specs.Work.{doing, resting};
ghost use Rattle.atspi_world_moves.specs.Halted.{HasRegistryFirst, HaveNames, IsAtWork, IsLostBy};
ghost use Rattle.atspi_world_moves.specs.inner.Halted.{HasNext, IsLostNext};
ghost use Rattle.atspi_world_moves.specs.Halted.{IsLostOn, IsSpentBy, IsSpentOn};
ghost use Rattle.atspi_world_moves.specs.inner.Halted.{IsSpentNext};
ghost use Rattle.atspi_examples.specs.Halting.{application_left, drops, nameless, one_named, registry_left, two_ends};
ghost use Rattle.atspi_examples.specs.Halting.{two_posts};
ghost use Rattle.atspi_examples.specs.Players.{named_app};

/// The first of the ends is the registry, and no other is.
pub fn registries()
    ensures first { HasRegistryFirst (first_registry ∷ named_app ∷ []) }
    ensures none { HasRegistryFirst [] → ⊥ }
    ensures second { HasRegistryFirst (named_app ∷ first_registry ∷ []) → ⊥ }
    ensures twice { HasRegistryFirst (first_registry ∷ first_registry ∷ []) → ⊥ }
{}

/// Connections have the names of a world's ends, whether or not these left: not where one has another name than its
/// end, or there are fewer.
pub fn names()
    ensures both { (b : Bus) → HaveNames (two_ends b) two_posts }
    ensures left { (b : Bus) → HaveNames (registry_left b) two_posts }
    ensures none_yet { (b : Bus) → HaveNames (nameless b) one_named }
    ensures lacking { (b : Bus) → HaveNames (two_ends b) one_named → ⊥ }
    ensures early { (b : Bus) → HaveNames (nameless b) two_posts → ⊥ }
    ensures fewer { (b : Bus) → HaveNames (two_ends b) [] → ⊥ }
{}

/// The registry is lost where it left, and all that this writes was written; the connections have the names behind it.
pub fn losses()
    ensures lost { (b : Bus)
        → IsLostBy (drops (registry_left b) party.Registry) two_posts (event.Quiet ∷ [])
        (event.Quiet ∷ event.Dropped party.Registry 500 24 ∷ []) }
    ensures other { (b : Bus)
        → IsLostBy (drops (application_left b) (party.App 1)) two_posts [] (event.Dropped (party.App 1) 500 24 ∷ [])
        → ⊥ }
    ensures untold { (b : Bus) → IsLostBy (drops (registry_left b) party.Registry) two_posts [] [] → ⊥ }
    ensures unnamed { (b : Bus)
        → IsLostBy (drops (registry_left b) party.Registry) one_named (event.Quiet ∷ [])
        (event.Quiet ∷ event.Dropped party.Registry 500 24 ∷ []) → ⊥ }
{}

/// The serials of the bus are spent where its next one is above 4,294,967,296; all that is to be written, or a front of
/// it, was. The connections have the names from before, or from behind it.
pub fn spent()
    ensures none { (b : Bus) → b.state.next ≡ 4294967297
        → IsSpentBy (nameless b) (drops (two_ends b) (party.App 1)) one_named (event.Quiet ∷ []) (event.Quiet ∷ []) }
    ensures all { (b : Bus) → b.state.next ≡ 4294967297
        → IsSpentBy (nameless b) (drops (two_ends b) (party.App 1)) two_posts []
        (event.Dropped (party.App 1) 500 24 ∷ []) }
    ensures last { (b : Bus) → b.state.next ≡ 4294967296
        → IsSpentBy (nameless b) (drops (two_ends b) (party.App 1)) two_posts [] [] → ⊥ }
    ensures other { (b : Bus)
        → IsSpentBy (nameless b) (drops (two_ends b) (party.App 1)) two_posts [] (event.Quiet ∷ []) → ⊥ }
    ensures misnamed { (b : Bus) → IsSpentBy (two_ends b) (drops (two_ends b) (party.App 1)) one_named [] [] → ⊥ }
{}

/// What is left of a line: where its next cause takes the registry away it is lost, and not where it takes another;
/// nothing is next of a line at rest, nor where the registry was lost before.
pub fn lines()
    ensures lost_next { (b : Bus)
        → IsLostNext (two_ends b) (doing (exits 0)) two_posts [] (event.Exit party.Registry ∷ []) }
    ensures other_next { (b : Bus)
        → IsLostNext (two_ends b) (doing (exits 1)) two_posts [] (event.Exit (party.App 1) ∷ []) → ⊥ }
    ensures spent_next { (b : Bus) → b.state.next ≡ 4294967297
        → IsSpentNext (two_ends b) (doing (exits 1)) two_posts [] [] }
    ensures last_next { (b : Bus) → b.state.next ≡ 4294967296
        → IsSpentNext (two_ends b) (doing (exits 1)) two_posts [] [] → ⊥ }
    ensures none_next { (b : Bus) → HasNext (two_ends b) resting → ⊥ }
    ensures lost_on { (b : Bus)
        → IsLostOn (two_ends b) (doing (exits 0)) two_posts [] (event.Exit party.Registry ∷ []) }
    ensures spent_on { (b : Bus) → b.state.next ≡ 4294967297
        → IsSpentOn (two_ends b) (doing (exits 1)) two_posts [] [] }
    ensures lost_before { (b : Bus) → IsAtWork (registry_left b) (doing (exits 1)) → ⊥ }
{}
