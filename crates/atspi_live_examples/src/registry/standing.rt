//! What a registry did from its start on, and what it has left.

ghost use Rattle.std.specs.Prelude.{◌≡◌, ◌∷◌, ◌++◌, ◌≤◌, [], List, fold};
ghost use Rattle.atspi_message.specs.Envelope.{Envelope};
ghost use Rattle.atspi_protocol.specs.registering.Steps.{Registry, takes};
ghost use Rattle.atspi_protocol.specs.registry_laws.Sends.{started};
ghost use Rattle.atspi_live_registry.specs.Standing.{IsAfter, IsEmpty, IsSpent};
ghost use Rattle.atspi_live_examples.specs.registry.Registries.{at_number, named, news, unknown_call, welcome};

/// At its start a registry queued three calls and took nothing. What it hands out is no longer queued, oldest first;
/// what it took changes what it knows.
pub fn is_after()
    ensures start { IsAfter started [] [] }
    ensures all_handed_out { IsAfter (record started { out = [] }) [] started.out }
    ensures took { IsAfter named (welcome ∷ []) [] }
    ensures did_not_take { IsAfter named [] [] → ⊥ }
    ensures took_more { IsAfter started (welcome ∷ []) [] → ⊥ }
    ensures calls_lost { IsAfter (record started { out = [] }) [] [] → ⊥ }
    ensures calls_twice { IsAfter started [] started.out → ⊥ }
{}

/// None of its messages has passed number 4,294,967,295: the next one may be that and one more.
pub fn last_numbers()
    ensures last { (r : Registry) (took said : List Envelope)
        → record { state = r.state; out = said ++ r.out } ≡ fold takes started took → r.state.next ≡ 4294967296
        → IsAfter r took said }
    ensures passed { (r : Registry) (took said : List Envelope) → r.state.next ≡ 4294967297 → IsAfter r took said → ⊥ }
{}

/// It has no message left where none is queued.
pub fn is_empty()
    ensures none { IsEmpty (at_number 10) }
    ensures three { IsEmpty started → ⊥ }
{}

/// A call that gets a message would pass the last number where that was given; where it is still to be given, and for
/// news that get none, nothing is passed.
pub fn is_spent()
    ensures spent { IsSpent (at_number 4294967296) unknown_call }
    ensures last { IsSpent (at_number 4294967295) unknown_call → ⊥ }
    ensures silent { IsSpent (at_number 4294967296) news → ⊥ }
{}
