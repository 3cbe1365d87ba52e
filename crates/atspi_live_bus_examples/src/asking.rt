//! What a bus was asked, and where that leads it.

ghost use Rattle.std.specs.Prelude.{◌≡◌, ◌<◌, ◌≤◌, ◌∷◌, ℕ, List, [], Option};
ghost use Rattle.atspi_message.specs.Envelope.{Envelope};
ghost use Rattle.atspi_match.specs.declared.condition.Condition.{Condition};
ghost use Rattle.atspi_match.specs.routing.Queues.{Bus, joins, leaves, queue_of, takes};
ghost use Rattle.atspi_bus_queues.specs.Change.{with_queue};
ghost use Rattle.atspi_bus_steps.specs.Spoken.{IsRuleTaken};
ghost use Rattle.atspi_live_bus.specs.Asked.{Leads, Runs, Spends, joining, leaving, popping, taking, telling};
ghost use Rattle.atspi_live_bus.specs.Cases.{one_link};
ghost use Rattle.atspi_live_bus.specs.Course.{start};

/// What one call makes of a bus: a connection joins behind the others, a message is taken by the rule that it speaks
/// of, the first bytes of a queue are taken from it, and what was told is gone.
pub fn calls_that_lead()
    ensures joined { (b : Bus) → Leads start.bus (joining 2) b → b.state.joined ≡ 2 ∷ [] }
    ensures taken { (b d : Bus) (e : Envelope) (rule : Option (List Condition)) → IsRuleTaken b.state 1 e rule
        → d ≡ takes b 1 e rule → Leads b (taking 1 e) d }
    ensures by_its_rule { (b d : Bus) (e : Envelope)
        → ((rule : Option (List Condition)) → IsRuleTaken b.state 1 e rule → d ≡ takes b 1 e rule → ⊥)
        → Leads b (taking 1 e) d → ⊥ }
    ensures left { (b : Bus) → Leads one_link.bus (leaving 0) b → b ≡ leaves one_link.bus 0 }
    ensures popped { (b : Bus) (rest : List ℕ) → queue_of b.waiting.queues 1 ≡ 7 ∷ rest
        → Leads b (popping 1 (7 ∷ []))
        (record b { waiting = record b.waiting { queues = with_queue b.waiting.queues 1 rest } }) }
    ensures other_bytes { (b d : Bus) → queue_of b.waiting.queues 1 ≡ 8 ∷ [] → Leads b (popping 1 (7 ∷ [])) d → ⊥ }
    ensures told { (b : Bus) → Leads b telling (record b { own = []; closings = [] }) }
    ensures else_the_same { (b : Bus) → Leads start.bus telling b → b.quota ≡ 16777216 }
{}

/// What several calls make of it, one behind the other.
pub fn calls_in_order()
    ensures none { (b : Bus) → Runs start.bus [] b → b ≡ start.bus }
    ensures two { (b : Bus) → Runs b (joining 0 ∷ leaving 0 ∷ []) (leaves (joins b 0) 0) }
{}

/// A bus is spent where its next own message would have a number above 4,294,967,295, and not before; whether a message
/// or a leaving would bring that.
pub fn last_numbers()
    ensures by_message { (b : Bus) (e : Envelope) (rule : Option (List Condition)) → IsRuleTaken b.state 3 e rule
        → 4294967296 < (takes b 3 e rule).state.next → Spends b }
    ensures by_leaving { (b : Bus) → 4294967296 < (leaves b 3).state.next → Spends b }
    ensures not_yet { (b : Bus)
        → ((c : ℕ) (e : Envelope) (rule : Option (List Condition)) → IsRuleTaken b.state c e rule
        → (takes b c e rule).state.next ≤ 4294967296)
        → ((c : ℕ) → (leaves b c).state.next ≤ 4294967296) → Spends b → ⊥ }
{}
