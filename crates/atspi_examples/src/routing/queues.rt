//! What a queue takes of what the bus does.

ghost use Rattle.std.specs.Prelude.{◌≡◌, ◌∷◌, [], ℕ};
ghost use Rattle.atspi_message.specs.Bytes.{written};
ghost use Rattle.atspi_message.specs.Envelope.{Envelope};
ghost use Rattle.atspi_match.specs.routing.Queues.{moved, own_of, queue_of, queued};
ghost use Rattle.atspi_match.specs.routing.Steps.{says, delivers, closes};
ghost use Rattle.atspi_match.specs.routing.Room.{one_waits, signal_m, hello};

use atspi_match::routing::Why;

/// What the bus says goes to nobody by itself; a message's bytes go to the queue of whom it is handed to. One that is
/// to be closed is so for want of a Hello.
pub fn deliveries()
    ensures said { moved 9 one_waits (says signal_m) ≡ one_waits }
    ensures closes { (moved 9 one_waits (closes 1)).due ≡ (1, Why.NotHello) ∷ [] }
    ensures kept { queue_of (moved 9 one_waits (closes 1)).queues 1 ≡ 7 ∷ [] }
    ensures delivered { (quota : ℕ) (e : Envelope)
        → moved quota one_waits (delivers 1 e) ≡ queued quota one_waits 1 (written e) }
    ensures own { own_of (says signal_m ∷ (delivers 1 hello ∷ (closes 2 ∷ (says hello ∷ []))))
        ≡ signal_m ∷ (hello ∷ []) }
{}
