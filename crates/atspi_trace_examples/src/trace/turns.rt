//! What waits, and what a turn does.

ghost use Rattle.std.specs.Prelude.{◌≡◌, ◌∷◌, [], None, Some};
ghost use Rattle.atspi_match.specs.routing.Queues.{Bus};
ghost use Rattle.atspi_trace.specs.Causes as cause;
ghost use Rattle.atspi_trace.specs.World.{World, away, here, stopped};
ghost use Rattle.atspi_trace.specs.Work as work;
ghost use Rattle.atspi_trace.specs.Work.{doing, down_turn, draining, first_down, first_up, moving_up, next_of};
ghost use Rattle.atspi_trace.specs.Work.{next_of_drain, next_of_turns, next_turn, resting, rests, turning, up_turn};
ghost use Rattle.atspi_trace_examples.specs.trace.Small.{app, idle, letter, reader, said, with_ends, world};

/// On an up link a message waits, or that the end stopped, with its messages or without; for one that left nothing
/// does. On a down link a message waits for an end that is here.
pub fn links()
    ensures up { up_turn 3 here (said ∷ []) ≡ Some (cause.routes 3) }
    ensures no_message { up_turn 3 here [] ≡ None }
    ensures stopped { up_turn 3 stopped [] ≡ Some (cause.unjoins 3) }
    ensures stopped_full { up_turn 3 stopped (said ∷ []) ≡ Some (cause.unjoins 3) }
    ensures left { up_turn 3 away (said ∷ []) ≡ None }
    ensures down { down_turn 3 here (letter ∷ []) ≡ Some (cause.gets 3) }
    ensures no_letter { down_turn 3 here [] ≡ None }
    ensures stopped_down { down_turn 3 stopped (letter ∷ []) ≡ None }
    ensures left_down { down_turn 3 away (letter ∷ []) ≡ None }
{}

/// The first in order of joining is moved, up links before down links.
pub fn in_turn()
    ensures first_up { first_up 5
        (app 0 ∷ record (app 1) { up = said ∷ [] } ∷ record (app 2) { standing = stopped } ∷ [])
        ≡ Some (cause.routes 6) }
    ensures stopped_up { first_up 5 (record (app 2) { standing = stopped } ∷ record (app 1) { up = said ∷ [] } ∷ [])
        ≡ Some (cause.unjoins 5) }
    ensures none_up { first_up 5 (app 0 ∷ []) ≡ None }
    ensures first_down { first_down 5
        (app 0 ∷ record (app 1) { down = letter ∷ [] } ∷ record (reader 0 idle) { down = letter ∷ [] } ∷ [])
        ≡ Some (cause.gets 6) }
    ensures none_down { first_down 5 (app 0 ∷ []) ≡ None }
    ensures up_before { (b : Bus)
        → next_turn (with_ends b (record (app 0) { down = letter ∷ [] } ∷ record (app 1) { up = said ∷ [] } ∷ []))
        ≡ Some (cause.routes 1) }
    ensures down_else { (b : Bus)
        → next_turn (with_ends b (app 0 ∷ record (app 1) { down = letter ∷ [] } ∷ [])) ≡ Some (cause.gets 1) }
    ensures stopped_app { (b : Bus) → next_turn (world b idle) ≡ Some (cause.unjoins 3) }
    ensures nothing { (b : Bus) → next_turn (with_ends b (app 0 ∷ [])) ≡ None }
{}

/// So many turns, while something waits; behind the last, where something waits still, that is told.
pub fn so_many()
    ensures nothing { (w : World) → next_of_turns w 5 3 None ≡ rests w }
    ensures one { (w : World) → next_of_turns w 5 3 (Some (cause.gets 1)) ≡ work.cause (cause.gets 1) w (turning 5 2) }
    ensures busy { (w : World) → next_of_turns w 5 0 (Some (cause.gets 1)) ≡ work.cause (cause.tells_busy 5) w resting }
    ensures quiet { (w : World) → next_of_turns w 5 0 None ≡ rests w }
    ensures of_world { (b : Bus)
        → next_of (world b idle) (turning 5 3) ≡ work.cause (cause.unjoins 3) (world b idle) (turning 5 2) }
{}

/// Turns until nothing waits, which is told; what rests is done, and one cause is done once.
pub fn drains()
    ensures quiet { (w : World) → next_of_drain w None ≡ work.cause cause.tells_quiet w resting }
    ensures one { (w : World) → next_of_drain w (Some (cause.gets 1)) ≡ work.cause (cause.gets 1) w draining }
    ensures of_world { (b : Bus)
        → next_of (world b idle) draining ≡ work.cause (cause.unjoins 3) (world b idle) draining }
    ensures resting { (w : World) → next_of w resting ≡ rests w }
    ensures doing { (w : World) → next_of w (doing (cause.exits 1)) ≡ work.cause (cause.exits 1) w resting }
    ensures nobody { (b : Bus) → next_of (with_ends b (app 0 ∷ [])) (moving_up 7 9) ≡ rests (with_ends b (app 0 ∷ [])) }
{}
