//! Bytes of links that are moved.

ghost use Rattle.std.specs.Prelude.{◌≡◌, ◌∷◌, [], None, Some};
ghost use Rattle.atspi_match.specs.routing.Queues.{Bus, queue_of};
ghost use Rattle.atspi_match.specs.routing.Room.{due_bus};
ghost use Rattle.atspi_trace.specs.Causes as cause;
ghost use Rattle.atspi_trace.specs.Causes.{missing, without_bytes};
ghost use Rattle.atspi_trace.specs.World.{Letter, Said, World, away, here, stopped};
ghost use Rattle.atspi_trace.specs.Ends.{end_at};
ghost use Rattle.atspi_trace.specs.Work as work;
ghost use Rattle.atspi_trace.specs.Work.{moved_down, moved_up, moving_down, moving_up, next_down, next_of, next_up};
ghost use Rattle.atspi_trace.specs.Work.{resting, rests};
ghost use Rattle.atspi_trace_examples.specs.trace.Small.{IsLong, app, idle, letter, reader, said, with_ends, world};

/// What a message lacks of which some bytes were moved.
pub fn lengths()
    ensures some { (s : Said) → IsLong 20 s → missing s.message 12 ≡ 8 }
    ensures all { (s : Said) → IsLong 20 s → missing s.message 0 ≡ 20 }
    ensures none { (s : Said) → IsLong 20 s → missing s.message 20 ≡ 0 }
{}

/// Bytes complete the first message of an up link, and the rest goes on to the next; or they do not. Any move an end
/// that waits.
pub fn up()
    ensures more { (w : World) (s : Said) → IsLong 20 s
        → next_up w 4 9 here 12 (s ∷ []) ≡ work.cause (cause.routes 4) w (moving_up 4 1) }
    ensures just { (w : World) (s : Said) → IsLong 20 s
        → next_up w 4 8 here 12 (s ∷ []) ≡ work.cause (cause.routes 4) w (moving_up 4 0) }
    ensures fewer { (w : World) (s : Said) → IsLong 20 s → next_up w 4 7 here 12 (s ∷ []) ≡ rests (moved_up w 4 7) }
    ensures nothing { (w : World) → next_up w 4 7 here 0 [] ≡ rests w }
    ensures stopped { (w : World) → next_up w 4 1 stopped 0 [] ≡ work.cause (cause.unjoins 4) w resting }
    ensures stopped_none { (w : World) → next_up w 4 0 stopped 0 [] ≡ rests w }
    ensures left { (w : World) → next_up w 4 7 away 0 [] ≡ rests w }
    ensures of_end { (b : Bus) (s : Said) → IsLong 20 s
        → next_of (with_ends b (app 0 ∷ record (app 1) { up = s ∷ []; up_moved = 12 } ∷ [])) (moving_up 1 9)
        ≡ work.cause (cause.routes 1) (with_ends b (app 0 ∷ record (app 1) { up = s ∷ []; up_moved = 12 } ∷ []))
        (moving_up 1 1) }
{}

/// So it is with a down link, but that nothing of one that stopped is moved.
pub fn down()
    ensures more { (w : World) (l : Letter) → IsLong 20 l.said
        → next_down w 4 9 here 12 (l ∷ []) ≡ work.cause (cause.gets 4) w (moving_down 4 1) }
    ensures just { (w : World) (l : Letter) → IsLong 20 l.said
        → next_down w 4 8 here 12 (l ∷ []) ≡ work.cause (cause.gets 4) w (moving_down 4 0) }
    ensures fewer { (w : World) (l : Letter) → IsLong 20 l.said
        → next_down w 4 7 here 12 (l ∷ []) ≡ rests (moved_down w 4 7) }
    ensures nothing { (w : World) → next_down w 4 7 here 0 [] ≡ rests w }
    ensures stopped { (w : World) → next_down w 4 7 stopped 0 (letter ∷ []) ≡ rests w }
    ensures left { (w : World) → next_down w 4 7 away 0 (letter ∷ []) ≡ rests w }
    ensures of_end { (b : Bus) (l : Letter) → IsLong 20 l.said
        → next_of (with_ends b (app 0 ∷ record (app 1) { down = l ∷ []; down_moved = 12 } ∷ [])) (moving_down 1 9)
        ≡ work.cause (cause.gets 1) (with_ends b (app 0 ∷ record (app 1) { down = l ∷ []; down_moved = 12 } ∷ []))
        (moving_down 1 1) }
{}

/// Bytes that do not complete a message are counted, at that end alone; those of a down link are gone from the bus.
pub fn taken()
    ensures up { (b : Bus)
        → end_at (moved_up (with_ends b (app 0 ∷ record (app 1) { up_moved = 12 } ∷ [])) 1 7).ends 1
        ≡ Some (record (app 1) { up_moved = 19 }) }
    ensures other_up { (b : Bus) → end_at (moved_up (with_ends b (app 0 ∷ app 1 ∷ [])) 1 7).ends 0 ≡ Some (app 0) }
    ensures down { (b : Bus)
        → end_at (moved_down (with_ends b (app 0 ∷ record (app 1) { down_moved = 12 } ∷ [])) 1 7).ends 1
        ≡ Some (record (app 1) { down_moved = 19 }) }
    ensures queue { queue_of (moved_down (with_ends (due_bus []) (app 0 ∷ app 1 ∷ [])) 1 2).bus.waiting.queues 1
        ≡ 7 ∷ [] }
    ensures other_queue { queue_of (without_bytes 1 2 (due_bus [])).waiting.queues 0 ≡ 8 ∷ [] }
{}
