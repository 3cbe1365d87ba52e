//! Bytes of an up link are moved: what they complete, and what they do not.

ghost use Rattle.std.specs.Prelude.{◌≡◌, List, [], ◌∷◌, Some, codes};
ghost use Rattle.atspi_script_lines.specs.declared.line.Party.TheVariants as party;
ghost use Rattle.atspi_trace.specs.Entry.{Entry};
ghost use Rattle.atspi_trace.specs.World.{World};
ghost use Rattle.atspi_trace.specs.Work.{moved_up, moving_up};
ghost use Rattle.atspi_trace.specs.Works.{Works};
ghost use Rattle.atspi_trace_examples.specs.traces.Cases.{a_message, greeted_brief, greeting_world, in_brief};
ghost use Rattle.atspi_trace_examples.specs.traces.Cases.{stopped_world};

/// An application's Hello has 128 bytes. All but the last complete nothing; they are moved then, and nothing is
/// written.
pub fn all_but_one_byte()
    ensures { Works greeting_world (moving_up 1 127) [] (moved_up greeting_world 1 127) }
{}

/// The last byte, where the others were moved before, completes the message: the bus takes it, and that is written
/// once.
pub fn the_last_byte()
    ensures { (es : List Entry) × (u : World) × Works (moved_up greeting_world 1 127) (moving_up 1 1) es u
        × (in_brief es ≡ greeted_brief) }
{}

/// Bytes past the last message move nothing.
pub fn more_bytes_than_there_are()
    ensures { (es : List Entry) × (u : World) × Works greeting_world (moving_up 1 130) es u
        × (in_brief es ≡ greeted_brief) }
{}

/// An end that stopped waits as one thing: one byte moves it whole, and none does not.
pub fn an_end_that_stopped()
    ensures one { (es : List Entry) × (u : World) × Works stopped_world (moving_up 1 1) es u
        × (in_brief es ≡ a_message party.Bus (Some (codes "NameOwnerChanged")) 30 ∷ []) }
    ensures none { Works stopped_world (moving_up 1 0) [] stopped_world }
{}
