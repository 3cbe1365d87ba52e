//! The law of dropped ends.

ghost use Rattle.atspi_trace_laws.specs.drops.Laws.{DropsHold};

/// Behind the news that an end was dropped stands nothing of it, and nothing at all behind that of the registry: each
/// connection that the bus closes is one of an end. Of each front of a lawful trace.
pub fn drops_hold()
    ensures { DropsHold }
{}
