//! The law of busy and quiet.

ghost use Rattle.atspi_trace_laws.specs.quiet.Laws.{QuietIsTrue};

/// Where it is told that nothing waits, each live reader holds each live application, with every part known, and what
/// it holds is the live tree: of each front of a lawful trace.
pub fn quiet_is_true()
    ensures { QuietIsTrue }
{}
