//! Laws of who acts, of each front of a lawful trace too.

ghost use Rattle.atspi_trace_laws.specs.living.Laws.{WhoActsIsLive};

/// An end that sends or takes a message was started, and neither stopped nor was dropped.
pub fn who_acts_is_live()
    ensures { WhoActsIsLive }
{}
