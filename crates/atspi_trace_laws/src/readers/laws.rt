//! The law of readers.

ghost use Rattle.atspi_trace_laws.specs.readers.Laws.{ReadersHold};

/// A reader's own call, but for its Hello, stands directly behind a message that it took, with its closing lines and
/// spoken lines between; each earlier own call was answered; items are asked for once all five patterns are registered.
/// Of each front of a lawful trace.
pub fn readers_hold()
    ensures { ReadersHold }
{}
