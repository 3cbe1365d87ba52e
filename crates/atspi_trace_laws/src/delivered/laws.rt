//! The law of bus and links, and the serials of all messages, of each front of a lawful trace too.

ghost use Rattle.atspi_trace_laws.specs.delivered.Laws.{LinksHold, SerialsRise};

/// What is taken was sent before, the bus's own messages too, who takes is alive, and the bus takes the messages of an
/// end in the order of sending, each once.
pub fn links_hold()
    ensures { LinksHold }
{}

/// Each message has its sender's next serial, the bus's own messages too.
pub fn serials_rise()
    ensures { SerialsRise }
{}
