//! Laws of links, of each front of a lawful trace too.

ghost use Rattle.atspi_trace_laws.specs.links.Laws.{BusTakesInOrder};

/// What the bus takes of an end was sent by it, and is taken in the order of sending, each message once: however its
/// bytes were cut.
pub fn bus_takes_in_order()
    ensures { BusTakesInOrder }
{}
