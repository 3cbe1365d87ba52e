//! Laws of the numbers of messages, of each front of a lawful trace too.

ghost use Rattle.atspi_trace_laws.specs.serials.Laws.{NumbersRise};

/// The serials of an end's messages rise by one.
pub fn numbers_rise()
    ensures { NumbersRise }
{}
