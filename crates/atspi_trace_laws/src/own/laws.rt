//! Laws of the bus's own messages, of each front of a lawful trace too.

ghost use Rattle.atspi_trace_laws.specs.own.Laws.{OwnNumbersRise};

/// As long as the registry lives the serials of the bus's own messages rise by one, from the eighth on.
pub fn own_numbers_rise()
    ensures { OwnNumbersRise }
{}
