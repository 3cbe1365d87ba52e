//! Laws of how often messages are taken, of each front of a lawful trace too.

ghost use Rattle.atspi_trace_played.specs.Turns.{DrainsEnd, NoTurnsWithoutEnd, TurnsAreFew, TurnsTake};

/// As long as no serial needs more than 32 bits, no more messages are taken than 22 · 22 · 2^32: none of 22 parties
/// takes a message of another twice.
pub fn turns_are_few()
    ensures { TurnsAreFew }
{}

/// Each of so many turns takes a message, but for at most 21, which take the end of an end that stopped.
pub fn turns_take()
    ensures { TurnsTake }
{}

/// So no 2^42 turns are made one behind the other before a serial is spent.
pub fn no_turns_without_end()
    ensures { NoTurnsWithoutEnd }
{}

/// Nor are so many played: a drain ends with quiet before, unless a serial is spent or the registry is lost.
pub fn drains_end()
    ensures { DrainsEnd }
{}
