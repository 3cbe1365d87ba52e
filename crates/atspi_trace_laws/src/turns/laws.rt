//! Laws of the order in which ends take, of each front of a lawful trace too.

ghost use Rattle.atspi_trace_laws.specs.turns.Laws.{EndsTakeInTurn};

/// What an end takes of another comes in the order in which it was sent, each message at most once, however the bytes
/// were cut.
pub fn ends_take_in_turn()
    ensures { EndsTakeInTurn }
{}
