//! Laws of announcements.

ghost use Rattle.atspi_trace_laws.specs.heard.Laws.{StepsAreTold, NoOtherSignals};

/// Directly behind each step stand its announcement and its echoes, those that some heard pattern covers, in order and
/// with the next numbers: of each lawful trace, and of each front of one behind which nothing is owed.
pub fn steps_are_told()
    ensures { StepsAreTold }
{}

/// An application sends no other signal, so none that nobody registered for: of each front of a lawful trace too.
pub fn no_other_signals()
    ensures { NoOtherSignals }
{}
