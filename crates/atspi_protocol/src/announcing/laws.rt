//! Laws of announcements, over the definitions that the contracts of the application and of readers cite.

ghost use Rattle.atspi_protocol.specs.announcing.Laws.{SignalsTellSteps};

/// What a reader reads in the signals of a step is what the step tells: its announcement, and then its echoes.
pub fn signals_tell_steps()
    ensures { SignalsTellSteps }
{}
