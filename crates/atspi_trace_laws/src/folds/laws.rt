//! Laws of messages that are folded.

ghost use Rattle.atspi_trace_laws.specs.folds.Laws.{StepsFold};

/// The messages that stand directly behind a step, folded one behind the other into the view of the live tree before
/// it, give the view of the live tree behind it, where all of the step's signals were asked for: of each lawful trace,
/// and of each front of one behind which nothing is owed.
pub fn steps_fold()
    ensures { StepsFold }
{}
