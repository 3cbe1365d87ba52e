//! The law of steps, of each front of a lawful trace too.

ghost use Rattle.atspi_trace_laws.specs.steps.Laws.{StepsApply, NumbersAreNeverUsedAgain};

/// Each step is one of a live application, and applies to the tree that its start and its steps before make.
pub fn steps_apply()
    ensures { StepsApply }
{}

/// Of two steps of one application that each add a node, the later one adds that with the greater number, also where
/// the earlier node was taken out between; none has the root's number, 0.
pub fn numbers_are_never_used_again()
    ensures { NumbersAreNeverUsedAgain }
{}
