//! The laws of shown rows and of spoken lines.

ghost use Rattle.atspi_trace_laws.specs.held.Laws.{ShowsAreDue, LinesAreSpoken, NoOtherWords};

/// What a reader shows of an application that it holds is the view of its tree as of the last message taken, with the
/// parts that it was told; of another nothing: of each front of a lawful trace too.
pub fn shows_are_due()
    ensures { ShowsAreDue }
{}

/// Behind a message that announces a step, of an application that the reader held before, stand the lines of the step,
/// read from the tree as of the message: of each lawful trace, and of each front of one behind which nothing is owed.
pub fn lines_are_spoken()
    ensures { LinesAreSpoken }
{}

/// A reader speaks no other line: each is one of the lines of a step that a message of an application that it held
/// announces, or the closing line of one that it held; and the news that an application ended stands directly behind a
/// message of the bus. Of each front of a lawful trace too.
pub fn no_other_words()
    ensures { NoOtherWords }
{}
