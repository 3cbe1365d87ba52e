//! What each reader of a world holds, also one that stopped or was dropped.

ghost use Rattle.atspi_trace_lent.specs.Lent.{ReadersAreFolds, ReadersLendTheLast};

/// Behind lines that were played, each reader that was started has of each application the fold of what it took of it:
/// the items of the last return to its own call for them, and then the news of each later message, in order. It has
/// nothing exactly where the trace says that nothing is held, and nothing under a name that is no application's.
pub fn readers_are_folds()
    ensures { ReadersAreFolds }
{}

/// And the serial that it lends is that of the last message that it took of the application, where it holds it, and
/// none where it does not.
pub fn readers_lend_the_last()
    ensures { ReadersLendTheLast }
{}
