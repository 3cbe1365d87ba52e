//! The law of exits, and what comes and is held behind an application's end.

ghost use Rattle.atspi_trace_laws.specs.exits.Laws.{ExitsHold, NothingComesBehindAnEnd, NothingIsHeldBehindAnEnd};

/// Behind an end's exit stands no step of it, and it sends and takes nothing. Where a reader takes the bus's news that
/// the unique name of an application is nobody's, it tells the end of that application, with the closing line where it
/// held it: of each lawful trace, and of each front of one behind which nothing is owed.
pub fn exits_hold()
    ensures { ExitsHold }
{}

/// A reader that told the end of an application takes no message of it from there on: of each front of a lawful trace.
pub fn nothing_comes_behind_an_end()
    ensures { NothingComesBehindAnEnd }
{}

/// And it holds nothing of it from there on.
pub fn nothing_is_held_behind_an_end()
    ensures { NothingIsHeldBehindAnEnd }
{}
