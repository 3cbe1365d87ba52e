//! Laws of lawful traces, of each front of one too.

ghost use Rattle.atspi_trace_laws.specs.order.Laws.{NothingFollowsAnExit, NobodyReturns};

/// Behind an end's exit stands nothing of it.
pub fn nothing_follows_an_exit()
    ensures { NothingFollowsAnExit }
{}

/// Behind an end's exit, and behind the news that it was dropped, stands nothing of it.
pub fn nobody_returns()
    ensures { NobodyReturns }
{}
