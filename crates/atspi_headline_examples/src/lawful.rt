//! Runs that keep all laws.

ghost use Rattle.std.specs.Prelude.{true, false};
ghost use Rattle.atspi_headline.specs.Headline.{LawfulRun};
ghost use Rattle.atspi_headline_examples.specs.Runs.{renamed, shown, stopped, is_busy, is_quiet, cut, begun};

/// An application that is edited; a reader that shows nothing of what it does not hold; an application that exits; a
/// line that makes no turn while a message waits; a script in which nothing was started; bytes
/// that complete no message.
pub fn runs()
    ensures edited { LawfulRun false renamed }
    ensures shown { LawfulRun false shown }
    ensures stopped { LawfulRun false stopped }
    ensures busy { LawfulRun false is_busy }
    ensures quiet { LawfulRun false is_quiet }
    ensures cut { LawfulRun false cut }
{}

/// A start without its Hello may be broken off there, and is no whole run.
pub fn broken_off()
    ensures front { LawfulRun true begun }
    ensures whole { LawfulRun false begun → ⊥ }
{}
