//! The laws of spoken lines. Each is the contract of a function without a body, so that it is proved with the crate.

ghost use Rattle.atspi_speech.specs.Laws.{SaysWhatIsDue, EchoesAreSilent, ClosesWhatIsDue};

/// A reader that holds the view of a tree speaks at a step's announcement exactly what is due at the step, and nothing
/// at the step's echoes; and at the application's end the line that is due.
pub fn what_is_spoken_is_due()
    ensures steps { SaysWhatIsDue }
    ensures echoes { EchoesAreSilent }
    ensures closing { ClosesWhatIsDue }
{}
