//! The law of applications.

ghost use Rattle.atspi_trace_laws.specs.signed.Laws.{SignalsAreSigned, ApplicationsHold};

/// An application signs with the unique name that the bus gave it: behind each step stand its signals under this name,
/// and no other signal stands anywhere.
pub fn signals_are_signed()
    ensures { SignalsAreSigned }
{}

/// The law of applications, whole: directly behind each step stand its announcement and its echoes, those that some
/// heard pattern covers, with the next numbers; no other signal of an application stands anywhere; and each message has
/// its sender's next serial. Of each front of a lawful trace behind which nothing is owed.
pub fn applications_hold()
    ensures { ApplicationsHold }
{}
