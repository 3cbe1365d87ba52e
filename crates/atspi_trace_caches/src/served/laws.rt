//! What a reader is to know of, it is told of: its patterns were heard of before its items were returned.

ghost use Rattle.atspi_trace_caches.specs.served.Laws.{RegistrationsComeFirst, StepsAreAskedFor, StepsAreAskedSince};

/// A reader's registrations reach an application before its call for items does: where an application takes a reader's
/// call for all its items, it has heard of the five patterns of the reader's start, under the reader's own name, also
/// where the reader has left by then. Of each front of a lawful trace.
pub fn registrations_come_first()
    ensures { RegistrationsComeFirst }
{}

/// Each step of an application that stands between two messages that a reader took of it, since it loaded it, was asked
/// for whole: some pattern that the application had heard of covers each of its signals. Of each front of a lawful
/// trace, whatever the names.
pub fn steps_are_asked_for()
    ensures { StepsAreAskedFor }
{}

/// So was each step since the last message that the reader took of it, up to now, where both and the registry are here:
/// of each front of a lawful trace behind which nothing is owed.
pub fn steps_are_asked_since()
    ensures { StepsAreAskedSince }
{}
