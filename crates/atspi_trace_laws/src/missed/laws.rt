//! No signal is missed; what a reader's patterns ask for, and how applications hear of them.

ghost use Rattle.atspi_trace_laws.specs.missed.Laws.{NoSignalIsMissed, PatternsCoverAll, NothingIsTakenBack};
ghost use Rattle.atspi_trace_laws.specs.missed.Laws.{PairsAreTold, ListsAreAsTold, PairsComeAndGo, ApplicationsListen};

/// Where a reader takes a message of an application that it holds, but for a return that loads it, the application sent
/// no signal between the last message that the reader took of it and this one: of each front of a lawful trace.
pub fn no_signal_is_missed()
    ensures { NoSignalIsMissed }
{}

/// Where an application has heard of the five patterns of a reader's start, each of its steps is asked for whole: some
/// pattern covers each of its signals, in whatever tree and under whatever name.
pub fn patterns_cover_all()
    ensures { PatternsCoverAll }
{}

/// What a reader sends is a call, and none by which it would take back a match rule or a pattern: of each front of a
/// lawful trace.
pub fn nothing_is_taken_back()
    ensures { NothingIsTakenBack }
{}

/// Whoever has the registry's pairs, and hears what it sends with a message, has its pairs afterwards; its list of them
/// is read as just them, and exchanges what was heard before for them. Names are bus names.
pub fn pairs_are_told()
    ensures { PairsAreTold }
{}

/// Where the registry sends a list of pairs, it is of just those that one has who heard all that it sent before: of
/// each front of a lawful trace.
pub fn lists_are_as_told()
    ensures { ListsAreAsTold }
{}

/// Once the registry has its name, a reader's call for a pattern enters it under the name of the call's sender. A pair
/// goes from the registry only with its listener's own call of DeregisterEvent, or with the bus's news that its
/// listener's name is nobody's.
pub fn pairs_come_and_go()
    ensures { PairsComeAndGo }
{}

/// An application that takes the registry's list has heard of just its pairs; from there on it hears the signals that
/// it takes, and no other message changes what it has heard, since it asks for no other list.
pub fn applications_listen()
    ensures { ApplicationsListen }
{}
