//! The law about messages on their way.

ghost use Rattle.atspi_trace_caches.specs.ways.Laws.{WhatIsThereLeads, AllAreOnTheWay, MessagesOnTheirWay};

/// Fold the news in what stands on the down link, and then in what stands on the up link, into what a reader has of an
/// application that it holds: behind each message it is the view of the application's tree as of that message, with the
/// parts that the reader was told, and behind the last that of its tree now. Of each front of a lawful trace behind
/// which nothing is owed, where both are here.
pub fn messages_on_their_way()
    ensures { MessagesOnTheirWay }
{}

/// Where both are here, each signal of the application since the last message that the reader took of it is on one of
/// the two links: none is missed between two of the messages there, and none behind the last.
pub fn all_are_on_the_way()
    ensures { AllAreOnTheWay }
{}

/// The same of ends that left too: what is on the links leads to the tree now where it is all that was sent since.
pub fn what_is_there_leads()
    ensures { WhatIsThereLeads }
{}
