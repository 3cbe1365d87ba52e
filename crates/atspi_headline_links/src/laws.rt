//! The law of bus and links, and all laws that are proved at once.

ghost use Rattle.atspi_headline_laws.specs.Laws.{OfEachTrace};
ghost use Rattle.atspi_headline_links.specs.Laws.{WhatIsMovedIsTaken, BusSaysItsStep, LawsKept};

/// A lawful trace has a run that keeps all laws that are proved at once: those of `atspi_headline_laws`, and the law of
/// bus and links, whose two halves are below.
pub fn runs_keep_laws()
    ensures { OfEachTrace (λ run. LawsKept run) }
{}

/// Behind a move stand the messages whose last byte it moves, in the order of the link, and no others, however the
/// links were cut. On a link to the bus lies what its end sent, on a link from the bus what the bus's steps routed to its
/// end. Where the end is dropped they end there. Behind a line, and behind an end that the bus takes, nobody takes
/// anything.
pub fn what_is_moved_is_taken()
    ensures { OfEachTrace WhatIsMovedIsTaken }
{}

/// The bus says what its step says, from the state that the run tells, directly behind the message, the end or the drop
/// that it is of, and nowhere else: so its state along the run is the one of its own definitions.
pub fn bus_says_its_step()
    ensures { OfEachTrace BusSaysItsStep }
{}
