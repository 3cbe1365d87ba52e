//! At quiet: what each reader holds is as the applications are.

ghost use Rattle.atspi_trace_caches.specs.settled.Laws.{RestsAreWell};

/// Where nothing is owed and nothing waits, and the registry is here, each reader that is here and asked for all that
/// it may holds each application that is here as it is now, with every part known. Of each front of a lawful trace
/// whose readers ask for parts of nodes that were added.
pub fn rests_are_well()
    ensures { RestsAreWell }
{}
