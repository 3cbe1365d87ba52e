//! Laws of lawful traces.

ghost use Rattle.atspi_trace_laws.specs.laws.Laws.{TracesAreOne, FrontsGo, UpLinksSeeNoCuts, QuietIsSettled};
ghost use Rattle.atspi_trace_laws.specs.laws.Laws.{LostIsOver};

/// For the same own calls of its readers a script has one trace.
pub fn traces_are_one()
    ensures { TracesAreOne }
{}

/// Whether a trace may go on is told by its front: lawful is computed on a prefix.
pub fn fronts_go()
    ensures { FrontsGo }
{}

/// Bytes of an up link that do not complete its first message, and then more of them, are all of them at once.
pub fn up_links_see_no_cuts()
    ensures { UpLinksSeeNoCuts }
{}

/// Where a lawful trace tells that nothing waits, each reader that is here holds each application that is here as it is
/// now.
pub fn quiet_is_settled()
    ensures { QuietIsSettled }
{}

/// Where the registry was dropped and all is written, nothing follows.
pub fn lost_is_over()
    ensures { LostIsOver }
{}
