//! Laws of what ends take, of each front of a lawful trace too.

ghost use Rattle.atspi_trace_laws.specs.taken.Laws.{WhatIsTakenWasSent};

/// What an end takes of another was sent by it before, however the bytes were cut.
pub fn what_is_taken_was_sent()
    ensures { WhatIsTakenWasSent }
{}
