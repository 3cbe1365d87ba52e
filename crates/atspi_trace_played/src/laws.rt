//! Laws of what is played.

ghost use Rattle.atspi_trace_played.specs.Laws.{BrokenOffIsBegun, LostIsDropped, PlayedIsLawful, RefusalsAgree};

/// Where lines are done in a world whose readers are those of their own definitions, the trace is a lawful one of these
/// lines.
pub fn played_is_lawful()
    ensures { PlayedIsLawful }
{}

/// A line is refused there just where a lawful trace refuses it.
pub fn refusals_agree()
    ensures { RefusalsAgree }
{}

/// Where a line is broken off, what was written is begun as a lawful trace: each entry may stand where it stands.
pub fn broken_off_is_begun()
    ensures { BrokenOffIsBegun }
{}

/// Where the registry is lost, its drop is the last that is written.
pub fn lost_is_dropped()
    ensures { LostIsDropped }
{}
