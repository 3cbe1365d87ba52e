//! Laws of streams. Each is the contract of a function that does nothing.

ghost use Rattle.atspi_stream.specs.Laws.{AnyCut, EachHasOneAnswer, FaultStays};

/// A fault of a stream stays the same, whatever comes behind it.
pub fn a_fault_stays()
    ensures { FaultStays }
{}

/// The bytes that are held await more, begin with a whole message or have a fault: exactly one of these, and which
/// message or which fault is fixed by the bytes.
pub fn has_one_answer()
    ensures { EachHasOneAnswer }
{}

/// The messages of a stream and what is held behind them do not depend on the pieces that it came in.
pub fn any_cut()
    ensures { AnyCut }
{}
