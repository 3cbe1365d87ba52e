//! What holds of the texts of events. Each law is the contract of a function without a body, so that it is proved with
//! the crate; the crates above cite the same definitions.

ghost use Rattle.atspi_audit_text.specs.Laws.{EventsHaveOneReading, TracesAreTold};

/// A text begins with one event at most, with the same bytes behind it and the same rest.
pub fn events_have_one_reading()
    ensures { EventsHaveOneReading }
{}

/// The text of a trace with bytes is that of its events, each with the bytes that it has there.
pub fn traces_are_told()
    ensures { TracesAreTold }
{}
