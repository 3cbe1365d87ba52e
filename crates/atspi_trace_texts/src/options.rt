//! What of a trace is told.

ghost use Rattle.std.specs.Prelude.{◌≡◌};
ghost use Rattle.atspi_trace_texts.specs.TraceText.{is_brief as keeps};

use atspi_trace_events::Event;

/// What of a trace is told.
#[derive(Clone, Copy, Debug, PartialEq, Eq)]
pub struct TraceOptions {
    /// Only what readers say and show, who is dropped, and how turns end.
    pub brief: bool,
    /// The bytes of each message that is told, as it was sent or taken.
    pub wire: bool,
}

/// Whether the brief text of a trace keeps the event.
pub fn is_brief(event: &Event) -> bool
    ensures { result ≡ keeps event.now }
{
    matches!(
        event,
        Event::Say { .. }
            | Event::Show { .. }
            | Event::Dropped { .. }
            | Event::Busy(_)
            | Event::Quiet
    )
}
