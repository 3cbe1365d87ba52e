//! An event as a trace tells it.

use atspi_base::Bytes;
use atspi_trace_events::Event;

/// An event, with the bytes that stand behind it: of a message that was sent as it was sent, of one that was taken as
/// it was taken, of any other event none.
#[derive(Drop)]
pub struct Told {
    pub event: Event,
    pub bytes: Option<Bytes>,
}
