//! The text of a trace, event by event: whether it goes on with an event that is expected, and which message a reader
//! sent, where that stands next. A text begins with one event at most, so who knows what must stand next compares, and
//! reads only what somebody was free to choose.
#![tactic(auto)]

mod front;
mod laws;
mod lines;
mod readers;
mod told;
mod wire;

pub use front::behind;
pub use laws::{events_have_one_reading, traces_are_told};
pub use readers::{ReaderSent, next_of_reader};
pub use told::Told;
