//! The texts of events, of messages that are owned, and of a trace with the bytes of its messages.
#![tactic(auto)]

mod heads;
mod laws;
mod listing;
pub mod messages;
mod options;
mod rows;
mod steps;
mod text;
mod wire;
mod words;

pub use laws::{events_show_rows, nodes_are_told, text_tells_trace};
pub use listing::write_shown;
pub use options::{TraceOptions, is_brief};
pub use text::write_event;
pub use wire::write_wire;
