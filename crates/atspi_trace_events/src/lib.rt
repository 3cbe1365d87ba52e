//! The events of a trace: what can happen in a world, and the rows that a reader shows. What they mean is said where
//! traces are defined; their texts stand in `atspi_trace_texts`.
#![tactic(auto)]

mod event;
mod shown;

pub use event::Event;
pub use shown::{Shown, ShownRow};
