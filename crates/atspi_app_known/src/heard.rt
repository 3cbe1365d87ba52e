//! The listeners' patterns that an application has heard of.

mod exchange;
mod heard;
pub mod laws;
mod set;

pub use exchange::{Exchange, exchanged};
pub use heard::Heard;
