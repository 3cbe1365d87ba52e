//! Worked cases of messages that pass the limits of the wire, and of what a bus does with one. Each case is a clause of
//! a function without a body, with its value worked out by hand. So a definition that says otherwise is refused here.

mod cases;

pub use cases::{limits, too_long};
