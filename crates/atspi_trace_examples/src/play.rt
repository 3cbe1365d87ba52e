//! Worked cases of worlds whose readers are those of their own definitions, beside those of `atspi_examples`, which
//! stands higher. Each case is a clause of a function without a body, with its value worked out by hand.

mod links;

pub use links::{at_connections, by_others};
