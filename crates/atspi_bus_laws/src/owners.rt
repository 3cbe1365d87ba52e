//! What holds of the owners of a bus's names at any time, as laws over the definitions of `atspi_names`: the bus stands
//! on them.

pub mod examples;
pub mod laws;
