//! What the bus takes of each end, along lawful traces.

pub mod laws;
