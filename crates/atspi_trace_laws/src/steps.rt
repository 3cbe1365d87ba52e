//! The law of steps along lawful traces.

pub mod laws;
