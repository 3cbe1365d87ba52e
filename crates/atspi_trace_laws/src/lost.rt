//! The registry's drop, along lawful traces.

pub mod laws;
