//! What applications announce, along lawful traces.

pub mod laws;
