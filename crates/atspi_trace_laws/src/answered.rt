//! What applications answer readers, along lawful traces.

pub mod laws;
