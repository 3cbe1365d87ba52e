//! In which order ends take, along lawful traces.

pub mod laws;
