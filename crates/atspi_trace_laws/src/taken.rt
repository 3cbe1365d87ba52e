//! What ends take of each other, along lawful traces.

pub mod laws;
