//! Who sends and takes along lawful traces.

pub mod laws;
