//! Under which name applications sign, along lawful traces.

pub mod laws;
