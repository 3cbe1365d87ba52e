//! What follows an end's exit, and who tells of it, along lawful traces.

pub mod laws;
