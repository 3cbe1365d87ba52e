//! What the messages on their way make of what a reader has, along lawful traces.

pub mod laws;
