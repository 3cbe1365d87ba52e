//! What a reader makes of an application's messages, along lawful traces.

pub mod laws;
