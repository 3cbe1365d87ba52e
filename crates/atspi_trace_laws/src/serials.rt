//! The numbers of messages along lawful traces.

pub mod laws;
