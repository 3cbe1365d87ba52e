//! The bus's own messages, along lawful traces.

pub mod laws;
