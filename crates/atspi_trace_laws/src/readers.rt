//! What readers call of their own accord, along lawful traces.

pub mod laws;
