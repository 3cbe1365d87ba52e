//! What readers hold, show and speak, along lawful traces.

pub mod laws;
