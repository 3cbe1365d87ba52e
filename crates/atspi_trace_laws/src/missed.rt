//! What readers do not miss, along lawful traces.

pub mod laws;
