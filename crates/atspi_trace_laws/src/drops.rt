//! Who is dropped, along lawful traces.

pub mod laws;
