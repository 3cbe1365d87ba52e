//! Each step was asked for whole, along lawful traces.

pub mod laws;
