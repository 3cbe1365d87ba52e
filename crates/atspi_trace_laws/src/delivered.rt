//! What ends take of the bus and of each other, along lawful traces.

pub mod laws;
