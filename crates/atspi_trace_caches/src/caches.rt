//! What a reader that misses nothing has of an application: the law about caches, along lawful traces.

pub mod laws;
