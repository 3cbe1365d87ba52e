//! What lawful traces meet: laws on the order of entries, each proved of every lawful trace by induction along it.

pub mod laws;
