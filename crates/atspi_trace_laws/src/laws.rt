//! The nine laws of a lawful trace in the trace's own words, and what is proved of lawful traces.

pub mod laws;
