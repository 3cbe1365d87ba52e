//! Lawful traces: the world as a fold over its trace, and which entry must stand next. Definitions with laws;
//! `docs/TRACES.md` has the form in one page, and `atspi_trace_examples` the worked traces. `play` is the world of the
//! program, whose readers are those of their own definitions.
#![tactic(auto)]

pub mod laws;
pub mod play;
