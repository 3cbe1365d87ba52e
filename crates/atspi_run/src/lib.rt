//! What the words of a command line do: the top call `run`, over any source, any sink and any
//! host.
#![tactic(auto)]

mod commands;
pub mod reader_end;
mod words;
mod world;

pub use atspi_run_live::longest_rest;
pub use commands::run;
