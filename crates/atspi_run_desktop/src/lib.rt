//! The commands of the desktop session's program, over any sink and host.
#![tactic(auto)]

mod commands;
mod words;

pub use commands::run;
