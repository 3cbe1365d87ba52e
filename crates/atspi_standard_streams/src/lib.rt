//! Standard input and standard output, as a source and a sink.
#![tactic(auto)]

mod input;
mod output;
mod retry;

pub use input::StandardInput;
pub use output::StandardOutput;
