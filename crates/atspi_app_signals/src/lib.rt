//! What an application announces of a step of its tree: the signals that some listener asks for.
#![tactic(auto)]

mod changes;
pub mod laws;
mod places;
mod state;
mod step;

pub use step::announced;
