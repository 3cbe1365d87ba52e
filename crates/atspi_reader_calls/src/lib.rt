//! The calls of a reader as messages that it owns: those of its own accord, and those that its user asks for.
#![tactic(auto)]

mod bodies;
mod deeds;
mod fault;
mod own;
mod targets;

pub use deeds::{deed_call, user_call};
pub use fault::CallFault;
pub use own::{asking, own_call};
