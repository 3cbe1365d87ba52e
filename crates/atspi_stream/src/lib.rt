//! Streams of messages, in pieces of any length.
#![tactic(auto)]

mod feeder;
mod laws;

pub use feeder::{Feeder, Got};
pub use laws::{a_fault_stays, any_cut, has_one_answer};
