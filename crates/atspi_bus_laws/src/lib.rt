//! Laws of the bus over the world of a trace: who owns its names, and what it hands on.
#![tactic(auto)]

pub mod handed;
pub mod owners;
