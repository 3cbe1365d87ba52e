//! What is played is lawful: the readers of the program, by their own definitions, ask for what they may, for all that
//! they may, and speak and show what is due.
#![tactic(auto)]

pub mod laws;
pub mod turns;
