//! Worked cases of the headline: runs that keep all laws, for each law a run that it alone refuses, and what is due at
//! places of longer runs. Each case is a clause of a function without a body, with its value worked out by hand.
#![tactic(auto)]

pub mod dues;
pub mod lawful;
pub mod refused;
