//! What the registry does with each message that it takes: the definitions that the registry, the world and the theory
//! of traces cite, with worked cases and a law.

pub mod examples;
pub mod laws;
