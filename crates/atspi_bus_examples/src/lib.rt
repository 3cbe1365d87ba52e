//! Worked cases of what the bus keeps: who owns a name and who waits for it, which bytes are a match rule and what is
//! wrong with those that are none, and what holds of the owners at any time. Each value is worked out by hand from the
//! D-Bus Specification, and is a clause of a function without a body. So a definition that says otherwise is refused
//! here, though every law holds of it.
#![tactic(auto)]

pub mod orderly;
pub mod owners;
pub mod rules;
