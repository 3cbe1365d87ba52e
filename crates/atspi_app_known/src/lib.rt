//! What an application knows: the events it has not given yet, what the registry told it of rules, and how far its
//! start has come; and what a world and a live end ask of an application.
#![tactic(auto)]

pub mod application;
pub mod happenings;
pub mod heard;
pub mod hearing;
pub mod heeding;
pub mod starting;
