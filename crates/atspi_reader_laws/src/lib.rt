//! What holds of a reader whatever messages it takes, as laws over the definitions of `atspi_protocol::following`: when
//! it rests, which parts it gives up, which applications it forgets, and what ends its start early.
#![tactic(auto)]

pub mod examples;
pub mod laws;
