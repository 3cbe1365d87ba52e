//! What a bus hands on is a message that its bytes spell, as laws over the definitions of messages, of routing and of
//! the world of a trace.

pub mod examples;
pub mod laws;
