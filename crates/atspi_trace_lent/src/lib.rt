//! What a reader that a world lends holds, in the words of the trace: of each application the fold of what the reader
//! took of it since its last load. Laws over what is played.
#![tactic(auto)]

pub mod examples;
pub mod laws;
