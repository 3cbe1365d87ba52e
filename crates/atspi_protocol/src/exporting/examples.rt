//! Worked cases: what the definitions say of a small application, beside the value that is wanted, worked out by hand
//! from the rules. Each case is a clause of a function without a body. So a definition that says otherwise is refused
//! here.

pub mod hearing;
pub mod starting;
pub mod taking;
