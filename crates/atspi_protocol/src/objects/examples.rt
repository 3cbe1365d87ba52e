//! Worked cases: what the definitions say of a small application, beside the value that is wanted, worked out by hand
//! from the table of members. Each case is a clause of a function without a body. So a definition that says otherwise
//! is refused here.

pub mod accessible;
pub mod actions;
pub mod properties;
pub mod selections;
pub mod tables;
pub mod texts;
pub mod whole;
