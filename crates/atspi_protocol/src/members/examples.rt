//! Worked cases: what the table says of calls, worked out by hand from the interface files. Each case is a clause of a
//! function without a body. So a definition that says otherwise is refused here.

pub mod lines;
pub mod properties;
pub mod refusals;
