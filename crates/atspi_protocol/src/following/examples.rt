//! Worked cases, each by hand from this profile. The type checker computes them.

pub mod calls;
pub mod known;
pub mod parts;
pub mod start;
