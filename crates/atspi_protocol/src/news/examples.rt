//! Worked cases, each by hand from the interface files and this profile. The type checker computes them.

pub mod cache;
pub mod events;
pub mod replies;
