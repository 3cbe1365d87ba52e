//! The messages that tell of the steps of a tree: definitions with worked cases, and the law that what a reader reads
//! in them is what the step tells.

pub mod examples;
pub mod laws;
