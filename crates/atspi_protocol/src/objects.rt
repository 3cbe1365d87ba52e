//! What an application answers to the calls of its objects, and what these calls change: definitions, a line for each
//! member, with worked cases.

pub mod examples;
