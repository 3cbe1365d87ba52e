//! What an application that exports its tree does at its start, with a message and at an edit: definitions with worked
//! cases, and laws.

pub mod examples;
pub mod laws;
