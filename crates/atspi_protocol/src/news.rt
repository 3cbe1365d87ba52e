//! The news in messages: what a reader reads in an application's signals, and in the replies to its own calls.
//! Definitions, with worked cases.

pub mod examples;
mod part;

pub use part::PartName;
