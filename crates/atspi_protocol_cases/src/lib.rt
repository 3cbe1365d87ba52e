//! A registry and a reader and what is done to them, in words, for tests alone. A function answers none where words are
//! out of their form, and for want of memory.
#![tactic(auto)]

pub mod reader;
pub mod registry;
