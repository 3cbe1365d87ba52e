//! Conversations with an application in words, for tests alone: a line for each thing that is done to it, and behind it
//! the texts of what happens then. A function answers none where words are out of their form, and for want of memory.
#![tactic(auto)]

mod application;
mod conversation;
mod doing;
mod sending;

pub use application::made;
pub use conversation::{play, said};
pub use sending::send;
