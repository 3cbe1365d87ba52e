//! A pool of blocks for queues of bytes: each queue is a chain of blocks, and blocks that a chain gives back serve any
//! other.
#![tactic(auto)]

pub mod examples;
mod laws;
mod links;
mod pool;
mod run;
mod store;

pub use laws::{blocks_are_few, made_is_bound};
pub use pool::Pool;
