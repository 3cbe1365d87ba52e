//! Messages that connections send to a bus, for tests alone: put together as bytes, and read where they lie. A function
//! answers none where a message would break a rule, and for want of memory.
#![tactic(auto)]

mod letter;
mod looking;

pub use letter::{Letter, write};
pub use looking::lent;
