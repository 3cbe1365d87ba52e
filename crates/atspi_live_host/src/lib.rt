//! The sockets that a live end of the bus has: a trait for them, and a fake in memory.
#![tactic(auto)]

mod call;
pub mod examples;
mod host;
mod memory;
mod peer;
mod tell;

pub use call::{Call, Did};
pub use host::Host;
pub use memory::MemHost;
pub use peer::Peer;
