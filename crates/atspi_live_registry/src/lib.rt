//! The registry on a Unix socket.
#![tactic(auto)]

mod live_registry;
mod run;

pub use run::registry;
