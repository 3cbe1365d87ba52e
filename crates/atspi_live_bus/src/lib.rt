//! The message bus on a Unix socket.
#![tactic(auto)]

pub mod examples;
mod hall;
mod link;
mod run;
mod stop;

pub use run::bus;
