//! The launcher on a Unix socket.
#![tactic(auto)]

mod live_launcher;
mod run;
mod talking;

pub use run::launcher;
