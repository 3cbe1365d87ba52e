//! The launcher: it tells on a session bus where the accessibility bus is, and whether somebody asks for it.
#![tactic(auto)]

mod ask;
mod asking;
mod examples;
mod launcher;
mod laws;
mod saying;

pub use ask::{Ask, Status};
pub use launcher::Launcher;
