//! An application on a Unix socket.
#![tactic(auto)]

mod asking;
mod doing;
pub mod examples;
mod input;
mod lines;
mod live_app;
mod naming;
mod next_message;
mod over;
mod rounds;
mod run;

pub use run::app;
