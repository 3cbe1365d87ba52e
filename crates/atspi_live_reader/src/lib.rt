//! A reader on a Unix socket, which speaks on an output.
#![tactic(auto)]

pub mod examples;
mod following;
mod handed;
mod live_reader;
mod over;
mod run;
mod showing;
mod speaking;

pub use run::read;
