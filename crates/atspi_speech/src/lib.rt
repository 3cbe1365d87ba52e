//! What a reader speaks at a news of an application that it holds, and what is due at a step of the application.
#![tactic(auto)]

mod added;
pub mod examples;
mod focus;
pub mod laws;
mod line;
mod spoken;
mod states;

pub use spoken::{closing_line, lines};
