//! Edits: which steps an edit of an application's tree makes, or the first reason to refuse it.
#![tactic(auto)]

mod actions;
mod children;
mod copies;
mod cuts;
mod fault;
mod focus;
mod inserts;
mod moves;
mod named;
mod parts;
mod refusals;
mod relations;
mod states;
mod steps;
mod texts;

pub use copies::{copy_item, copy_seed, copy_step};
pub use fault::EditRefused;
pub use steps::steps_of;
