//! The tree of an application: what is there of each node but its contents, and what steps do.
#![tactic(auto)]

mod cell;
mod levels;
mod namers;
mod relations;
mod seats;
mod states;
mod table;
mod tree;

pub use seats::{Seat, Seats};
pub use tree::Tree;
