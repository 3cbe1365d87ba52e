//! The rows of one application: a view as a reader holds it, in an arena. Each row has a place in a slab, and an index
//! leads from a path to it.
#![tactic(auto)]

mod arena;
mod cell;
mod change;
mod paths;
mod rows;

pub use arena::{Arena, spot};
pub use change::Change;
pub use rows::{Rows, Seen};
