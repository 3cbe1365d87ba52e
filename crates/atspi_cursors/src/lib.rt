//! Where a reader stands in a text, what reading a unit does to that place, and what changes of the text before it do.
#![tactic(auto)]

mod cursors;
pub mod examples;
mod laws;
mod moves;
mod reading;

pub use cursors::Cursors;
pub use laws::{one_reading, stays_behind_a_deletion, stays_behind_an_insertion, stays_within};
pub use moves::{after_deletion, after_insertion};
pub use reading::{Reading, Way, read};
