//! Worked cases of which node is at a point of the screen, and which cell of a table is beside another. Each case is a
//! clause of a function without a body, with its value worked out by hand.
#![tactic(auto)]

pub mod cells;
pub mod points;
