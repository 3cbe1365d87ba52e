//! `hit`: edits of a tree and rectangles of its nodes, and what is told of points, cells and relations; over any whole
//! tree that edits can be done to.
#![tactic(auto)]

mod command;
mod exported;
mod line;
mod naming;
mod numbers;
mod placed;
mod reading;
mod running;
mod session;
mod shapes;
mod telling;
mod whole;
mod words;

pub use command::hit;
