//! The whole tree of an application, shape and contents, in tables of its own: what its steps make of it, and what its
//! nodes have.
#![tactic(auto)]

mod closing;
mod doing;
mod held;
mod opening;
mod reading;
mod texts;
mod whole;

pub use whole::WholeTree;
