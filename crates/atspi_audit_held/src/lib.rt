//! What a reader holds of an application, from the application's own steps and never from a cache: the tree as of the
//! last message that the reader took, and which parts it was told since it loaded it.
#![tactic(auto)]

mod held;
mod known;
mod lacking;
mod marks;
mod rows;
mod steps;

pub use held::HeldTree;
pub use known::Known;
