//! The script that `make` makes: its edits, drawn by a fixed generator from the tree that they change.
#![tactic(auto)]

mod draws;
mod edits;
mod nodes;

pub use draws::Draws;
pub use edits::next_edit;
pub use nodes::LiveNodes;
