//! Where the nodes of an application stand on the screen, which node is at a point, and which cell of a table is beside
//! another.
#![tactic(auto)]

mod cells;
mod layout;
mod pointing;
mod rect;

pub use cells::{Way, step_cell};
pub use layout::Layout;
pub use pointing::at_point;
pub use rect::Rect;
