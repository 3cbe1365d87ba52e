//! An object that keeps the contents of one kind for the nodes of an application: texts, column counts or names of
//! actions. The application stands on this trait alone.

mod boxed;
mod change;
pub mod examples;
mod face;

pub use atspi_tree_model::{FaceData, FaceKind};
pub use change::Change;
pub use face::Face;
