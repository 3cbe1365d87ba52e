//! The rows of a walk over what a reader holds, as they are shown.

mod rows;

pub use rows::{count_rows, shown_rows};
