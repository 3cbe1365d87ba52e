//! What a reader keeps of the applications that it holds: the rows of each, as loads and news made them.
#![tactic(auto)]

mod cache;
mod edits;
mod item;
pub mod laws;
mod load;
pub mod loading;
mod news;
mod spoken;

pub use atspi_cache_arena::{Rows, Seen};
pub use cache::Cache;
pub use news::{fold, marks_reload};
pub use spoken::{closing, lines};
