//! Who owns the names of a bus, and who waits for them.
#![tactic(auto)]

mod book;
mod change;
mod lists;
mod name_list;
mod names;
mod queue;
mod standings;
mod unique;

pub use change::OwnerChange;
pub use name_list::NameList;
pub use names::{Names, NamesFault};
