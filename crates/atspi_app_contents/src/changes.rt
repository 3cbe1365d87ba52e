//! What a call that changes the contents of a node, or which of its children are selected, does: the steps of the edit
//! that it names, or that it changes nothing.

mod arguments;
mod change;
mod children;
mod edited;
mod marks;
mod texts;

pub use change::{change_of, changes_contents};
