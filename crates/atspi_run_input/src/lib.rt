//! What the commands share that read an input of lines: it is read to its end or to the limit, and split into lines;
//! an edit that is a line by itself; and how its refusals are named.
#![tactic(auto)]

mod edits;
mod input;
mod lines;
mod naming;

pub use edits::edit_of;
pub use input::{End, INPUT_LIMIT, read_all};
pub use lines::next_line;
pub use naming::edit_fault_name;
