//! What is due to be spoken of an application: the lines of a step, read from the tree that the step made, and the line
//! of an application that ends. No cache is looked at, so it is a second way to these lines beside that of a reader.
#![tactic(auto)]

mod due;
mod line;
mod states;
mod subject;

pub use due::{closing_line, due_line};
