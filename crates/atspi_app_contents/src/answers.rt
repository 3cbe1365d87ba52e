//! What an application answers to calls that read the contents of a node: the members of Text, Selection, Table and
//! Action that change nothing, and their properties.

mod actions;
mod laws;
mod properties;
mod reading;
mod selection;
mod table;
mod text;

pub use laws::{a_whole_tree_keeps_its_contents, kept_contents_have_a_kept_text};
pub use properties::{is_contents_property, property};
pub use reading::{contents, reads_contents};
