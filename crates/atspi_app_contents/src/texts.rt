//! What is told of the texts of nodes, as values, by the face that keeps them; and a text as the contents that edits
//! read.

mod known;
mod pieces;
mod selections;
mod text;
mod values;

pub use known::known_text;
pub use pieces::piece;
pub use selections::{caret, selection, selection_count};
pub use text::{character, character_count, part};
