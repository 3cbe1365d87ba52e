//! How a text is changed.

use atspi_base::{Marks, Text};

/// A change of a text. Places and lengths count characters, places from 0.
#[derive(Drop)]
pub enum Change {
    /// Puts a text in at a place.
    Insert { at: u32, text: Text },
    /// Takes so many characters out, from a place on.
    Delete { at: u32, len: u32 },
    /// Sets the caret.
    Caret(u32),
    /// Replaces the text selections.
    Marks(Marks),
}
