//! A reader's row of a node, some parts of which it may not have been told yet.

use atspi_base::Text;
use atspi_base::valid_names::Path;

/// A text of a node, as far as a reader knows it.
#[derive(Drop)]
pub enum Part {
    /// The node has none.
    Absent,
    /// The node has one, and the reader was not told it.
    Unknown,
    Known(Text),
}

/// A number of a node, as far as a reader knows it.
#[derive(Clone, Copy, Debug, PartialEq, Eq)]
pub enum NumPart {
    /// The node has none.
    Absent,
    /// The node has one, and the reader was not told it.
    Unknown,
    Known(u32),
}

/// What a reader keeps of a node. Its place in the tree is that of the row among the rows.
#[derive(Drop)]
pub struct Row {
    pub path: Path,
    pub name: Text,
    pub description: Text,
    pub role: u32,
    /// The states, each by its bit.
    pub states: u64,
    /// The interfaces: bit 0 Text, 1 EditableText, 2 Selection, 3 Table, 4 Action.
    pub faces: u8,
    pub text: Part,
    /// The place of the caret, in characters from 0.
    pub caret: NumPart,
    pub columns: NumPart,
}
