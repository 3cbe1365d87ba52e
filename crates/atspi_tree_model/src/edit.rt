//! Edits: what a user or a script asks of an application, and why it is refused.

use crate::Seed;
use atspi_base::Text;
use thiserror::Error;

/// A wish of a user or a script. Nodes are named by their numbers, indexes and places count from 0.
#[derive(Drop)]
pub enum Edit {
    Insert { parent: u32, index: u32, seed: Seed },
    Remove { node: u32 },
    Move { node: u32, parent: u32, index: u32 },
    Name { node: u32, text: Text },
    Describe { node: u32, text: Text },
    Role { node: u32, role: u32 },
    State { node: u32, state: u8, on: bool },
    /// The focus goes to this node.
    Focus { node: u32 },
    /// A text is put before the character at this place.
    Put { node: u32, at: u32, text: Text },
    /// A text is typed at the caret.
    Keys { node: u32, text: Text },
    /// The characters from the first place up to the second are cut out.
    Cut { node: u32, from: u32, to: u32 },
    Caret { node: u32, at: u32 },
    /// A range is selected, beside those that are.
    Mark { node: u32, from: u32, to: u32 },
    /// No text is selected any more.
    Unmark { node: u32 },
    /// The child at this index is selected.
    Select { node: u32, index: u32 },
    Deselect { node: u32, index: u32 },
    /// The action at this index is done.
    Press { node: u32, index: u32 },
    Relate { node: u32, kind: u32, target: u32 },
    Unrelate { node: u32, kind: u32, target: u32 },
}

/// Why an edit is refused. Of several reasons the one that the table of edits names first is told.
#[derive(Clone, Copy, Debug, PartialEq, Eq, Error)]
pub enum EditFault {
    #[error("no such node")]
    NoNode,
    #[error("the root stays where it is")]
    IsRoot,
    #[error("the node lacks the interface")]
    NoFace,
    #[error("no such index")]
    BadIndex,
    #[error("no such place in the text")]
    BadOffset,
    #[error("a node cannot go below itself")]
    Cycle,
    #[error("the tree has no room")]
    Full,
    #[error("the text is too long")]
    TextFull,
}
