//! What the interface objects of a node keep, and which of these objects it has.

use atspi_base::{Marks, Text, Texts};

/// The kinds of objects that keep the contents of nodes.
#[derive(Clone, Copy, Debug, PartialEq, Eq)]
pub enum FaceKind {
    /// Texts.
    Chars,
    /// Counts of columns.
    Grid,
    /// Names of actions.
    Deeds,
}

/// The contents of one kind of one node.
#[derive(Drop)]
pub enum FaceData {
    /// A text, the place of its caret, and its text selections; places count characters from 0.
    Chars {
        text: Text,
        caret: u32,
        marks: Marks,
    },
    /// How many columns a table has.
    Grid(u32),
    /// The names of the actions, in order.
    Deeds(Texts),
}

/// Which of the five optional interfaces a node has, beside Accessible.
#[derive(Clone, Copy, Debug, PartialEq, Eq)]
pub struct Kinds {
    pub text: bool,
    pub editable: bool,
    pub selection: bool,
    pub table: bool,
    pub action: bool,
}
